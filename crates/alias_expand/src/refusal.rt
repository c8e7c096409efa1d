ghost use Rattle.std.specs.Prelude.{◌≡◌};
ghost use Rattle.alias_expand.specs.declared.refusal.ExpandRefusal.TheVariants.{NoMemory as Memory};

use mail_base::{NoMemory, RouteError, Text};

/// Why an address has no rows.
#[derive(Drop)]
pub enum ExpandRefusal {
    /// Its own route is an error.
    Refuses(RouteError),
    /// A member would stand deeper than MaxAliasRecursion says.
    TooDeep,
    /// A 10,001st row or a 20,001st read of a file would come.
    TooMany,
    /// There is no include file of this name.
    IncludeAbsent(Text),
    /// No row is left.
    NoOne,
    /// A file can't be read.
    FilesFault,
    NoMemory,
}

impl From<NoMemory> for ExpandRefusal {
    ghost from_gives = { λ _ e. e ≡ Memory };

    fn from(_error: NoMemory) -> ExpandRefusal {
        ExpandRefusal::NoMemory
    }
}
