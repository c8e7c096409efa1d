ghost use Rattle.std.specs.Prelude.{◌≡◌};
ghost use Rattle.ruleset_run.specs.declared.fault.RunFault.TheVariants.{NoMemory as Memory};

use mail_base::{NoMemory, Text};
use thiserror::Error;

/// Why a run of a ruleset has no result.
#[derive(Debug, Drop, Error)]
pub enum RunFault {
    /// One rule would be applied a 101st successive time.
    #[error("Loop")]
    Loop,
    /// A 10,001st application would come.
    #[error("Work")]
    Work,
    /// A 51st nested call would begin.
    #[error("Deep")]
    Deep,
    /// A filled list has more than 2,000 tokens.
    #[error("Long")]
    Long,
    /// No ruleset has this name.
    #[error("NoRuleset")]
    NoRuleset(Text),
    /// The map of this name, or one that its sequence comes to, has a class that isn't supported.
    #[error("MapClass")]
    MapClass(Text),
    /// No map has this name.
    #[error("NoSuchMap")]
    NoSuchMap(Text),
    /// The answer of a map, or what a `$&x` stands for, can't be cut into tokens.
    #[error("BadScan")]
    BadScan,
    #[error("NoMemory")]
    NoMemory,
}

impl From<NoMemory> for RunFault {
    ghost from_gives = { λ _ e. e ≡ Memory };

    fn from(_error: NoMemory) -> RunFault {
        RunFault::NoMemory
    }
}
