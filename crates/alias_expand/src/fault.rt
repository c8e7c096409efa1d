ghost use Rattle.std.specs.Prelude.{◌≡◌};
ghost use Rattle.alias_expand.specs.declared.fault.AliasFault.TheVariants.{NoMemory as AliasMemory};

use mail_base::NoMemory;
use thiserror::Error;

/// Why a file's aliases aren't taken.
#[derive(Clone, Copy, Debug, PartialEq, Eq, Error)]
pub enum AliasFault {
    /// The first line that is refused, by the number of its first physical line, from 1.
    #[error("line {line} refused")]
    Refused { line: u32 },
    #[error("no memory")]
    NoMemory,
}

impl From<NoMemory> for AliasFault {
    ghost from_gives = { λ _ e. e ≡ AliasMemory };

    fn from(_error: NoMemory) -> AliasFault {
        AliasFault::NoMemory
    }
}
