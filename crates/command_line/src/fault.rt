ghost use Rattle.std.specs.Prelude.{◌≡◌};
ghost use Rattle.command_line.specs.declared.fault.WordFault.TheVariants.{NoMemory as Memory};

use mail_base::NoMemory;
use thiserror::Error;

/// Why a command line is refused.
#[derive(Clone, Copy, Debug, PartialEq, Eq, Error)]
pub enum WordFault {
    /// The place of the word, counted from 0; the number of words where one is missing.
    #[error("bad word {0}")]
    At(u32),
    #[error("no memory")]
    NoMemory,
}

impl From<NoMemory> for WordFault {
    ghost from_gives = { λ _ e. e ≡ Memory };

    fn from(_error: NoMemory) -> WordFault {
        WordFault::NoMemory
    }
}
