ghost use Rattle.std.specs.Prelude.{◌≡◌};
ghost use Rattle.cf_macros.specs.declared.fault.ExpandFault.TheVariants.{NoMemory as Memory};

use mail_base::NoMemory;
use std::alloc::AllocFailed;
use thiserror::Error;

/// Why a text has no expansion.
#[derive(Clone, Copy, Debug, PartialEq, Eq, Error)]
pub enum ExpandFault {
    /// A `{` or a `$?` is unclosed, at this place of the text in which it stands: the text that is
    /// expanded, or a macro's value.
    #[error("unclosed at {0}")]
    Unclosed(u64),
    /// An eleventh level of references would begin.
    #[error("references are too deep")]
    Deep,
    /// The result would pass 1,048,576 bytes, or a 10,001st reference would be followed.
    #[error("too large")]
    Large,
    #[error("no memory")]
    NoMemory,
}

impl From<NoMemory> for ExpandFault {
    ghost from_gives = { λ _ e. e ≡ Memory };

    fn from(_error: NoMemory) -> ExpandFault {
        ExpandFault::NoMemory
    }
}

impl<T: Drop> From<AllocFailed<T>> for ExpandFault {
    ghost from_gives = { λ _ e. e ≡ Memory };

    fn from(_error: AllocFailed<T>) -> ExpandFault {
        ExpandFault::NoMemory
    }
}
