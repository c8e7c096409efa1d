ghost use Rattle.std.specs.Prelude.{◌≡◌};
ghost use Rattle.mail_submit.specs.declared.fault.InputFault.TheVariants.{NoMemory as Memory};

use mail_base::NoMemory;
use thiserror::Error;

/// Why input wasn't taken.
#[derive(Clone, Copy, Debug, PartialEq, Eq, Error)]
pub enum InputFault {
    /// It has more bytes than a message may have.
    #[error("input too large")]
    TooLarge,
    #[error("no memory")]
    NoMemory,
}

impl From<NoMemory> for InputFault {
    ghost from_gives = { λ _ e. e ≡ Memory };

    fn from(_error: NoMemory) -> InputFault {
        InputFault::NoMemory
    }
}
