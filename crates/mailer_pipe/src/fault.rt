ghost use Rattle.std.specs.Prelude.{◌≡◌};
ghost use Rattle.mailer_pipe.specs.declared.fault.PipeFault.TheVariants.{DeviceFault as Device, NoMemory as Memory};

use mail_base::{Failed, NoMemory};
use thiserror::Error;

/// Why a program mailer wasn't started.
#[derive(Clone, Copy, Debug, PartialEq, Eq, Error)]
pub enum PipeFault {
    /// The spawner failed: its count of faults rose in that call.
    #[error("the program could not be started")]
    DeviceFault,
    /// There was no memory, and the spawner wasn't asked.
    #[error("no memory")]
    NoMemory,
}

impl From<NoMemory> for PipeFault {
    ghost from_gives = { λ _ e. e ≡ Memory };

    fn from(_error: NoMemory) -> PipeFault {
        PipeFault::NoMemory
    }
}

impl From<Failed> for PipeFault {
    ghost from_gives = { λ _ e. e ≡ Device };

    fn from(_error: Failed) -> PipeFault {
        PipeFault::DeviceFault
    }
}
