ghost use Rattle.std.specs.Prelude.{◌≡◌, is_some};
ghost use Rattle.mail_base.specs.declared.fault.StoreFault.TheVariants as store;
ghost use Rattle.mail_base.specs.declared.fault.JudgeFault.TheVariants as judge;
ghost use Rattle.queue_run.specs.declared.runner.RunStop.TheVariants.{NoMemory as Memory, SpoolFault as Broke};

use crate::Batch;
use mail_base::{Id, NoMemory, Outcomes};
use queue_table::Reserved;
use spool_store::SpoolFault;

/// A child that delivers a batch, with the memory for its record.
#[derive(Drop)]
pub struct Running {
    pub(crate) child: u64,
    pub(crate) reserved: Reserved,
    pub(crate) outcomes: Outcomes,
}

/// The holder of an entry: the batches of its rows that weren't tried yet in this claim, the next
/// one last, and the child that delivers another.
pub struct Runner {
    pub(crate) id: Id,
    pub(crate) rest: Vec<Batch>,
    pub(crate) running: Option<Running>,
}

// Written out, since a caller's proof goes through the parts of a derived drop at each way out.
impl Drop for Runner {
    fn drop(self) {
        let Runner {
            id: _,
            rest: _,
            running: _,
        } = self;
    }
}

/// What a step came to.
#[derive(Clone, Copy, Debug, PartialEq, Eq)]
pub enum Did {
    /// A program was started for a batch.
    Began,
    /// Its child still runs.
    Waits,
    /// What became of a batch was recorded.
    Recorded,
    /// Failed rows were given back, or a warning was sent.
    Gave,
    /// The entry is let go.
    Free,
}

/// Why a run ends in a step.
#[derive(Clone, Copy, Debug, PartialEq, Eq)]
pub enum RunStop {
    /// A call of the spool failed.
    SpoolFault,
    /// A file that is read for the receiver of returned mail can't be read.
    FilesFault,
    /// An id above 999,999,999,999 would be needed.
    IdsSpent,
    NoMemory,
}

impl Runner {
    /// The id of its entry. It takes no memory.
    pub fn id(&self) -> Id
        ensures { result ≡ self.now.id }
    {
        self.id
    }

    /// Whether a child delivers a batch of it. It takes no memory.
    pub fn is_running(&self) -> bool
        ensures { result ≡ is_some self.now.running }
    {
        self.running.is_some()
    }
}

impl From<NoMemory> for RunStop {
    ghost from_gives = { λ _ e. e ≡ Memory };

    fn from(_error: NoMemory) -> RunStop {
        RunStop::NoMemory
    }
}

impl From<SpoolFault> for RunStop {
    ghost from_gives = { λ _ e. e ≡ Broke };

    fn from(_error: SpoolFault) -> RunStop {
        RunStop::SpoolFault
    }
}
