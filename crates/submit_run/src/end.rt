ghost use Rattle.std.specs.Prelude.{◌≡◌};
ghost use Rattle.submit_run.specs.declared.end.SubmitEnd.TheVariants.{NoMemory as Memory};

use mail_base::{NoMemory, RouteError};

/// How a run ends that hands a message over.
#[derive(Drop)]
pub enum SubmitEnd {
    /// The message is in the queue.
    Done,
    /// The message is refused by this code: 552 where it or its header block is too large, 554
    /// where it passed too many hosts.
    MessageRefused(u16),
    /// Nobody gets it.
    NoRecipient,
    /// The recipient of this place, counted from 0, is the first that is refused, by this error.
    BadRecipient(u64, RouteError),
    /// The input can't be read.
    ReadFault,
    /// The spool failed. The message may be in the queue.
    SpoolFault,
    /// A file that a recipient's aliases name can't be read.
    FilesFault,
    /// An id above 999,999,999,999 would be needed.
    IdsSpent,
    NoMemory,
}

impl From<NoMemory> for SubmitEnd {
    ghost from_gives = { λ _ e. e ≡ Memory };

    fn from(_error: NoMemory) -> SubmitEnd {
        SubmitEnd::NoMemory
    }
}
