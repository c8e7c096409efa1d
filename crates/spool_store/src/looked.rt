use crate::named::{Found, Named};
use crate::verdict::Verdict;
use mail_base::{Seq, Stray};

/// What an opening has found: the files of the queue, the files of other names, the control files
/// in order of id, and the verdicts on these.
pub(crate) struct Looked {
    pub(crate) named: Seq<Named>,
    pub(crate) strays: Seq<Stray>,
    pub(crate) found: Seq<Found>,
    pub(crate) verdicts: Seq<Verdict>,
}

// Written out, since a caller's proof goes through the parts of a derived drop at each way out.
impl Drop for Looked {
    fn drop(self) {
        let Looked {
            named: _,
            strays: _,
            found: _,
            verdicts: _,
        } = self;
    }
}

/// What an opening is to take away, in this order, but for the control files that are to be
/// finished.
pub(crate) struct Plan {
    pub(crate) drafts: Seq<Named>,
    pub(crate) dead: Seq<Named>,
    pub(crate) closed: Seq<Named>,
    pub(crate) bodies: Seq<Named>,
}

// Written out, since a caller's proof goes through the parts of a derived drop at each way out.
impl Drop for Plan {
    fn drop(self) {
        let Plan {
            drafts: _,
            dead: _,
            closed: _,
            bodies: _,
        } = self;
    }
}
