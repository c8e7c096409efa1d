ghost use Rattle.std.specs.Prelude.{◌≡◌};

use crate::Part;
use mail_base::{Id, Seq, Text};

/// New entries ready to be committed: the children, their parent, and the body of each. It holds
/// every text that the commit writes. Dropped, it leaves the store and the spool as they were.
pub struct Parcel {
    pub(crate) children: Seq<Part>,
    pub(crate) parent: Part,
    pub(crate) body: Text,
}

// Written out, since a caller's proof goes through the parts of a derived drop at each way out.
impl Drop for Parcel {
    fn drop(self) {
        let Parcel {
            children: _,
            parent: _,
            body: _,
        } = self;
    }
}

impl Parcel {
    /// The parent's id, under which the commit is known.
    pub fn id(&self) -> Id
        ensures { result ≡ self.now.parent.entry.id }
    {
        self.parent.entry.id
    }

    // Its children and their parent.
    pub(crate) fn into_parts(self) -> (Seq<Part>, Part)
        ensures { result ≡ (self.children, self.parent) }
    {
        let Parcel {
            children,
            parent,
            body: _,
        } = self;
        (children, parent)
    }
}
