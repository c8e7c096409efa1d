ghost use Rattle.std.specs.Prelude.{◌≡◌};
ghost use Rattle.mail_base.specs.Limits.{IsId};

use mail_base::{Control, Id};
use qf_format::Paper;

/// A copy of an entry's control, which is to take its place with other states, numbers and flags,
/// and memory for its text.
pub struct Room {
    pub control: Control,
    pub(crate) id: Id,
    pub(crate) paper: Paper,
    pub ghost within: { IsId id },
}

// Written out, since a caller's proof goes through the parts of a derived drop at each way out.
impl Drop for Room {
    fn drop(self) {
        let Room {
            control: _,
            id: _,
            paper: _,
        } = self;
    }
}

impl Room {
    /// The entry's id.
    pub fn id(&self) -> Id
        ensures { result ≡ self.now.id }
    {
        self.id
    }

    // The room's parts.
    pub(crate) fn into_parts(self) -> (Control, Id, Paper)
        ensures parts { result ≡ (self.control, self.id, self.paper) }
        ensures within { IsId self.id }
    {
        let Room { control, id, paper } = self;
        (control, id, paper)
    }
}
