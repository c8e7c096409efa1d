ghost use Rattle.std.specs.Prelude.{◌≡◌};

use mail_base::{Resolved, Seq, Text};

/// A row that is tried in a claim, by its place in the entry, and where it goes.
#[derive(Drop)]
pub struct Routed {
    pub place: u32,
    pub resolved: Resolved,
}

/// Rows that are tried together.
pub struct Batch {
    /// Where its first row goes.
    pub resolved: Resolved,
    /// The places of its rows in the entry, ascending.
    pub places: Seq<u32>,
    /// The user of each row; that of a row which goes nowhere is empty.
    pub users: Seq<Text>,
}

// Written out, since a caller's proof goes through the parts of a derived drop at each way out.
impl Drop for Batch {
    fn drop(self) {
        let Batch {
            resolved: _,
            places: _,
            users: _,
        } = self;
    }
}

impl Batch {
    // The user of each row, where the rest is needed no more.
    pub(crate) fn into_users(self) -> Seq<Text>
        ensures { result ≡ self.users }
    {
        let Batch {
            resolved: _,
            places: _,
            users,
        } = self;
        users
    }
}
