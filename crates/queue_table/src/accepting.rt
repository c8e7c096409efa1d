ghost use Rattle.std.specs.Prelude.{◌≡◌};

use mail_base::Id;
use spool_store::Parcel;

/// A message that is ready to be taken in, with every text that is written for it. Dropped, it
/// leaves the table and the spool as they were.
#[derive(Drop)]
pub struct Accepting {
    pub(crate) parcel: Parcel,
}

impl Accepting {
    /// The id of its first part. It takes no memory.
    pub fn id(&self) -> Id
        ensures { result ≡ self.now.parcel.parent.entry.id }
    {
        self.parcel.id()
    }
}
