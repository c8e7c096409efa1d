ghost use Rattle.std.specs.Prelude.{◌≡◌, false};
ghost use Rattle.mail_base.specs.Names.{name_of};
ghost use Rattle.mail_base.specs.declared.id.Kind.TheVariants.{Df as BodyKind, Qf as ControlKind, Tf as DraftKind};
ghost use Rattle.qf_format.specs.Spelling.{spelled};

use crate::Held;
use mail_base::{Control, Entry, Text};

/// An entry of a change, with every text that a commit writes for it.
pub struct Part {
    pub(crate) entry: Entry,
    pub(crate) control: Text,
    pub(crate) df: Text,
    pub(crate) tf: Text,
    pub(crate) qf: Text,
    pub ghost printed: { control ≡ spelled entry.control },
    pub ghost df_is: { df ≡ name_of BodyKind entry.id },
    pub ghost tf_is: { tf ≡ name_of DraftKind entry.id },
    pub ghost qf_is: { qf ≡ name_of ControlKind entry.id },
}

// Written out, since a caller's proof goes through the parts of a derived drop at each way out.
impl Drop for Part {
    fn drop(self) {
        let Part {
            entry: _,
            control: _,
            df: _,
            tf: _,
            qf: _,
        } = self;
    }
}

impl Part {
    // Its entry.
    fn into_entry(self) -> Entry
        ensures { result ≡ self.entry }
    {
        let Part {
            entry,
            control: _,
            df: _,
            tf: _,
            qf: _,
        } = self;
        entry
    }

    // What the store holds of it once it is committed.
    pub(crate) fn into_held(self) -> Held
        ensures { result ≡ record { entry = self.entry; finished = false } }
    {
        Held {
            entry: self.into_entry(),
            finished: false,
        }
    }

    // Its control, which takes the place of an old entry's once it is committed.
    pub(crate) fn into_control(self) -> Control
        ensures { result ≡ self.entry.control }
    {
        let Entry {
            id: _,
            dir: _,
            control,
        } = self.into_entry();
        control
    }
}
