ghost use Rattle.std.specs.Prelude.{◌≡◌, IfOk};

use mail_base::{NoMemory, Text, TryCopy};

/// What the rows of a part have in common.
#[derive(PartialEq, Eq, Hash, Drop)]
pub struct Heading {
    /// Their sender, with its brackets.
    pub sender: Text,
    /// The name of their queue group.
    pub group: Text,
}

impl TryCopy for Heading {
    fn copy(&self) -> Result<Heading, NoMemory> {
        Ok(Heading {
            sender: self.sender.copy()?,
            group: self.group.copy()?,
        })
    }
}
