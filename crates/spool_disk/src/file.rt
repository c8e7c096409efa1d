ghost use Rattle.std.specs.Prelude.{◌≡◌};
ghost use Rattle.spool_disk.specs.Disk.{lies_at};

use mail_base::{NoMemory, Text, TryCopy};

/// A file of a spool: its directory, its name in there, and its bytes.
#[derive(Drop)]
pub struct File {
    pub dir: Text,
    pub name: Text,
    pub bytes: Text,
}

impl File {
    /// Whether it is the file of that name in that directory.
    pub fn is_at(&self, dir: &Text, name: &Text) -> bool
        ensures { result ≡ lies_at (dir.now, name.now) self.now }
    {
        dir.bytes() == self.dir.bytes() && name.bytes() == self.name.bytes()
    }
}

impl TryCopy for File {
    fn copy(&self) -> Result<File, NoMemory> {
        Ok(File {
            dir: self.dir.copy()?,
            name: self.name.copy()?,
            bytes: self.bytes.copy()?,
        })
    }
}
