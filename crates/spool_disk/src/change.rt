ghost use Rattle.std.specs.Prelude.{◌≡◌, IfOk};
ghost use Rattle.spool_disk.specs.Changes.{after};
ghost use Rattle.spool_disk.specs.declared.change.Change.TheVariants.{Write as Written, Rename as Renamed, Remove as Removed};

use crate::File;
use crate::listing::{copied, find, put, without};
use mail_base::{NoMemory, Seq, Text, TryCopy};

/// A call that changes the files of a spool.
#[derive(Drop)]
pub enum Change {
    /// In that directory, a file of that name, which is to hold these bytes.
    Write(Text, Text, Text),
    /// In that directory, a file of the first name, which is to have the other.
    Rename(Text, Text, Text),
    /// In that directory, a file of that name, which is to go.
    Remove(Text, Text),
}

impl Change {
    /// The writing of a file.
    pub fn writing(dir: &Text, name: &Text, bytes: &Text) -> Result<Change, NoMemory>
        ensures { IfOk result (λ change. change ≡ Written dir.now name.now bytes.now) }
    {
        Ok(Change::Write(dir.copy()?, name.copy()?, bytes.copy()?))
    }

    /// The renaming of a file.
    pub fn renaming(dir: &Text, from: &Text, to: &Text) -> Result<Change, NoMemory>
        ensures { IfOk result (λ change. change ≡ Renamed dir.now from.now to.now) }
    {
        Ok(Change::Rename(dir.copy()?, from.copy()?, to.copy()?))
    }

    /// The removal of a file.
    pub fn removal(dir: &Text, name: &Text) -> Result<Change, NoMemory>
        ensures { IfOk result (λ change. change ≡ Removed dir.now name.now) }
    {
        Ok(Change::Remove(dir.copy()?, name.copy()?))
    }

    /// These files after the change.
    pub fn applied(&self, files: Seq<File>) -> Result<Seq<File>, NoMemory>
        ensures { IfOk result (λ now. now ≡ after self.now files) }
    {
        match self {
            Change::Write(dir, name, bytes) => put(files, dir, name, bytes),
            Change::Rename(dir, from, to) => renamed(files, dir, from, to),
            Change::Remove(dir, name) => Ok(without(files, dir, name)),
        }
    }
}

// The files after a renaming, which are as before where the file isn't there.
fn renamed(files: Seq<File>, dir: &Text, from: &Text, to: &Text) -> Result<Seq<File>, NoMemory>
    ensures { IfOk result (λ now. now ≡ after (Renamed dir.now from.now to.now) files) }
{
    match copied(dir.allocator(), find(files.items(), dir, from))? {
        None => Ok(files),
        Some(bytes) => put(without(files, dir, from), dir, to, &bytes),
    }
}
