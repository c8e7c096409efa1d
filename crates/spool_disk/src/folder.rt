ghost use Rattle.std.specs.Prelude.{◌≡◌, ◌++◌, [], None, Some, IfOk, OnOk, OnErr};
ghost use Rattle.std.specs.Map.{keys_of};
ghost use Rattle.std.specs.Option.{option_copied};
ghost use Rattle.mail_base.specs.Catalogs.{value_at, SetsValue};
ghost use Rattle.spool_disk.specs.inner.Folders.{filed};

use crate::File;
use indexmap::IndexMap;
use mail_base::{NoMemory, Seq, Text, TryCopy};
use std::alloc::Global;
use std::marker::Model;

/// The files of one directory, by their names. A contract sees it as the list of its names with
/// their bytes, in any order.
pub(crate) struct Folder {
    files: IndexMap<Text, Text>,
}

// Written out, since a caller's proof goes through the parts of a derived drop at each way out.
impl Drop for Folder {
    fn drop(self) {
        let Folder { files: _ } = self;
    }
}

impl Model for Folder {
    ghost use Rattle.std.specs.Prelude.{List, ℕ};

    ghost Value = { List (List ℕ × List ℕ) };

    ghost view = { λ f. f.files.entries };
}

impl Folder {
    /// A directory without files. It takes no memory.
    pub(crate) fn new(alloc: Global) -> Folder
        ensures { result ≡ [] }
    {
        Folder {
            files: IndexMap::new(alloc),
        }
    }

    /// The bytes of the file of that name. It takes no memory.
    pub(crate) fn get(&self, name: &Text) -> Option<&Text>
        ensures { option_copied result ≡ value_at name.now self.now }
    {
        self.files.get(name)
    }

    /// Gives a name these bytes. After `NoMemory` the directory is as before.
    pub(crate) fn set(&mut self, name: Text, bytes: Text) -> Result<(), NoMemory>
        ensures ok { OnOk result (SetsValue name (Some bytes) self.old self.new) }
        ensures err { OnErr result (self.new ≡ self.old) }
    {
        self.files.insert(name, bytes)?;
        Ok(())
    }

    /// Takes a name out. It takes no memory.
    pub(crate) fn remove(&mut self, name: &Text)
        ensures { SetsValue name.now None self.old self.new }
    {
        self.files.swap_remove(name);
    }

    /// Its names, in any order.
    pub(crate) fn names(&self, alloc: Global) -> Result<Vec<Text>, NoMemory>
        ensures { IfOk result (λ names. names.items ≡ keys_of self.now) }
    {
        let mut names = Vec::new(alloc);
        for (name, _) in self.files.iter() {
            names.push(Text::of(alloc, name.bytes())?)?;
        }
        Ok(names)
    }
    /// Adds its files, which lie in that directory.
    pub(crate) fn leave(&self, dir: &Text, files: &mut Seq<File>) -> Result<(), NoMemory>
        ensures { OnOk result (files.new ≡ files.old ++ filed dir.now self.now) }
    {
        for (name, bytes) in self.files.iter() {
            files.push(File {
                dir: dir.copy()?,
                name: name.copy()?,
                bytes: bytes.copy()?,
            })?;
        }
        Ok(())
    }
}
