ghost use Rattle.std.specs.Prelude.{◌≡◌, ◌++◌, ◌∷◌, [], None, Some, IfOk, OnOk, OnErr};
ghost use Rattle.std.specs.Option.{option_copied};
ghost use Rattle.mail_base.specs.Catalogs.{value_at};
ghost use Rattle.spool_disk.specs.Changes.{after};
ghost use Rattle.spool_disk.specs.Disk.{FileMap};
ghost use Rattle.spool_disk.specs.Listings.{IsListing};
ghost use Rattle.spool_disk.specs.declared.change.Change.TheVariants.{Rename as Renamed};
ghost use Rattle.spool_disk.specs.inner.Folders.{Holds, Sets, held_at, names_in};

use crate::folder::Folder;
use crate::listing::sorted_names;
use crate::{Change, File};
use mail_base::{Catalog, NoMemory, Seq, Text, TryCopy};
use std::alloc::Global;
use std::marker::Model;

/// The files of a spool that stand now, by their directories and there by their names.
pub(crate) struct Folders {
    folders: Catalog<Folder>,
}

// Written out, since a caller's proof goes through the parts of a derived drop at each way out.
impl Drop for Folders {
    fn drop(self) {
        let Folders { folders: _ } = self;
    }
}

impl Model for Folders {
    ghost use Rattle.spool_disk.specs.inner.Folders.{FolderMap, AreApart};

    ghost Value = { FolderMap };

    ghost view = { λ f. f.folders };

    ghost invariant = { λ f. AreApart f.folders };
}

impl Folders {
    /// No files. It takes no memory.
    pub(crate) fn new(alloc: Global) -> Folders
        ensures { result ≡ [] }
    {
        Folders {
            folders: Catalog::new(alloc),
        }
    }

    /// The bytes of the file at that place. It takes no memory.
    pub(crate) fn get(&self, dir: &Text, name: &Text) -> Option<&Text>
        ensures { option_copied result ≡ held_at self.now (dir.now, name.now) }
    {
        self.folders.get(dir)?.get(name)
    }

    /// Makes the file at that place hold these bytes. After `NoMemory` all is as before.
    pub(crate) fn put(&mut self, dir: &Text, name: &Text, bytes: &Text) -> Result<(), NoMemory>
        ensures ok { OnOk result (Sets (dir.now, name.now) (Some bytes.now) self.old self.new) }
        ensures err { OnErr result (self.new ≡ self.old) }
    {
        let name = name.copy()?;
        let bytes = bytes.copy()?;
        match self.folders.get_mut(dir) {
            Some(folder) => folder.set(name, bytes),
            None => self.begin(dir, name, bytes),
        }
    }

    // Puts a file into a directory that has none.
    fn begin(&mut self, dir: &Text, name: Text, bytes: Text) -> Result<(), NoMemory>
        requires { value_at dir.now self.old ≡ None }
        ensures ok { OnOk result (Sets (dir.now, name) (Some bytes) self.old self.new) }
        ensures err { OnErr result (self.new ≡ self.old) }
    {
        let mut folder = Folder::new(self.folders.allocator());
        folder.set(name, bytes)?;
        self.folders.set(dir.copy()?, folder)
    }

    /// Takes the file at that place away, if it is there. It takes no memory.
    pub(crate) fn take(&mut self, dir: &Text, name: &Text)
        ensures { Sets (dir.now, name.now) None self.old self.new }
    {
        if let Some(folder) = self.folders.get_mut(dir) {
            folder.remove(name);
        }
    }
    /// These files, of which the first at a place counts.
    pub(crate) fn of(alloc: Global, files: &[File]) -> Result<Folders, NoMemory>
        ensures { IfOk result (λ folders. Holds folders files.now) }
    {
        let mut folders = Folders::new(alloc);
        for file in files {
            folders.add(file)?;
        }
        Ok(folders)
    }

    // Puts a file behind those that are there.
    fn add(&mut self, file: &File) -> Result<(), NoMemory>
        ensures { OnOk result
            ((files : FileMap) → Holds self.old files → Holds self.new (files ++ file.now ∷ [])) }
    {
        if self.get(&file.dir, &file.name).is_some() {
            return Ok(());
        }
        self.put(&file.dir, &file.name, &file.bytes)
    }

    /// Changes the files. After `NoMemory` all is as before.
    pub(crate) fn apply(&mut self, change: &Change) -> Result<(), NoMemory>
        ensures ok { OnOk result
            ((files : FileMap) → Holds self.old files → Holds self.new (after change.now files)) }
        ensures err { OnErr result (self.new ≡ self.old) }
    {
        match change {
            Change::Write(dir, name, bytes) => self.put(dir, name, bytes),
            Change::Rename(dir, from, to) => self.rename(dir, from, to),
            Change::Remove(dir, name) => {
                self.take(dir, name);
                Ok(())
            }
        }
    }

    // Gives a file that is there another name. After `NoMemory` all is as before.
    fn rename(&mut self, dir: &Text, from: &Text, to: &Text) -> Result<(), NoMemory>
        ensures ok { OnOk result
            ((files : FileMap) → Holds self.old files
            → Holds self.new (after (Renamed dir.now from.now to.now) files)) }
        ensures err { OnErr result (self.new ≡ self.old) }
    {
        let Some(bytes) = self.get(dir, from) else {
            return Ok(());
        };
        let bytes = bytes.copy()?;
        self.put(dir, to, &bytes)?;
        if from.bytes() == to.bytes() {
            return Ok(());
        }
        self.take(dir, from);
        Ok(())
    }

    // The names of the files in that directory, in any order.
    fn collected(&self, alloc: Global, dir: &Text) -> Result<Vec<Text>, NoMemory>
        ensures { IfOk result (λ names. names.items ≡ names_in dir.now self.now) }
    {
        match self.folders.get(dir) {
            Some(folder) => folder.names(alloc),
            None => Ok(Vec::new(alloc)),
        }
    }

    /// The names of the files in that directory, sorted by their bytes.
    pub(crate) fn names(&self, alloc: Global, dir: &Text) -> Result<Seq<Text>, NoMemory>
        ensures { IfOk result
            (λ names. (files : FileMap) → Holds self.now files
            → IsListing (Some files) dir.now names) }
    {
        Ok(sorted_names(self.collected(alloc, dir)?)?)
    }

    /// A copy of the files, directory by directory.
    pub(crate) fn files(&self) -> Result<Seq<File>, NoMemory>
        ensures { IfOk result (Holds self.now) }
    {
        let mut files = Seq::new(self.folders.allocator());
        for index in 0..self.folders.len() {
            let (dir, folder) = self.folders.at(index).unwrap();
            folder.leave(dir, &mut files)?;
        }
        Ok(files)
    }
}
