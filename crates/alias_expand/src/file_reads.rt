ghost use Rattle.std.specs.Prelude.{◌≡◌, [], IfOk, OnOk, OnErr, length};
ghost use Rattle.alias_expand.specs.Triples.{is_read, with_read};
ghost use Rattle.alias_expand.specs.inner.Holding.{read_of};

use crate::triples::{Key, key_of};
use indexmap::IndexSet;
use mail_base::{NoMemory, Text, Triple, TryCopy};
use std::alloc::Global;
use std::marker::Model;

// A file and the alias or user for whom it was read, as a set holds them.
#[derive(Drop, PartialEq, Eq, Hash)]
struct FileKey {
    namer: Key,
    name: Text,
}

/// Files that were read, each once for an alias or a user. A contract sees the list of them in the
/// order in which they were read.
pub(crate) struct FileReads {
    keys: IndexSet<FileKey>,
}

impl Drop for FileReads {
    fn drop(self) {
        let FileReads { keys: _ } = self;
    }
}

impl Model for FileReads {
    ghost use Rattle.std.specs.Prelude.{List, ℕ, map};
    ghost use Rattle.mail_base.specs.declared.route.Triple.{Triple};
    ghost use Rattle.alias_expand.specs.inner.Holding.{read_of};

    ghost Value = { List (Triple × List ℕ) };

    ghost view = { λ f. map read_of f.keys.keys };
}

impl FileReads {
    /// No files. It takes no memory.
    pub(crate) fn new(alloc: Global) -> FileReads
        ensures { result ≡ [] }
    {
        FileReads {
            keys: IndexSet::new(alloc),
        }
    }

    /// How many were read.
    pub(crate) fn len(&self) -> usize
        ensures { result ≡ length self.now }
    {
        self.keys.len()
    }

    /// Whether a file was read for an alias or a user.
    pub(crate) fn has(&self, namer: &Triple, name: &Text) -> Result<bool, NoMemory>
        ensures { IfOk result (λ is. is ≡ is_read namer.now name.now self.now) }
    {
        Ok(self.keys.contains(&file_key(namer, name)?))
    }

    /// Adds a file, unless it was read before. After `NoMemory` they are as before.
    pub(crate) fn add(&mut self, namer: &Triple, name: &Text) -> Result<(), NoMemory>
        ensures ok { OnOk result (self.new ≡ with_read namer.now name.now self.old) }
        ensures err { OnErr result (self.new ≡ self.old) }
    {
        self.keys.insert_full(file_key(namer, name)?)?;
        Ok(())
    }
}

fn file_key(namer: &Triple, name: &Text) -> Result<FileKey, NoMemory>
    ensures { IfOk result (λ key. read_of key ≡ (namer.now, name.now)) }
{
    Ok(FileKey {
        namer: key_of(namer)?,
        name: name.copy()?,
    })
}
