// What was changed in the queue and may not have reached the disk, shared by the devices of a run.
use crate::books::Books;
use crate::change::Move;
use crate::descriptor::Descriptor;
use crate::joint::Joint;
use mail_base::{EdgeFault, Failed, Text};
use std::alloc::Global;
use std::cell::RefCell;

/// What was changed in the directories of a queue and may not have reached the disk.
///
/// A prompt one lets nothing wait but what tidies a finished entry, which comes to the disk behind
/// the next change there. A late one lets all wait until it is settled, or 128 files wait: until
/// then no name has changed, so that what a stop leaves is as if it had come before. Then all files
/// are synced, by one sync of their file system where that takes less time; then their names change,
/// in order; then the directories are synced. So whoever tells somebody something that rests on such a
/// change settles first. Where that fails, or a sync of a directory does, nothing is clear any more,
/// and all later changes and settlings fail.
#[derive(Drop)]
pub struct Unsynced {
    books: RefCell<Books>,
}

impl Unsynced {
    /// One that lets nothing wait.
    pub fn prompt(alloc: Global) -> Unsynced {
        Unsynced {
            books: RefCell::new(Books::new(alloc, false, Joint::none())),
        }
    }

    /// One that lets all wait.
    pub fn late(alloc: Global, joint: Joint) -> Unsynced {
        Unsynced {
            books: RefCell::new(Books::new(alloc, true, joint)),
        }
    }

    /// How many changes were asked for.
    pub fn changes(&self) -> u64 {
        match self.books.try_borrow() {
            Ok(books) => books.changes(),
            Err(_) => 0,
        }
    }

    /// Whether nothing waits but what tidied, and nothing came to nothing.
    pub fn is_clear(&self) -> bool {
        match self.books.try_borrow() {
            Ok(books) => books.is_clear(),
            Err(_) => false,
        }
    }

    /// Adds a directory that is open, and gives its place.
    pub fn add_dir(&self, path: Text, open: Descriptor) -> Result<usize, EdgeFault> {
        match self.books.try_borrow_mut() {
            Ok(mut books) => books.add_dir(path, open),
            Err(_) => Err(EdgeFault::Failed),
        }
    }

    /// Makes a file that holds these bytes, in the directory at that place.
    pub fn write(&self, dir: usize, path: &[u8], bytes: &[u8]) -> Result<(), Failed> {
        match self.books.try_borrow_mut() {
            Ok(mut books) => books.write(dir, path, bytes),
            Err(_) => Err(Failed),
        }
    }

    /// Changes a name in the directory at that place. It tidies, or it decides: then it comes
    /// before a file gets the path that ends so.
    pub fn change(
        &self,
        dir: usize,
        asked: Move<'_>,
        before: Option<Text>,
        tidies: bool,
    ) -> Result<(), Failed> {
        match self.books.try_borrow_mut() {
            Ok(mut books) => books.change(dir, asked, before, tidies),
            Err(_) => Err(Failed),
        }
    }

    /// Brings to the disk what waits.
    pub fn settle(&self) -> Result<(), Failed> {
        match self.books.try_borrow_mut() {
            Ok(mut books) => books.settle(),
            Err(_) => Err(Failed),
        }
    }

    /// Brings to the disk what waits, where a change of that path is among it.
    pub fn settle_at(&self, path: &[u8]) -> Result<(), Failed> {
        match self.books.try_borrow_mut() {
            Ok(mut books) if books.touches(path) => books.settle(),
            Ok(_) => Ok(()),
            Err(_) => Err(Failed),
        }
    }

    /// The path at which the file lies that has this one once what waits is done; `None` where that
    /// can't be said.
    pub fn source_of(&self, alloc: Global, path: &[u8]) -> Option<Text> {
        match self.books.try_borrow() {
            Ok(books) => Text::of(alloc, books.source_of(path)).ok(),
            Err(_) => None,
        }
    }
}
