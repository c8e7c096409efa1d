// A change of names in a directory.
use mail_base::{Failed, NoMemory, Text};
use std::alloc::Global;

/// A file gets another name, or loses the one that it has.
#[derive(Clone, Copy)]
pub enum Move<'a> {
    Rename(&'a [u8], &'a [u8]),
    Remove(&'a [u8]),
}

/// A change that waits, in the directory at that place. All names are whole paths.
#[derive(Drop)]
pub struct Change {
    pub dir: usize,
    from: Text,
    to: Option<Text>,
    /// How the path ends whose next file has to come behind this change.
    before: Option<Text>,
}

impl Move<'_> {
    /// Makes the change. What isn't there can be taken away.
    pub fn make(self) -> Result<(), Failed> {
        match self {
            Move::Rename(from, to) if os::rename(from, to) == 0 => Ok(()),
            Move::Remove(path) if os::unlink(path) == 0 || os::errno() == libc::ENOENT => Ok(()),
            _ => Err(Failed),
        }
    }
}

impl Change {
    /// One that was asked for, and how the path ends whose next file has to come behind it.
    pub fn of(
        alloc: Global,
        dir: usize,
        asked: Move<'_>,
        before: Option<Text>,
    ) -> Result<Change, NoMemory> {
        let (from, to) = match asked {
            Move::Rename(from, to) => (from, Some(to)),
            Move::Remove(path) => (path, None),
        };
        let to = match to {
            Some(to) => Some(Text::of(alloc, to)?),
            None => None,
        };
        Ok(Change {
            dir,
            from: Text::of(alloc, from)?,
            to,
            before,
        })
    }

    /// What was asked for.
    pub fn asked(&self) -> Move<'_> {
        match &self.to {
            Some(to) => Move::Rename(self.from.bytes(), to.bytes()),
            None => Move::Remove(self.from.bytes()),
        }
    }

    /// Whether it takes that path from a file or gives it to one.
    pub fn touches(&self, path: &[u8]) -> bool {
        self.from.bytes() == path || self.source_of(path).is_some()
    }

    /// What has until then the path of the file that it gives this path to.
    pub fn source_of(&self, path: &[u8]) -> Option<&[u8]> {
        match &self.to {
            Some(to) if to.bytes() == path => Some(self.from.bytes()),
            _ => None,
        }
    }

    /// Whether it has to come behind another one.
    pub fn is_behind(&self, other: &Change) -> bool {
        match (&self.to, &other.before) {
            (Some(to), Some(end)) => to.bytes().ends_with(end.bytes()),
            _ => false,
        }
    }
}
