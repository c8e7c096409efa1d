// Queue directories on a disk. They tell nothing but how often they failed.
ghost use Rattle.std.specs.Prelude.{◌≡◌, IfOk, None};
ghost use Rattle.spool_disk.specs.Listings.{IsAscending};

use crate::directory::names_in;
use crate::refusal::noted;
use mail_base::{EdgeFault, Failed, Id, Kind, Seq, Text, TryCopy};
use mail_edge::LARGEST_FILE;
use shared_devices::{
    Descriptor, Motion, Move, Path, Unsynced, counted, counted_edge, dir_path, path_of,
};
use spool_disk::{Spool, sorted_names};
use std::alloc::Global;
use told_devices::Look;

/// Directories of a disk as a spool. Their files' names may have any bytes but NUL and `/`.
///
/// A directory is opened, locked and synced at its first use, and stays locked to the end, so that it
/// has one owner, and what the owner before it renamed is on the disk; one that another opening has
/// locked is a fault, as are a directory that is absent, a file larger than 67,108,864 bytes and a
/// disk without room. A directory that can't be opened or locked has a line on standard error. A file
/// that is written belongs to its owner alone. It is on the disk before the call answers, and so is a
/// change of names, unless the devices of its run are late (`Unsynced`). But what tidies a finished
/// entry, its control file's last name and the removal of its body, waits for the next change of
/// names there, and comes to the disk before anything is changed in another directory.
#[derive(Drop)]
pub struct QueueDirs<'a> {
    alloc: Global,
    /// What stands before the name of each directory.
    prefix: &'a [u8],
    unsynced: &'a Unsynced,
    held: Vec<Held>,
    written: Option<Written>,
    faults: u64,
}

/// The file that was written last.
#[derive(Drop)]
struct Written {
    path: Text,
    /// What its control text has to come before, if it is one of a part.
    before: Option<Text>,
}

/// A directory that is locked.
#[derive(Drop)]
struct Held {
    dir: Text,
    /// Its place among the directories that are open.
    place: usize,
}

impl<'a> QueueDirs<'a> {
    /// One that holds no directory yet. The prefix stands before the name of each.
    pub fn new(alloc: Global, prefix: &'a [u8], motion: &'a Motion) -> QueueDirs<'a> {
        QueueDirs {
            alloc,
            prefix,
            unsynced: motion.unsynced(),
            held: Vec::new(alloc),
            written: None,
            faults: 0,
        }
    }

    /// How many calls failed.
    pub fn faults(&self) -> u64
        ensures { result ≡ self.now.faults }
    {
        self.faults
    }

    // The place of a directory, which is opened, locked and synced at its first use.
    fn hold(&mut self, dir: &Text) -> Result<usize, EdgeFault>
        ensures { self.new.faults ≡ self.old.faults }
    {
        if let Some(held) = self.held.iter().find(|held| held.dir == *dir) {
            return Ok(held.place);
        }
        if self.held.reserve(1).is_err() {
            return Err(EdgeFault::NoMemory);
        }
        let held = locked(self.alloc, self.prefix, self.unsynced, dir)?;
        let place = held.place;
        match self.held.push(held) {
            Ok(()) => Ok(place),
            Err(_) => Err(EdgeFault::NoMemory),
        }
    }

    // The names of the files in a directory.
    fn listed(&mut self, alloc: Global, dir: &Text) -> Result<Seq<Text>, EdgeFault>
        ensures order { IfOk result IsAscending }
        ensures faults { self.new.faults ≡ self.old.faults }
    {
        self.hold(dir)?;
        self.unsynced.settle()?;
        let path = dir_path(self.prefix, dir)?;
        let open = noted(&path, Descriptor::to_dir(&path))?;
        let names = names_in(alloc, &open)?;
        Ok(sorted_names(names)?)
    }

    // The bytes of a file, or `None` where it isn't there.
    fn found(&mut self, alloc: Global, dir: &Text, name: &Text) -> Result<Option<Text>, EdgeFault>
        ensures { self.new.faults ≡ self.old.faults }
    {
        self.hold(dir)?;
        let path = path_of(self.prefix, dir, name)?;
        self.unsynced.settle_at(&path)?;
        read_file(alloc, &path)
    }

    // Makes a file hold these bytes.
    fn write(&mut self, dir: &Text, name: &Text, bytes: &[u8]) -> Result<(), EdgeFault>
        ensures { self.new.faults ≡ self.old.faults }
    {
        let place = self.hold(dir)?;
        let path = path_of(self.prefix, dir, name)?;
        // A write that fails may leave other bytes at the path that was written last.
        self.written = None;
        let written = if is_of(name, Kind::Tf) {
            Some(Written {
                path: Text::of(self.alloc, &path)?,
                before: first_part_in(self.alloc, bytes)?,
            })
        } else {
            None
        };
        self.unsynced.write(place, &path, bytes)?;
        self.written = written;
        Ok(())
    }

    // How the path of the first part's control text ends, where the file at that path is the control
    // text of a part. The one that was written last isn't read again.
    fn first_part(&mut self, path: &Path) -> Result<Option<Text>, EdgeFault>
        ensures { self.new.faults ≡ self.old.faults }
    {
        match self.written.take() {
            Some(written) if *written.path.bytes() == **path => Ok(written.before),
            _ => first_part_at(self.alloc, path),
        }
    }

    // Gives a file another name. Where it is the control text of a part, the first part's comes
    // behind it.
    fn move_file(&mut self, dir: &Text, from: &Text, to: &Text) -> Result<(), EdgeFault>
        ensures { self.new.faults ≡ self.old.faults }
    {
        let place = self.hold(dir)?;
        let from_path = path_of(self.prefix, dir, from)?;
        let to_path = path_of(self.prefix, dir, to)?;
        let before = if is_of(to, Kind::Qf) {
            self.first_part(&from_path)?
        } else {
            None
        };
        let asked = Move::Rename(&from_path, &to_path);
        self.unsynced
            .change(place, asked, before, is_of(to, Kind::Sf))?;
        Ok(())
    }

    // Takes a file away, if it is there.
    fn unlink(&mut self, dir: &Text, name: &Text) -> Result<(), EdgeFault>
        ensures { self.new.faults ≡ self.old.faults }
    {
        let place = self.hold(dir)?;
        let path = path_of(self.prefix, dir, name)?;
        self.unsynced
            .change(place, Move::Remove(&path), None, is_of(name, Kind::Df))?;
        Ok(())
    }
}

impl Spool for QueueDirs<'_> {
    ghost seen = { λ s. record {
      told = None;
      moment = 0;
      left_since = λ _ _. ⊥;
      faults = s.faults;
    } };

    fn list(&mut self, alloc: Global, dir: &Text) -> Result<Seq<Text>, EdgeFault> {
        let names = self.listed(alloc, dir);
        counted_edge(&mut self.faults, names)
    }

    fn read(&mut self, alloc: Global, dir: &Text, name: &Text) -> Result<Option<Text>, EdgeFault> {
        let bytes = self.found(alloc, dir, name);
        counted_edge(&mut self.faults, bytes)
    }

    fn write_new(&mut self, dir: &Text, name: &Text, bytes: &Text) -> Result<(), Failed> {
        let went = self.write(dir, name, bytes.bytes());
        counted(&mut self.faults, went)
    }

    fn rename(&mut self, dir: &Text, from: &Text, to: &Text) -> Result<(), Failed> {
        let went = self.move_file(dir, from, to);
        counted(&mut self.faults, went)
    }

    fn remove(&mut self, dir: &Text, name: &Text) -> Result<(), Failed> {
        let went = self.unlink(dir, name);
        counted(&mut self.faults, went)
    }

    ghost only_now = { λ s c h. absurd h };

    ghost at_rest = { λ s. tt };

    ghost earlier = { λ s t u c le h. absurd h };
}

impl Look for QueueDirs<'_> {
    fn look(&self, alloc: Global, dir: &Text, name: &Text) -> Result<Option<Text>, EdgeFault> {
        let path = path_of(self.prefix, dir, name)?;
        match self.unsynced.source_of(alloc, &path) {
            Some(path) => read_at(alloc, path.bytes()),
            None => Err(EdgeFault::NoMemory),
        }
    }
}

// Opens and locks a directory, and waits until its names have reached the disk: the owner before it
// may have been killed behind a renaming. Its name is copied first, so that what is locked is kept.
fn locked(
    alloc: Global,
    prefix: &[u8],
    unsynced: &Unsynced,
    dir: &Text,
) -> Result<Held, EdgeFault> {
    let path = dir_path(prefix, dir)?;
    let open = noted(&path, Descriptor::to_dir(&path))?;
    noted(&path, open.lock())?;
    open.sync()?;
    let dir = dir.copy()?;
    let place = unsynced.add_dir(Text::of(alloc, &path)?, open)?;
    Ok(Held { dir, place })
}

// How the path of the first part's control text ends, where the file at a path is the control text
// of a part.
fn first_part_at(alloc: Global, path: &Path) -> Result<Option<Text>, EdgeFault> {
    let mut head = [0u8; 128];
    let count = match Descriptor::to_read(path)? {
        Some(file) => file.read(&mut head)?,
        None => 0,
    };
    first_part_in(alloc, head.get(..count).unwrap_or(b""))
}

// The same of a text that begins so: its third line names the first part and its revision, as
// `pw000000000001 3`.
fn first_part_in(alloc: Global, head: &[u8]) -> Result<Option<Text>, EdgeFault> {
    let Some(id) = parent_in(head) else {
        return Ok(None);
    };
    let mut end = Text::of(alloc, b"/qf")?;
    end.extend(id)?;
    Ok(Some(end))
}

// What the third line names behind its `p`, up to a blank.
fn parent_in(head: &[u8]) -> Option<&[u8]> {
    let line = head.split(|byte| *byte == b'\n').nth(2)?;
    line.strip_prefix(b"p".as_slice())?
        .split(|byte| *byte == b' ')
        .next()
}

// Whether a name is that of a file of this kind.
fn is_of(name: &Text, kind: Kind) -> bool {
    match Id::of(name) {
        Some((found, _)) => found == kind,
        None => false,
    }
}

/// The bytes of a file, or `None` where it isn't there.
pub fn read_file(alloc: Global, path: &Path) -> Result<Option<Text>, EdgeFault> {
    read_at(alloc, path)
}

fn read_at(alloc: Global, path: &[u8]) -> Result<Option<Text>, EdgeFault> {
    match Descriptor::to_read(path)? {
        Some(file) => Ok(Some(read_whole(alloc, &file)?)),
        None => Ok(None),
    }
}

fn read_whole(alloc: Global, file: &Descriptor) -> Result<Text, EdgeFault> {
    let mut bytes = Text::new(alloc);
    add_whole(file, &mut bytes)?;
    Ok(bytes)
}

fn add_whole(file: &Descriptor, bytes: &mut Text) -> Result<(), EdgeFault> {
    let mut piece = [0u8; 8192];
    for _ in 0..u64::MAX {
        let count = file.read(&mut piece)?;
        if count == 0 {
            return Ok(());
        }
        if bytes.len().saturating_add(count) > LARGEST_FILE {
            return Err(EdgeFault::Failed);
        }
        bytes.extend(piece.get(..count).ok_or(Failed)?)?;
    }
    Err(EdgeFault::Failed)
}
