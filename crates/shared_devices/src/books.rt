// What was changed in directories and may not have reached the disk.
use crate::change::{Change, Move};
use crate::descriptor::Descriptor;
use crate::joint::Joint;
use mail_base::{EdgeFault, Failed, Text};
use std::alloc::Global;

/// How many microseconds a sync of a file system is believed to take before there was one.
const WHOLE: u64 = 1500;

/// Behind how many times the time of a sync is taken again, and of how many files then.
const OFTEN: u32 = 16;

const FEW: usize = 2;

/// The most files, and the most changes that tidy, that wait.
const MOST: usize = 128;

/// A directory of the queue.
#[derive(Drop)]
struct Dir {
    path: Text,
    open: Descriptor,
    /// Whether a name in it may not have reached the disk.
    waits: bool,
}

/// The directories, and what waits there: files to be synced, then the renamings that decide, then
/// what tidies.
#[derive(Drop)]
pub struct Books {
    alloc: Global,
    is_late: bool,
    joint: Joint,
    dirs: Vec<Dir>,
    files: Vec<Descriptor>,
    renames: Vec<Change>,
    tidies: Vec<Change>,
    changes: u64,
    /// How many microseconds a sync of a file took, and one of a file system.
    single: u64,
    whole: u64,
    /// How many times are left until the time of a file is taken again.
    turns: u32,
    /// Whether something that was told as done came to nothing, or may have: a sync failed.
    is_broken: bool,
}

impl Dir {
    // Waits until the names in it have reached the disk.
    fn settle(&mut self) -> Result<(), Failed> {
        if self.waits {
            self.open.sync()?;
            self.waits = false;
        }
        Ok(())
    }
}

impl Books {
    /// Those of no directory yet.
    pub fn new(alloc: Global, is_late: bool, joint: Joint) -> Books {
        Books {
            alloc,
            is_late,
            joint,
            dirs: Vec::new(alloc),
            files: Vec::new(alloc),
            renames: Vec::new(alloc),
            tidies: Vec::new(alloc),
            changes: 0,
            single: 0,
            whole: WHOLE,
            turns: 0,
            is_broken: false,
        }
    }

    /// How many changes were asked for.
    pub fn changes(&self) -> u64 {
        self.changes
    }

    /// Whether nothing waits but what tidied, and nothing came to nothing.
    pub fn is_clear(&self) -> bool {
        !self.is_broken
            && self.files.is_empty()
            && self.renames.is_empty()
            && self.tidies.is_empty()
    }

    /// Adds a directory that is open, and gives its place.
    pub fn add_dir(&mut self, path: Text, open: Descriptor) -> Result<usize, EdgeFault> {
        let place = self.dirs.len();
        let dir = Dir {
            path,
            open,
            waits: false,
        };
        match self.dirs.push(dir) {
            Ok(()) => Ok(place),
            Err(_) => Err(EdgeFault::NoMemory),
        }
    }

    /// The path at which the file lies that has this one once what waits is done.
    pub fn source_of<'a>(&'a self, path: &'a [u8]) -> &'a [u8] {
        match self
            .renames
            .iter()
            .find_map(|change| change.source_of(path))
        {
            Some(source) => source,
            None => path,
        }
    }

    /// Whether a change that waits takes that path from a file or gives it to one.
    pub fn touches(&self, path: &[u8]) -> bool {
        self.renames.iter().any(|change| change.touches(path))
            || self.tidies.iter().any(|change| change.touches(path))
    }

    /// Makes a file that holds these bytes.
    pub fn write(&mut self, dir: usize, path: &[u8], bytes: &[u8]) -> Result<(), Failed> {
        self.begin(dir, path)?;
        let file = Descriptor::to_write(path)?;
        file.write_all(bytes)?;
        if !self.is_late || self.files.reserve(1).is_err() {
            file.sync()?;
            return file.close();
        }
        let went = self.files.push(file).map_err(|_| Failed);
        if self.files.len() >= MOST {
            return self.settle();
        }
        went
    }

    /// Changes a name. What tidies waits for the next change there; else it is on the disk behind
    /// this call, or, where all is late, behind what waits and the path that ends so.
    pub fn change(
        &mut self,
        dir: usize,
        asked: Move<'_>,
        before: Option<Text>,
        tidies: bool,
    ) -> Result<(), Failed> {
        self.changes = self.changes.saturating_add(1);
        let waits = self.is_late && !(tidies && self.is_clear());
        if waits && self.keep(dir, asked, before, tidies) {
            return Ok(());
        }
        self.settle()?;
        self.settle_beside(dir)?;
        make(&mut self.dirs, dir, asked)?;
        if tidies {
            return Ok(());
        }
        let went = settle_dirs(&mut self.dirs);
        self.noted(went)
    }

    /// Brings to the disk what waits, and in that order: files, the renamings that decide, and
    /// their directories; then it tidies.
    pub fn settle(&mut self) -> Result<(), Failed> {
        if self.is_broken {
            return Err(Failed);
        }
        if self.is_clear() {
            return Ok(());
        }
        let went = self.bring();
        self.noted(went)
    }

    // Begins a change of that path: what waits there comes before it, and so does what was changed
    // in other directories.
    fn begin(&mut self, dir: usize, path: &[u8]) -> Result<(), Failed> {
        self.changes = self.changes.saturating_add(1);
        if self.is_broken {
            return Err(Failed);
        }
        if self.touches(path) {
            self.settle()?;
        }
        self.settle_beside(dir)
    }

    // Waits until what was changed in other directories has reached the disk.
    fn settle_beside(&mut self, dir: usize) -> Result<(), Failed> {
        let went = settle_others(&mut self.dirs, dir);
        self.noted(went)
    }

    // Notes that something failed behind which nobody knows what the disk has. The system may tell
    // such an error only once.
    fn noted(&mut self, went: Result<(), Failed>) -> Result<(), Failed> {
        if went.is_err() {
            self.is_broken = true;
        }
        went
    }

    // Keeps a change until the books are settled, and says whether that could be.
    fn keep(&mut self, dir: usize, asked: Move<'_>, before: Option<Text>, tidies: bool) -> bool {
        if self.is_broken || self.tidies.len() >= MOST || (!tidies && self.undoes(asked)) {
            return false;
        }
        let Ok(change) = Change::of(self.alloc, dir, asked, before) else {
            return false;
        };
        if tidies {
            self.tidies.push(change).is_ok()
        } else {
            self.renames.push(change).is_ok()
        }
    }

    // Whether a change is about a path of those that tidy, which come behind all others.
    fn undoes(&self, asked: Move<'_>) -> bool {
        match asked {
            Move::Rename(from, to) => self
                .tidies
                .iter()
                .any(|change| change.touches(from) || change.touches(to)),
            Move::Remove(_) => true,
        }
    }

    fn bring(&mut self) -> Result<(), Failed> {
        self.sync_files()?;
        self.make_renames()?;
        settle_dirs(&mut self.dirs)?;
        for change in &self.tidies {
            make(&mut self.dirs, change.dir, change.asked())?;
        }
        self.tidies.clear();
        Ok(())
    }

    // Syncs the files that were written, by one sync of their file system where that is faster, and
    // closes them.
    fn sync_files(&mut self) -> Result<(), Failed> {
        let synced = self.take_time()?;
        if !self.is_worth(synced) || !self.sync_joint() {
            for file in self.files.get(synced..).unwrap_or(&[]) {
                file.sync()?;
            }
            // It is tried again once it may have become faster.
            self.whole = self.whole.saturating_sub(self.whole / 64);
        }
        for _ in 0..self.files.len() {
            if let Some(file) = self.files.pop() {
                file.close()?;
            }
        }
        Ok(())
    }

    // Takes the time of syncs of files, now and then, and says how many were synced.
    fn take_time(&mut self) -> Result<usize, Failed> {
        if self.turns > 0 || self.files.is_empty() || !self.joint.is_there() {
            self.turns = self.turns.saturating_sub(1);
            return Ok(0);
        }
        self.turns = OFTEN;
        let some = self.files.get(..FEW).unwrap_or(&self.files);
        let begun = micros();
        for file in some {
            file.sync()?;
        }
        let count = some.len();
        let took = micros().saturating_sub(begun);
        self.single = took / u64::try_from(count.max(1)).unwrap_or(1);
        Ok(count)
    }

    // Whether a sync of the file system is faster than one of each file behind so many.
    fn is_worth(&self, synced: usize) -> bool {
        let count = self.files.len().saturating_sub(synced);
        self.single.saturating_mul(count as u64) > self.whole
    }

    // Syncs the file systems of all directories, and says whether that went well.
    fn sync_joint(&mut self) -> bool {
        let begun = micros();
        for dir in &self.dirs {
            if !self.joint.sync(dir.path.bytes()) {
                return false;
            }
        }
        self.whole = micros().saturating_sub(begun);
        true
    }

    // Makes the renamings that decide, in their order. What one of them stands on reaches the disk
    // first, and so does what was renamed in another directory.
    fn make_renames(&mut self) -> Result<(), Failed> {
        let mut synced: usize = 0;
        for (at, change) in self.renames.iter().enumerate() {
            let earlier = self.renames.get(synced..at).unwrap_or(&[]);
            if earlier.iter().any(|other| change.is_behind(other)) {
                settle_dirs(&mut self.dirs)?;
                synced = at;
            }
            make(&mut self.dirs, change.dir, change.asked())?;
        }
        self.renames.clear();
        Ok(())
    }
}

// Makes a change of names in the directory at a place, behind what was changed in the others.
fn make(dirs: &mut Vec<Dir>, place: usize, asked: Move<'_>) -> Result<(), Failed> {
    settle_others(dirs, place)?;
    let dir = dirs.get_mut(place).ok_or(Failed)?;
    asked.make()?;
    dir.waits = true;
    Ok(())
}

// Waits until the names in all directories but the one at a place have reached the disk.
fn settle_others(dirs: &mut Vec<Dir>, place: usize) -> Result<(), Failed> {
    for (at, dir) in dirs.iter_mut().enumerate() {
        if at != place {
            dir.settle()?;
        }
    }
    Ok(())
}

// Waits until the names in all directories have reached the disk.
fn settle_dirs(dirs: &mut Vec<Dir>) -> Result<(), Failed> {
    for dir in dirs.iter_mut() {
        dir.settle()?;
    }
    Ok(())
}

// A moment in microseconds.
fn micros() -> u64 {
    let mut now = libc::types::timespec {
        tv_sec: 0,
        tv_nsec: 0,
    };
    if libc::clock_gettime(libc::CLOCK_MONOTONIC, &mut now) != 0 {
        return 0;
    }
    let seconds = u64::try_from(now.tv_sec).unwrap_or(0);
    let nanos = u64::try_from(now.tv_nsec).unwrap_or(0);
    seconds
        .saturating_mul(1_000_000)
        .saturating_add(nanos / 1000)
}
