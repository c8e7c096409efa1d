// Queue directories on a disk that are looked at. They tell nothing but how often they failed.
ghost use Rattle.std.specs.Prelude.{◌≡◌, IfOk, None};
ghost use Rattle.spool_disk.specs.Listings.{IsAscending};

use crate::directory::names_in;
use crate::queue_dirs::read_file;
use crate::refusal::noted;
use mail_base::{EdgeFault, Failed, Id, Kind, NoMemory, Seq, Text};
use shared_devices::{Descriptor, counted, counted_edge, dir_path, path_of};
use spool_disk::{MemSpool, Spool, sorted_names};
use std::alloc::Global;

/// Directories of a disk as a spool that changes nothing there and takes no lock, so that it serves
/// beside the owner of the queue. What its own calls write, rename and take away it keeps in
/// memory, and its later calls see that; all else is as the disk has it by then.
///
/// What a queue's owner does meanwhile is seen or not, but no control file is seen without the body
/// that it was written with, unless that entry is finished by then. A file to be renamed that is
/// gone by then stays gone. A directory that is absent or may not be read is a fault, and so is a
/// file larger than 67,108,864 bytes.
#[derive(Drop)]
pub struct QueueView<'a> {
    alloc: Global,
    /// What stands before the name of each directory.
    prefix: &'a [u8],
    /// The files that were written.
    written: MemSpool,
    /// The files that were taken away, each without bytes.
    gone: MemSpool,
    faults: u64,
}

impl<'a> QueueView<'a> {
    /// One that changed nothing yet. The prefix stands before the name of each directory.
    pub fn new(alloc: Global, prefix: &'a [u8]) -> QueueView<'a> {
        QueueView {
            alloc,
            prefix,
            written: MemSpool::new(alloc, Seq::new(alloc)),
            gone: MemSpool::new(alloc, Seq::new(alloc)),
            faults: 0,
        }
    }

    // The names of the files in a directory.
    fn listed(&mut self, alloc: Global, dir: &Text) -> Result<Seq<Text>, EdgeFault>
        ensures order { IfOk result IsAscending }
        ensures faults { self.new.faults ≡ self.old.faults }
    {
        let on_disk = names_seen(alloc, self.prefix, dir)?;
        let mut names = self.written.list(alloc, dir)?.into_vec();
        add_left(alloc, &mut self.gone, dir, on_disk, &mut names)?;
        Ok(sorted_names(names)?)
    }

    // The bytes of a file, or `None` where it isn't there.
    fn found(&mut self, alloc: Global, dir: &Text, name: &Text) -> Result<Option<Text>, EdgeFault>
        ensures { self.new.faults ≡ self.old.faults }
    {
        if let Some(bytes) = self.written.read(alloc, dir, name)? {
            return Ok(Some(bytes));
        }
        if self.gone.read(alloc, dir, name)?.is_some() {
            return Ok(None);
        }
        read_file(alloc, &path_of(self.prefix, dir, name)?)
    }

    // Gives a file another name, if it is there.
    fn move_file(&mut self, dir: &Text, from: &Text, to: &Text) -> Result<(), EdgeFault>
        ensures { self.new.faults ≡ self.old.faults }
    {
        if let Some(bytes) = self.found(self.alloc, dir, from)? {
            self.written.write_new(dir, to, &bytes)?;
        }
        self.take_away(dir, from)?;
        Ok(())
    }

    // Takes a file away, if it is there.
    fn take_away(&mut self, dir: &Text, name: &Text) -> Result<(), Failed>
        ensures { self.new.faults ≡ self.old.faults }
    {
        self.written.remove(dir, name)?;
        self.gone.write_new(dir, name, &Text::new(self.alloc))
    }
}

impl Spool for QueueView<'_> {
    ghost seen = { λ s. record {
      told = None;
      moment = 0;
      left_since = λ _ _. ⊥;
      faults = s.faults;
    } };

    fn list(&mut self, alloc: Global, dir: &Text) -> Result<Seq<Text>, EdgeFault> {
        let names = self.listed(alloc, dir);
        counted_edge(&mut self.faults, names)
    }

    fn read(&mut self, alloc: Global, dir: &Text, name: &Text) -> Result<Option<Text>, EdgeFault> {
        let bytes = self.found(alloc, dir, name);
        counted_edge(&mut self.faults, bytes)
    }

    fn write_new(&mut self, dir: &Text, name: &Text, bytes: &Text) -> Result<(), Failed> {
        let went = self.written.write_new(dir, name, bytes);
        counted(&mut self.faults, went)
    }

    fn rename(&mut self, dir: &Text, from: &Text, to: &Text) -> Result<(), Failed> {
        let went = self.move_file(dir, from, to);
        counted(&mut self.faults, went)
    }

    fn remove(&mut self, dir: &Text, name: &Text) -> Result<(), Failed> {
        let went = self.take_away(dir, name);
        counted(&mut self.faults, went)
    }

    ghost only_now = { λ s c h. absurd h };

    ghost at_rest = { λ s. tt };

    ghost earlier = { λ s t u c le h. absurd h };
}

// The names of the files in a directory that its owner may change meanwhile. It is gone through
// twice: control files come of the first time, and all others of the second. The body of a control
// file was there before it, so it is seen, unless the entry is finished by then.
fn names_seen(alloc: Global, prefix: &[u8], dir: &Text) -> Result<Vec<Text>, EdgeFault> {
    let path = dir_path(prefix, dir)?;
    let open = noted(&path, Descriptor::to_dir(&path))?;
    let mut names = Vec::new(alloc);
    add_names(names_in(alloc, &open)?, true, &mut names)?;
    add_names(names_in(alloc, &open)?, false, &mut names)?;
    Ok(names)
}

// Adds those of the names that are of control files, or those that aren't.
fn add_names(some: Vec<Text>, of_controls: bool, names: &mut Vec<Text>) -> Result<(), NoMemory> {
    for name in some {
        if is_control(&name) == of_controls {
            add(names, name)?;
        }
    }
    Ok(())
}

// Adds those of the names of a directory that weren't taken away.
fn add_left(
    alloc: Global,
    gone: &mut MemSpool,
    dir: &Text,
    some: Vec<Text>,
    names: &mut Vec<Text>,
) -> Result<(), EdgeFault> {
    for name in some {
        if gone.read(alloc, dir, &name)?.is_none() {
            add(names, name)?;
        }
    }
    Ok(())
}

fn is_control(name: &Text) -> bool {
    matches!(Id::of(name), Some((Kind::Qf | Kind::Sf, _)))
}

fn add(names: &mut Vec<Text>, name: Text) -> Result<(), NoMemory> {
    match names.push(name) {
        Ok(()) => Ok(()),
        Err(_) => Err(NoMemory),
    }
}
