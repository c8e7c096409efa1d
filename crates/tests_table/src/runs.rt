//! Commands over a spool that stops, and the files of it once it is opened.

use crate::commands::{Command, did, dirs};
use mail_base::{NoMemory, Seq, StoreFault};
use spool_disk::{File, MemSpool, StopSpool, find};
use spool_store::Queue;
use std::alloc::Global;

/// A spool without files that passes so many changing calls.
pub(crate) fn spool_of(alloc: Global, passes: u64) -> StopSpool {
    StopSpool::new(MemSpool::new(alloc, Seq::new(alloc)), passes)
}

/// How many of these commands are done, one after the other, before one isn't.
pub(crate) fn run(alloc: Global, spool: &mut StopSpool, commands: &[Command]) -> usize {
    for (place, command) in commands.iter().enumerate() {
        if did(alloc, spool, *command).is_err() {
            return place;
        }
    }
    commands.len()
}

/// The files of an image once it is opened, if none of them is left alone.
pub(crate) fn opened_files(
    alloc: Global,
    image: &mut MemSpool,
) -> Result<Option<Seq<File>>, StoreFault> {
    let dirs = dirs(alloc)?;
    if Queue::open(alloc, image, &dirs)?.strange().is_empty() {
        return Ok(Some(image.files()?));
    }
    Ok(None)
}

fn first_image(alloc: Global, spool: &StopSpool) -> Result<MemSpool, NoMemory> {
    match spool.images()?.into_vec().pop() {
        Some(image) => Ok(image),
        None => Ok(MemSpool::new(alloc, Seq::new(alloc))),
    }
}

/// The files after these commands, if each was done.
pub(crate) fn files_after(
    alloc: Global,
    commands: &[Command],
) -> Result<Option<Seq<File>>, StoreFault> {
    let mut spool = spool_of(alloc, 1_000);
    if run(alloc, &mut spool, commands) < commands.len() {
        return Ok(None);
    }
    let mut image = first_image(alloc, &spool)?;
    opened_files(alloc, &mut image)
}

fn has(files: &Seq<File>, file: &File) -> bool {
    match find(files.items(), &file.dir, &file.name) {
        Some(bytes) => bytes.bytes() == file.bytes.bytes(),
        None => false,
    }
}

/// Whether these are the same files.
pub(crate) fn are_same(one: &Seq<File>, other: &Seq<File>) -> bool {
    if one.len() != other.len() {
        return false;
    }
    for file in one.items() {
        if !has(other, file) {
            return false;
        }
    }
    true
}
