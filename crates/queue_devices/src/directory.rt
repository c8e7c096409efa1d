// The names of the files in a directory, of any bytes.
use mail_base::{EdgeFault, Failed, Id, Text};
use shared_devices::{Descriptor, is_dots};
use std::alloc::Global;

/// The bytes that one reading of a directory may take; the longest name has 255.
const PIECE: usize = 4096;

/// The names of the files in a directory, in no order.
pub fn names_in(alloc: Global, dir: &Descriptor) -> Result<Vec<Text>, EdgeFault> {
    let mut names = Vec::new(alloc);
    add_all(alloc, dir, &mut names)?;
    Ok(names)
}

// Adds the names of all files.
fn add_all(alloc: Global, dir: &Descriptor, names: &mut Vec<Text>) -> Result<(), EdgeFault> {
    dir.rewind()?;
    let mut piece = [0u8; PIECE];
    for _ in 0..u64::MAX {
        let count = dir.names(&mut piece)?;
        if count == 0 {
            return Ok(());
        }
        add_names(alloc, dir, piece.get(..count).ok_or(Failed)?, names)?;
    }
    Err(EdgeFault::Failed)
}

// Adds the names of files among those of a piece, each of which a NUL ends.
fn add_names(
    alloc: Global,
    dir: &Descriptor,
    piece: &[u8],
    names: &mut Vec<Text>,
) -> Result<(), EdgeFault> {
    for name in piece.split(|byte| *byte == 0) {
        if !name.is_empty() && !is_dots(name) {
            add_name(alloc, dir, name, names)?;
        }
    }
    Ok(())
}

// Adds a name, if it is that of a file. What has the name of a file of the queue isn't looked at:
// a queue has many of these, and makes no directories.
fn add_name(
    alloc: Global,
    dir: &Descriptor,
    name: &[u8],
    names: &mut Vec<Text>,
) -> Result<(), EdgeFault> {
    let name = Text::of(alloc, name)?;
    if Id::of(&name).is_none() && !dir.has_file(name.bytes())? {
        return Ok(());
    }
    match names.push(name) {
        Ok(()) => Ok(()),
        Err(_) => Err(EdgeFault::NoMemory),
    }
}
