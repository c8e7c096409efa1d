// Files of a disk. They tell nothing but how often they failed.
ghost use Rattle.std.specs.Prelude.{◌≤◌, None, IfOk, vec_len};

use crate::stream::read_some;
use mail_base::{EdgeFault, Text};
use mail_edge::{Files, LARGEST_FILE};
use shared_devices::{complain, meaning};
use std::alloc::Global;
use std::fs::File;
use std::io::ErrorKind;
use std::{fs, io, rt};

/// The files of a disk, by names that are text. One of more than 67,108,864 bytes is a fault, and so
/// is one that may not be read. There is none where a name leads to none, or can't be one: it isn't
/// UTF-8, or too long, leads through a file, or in a ring. What isn't a file, as a directory or a
/// pipe, is none either; but the first that is read, the configuration, may be a pipe or a device.
#[derive(Drop)]
pub struct DiskFiles<'a, R> {
    rt: &'a R,
    /// Whether one was asked for.
    is_begun: bool,
    faults: u64,
}

impl<'a, R> DiskFiles<'a, R> {
    /// One that read nothing yet.
    pub fn new(rt: &'a R) -> DiskFiles<'a, R> {
        DiskFiles {
            rt,
            is_begun: false,
            faults: 0,
        }
    }
}

impl<R: rt::Files + Alloc> Files for DiskFiles<'_, R> {
    ghost seen = { λ s. record { map = None; faults = s.faults } };

    fn read(&mut self, alloc: Global, name: &Text) -> Result<Option<Text>, EdgeFault> {
        let is_first = !self.is_begun;
        self.is_begun = true;
        match read_file(self.rt, alloc, name, is_first) {
            Ok(bytes) => Ok(Some(Text::from_vec(bytes))),
            Err(error) => match error.kind() {
                ErrorKind::OutOfMemory => Err(EdgeFault::NoMemory),
                kind if is_absent(kind) => Ok(None),
                _ => {
                    tell_failed(name.bytes(), &error);
                    self.faults = self.faults.saturating_add(1);
                    Err(EdgeFault::Failed)
                }
            },
        }
    }
}

// A line on standard error that says which file failed, and why.
fn tell_failed(name: &[u8], error: &io::Error) {
    match error.raw_os_error() {
        Some(number) => complain(name, meaning(number, &mut [0u8; 128])),
        None => complain(name, b"too large"),
    }
}

// Whether such an error says that there is no file of that name.
fn is_absent(kind: ErrorKind) -> bool {
    matches!(
        kind,
        ErrorKind::NotFound
            | ErrorKind::NotADirectory
            | ErrorKind::IsADirectory
            | ErrorKind::FilesystemLoop
            | ErrorKind::InvalidFilename
            | ErrorKind::InvalidInput
    )
}

// The bytes of a file, or of what else has that name where it is the first; `FileTooLarge` where
// there are more than a file may have.
fn read_file<R: rt::Files + Alloc>(
    rt: &R,
    alloc: Global,
    name: &Text,
    is_first: bool,
) -> io::Result<Vec<u8>>
    ensures { IfOk result (λ bytes. vec_len bytes ≤ LARGEST_FILE) }
{
    let Ok(path) = str::from_utf8(name.bytes()) else {
        return Err(io::Error::from(ErrorKind::InvalidFilename));
    };
    // It is looked at before it is opened, since opening a pipe waits for its writer.
    if !is_first && !fs::metadata(rt, path)?.is_file() {
        return Err(io::Error::from(ErrorKind::NotFound));
    }
    let mut file = File::open(rt, path)?;
    let mut bytes = Vec::new(alloc);
    let mut piece = [0u8; 8192];
    'reading: for _ in 0..u64::MAX {
        let count = read_some(&mut file, &mut piece)?;
        if count == 0 {
            return Ok(bytes);
        }
        if count > LARGEST_FILE - bytes.len() {
            return Err(io::Error::from(ErrorKind::FileTooLarge));
        }
        bytes.extend_from_slice(&piece[..count])?;
    }
    Err(io::Error::from(ErrorKind::FileTooLarge))
}
