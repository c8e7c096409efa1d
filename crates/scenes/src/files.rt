// Files of a disk, by their names from the folder that the program runs in.
ghost use Rattle.std.specs.Prelude.{◌≤◌, None, IfOk, vec_len};

use mail_base::{EdgeFault, Text};
use mail_edge::{Files, LARGEST_FILE};
use std::alloc::Global;
use std::io::ErrorKind;
use std::{fs, io, rt};

/// The files of a disk.
#[derive(Drop)]
pub(crate) struct DiskFiles<'a, R> {
    rt: &'a R,
    faults: u64,
}

impl<'a, R> DiskFiles<'a, R> {
    pub(crate) fn new(rt: &'a R) -> DiskFiles<'a, R> {
        DiskFiles { rt, faults: 0 }
    }
}

impl<R: rt::Files + Alloc<A = Global>> Files for DiskFiles<'_, R> {
    ghost seen = { λ s. record { map = None; faults = s.faults } };

    fn read(&mut self, _alloc: Global, name: &Text) -> Result<Option<Text>, EdgeFault> {
        match read_file(self.rt, name) {
            Ok(bytes) => Ok(Some(Text::from_vec(bytes))),
            Err(error) => match error.kind() {
                ErrorKind::NotFound => Ok(None),
                ErrorKind::OutOfMemory => Err(EdgeFault::NoMemory),
                _ => {
                    self.faults = self.faults.saturating_add(1);
                    Err(EdgeFault::Failed)
                }
            },
        }
    }
}

// The bytes of a file that has no more than a file may have.
fn read_file<R: rt::Files + Alloc<A = Global>>(rt: &R, name: &Text) -> io::Result<Vec<u8>>
    ensures { IfOk result (λ bytes. vec_len bytes ≤ LARGEST_FILE) }
{
    let Ok(path) = str::from_utf8(name.bytes()) else {
        return Err(io::Error::from(ErrorKind::InvalidFilename));
    };
    let bytes = fs::read(rt, path)?;
    if bytes.len() > LARGEST_FILE {
        return Err(io::Error::from(ErrorKind::FileTooLarge));
    }
    Ok(bytes)
}
