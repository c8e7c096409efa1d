// The paths of files in a directory, of any bytes, which take no memory.
use arrayvec::ArrayVec;
use mail_base::{Failed, Text};

/// The most bytes of a path.
const LONGEST: usize = 4095;

/// The path of a file.
pub type Path = ArrayVec<u8, LONGEST>;

/// The path of a directory behind a prefix; too long a one fails.
pub fn dir_path(prefix: &[u8], dir: &Text) -> Result<Path, Failed> {
    let mut path = ArrayVec::new();
    add(&mut path, prefix)?;
    add(&mut path, dir.bytes())?;
    Ok(path)
}

/// The path of a file in a directory. It fails where it is too long or the name is none of a file
/// in it.
pub fn path_of(prefix: &[u8], dir: &Text, name: &Text) -> Result<Path, Failed> {
    let name = name.bytes();
    if !is_name(name) {
        return Err(Failed);
    }
    let mut path = dir_path(prefix, dir)?;
    add(&mut path, b"/")?;
    add(&mut path, name)?;
    Ok(path)
}

fn add(path: &mut Path, bytes: &[u8]) -> Result<(), Failed> {
    path.try_extend_from_slice(bytes).map_err(|_| Failed)
}

// Whether the bytes can name a file in a directory.
fn is_name(name: &[u8]) -> bool {
    !is_dots(name) && !name.is_empty() && !name.contains(&b'/') && !name.contains(&0)
}

/// Whether the name is that of the directory itself or of the one above it.
pub fn is_dots(name: &[u8]) -> bool {
    name == b".".as_slice() || name == b"..".as_slice()
}
