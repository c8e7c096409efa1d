ghost use Rattle.std.specs.Prelude.{◌≡◌, IfOk};
ghost use Rattle.spool_disk.specs.Listings.{IsAscending, AreSameNames};
ghost use Rattle.std.specs.Option.{option_copied};
ghost use Rattle.spool_disk.specs.Disk.{bytes_at};
ghost use Rattle.spool_disk.specs.Changes.{without_file, with_file};

use crate::File;
use mail_base::{NoMemory, Seq, Text, TryCopy};
use std::alloc::Global;

/// The bytes of the first file of that directory and name, or `None` where there is none. It takes
/// no memory, and looks at one file after another.
pub fn find<'a>(files: &'a [File], dir: &Text, name: &Text) -> Option<&'a Text>
    ensures { option_copied result ≡ bytes_at files.now (dir.now, name.now) }
{
    for file in files {
        if file.is_at(dir, name) {
            return Some(&file.bytes);
        }
    }
    None
}

/// A copy of the bytes that are lent.
pub(crate) fn copied(alloc: Global, bytes: Option<&Text>) -> Result<Option<Text>, NoMemory>
    ensures { IfOk result (λ copy. copy ≡ option_copied bytes.entry) }
{
    match bytes {
        None => Ok(None),
        Some(bytes) => Ok(Some(Text::of(alloc, bytes.bytes())?)),
    }
}

/// The files that don't lie at that place.
pub(crate) fn without(files: Seq<File>, dir: &Text, name: &Text) -> Seq<File>
    ensures { result ≡ without_file (dir.now, name.now) files }
{
    let mut kept = files.into_vec();
    kept.retain(|file| !file.is_at(dir, name));
    Seq::from_vec(kept)
}

/// The files with one that holds these bytes in the place of those that lie where it does.
pub(crate) fn put(
    files: Seq<File>,
    dir: &Text,
    name: &Text,
    bytes: &Text,
) -> Result<Seq<File>, NoMemory>
    ensures { IfOk result (λ now. now ≡ with_file (dir.now, name.now) bytes.now files) }
{
    let mut kept = without(files, dir, name);
    kept.push(File {
        dir: dir.copy()?,
        name: name.copy()?,
        bytes: bytes.copy()?,
    })?;
    Ok(kept)
}

/// Names as a spool lists them: sorted by their bytes, each once.
pub fn sorted_names(names: Vec<Text>) -> Result<Seq<Text>, NoMemory>
    ensures ascending { IfOk result IsAscending }
    ensures same { IfOk result (AreSameNames names.items) }
{
    let mut names = names;
    names.sort_by(|one, other| one.bytes().cmp(other.bytes()))?;
    names.dedup();
    Ok(Seq::from_vec(names))
}
