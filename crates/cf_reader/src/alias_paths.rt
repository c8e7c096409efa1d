ghost use Rattle.std.specs.Prelude.{◌≡◌, ◌++◌, IfOk, OnOk, OnErr, map};
ghost use Rattle.cf_reader.specs.OptionLines as spec;
ghost use Rattle.cf_reader.specs.inner.Additions.{HasFront};

use crate::cuts::cut_at;
use crate::fields::{pieces, plain};
use mail_base::{NoMemory, Seq, Text, stripped};
use std::alloc::Global;

/// Adds the paths of a value of AliasFile. After `NoMemory` the files are as before.
pub(crate) fn add_paths(alloc: Global, files: &mut Seq<Text>, value: &Text) -> Result<(), NoMemory>
    ensures ok { OnOk result (files.new ≡ files.old ++ spec.paths_of value.now) }
    ensures err { OnErr result (files.new ≡ files.old) }
{
    let pieces = pieces(alloc, value.bytes())?;
    let before = files.len();
    match push_paths(alloc, files, pieces.items()) {
        Ok(()) => Ok(()),
        Err(fault) => {
            files.truncate(before);
            Err(fault)
        }
    }
}

// Adds the path of each piece, or of the first ones.
fn push_paths(alloc: Global, files: &mut Seq<Text>, pieces: &[Text]) -> Result<(), NoMemory>
    ensures ok { OnOk result (files.new ≡ files.old ++ map spec.path_of pieces.now) }
    ensures err { OnErr result (HasFront files.old files.new) }
{
    for piece in pieces {
        let path = path_of(alloc, piece.bytes())?;
        files.push(path)?;
    }
    Ok(())
}

// A path, without the class that may stand before it.
fn path_of(alloc: Global, piece: &[u8]) -> Result<Text, NoMemory>
    ensures { IfOk result (λ path. path ≡ spec.path_of piece.now) }
{
    let path = plain(alloc, piece)?;
    Text::of(alloc, without_class(path.bytes()))
}

fn without_class(path: &[u8]) -> &[u8]
    ensures { result.now ≡ spec.bare_path path.now }
{
    match cut_at(path, b':') {
        Some((class, bare)) if !class.contains(&b'/') => stripped(bare),
        _ => path,
    }
}
