ghost use Rattle.std.specs.Prelude.{◌≡◌, IfSome, Ok};
ghost use Rattle.mail_edge.specs.Seen.{text_of};
ghost use Rattle.mail_edge.specs.Asking.{Asks};
ghost use Rattle.sendmail_run.specs.MapFiles.{hosts_in, maps_by};
ghost use Rattle.sendmail_run.specs.inner.Loading.{Gives, Takes, is_files_fault, texts_by};

use crate::fault::MapsFault;
use mail_base::{Config, EdgeFault, Seq, Text, TryCopy};
use mail_edge::Files;
use map_tables::{MapFile, Maps, Named, wanted};
use std::alloc::Global;

/// The maps of a configuration: the files of its K lines are read in their order, and then the host
/// table, which may be absent.
pub fn load_maps<F: Files>(alloc: Global, config: &Config, files: &mut F) -> Result<Maps, MapsFault>
    ensures told { IfSome (F.seen files.old).map (λ map. Gives result (maps_by map config.now)) }
    ensures asks { Asks (F.seen files.old) (F.seen files.new) (is_files_fault result) }
{
    let wanted = wanted(alloc, config)?;
    let texts = texts_of(alloc, wanted.items(), files)?;
    let hosts = hosts_of(alloc, &config.options.hosts_file, files)?;
    Ok(Maps::load(alloc, config, &texts, &hosts)?)
}

// The texts of the files that are there, in order.
fn texts_of<F: Files>(
    alloc: Global,
    wanted: &[MapFile],
    files: &mut F,
) -> Result<Seq<Named>, MapsFault>
    ensures told { IfSome (F.seen files.old).map (λ map. Gives result (texts_by map wanted.now)) }
    ensures asks { Asks (F.seen files.old) (F.seen files.new) (is_files_fault result) }
{
    let mut texts = Seq::new(alloc);
    for file in wanted {
        take_file(alloc, file, files, &mut texts)?;
    }
    Ok(texts)
}

// Adds the text of a file, where it is there.
fn take_file<F: Files>(
    alloc: Global,
    wanted: &MapFile,
    files: &mut F,
    texts: &mut Seq<Named>,
) -> Result<(), MapsFault>
    ensures told { IfSome (F.seen files.old).map
        (λ map. Takes wanted.now (text_of map wanted.now.name) texts.old texts.new result) }
    ensures asks { Asks (F.seen files.old) (F.seen files.new) (is_files_fault result) }
{
    let name = wanted.name.copy()?;
    match files.read(alloc, &name) {
        Ok(Some(bytes)) => Ok(texts.push(Named { name, bytes })?),
        Ok(None) if wanted.optional => Ok(()),
        Ok(None) => Err(MapsFault::NoFile(name)),
        Err(EdgeFault::Failed) => Err(MapsFault::FilesFault),
        Err(EdgeFault::NoMemory) => Err(MapsFault::NoMemory),
    }
}

// The text of the host table, which is empty where there is no such file.
fn hosts_of<F: Files>(alloc: Global, name: &Text, files: &mut F) -> Result<Text, MapsFault>
    ensures told { IfSome (F.seen files.old).map
        (λ map. Gives result (Ok (hosts_in map name.now))) }
    ensures asks { Asks (F.seen files.old) (F.seen files.new) (is_files_fault result) }
{
    match files.read(alloc, name) {
        Ok(Some(text)) => Ok(text),
        Ok(None) => Ok(Text::new(alloc)),
        Err(EdgeFault::Failed) => Err(MapsFault::FilesFault),
        Err(EdgeFault::NoMemory) => Err(MapsFault::NoMemory),
    }
}
