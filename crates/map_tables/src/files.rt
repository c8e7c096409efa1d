ghost use Rattle.std.specs.Prelude.{◌≡◌, IfOk};
ghost use Rattle.std.specs.Option.{option_copied};
ghost use Rattle.map_tables.specs.Tables.{file_of, has_file, wanted_files};

use mail_base::{Config, MapClass, MapLine, NoMemory, Seq, Text, TryCopy};
use std::alloc::Global;

/// A file of which a K line's table is made.
#[derive(Drop)]
pub struct MapFile {
    pub name: Text,
    /// `-o`: it may be absent.
    pub optional: bool,
}

/// The files of the K lines whose tables are made of one, in order, also of a line that a later one
/// replaces: a sequence may hold it.
pub fn wanted(alloc: Global, config: &Config) -> Result<Seq<MapFile>, NoMemory>
    ensures { IfOk result (λ files. files ≡ wanted_files config.now.maps) }
{
    let mut files = Seq::new(alloc);
    for map in config.maps.items() {
        if let Some(file) = file_of(map) {
            let name = file.copy()?;
            files.push(MapFile {
                name,
                optional: map.optional,
            })?;
        }
    }
    Ok(files)
}

fn file_of(map: &MapLine) -> Option<&Text>
    ensures { option_copied result ≡ file_of map.now }
{
    if has_file(&map.class) {
        map.file.as_ref()
    } else {
        None
    }
}

fn has_file(class: &MapClass) -> bool
    ensures { result ≡ has_file class.now }
{
    matches!(class, MapClass::Text | MapClass::Hash | MapClass::Btree)
}
