// Configurations of K lines, and what a look-up in one of their maps answers, as a text.
use mail_base::{Config, Macros, MapClass, MapLine, NoMemory, Seq, Text};
use map_tables::{Found, MapFault, Maps, Named};
use std::alloc::Global;

/// A K line: its name, its class and members, its flags `f`, `m` and `o`, its tag, its columns and
/// separator, and its file.
pub(crate) type Line = (
    &'static str,
    &'static str,
    &'static [u32],
    &'static str,
    &'static str,
    (u8, u8, Option<u8>),
    &'static str,
);

/// A map, a key, arguments, and what the look-up tells.
pub(crate) type Row = (
    &'static str,
    &'static str,
    &'static [&'static str],
    &'static str,
);

/// Whether a text that may be there is the one that is wanted, or none where none is.
pub(crate) fn is_text(given: Option<&Text>, wanted: Option<&str>) -> bool {
    match (given, wanted) {
        (Some(given), Some(wanted)) => given.bytes() == wanted.as_bytes(),
        (None, None) => true,
        _ => false,
    }
}

fn class_of(alloc: Global, line: &Line) -> Result<MapClass, NoMemory> {
    match line.1 {
        "text" => Ok(MapClass::Text),
        "hash" => Ok(MapClass::Hash),
        "btree" => Ok(MapClass::Btree),
        "host" => Ok(MapClass::Host),
        "dequote" => Ok(MapClass::Dequote),
        "sequence" => Ok(MapClass::Sequence(places(alloc, line.2)?)),
        "null" => Ok(MapClass::Null),
        "arith" => Ok(MapClass::Arith),
        "macro" => Ok(MapClass::Macro),
        other => Ok(MapClass::Other(Text::of(alloc, other.as_bytes())?)),
    }
}

fn places(alloc: Global, members: &[u32]) -> Result<Seq<u32>, NoMemory> {
    let mut places = Seq::new(alloc);
    for place in members {
        places.push(*place)?;
    }
    Ok(places)
}

fn file_of(alloc: Global, file: &str) -> Result<Option<Text>, NoMemory> {
    if file.is_empty() {
        return Ok(None);
    }
    Ok(Some(Text::of(alloc, file.as_bytes())?))
}

fn map_of(alloc: Global, line: &Line) -> Result<MapLine, NoMemory> {
    let name = Text::of(alloc, line.0.as_bytes())?;
    let tag = Text::of(alloc, line.4.as_bytes())?;
    let file = file_of(alloc, line.6)?;
    Ok(MapLine {
        name,
        tag,
        class: class_of(alloc, line)?,
        keeps_case: line.3.contains('f'),
        match_only: line.3.contains('m'),
        optional: line.3.contains('o'),
        key_column: line.5.0,
        value_column: line.5.1,
        separator: line.5.2,
        file,
    })
}

/// A configuration whose K lines are these, behind that of the map `host`.
pub(crate) fn config_of(alloc: Global, lines: &[Line]) -> Result<Config, NoMemory> {
    let mut config = Config::new(alloc)?;
    for line in lines {
        config.maps.push(map_of(alloc, line)?)?;
    }
    Ok(config)
}

fn add_texts(texts: &mut Seq<Named>, files: &[(&str, &str)]) -> Result<(), NoMemory> {
    let alloc = texts.allocator();
    for (name, bytes) in files {
        texts.push(Named {
            name: Text::of(alloc, name.as_bytes())?,
            bytes: Text::of(alloc, bytes.as_bytes())?,
        })?;
    }
    Ok(())
}

/// The maps of these K lines with these files, and this host table.
pub(crate) fn maps_of(
    alloc: Global,
    lines: &[Line],
    files: &[(&str, &str)],
    hosts: &str,
) -> Result<Maps, NoMemory> {
    let config = config_of(alloc, lines)?;
    let mut texts = Seq::new(alloc);
    add_texts(&mut texts, files)?;
    let hosts = Text::of(alloc, hosts.as_bytes())?;
    Maps::load(alloc, &config, &texts, &hosts)
}

fn add_args(list: &mut Seq<Text>, args: &[&str]) -> Result<(), NoMemory> {
    let alloc = list.allocator();
    for arg in args {
        list.push(Text::of(alloc, arg.as_bytes())?)?;
    }
    Ok(())
}

fn answer_of(alloc: Global, maps: &Maps, row: &Row) -> Result<Result<Found, MapFault>, NoMemory> {
    let name = Text::of(alloc, row.0.as_bytes())?;
    let key = Text::of(alloc, row.1.as_bytes())?;
    let mut args = Seq::new(alloc);
    add_args(&mut args, row.2)?;
    Ok(maps.lookup(&name, &key, &args, &mut Macros::new(alloc)))
}

fn show_answer(text: &mut Text, answer: &Result<Found, MapFault>) -> Result<(), NoMemory> {
    match answer {
        Ok(Found::Value(value)) => show_found(text, value),
        Ok(Found::Absent) => text.extend(b"absent"),
        Err(MapFault::MapClass) => text.extend(b"error: MapClass"),
        Err(MapFault::NoSuchMap) => text.extend(b"error: NoSuchMap"),
        Err(MapFault::NoMemory) => Err(NoMemory),
    }
}

fn show_found(text: &mut Text, value: &Text) -> Result<(), NoMemory> {
    text.extend(b"found: ")?;
    text.extend(value.bytes())
}

/// Whether a look-up tells what the row says.
pub(crate) fn is_told(alloc: Global, maps: &Maps, row: &Row) -> Result<bool, NoMemory> {
    let answer = answer_of(alloc, maps, row)?;
    let mut text = Text::new(alloc);
    show_answer(&mut text, &answer)?;
    Ok(text.bytes() == row.3.as_bytes())
}
