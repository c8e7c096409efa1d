use crate::{NoMemory, Seq, Text, TryCopy};

/// The class of a map.
#[derive(Drop)]
pub enum MapClass {
    Text,
    Hash,
    Btree,
    Host,
    Dequote,
    /// Its members, each the place of a K line in the configuration's list, counted from 0.
    Sequence(Seq<u32>),
    Null,
    Arith,
    Macro,
    /// A class that isn't supported; a look-up is refused.
    Other(Text),
}

/// A map, as a K line declares it.
#[derive(Drop)]
pub struct MapLine {
    pub name: Text,
    pub class: MapClass,
    /// `-f`: keys keep their case.
    pub keeps_case: bool,
    /// `-m`: a found key itself is the value.
    pub match_only: bool,
    /// `-a`: what stands after each value.
    pub tag: Text,
    /// `-o`: the file may be absent.
    pub optional: bool,
    /// `-k`: the column of the key, below 100, counted from 0.
    pub key_column: u8,
    /// `-v`: the column of the value, below 100, counted from 0.
    pub value_column: u8,
    /// `-z`: what separates columns; `None` is white space.
    pub separator: Option<u8>,
    /// The file, or `None` where the K line names none.
    pub file: Option<Text>,
}

/// A header, as an H line declares it.
#[derive(Drop)]
pub struct HeaderLine {
    /// The mailer flags of which one is wanted; none where it is always added.
    pub flags: Text,
    pub name: Text,
    /// The value, which is expanded as a message is received or delivered.
    pub template: Text,
}

/// A precedence, as a P line declares it.
#[derive(Drop)]
pub struct Precedence {
    pub name: Text,
    /// From -1,000,000 to 1,000,000.
    pub class: i64,
}

impl TryCopy for MapClass {
    fn copy(&self) -> Result<MapClass, NoMemory> {
        match self {
            MapClass::Text => Ok(MapClass::Text),
            MapClass::Hash => Ok(MapClass::Hash),
            MapClass::Btree => Ok(MapClass::Btree),
            MapClass::Host => Ok(MapClass::Host),
            MapClass::Dequote => Ok(MapClass::Dequote),
            MapClass::Sequence(members) => Ok(MapClass::Sequence(members.copy()?)),
            MapClass::Null => Ok(MapClass::Null),
            MapClass::Arith => Ok(MapClass::Arith),
            MapClass::Macro => Ok(MapClass::Macro),
            MapClass::Other(name) => Ok(MapClass::Other(name.copy()?)),
        }
    }
}

impl TryCopy for MapLine {
    fn copy(&self) -> Result<MapLine, NoMemory> {
        Ok(MapLine {
            name: self.name.copy()?,
            class: self.class.copy()?,
            keeps_case: self.keeps_case,
            match_only: self.match_only,
            tag: self.tag.copy()?,
            optional: self.optional,
            key_column: self.key_column,
            value_column: self.value_column,
            separator: self.separator,
            file: self.file.copy()?,
        })
    }
}

impl TryCopy for HeaderLine {
    fn copy(&self) -> Result<HeaderLine, NoMemory> {
        Ok(HeaderLine {
            flags: self.flags.copy()?,
            name: self.name.copy()?,
            template: self.template.copy()?,
        })
    }
}

impl TryCopy for Precedence {
    fn copy(&self) -> Result<Precedence, NoMemory> {
        Ok(Precedence {
            name: self.name.copy()?,
            class: self.class,
        })
    }
}
