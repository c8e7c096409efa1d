ghost use Rattle.std.specs.Prelude.{◌≡◌};
ghost use Rattle.map_tables.specs.declared.found.MapFault.TheVariants.{NoMemory as MapMemory};

use mail_base::{NoMemory, Text};
use thiserror::Error;

/// What a look-up found.
#[derive(Debug, Drop, PartialEq, Eq)]
pub enum Found {
    Value(Text),
    Absent,
}

/// What a map says of a key, and whether that sets the macro that the key names.
#[derive(Drop)]
pub struct MapReply {
    pub found: Found,
    pub sets: bool,
}

/// Why a look-up has no answer.
#[derive(Clone, Copy, Debug, PartialEq, Eq, Error)]
pub enum MapFault {
    /// The map, or one that its sequence comes to, has a class that isn't supported.
    #[error("the map's class isn't supported")]
    MapClass,
    #[error("no such map")]
    NoSuchMap,
    #[error("no memory")]
    NoMemory,
}

impl From<NoMemory> for MapFault {
    ghost from_gives = { λ _ e. e ≡ MapMemory };

    fn from(_error: NoMemory) -> MapFault {
        MapFault::NoMemory
    }
}
