ghost use Rattle.std.specs.Prelude.{◌≡◌, ◌∷◌, [], ◌++◌, IfOk, OnOk, OnErr};
ghost use Rattle.cf_reader.specs.Places.{last_place};

use mail_base::{Catalog, MapLine, NoMemory, Seq, Text, TryCopy};
use std::alloc::Global;
use std::marker::Model;

/// The K lines so far, in order, with an index by their names. A contract sees it as the list.
pub(crate) struct MapLines {
    lines: Seq<MapLine>,
    /// The place of the last line of each name.
    places: Catalog<u32>,
}

// Written out, since a caller's proof goes through the parts of a derived drop at each way out.
impl Drop for MapLines {
    fn drop(self) {
        let MapLines {
            lines: _,
            places: _,
        } = self;
    }
}

impl Model for MapLines {
    ghost use Rattle.std.specs.Prelude.{List};
    ghost use Rattle.mail_base.specs.declared.lines.MapLine.{MapLine};
    ghost use Rattle.cf_reader.specs.Places.{IsPlaced};

    ghost Value = { List MapLine };

    ghost view = { λ m. m.lines };

    ghost invariant = { λ m. IsPlaced m.lines m.places };
}

impl MapLines {
    /// No K line. It takes no memory.
    pub(crate) fn new(alloc: Global) -> MapLines
        ensures { result ≡ [] }
    {
        MapLines {
            lines: Seq::new(alloc),
            places: Catalog::new(alloc),
        }
    }

    /// These lines.
    pub(crate) fn of(alloc: Global, lines: Seq<MapLine>) -> Result<MapLines, NoMemory>
        ensures { IfOk result (λ maps. maps ≡ lines) }
    {
        let mut maps = MapLines::new(alloc);
        for line in lines.into_vec() {
            maps.push(line)?;
        }
        Ok(maps)
    }

    /// The place of the last line of a name, counted from 0. It takes no memory.
    pub(crate) fn place_of(&self, name: &Text) -> Option<u32>
        ensures { result ≡ last_place name.now self.now }
    {
        self.places.get(name).copied()
    }

    /// Adds a line at the end. `NoMemory` comes for the 2^32nd line too, and after it the list is
    /// as before.
    pub(crate) fn push(&mut self, line: MapLine) -> Result<(), NoMemory>
        ensures ok { OnOk result (self.new ≡ self.old ++ line ∷ []) }
        ensures err { OnErr result (self.new ≡ self.old) }
    {
        let count = self.lines.len();
        let Ok(place) = u32::try_from(count) else {
            return Err(NoMemory);
        };
        let name = line.name.copy()?;
        self.lines.push(line)?;
        if let Err(full) = self.places.set(name, place) {
            self.lines.truncate(count);
            return Err(full);
        }
        Ok(())
    }

    /// The lines. It takes no memory.
    pub(crate) fn into_lines(self) -> Seq<MapLine>
        ensures { result ≡ self }
    {
        let MapLines { lines, places: _ } = self;
        lines
    }
}
