ghost use Rattle.std.specs.Prelude.{◌≡◌};
ghost use Rattle.link_edge.specs.Begins.{Never, begun_after};

use crate::Place;
use std::marker::Model;
use std::snapshot::Snapshot;

/// How a floor was begun so far. A contract sees the place and the number of the first call; the
/// program sees neither, and it takes no memory.
#[derive(Drop)]
pub struct Begun {
    calls: Calls,
}

// The calls of `begin` so far.
#[derive(Drop)]
pub(crate) enum Calls {
    Zero,
    One(Snapshot<Place>, u64),
    Many,
}

impl Model for Begun {
    ghost use Rattle.link_edge.specs.Begins.{Beginnings, begun_by};

    ghost Value = { Beginnings };

    ghost view = { λ b. begun_by b.calls };
}

impl Begun {
    /// It was not begun.
    pub fn never() -> Begun
        ensures { result ≡ Never }
    {
        Begun { calls: Calls::Zero }
    }

    /// It was begun at that place, for so many sessions.
    pub fn note(&mut self, place: &Place, most: u64)
        ensures { self.new ≡ begun_after self.old place.now most }
    {
        self.calls = match self.calls {
            Calls::Zero => Calls::One(Snapshot::of(place), most),
            _ => Calls::Many,
        };
    }
}
