ghost use Rattle.std.specs.Prelude.{◌≡◌, ◌<◌, ◌+◌, ◌-◌, ◌^◌, [], ◌∷◌, ◌++◌, Some};
ghost use Rattle.mail_edge.specs.Readings.{reading_at, readings_of};

use crate::clock::Clock;

/// A clock in memory, whose first reading is the start, and each later one a step above the one
/// before. A reading stands still at `u64::MAX`.
#[derive(Clone, Copy, Debug, PartialEq, Eq)]
pub struct MemClock {
    pub start: u64,
    pub step: u64,
    pub readings: u64,
}

impl MemClock {
    /// A new clock, with no reading yet.
    pub fn new(start: u64, step: u64) -> MemClock
        ensures { result ≡ record { start = start; step = step; readings = 0 } }
    {
        MemClock {
            start,
            step,
            readings: 0,
        }
    }
}

impl Clock for MemClock {
    ghost seen = { λ c. record {
      told = Some (readings_of c.start c.step c.readings);
      readings = c.readings;
    } };

    fn now(&mut self) -> u64
        requires { self.old.readings < 2 ^ 64 - 1 }
        ensures answer { result ≡ reading_at self.old.start self.old.step self.old.readings }
        ensures counted { self.new ≡ record self.old { readings = self.old.readings + 1 } }
        ensures told { readings_of self.new.start self.new.step self.new.readings
            ≡ readings_of self.old.start self.old.step self.old.readings ++ result ∷ [] }
    {
        let passed = self.step.saturating_mul(self.readings);
        self.readings += 1;
        self.start.saturating_add(passed)
    }
}
