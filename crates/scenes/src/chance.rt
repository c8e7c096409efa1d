// Numbers by chance, the same for the same seed.
ghost use Rattle.std.specs.Prelude.{◌≤◌, ◌<◌};

/// A state that gives one number after the other (xorshift).
#[derive(Clone, Copy)]
pub(crate) struct Chance {
    state: u64,
}

impl Chance {
    pub(crate) fn new(seed: u64) -> Chance {
        Chance {
            state: seed.wrapping_mul(0x9e37_79b9_7f4a_7c15).max(1),
        }
    }

    fn next(&mut self) -> u64 {
        self.state ^= self.state << 13;
        self.state ^= self.state >> 7;
        self.state ^= self.state << 17;
        self.state
    }

    /// A size from 1 to 64, small ones often.
    pub(crate) fn size(&mut self, most: usize) -> usize
        requires { 0 < most }
        ensures least { 0 < result }
        ensures most { result ≤ most }
    {
        let number = self.next();
        let bound = (number >> 32) % 64 + 1;
        let size = (number % bound) as usize;
        if size < most { size + 1 } else { most }
    }
}
