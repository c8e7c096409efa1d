// Standard input in pieces.
ghost use Rattle.std.specs.Prelude.{◌≤◌, ◌<◌, length};

use crate::chance::Chance;
use mail_base::Failed;
use mail_edge::Source;

/// Of how many bytes the pieces are in which a client says something.
#[derive(Clone, Copy)]
pub(crate) enum Pieces {
    /// As the scene has them.
    AsSaid,
    /// One.
    Bytes,
    /// Any, by chance.
    Random(Chance),
}

impl Pieces {
    /// How many bytes the next piece has, of so many at most.
    pub(crate) fn next(&mut self, most: usize) -> usize
        requires { 0 < most }
        ensures least { 0 < result }
        ensures most { result ≤ most }
    {
        match self {
            Pieces::AsSaid => most,
            Pieces::Bytes => 1,
            Pieces::Random(chance) => chance.size(most),
        }
    }
}

/// An input that comes in pieces.
#[derive(Drop)]
pub(crate) struct Cutting<S> {
    pub source: S,
    pub pieces: Pieces,
}

impl<S: Source> Source for Cutting<S> {
    ghost seen = { λ c. S.seen c.source };

    fn take(&mut self, buf: &mut [u8]) -> Result<usize, Failed> {
        let size = self.pieces.next(buf.len());
        self.source.take(&mut buf[..size])
    }
}
