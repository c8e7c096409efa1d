ghost use Rattle.std.specs.Prelude.{◌≡◌};
ghost use Rattle.alias_expand.specs.Rows.{is_spent, nothing_read};

use crate::file_reads::FileReads;
use crate::triples::Triples;
use mail_base::{Draw, Seq};
use std::alloc::Global;

/// The most files that one expansion reads.
pub(crate) const MOST_READS: usize = 20_000;

/// What was read of an address so far.
#[derive(Drop)]
pub(crate) struct Reading {
    /// Where the addresses go that were met.
    pub met: Triples,
    /// The aliases and users that became rows themselves.
    pub selves: Triples,
    /// The files that were read, each for an alias or a user.
    pub files: FileReads,
    pub rows: Seq<Draw>,
}

impl Reading {
    /// Nothing was read. It takes no memory.
    pub(crate) fn new(alloc: Global) -> Reading
        ensures { result ≡ nothing_read }
    {
        Reading {
            met: Triples::new(alloc),
            selves: Triples::new(alloc),
            files: FileReads::new(alloc),
            rows: Seq::new(alloc),
        }
    }

    /// Whether no more files may be read.
    #[tactic(auto, unfolding(crate::specs::Rows::most_reads))]
    pub(crate) fn is_spent(&self) -> bool
        ensures { result ≡ is_spent self.now }
    {
        self.files.len() >= MOST_READS
    }
}
