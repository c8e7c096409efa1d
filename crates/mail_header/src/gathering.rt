ghost use Rattle.std.specs.Prelude.{◌≡◌, ◌≤◌, ◌++◌, ◌∷◌, [], List, ℕ, false, length, OnOk, OnErr};
ghost use Rattle.mail_base.specs.declared.message.Split.{Split};
ghost use Rattle.mail_base.specs.Limits.{most_message, most_headers};
ghost use Rattle.mail_header.specs.Headers.{AreLines, IsSplit, text_of};
ghost use Rattle.mail_header.specs.Gatherings.{Gathers, IsSmall, counted, is_above};

use crate::gathered::Gathered;
use mail_base::{NoMemory, Split};
use std::alloc::Global;
use std::marker::Model;

/// The lines of a message so far, split into headers and body. It keeps its allocator.
///
/// Once the header block is above [`mail_base::MOST_HEADERS`] no header is kept, and once the
/// message is above its limit nothing: the bytes that it holds are within these limits. What a
/// `Vec` reserves beyond its bytes isn't counted.
#[derive(Drop)]
pub struct Gathering {
    kept: Gathered,
}

impl Model for Gathering {
    ghost use Rattle.mail_header.specs.declared.gathered.Gathered.{Gathered};

    ghost Value = { Gathered };

    ghost view = { λ g. g.kept };
}

impl Gathering {
    /// No lines. It takes no memory.
    pub fn new(alloc: Global) -> Gathering
        ensures { (limit : ℕ) → Gathers result limit [] }
    {
        Gathering {
            kept: Gathered::new(alloc),
        }
    }

    /// Takes a line without its end, of a message that may have so many bytes. After `NoMemory`
    /// all is as before.
    #[inline(always)]
    pub fn add(&mut self, line: &[u8], limit: u64) -> Result<(), NoMemory>
        requires { limit ≤ most_message }
        ensures ok { OnOk result ((lines : List (List ℕ)) → Gathers self.old limit lines
            → Gathers self.new limit (lines ++ line.now ∷ [])) }
        ensures err { OnErr result (self.new ≡ self.old) }
    {
        self.kept.add(line, limit)
    }

    /// The bytes of the lines so far with their CR LF, or one more than the limit where there are
    /// more.
    pub fn size(&self) -> u64
        ensures size { result ≡ self.now.size }
        ensures lines { (limit : ℕ) (lines : List (List ℕ)) → Gathers self.now limit lines
            → result ≡ counted limit (length (text_of lines)) }
    {
        self.kept.size()
    }

    /// Whether the lines with their CR LF are above [`mail_base::MOST_HEADERS`] as far as they
    /// are of the header block.
    pub fn is_large_block(&self) -> bool
        ensures large { result ≡ is_above most_headers self.now.block }
        ensures lines { (limit : ℕ) (lines : List (List ℕ)) (split : Split)
            → Gathers self.now limit lines → AreLines lines → IsSplit (text_of lines) split
            → is_above limit self.now.size ≡ false
            → result ≡ is_above most_headers split.block }
    {
        self.kept.is_large_block()
    }

    /// The headers and the body of the lines. Where these are above the limit, or their header
    /// block is above its own, what was given up isn't there.
    pub fn into_split(self) -> Split
        ensures kept { result
            ≡ record { headers = self.headers; body = self.body; block = self.block } }
        ensures split { (limit : ℕ) (lines : List (List ℕ)) → Gathers self limit lines
            → AreLines lines → is_above limit self.size ≡ false
            → is_above most_headers self.block ≡ false → IsSplit (text_of lines) result }
        ensures small { (limit : ℕ) (lines : List (List ℕ)) → Gathers self limit lines
            → IsSmall self limit }
    {
        self.kept.into_split()
    }
}
