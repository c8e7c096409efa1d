ghost use Rattle.std.specs.Prelude.{◌≡◌, ◌≤◌, ◌+◌, ◌++◌, ◌∷◌, [], List, ℕ, Bool, false, true, length, OnOk, OnErr};
ghost use Rattle.mail_base.specs.declared.message.Split.{Split};
ghost use Rattle.mail_base.specs.Limits.{most_message, most_headers};
ghost use Rattle.mail_header.specs.Headers.{AreLines, IsSplit, text_of, with_end};
ghost use Rattle.mail_header.specs.Gatherings.{Gathers, KeepsSplit, IsSmall, counted, is_above, unless};
ghost use Rattle.mail_header.specs.inner.Added.{AddsHeader, header_added};

use crate::body::Body;
use crate::grown::add_header_line;
use crate::header_lines::belongs;
use mail_base::{MOST_HEADERS, NoMemory, Seq, Split, Text};
use std::alloc::Global;

/// What is kept of the lines of a message.
#[derive(Drop)]
pub(crate) struct Gathered {
    /// The bytes of the lines with CR LF, or one more than the limit where there are more.
    pub(crate) size: u64,
    /// The bytes of the header block's lines with CR LF, or one more than [`MOST_HEADERS`].
    pub(crate) block: u64,
    pub(crate) headers: Seq<Text>,
    /// Whether there is a header.
    pub(crate) has_header: bool,
    pub(crate) body: Body,
    /// Whether a line after the header block has come.
    pub(crate) has_body: bool,
}

impl Gathered {
    /// No lines. It takes no memory.
    pub(crate) fn new(alloc: Global) -> Gathered
        ensures { (limit : ℕ) → Gathers result limit [] }
    {
        Gathered {
            size: 0,
            block: 0,
            headers: Seq::new(alloc),
            has_header: false,
            body: Body::new(alloc),
            has_body: false,
        }
    }

    /// Takes a line without its end, of a message that may have so many bytes. After `NoMemory`
    /// all is as before.
    #[inline(always)]
    pub(crate) fn add(&mut self, line: &[u8], limit: u64) -> Result<(), NoMemory>
        requires { limit ≤ most_message }
        ensures ok { OnOk result ((lines : List (List ℕ)) → Gathers self.old limit lines
            → Gathers self.new limit (lines ++ line.now ∷ [])) }
        ensures err { OnErr result (self.new ≡ self.old) }
    {
        let size = size_with(self.size, line.len(), limit);
        if size > limit {
            self.give_up(size);
            return Ok(());
        }
        self.take(line)?;
        self.size = size;
        Ok(())
    }

    /// Keeps nothing of lines of so many bytes.
    fn give_up(&mut self, size: u64)
        ensures { self.new ≡ record self.old { size = size; headers = []; body = [] } }
    {
        self.headers = Seq::new(self.headers.allocator());
        self.body = Body::new(self.headers.allocator());
        self.size = size;
    }

    #[inline(always)]
    fn take(&mut self, line: &[u8]) -> Result<(), NoMemory>
        ensures ok { OnOk result ((lines : List (List ℕ)) → KeepsSplit self.old lines
            → KeepsSplit self.new (lines ++ line.now ∷ [])) }
        ensures err { OnErr result (self.new ≡ self.old) }
    {
        if self.has_body {
            return self.add_body(line);
        }
        if belongs(self.has_header, line) {
            return self.add_header(line);
        }
        if line.is_empty() {
            self.has_body = true;
            return Ok(());
        }
        self.add_body(line)
    }

    fn add_body(&mut self, line: &[u8]) -> Result<(), NoMemory>
        ensures ok { OnOk result (self.new
            ≡ record self.old { body = self.old.body ++ with_end line.now; has_body = true }) }
        ensures err { OnErr result (self.new ≡ self.old) }
    {
        self.body.add(line)?;
        self.has_body = true;
        Ok(())
    }

    fn add_header(&mut self, line: &[u8]) -> Result<(), NoMemory>
        ensures ok { OnOk result (AddsHeader self.old self.new line.now) }
        ensures err { OnErr result (self.new ≡ self.old) }
    {
        let block = block_with(self.block, line.len());
        keep_header(&mut self.headers, line, is_large(block))?;
        self.block = block;
        self.has_header = true;
        Ok(())
    }

    /// The bytes of the lines so far with their CR LF, or one more than the limit where there are
    /// more.
    pub(crate) fn size(&self) -> u64
        ensures size { result ≡ self.now.size }
        ensures lines { (limit : ℕ) (lines : List (List ℕ)) → Gathers self.now limit lines
            → result ≡ counted limit (length (text_of lines)) }
    {
        self.size
    }

    /// Whether the lines with their CR LF are above [`MOST_HEADERS`] as far as they are of the
    /// header block.
    pub(crate) fn is_large_block(&self) -> bool
        ensures large { result ≡ is_above most_headers self.now.block }
        ensures lines { (limit : ℕ) (lines : List (List ℕ)) (split : Split)
            → Gathers self.now limit lines → AreLines lines → IsSplit (text_of lines) split
            → is_above limit self.now.size ≡ false
            → result ≡ is_above most_headers split.block }
    {
        is_large(self.block)
    }

    /// The headers and the body of the lines. Where these are above the limit, or their header
    /// block is above its own, what was given up isn't there.
    pub(crate) fn into_split(self) -> Split
        ensures kept { result
            ≡ record { headers = self.headers; body = self.body; block = self.block } }
        ensures split { (limit : ℕ) (lines : List (List ℕ)) → Gathers self limit lines
            → AreLines lines → is_above limit self.size ≡ false
            → is_above most_headers self.block ≡ false → IsSplit (text_of lines) result }
        ensures small { (limit : ℕ) (lines : List (List ℕ)) → Gathers self limit lines
            → IsSmall self limit }
    {
        Split {
            headers: self.headers,
            body: self.body.into_text(),
            block: self.block,
        }
    }
}

/// Adds a line of the header block, or keeps no header where the block is too large.
fn keep_header(headers: &mut Seq<Text>, line: &[u8], is_large: bool) -> Result<(), NoMemory>
    ensures ok { OnOk result (headers.new ≡ unless is_large (header_added line.now headers.old)) }
    ensures err { OnErr result (headers.new ≡ headers.old) }
{
    if is_large {
        *headers = Seq::new(headers.allocator());
        return Ok(());
    }
    add_header_line(headers, line)
}

/// A size with a line more and its end. Above the limit it counts no further.
#[tactic(auto, unfolding(crate::specs::Gatherings::counted, mail_base::specs::Limits::most_message))]
fn size_with(size: u64, length: usize, limit: u64) -> u64
    requires { limit ≤ most_message }
    ensures { result ≡ counted limit (size + length + 2) }
{
    size.saturating_add(length as u64)
        .saturating_add(2)
        .min(limit + 1)
}

/// The size of a header block with a line more. Above its limit it counts no further.
#[tactic(auto, unfolding(crate::specs::Gatherings::counted, mail_base::specs::Limits::most_headers))]
fn block_with(block: u64, length: usize) -> u64
    ensures { result ≡ counted most_headers (block + length + 2) }
{
    block
        .saturating_add(length as u64)
        .saturating_add(2)
        .min(MOST_HEADERS + 1)
}

#[tactic(auto, unfolding(mail_base::specs::Limits::most_headers))]
fn is_large(block: u64) -> bool
    ensures { result ≡ is_above most_headers block }
{
    block > MOST_HEADERS
}
