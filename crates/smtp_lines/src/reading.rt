ghost use Rattle.std.specs.Prelude.{◌≡◌, ◌≤◌, ◌<◌, ◌+◌, ℕ, List, ◌++◌, length, take, IfOk, IfSome, IsTrue, slice_index, ◌==◌, false};
ghost use Rattle.bstr.specs.Find.{FindsNeedle};
ghost use Rattle.mail_base.specs.Texts.{crlf};
ghost use Rattle.smtp_lines.specs.Stream.{has_end, ends_in_cr, line_of, end_of, command_line, message_line};
ghost use Rattle.smtp_lines.specs.Reader.{asked_after};
ghost use Rattle.smtp_lines.specs.inner.Readings.{Ends, IsKept, ReadsOn};

use crate::line::{MOST_DATA, command_line, message_line, mode_after};
use crate::{Line, Mode};
use bstr::ByteSlice;
use mail_base::{MOST_COMMAND, NoMemory, Seq};
use std::alloc::Global;

/// The lines that some bytes complete, with how the stream goes on.
#[derive(Drop)]
pub(crate) struct Gained {
    pub(crate) lines: Seq<Line>,
    /// How the bytes after the lines are read.
    pub(crate) mode: Mode,
    /// How many of the bytes the lines have with their ends.
    pub(crate) used: usize,
    /// Whether the last line asks. Then nothing after it was read.
    pub(crate) asks: bool,
}

/// How many bytes the line under way takes with its end, or none where no line ends.
fn line_end(mode: Mode, after_cr: bool, bytes: &[u8]) -> Option<usize>
    ensures within { IfSome result (λ n. n ≤ length bytes.now) }
    ensures some { IfSome result (λ n. 0 < n) }
    ensures ends { (begun : List ℕ) → has_end mode begun ≡ false → ends_in_cr begun ≡ after_cr
        → Ends mode begun bytes.now result }
{
    match mode {
        Mode::Commands => command_end(bytes),
        Mode::Message => message_line_end(after_cr, bytes),
    }
}

fn command_end(bytes: &[u8]) -> Option<usize>
    ensures within { IfSome result (λ n. n ≤ length bytes.now) }
    ensures some { IfSome result (λ n. 0 < n) }
    ensures ends { (begun : List ℕ) → has_end Mode.Commands begun ≡ false
        → Ends Mode.Commands begun bytes.now result }
{
    match bytes.find_byte(b'\n') {
        Some(place) => Some(place + 1),
        None => None,
    }
}

fn message_line_end(after_cr: bool, bytes: &[u8]) -> Option<usize>
    ensures within { IfSome result (λ n. n ≤ length bytes.now) }
    ensures some { IfSome result (λ n. 0 < n) }
    ensures ends { (begun : List ℕ) → has_end Mode.Message begun ≡ false
        → ends_in_cr begun ≡ after_cr → Ends Mode.Message begun bytes.now result }
{
    if after_cr && begins_in_lf(bytes) {
        return Some(1);
    }
    match find_crlf(bytes) {
        Some(place) => Some(place + 2),
        None => None,
    }
}

/// Where the first CR LF stands. It is found by its LF: a search for two bytes would be made ready
/// anew at each line, which takes longer than to find one.
fn find_crlf(bytes: &[u8]) -> Option<usize>
    ensures { FindsNeedle bytes.now crlf 0 result }
{
    let mut from = 0;
    'feeds: while let Some(place) = (&bytes[from..]).find_byte(b'\n') {
        let feed = from + place;
        if feed > 0 && bytes[feed - 1] == b'\r' {
            return Some(feed - 1);
        }
        from = feed + 1;
    }
    None
}

fn begins_in_lf(bytes: &[u8]) -> bool
    ensures lf { result ≡ slice_index bytes.now 0 == 10 }
    ensures some { IsTrue result → 0 < length bytes.now }
{
    !bytes.is_empty() && bytes[0] == b'\n'
}

/// The line of what was kept of its front, and its last bytes with its end.
fn line_of(alloc: Global, mode: Mode, kept: &[u8], bytes: &[u8]) -> Result<Line, NoMemory>
    ensures { (begun content : List ℕ) → IsKept mode begun kept.now → 0 < length bytes.now
        → begun ++ bytes.now ≡ content ++ end_of mode
        → IfOk result (λ line. line ≡ line_of mode content) }
{
    match mode {
        Mode::Commands => command_of(alloc, kept, bytes),
        Mode::Message => message_line_of(alloc, kept, bytes),
    }
}

fn command_of(alloc: Global, kept: &[u8], bytes: &[u8]) -> Result<Line, NoMemory>
    ensures { (begun content : List ℕ) → IsKept Mode.Commands begun kept.now → 0 < length bytes.now
        → begun ++ bytes.now ≡ content ++ end_of Mode.Commands
        → IfOk result (λ line. line ≡ command_line content) }
{
    let length = kept.len() + bytes.len();
    if length > MOST_COMMAND {
        return Ok(Line::TooLong);
    }
    Ok(command_line(joined(alloc, kept, bytes, length.saturating_sub(1))?))
}

fn message_line_of(alloc: Global, kept: &[u8], bytes: &[u8]) -> Result<Line, NoMemory>
    ensures { (begun content : List ℕ) → IsKept Mode.Message begun kept.now → 0 < length bytes.now
        → begun ++ bytes.now ≡ content ++ end_of Mode.Message
        → IfOk result (λ line. line ≡ message_line content) }
{
    let length = kept.len() + bytes.len();
    let most = length.saturating_sub(2).min(MOST_DATA + 1);
    Ok(message_line(joined(alloc, kept, bytes, most)?))
}

/// The first bytes of two slices, one after the other.
fn joined(alloc: Global, front: &[u8], back: &[u8], most: usize) -> Result<Vec<u8>, NoMemory>
    ensures { IfOk result (λ bytes. bytes.items ≡ take most (front.now ++ back.now)) }
{
    if front.is_empty() {
        return Ok(Vec::from_slice(alloc, &back[..most.min(back.len())])?);
    }
    if most < front.len() {
        return Ok(Vec::from_slice(alloc, &front[..most])?);
    }
    let more = (most - front.len()).min(back.len());
    let mut bytes = Vec::with_capacity(alloc, front.len() + more)?;
    bytes.extend_from_slice(front)?;
    bytes.extend_from_slice(&back[..more])?;
    Ok(bytes)
}

/// Reads the lines that end in bytes, up to one that asks. Of the line under way, `kept` is kept.
pub(crate) fn read(
    alloc: Global,
    mode: Mode,
    kept: &[u8],
    after_cr: bool,
    bytes: &[u8],
) -> Result<Gained, NoMemory>
    ensures used { IfOk result (λ r. r.used ≤ length bytes.now) }
    ensures some { IfOk result (λ r. IsTrue r.asks → 0 < r.used) }
    ensures asks { IfOk result (λ r. r.asks ≡ asked_after false r.lines) }
    ensures reads { (begun : List ℕ) → IsKept mode begun kept.now → has_end mode begun ≡ false
        → ends_in_cr begun ≡ after_cr
        → IfOk result (λ r. ReadsOn mode begun bytes.now r.lines r.mode r.used r.asks) }
{
    let mut lines = Seq::new(alloc);
    let mut mode = mode;
    let mut kept = kept;
    let mut after_cr = after_cr;
    let mut used = 0;
    'lines: loop {
        let rest = &bytes[used..];
        let Some(end) = line_end(mode, after_cr, rest) else {
            return Ok(Gained {
                lines,
                mode,
                used,
                asks: false,
            });
        };
        let line = line_of(alloc, mode, kept, &rest[..end])?;
        let asks = line.asks();
        used += end;
        mode = mode_after(&line);
        kept = &[];
        after_cr = false;
        lines.push(line)?;
        if asks {
            return Ok(Gained {
                lines,
                mode,
                used,
                asks: true,
            });
        }
    }
}
