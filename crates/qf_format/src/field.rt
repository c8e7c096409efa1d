ghost use Rattle.std.specs.Prelude.{◌≡◌, ◌≢◌, ◌+◌, ◌<◌, ◌++◌, List, ℕ, IfNone, IfSome, drop, length, slice_index, take};
ghost use Rattle.mail_base.specs.Texts.{IsLine};
ghost use Rattle.qf_format.specs.inner.Reading.{Reads, Anything};
ghost use Rattle.qf_format.specs.Spelling.{line};

use crate::stop::Stop;
use bstr::ByteSlice;
use mail_base::Text;
use std::alloc::Global;

/// The line at the front without its LF, and what comes after it.
pub(crate) fn line_of(bytes: &[u8]) -> Result<(&[u8], &[u8]), Stop>
    ensures { Reads (λ r. r.0.now) (λ r. r.1.now) line IsLine Anything bytes.now result }
{
    match bytes.find_byte(b'\n') {
        Some(at) => Ok(split_end(bytes, at)),
        None => Err(Stop::Outside),
    }
}

/// The bytes before a place and those after it.
pub(crate) fn split_end(bytes: &[u8], at: usize) -> (&[u8], &[u8])
    requires { at < length bytes.now }
    ensures text { result.0.now ≡ take at bytes.now }
    ensures rest { result.1.now ≡ drop (at + 1) bytes.now }
{
    let (text, _) = bytes.split_at(at);
    let (_, rest) = bytes.split_at(at + 1);
    (text, rest)
}

/// The bytes behind a tag.
pub(crate) fn after_tag<'a>(tag: &[u8], bytes: &'a [u8]) -> Option<&'a [u8]>
    ensures some { IfSome result (λ rest. bytes.now ≡ tag.now ++ rest.now) }
    ensures none { IfNone result ((rest : List ℕ) → bytes.now ≢ tag.now ++ rest) }
{
    bytes.strip_prefix(tag)
}

/// The text of the line at the front that begins with a tag, and what comes after the line.
pub(crate) fn field<'a>(tag: &[u8], bytes: &'a [u8]) -> Result<(&'a [u8], &'a [u8]), Stop>
    ensures { Reads (λ r. r.0.now) (λ r. r.1.now) (λ text. line (tag.now ++ text)) IsLine
        Anything bytes.now result }
{
    match after_tag(tag, bytes) {
        Some(rest) => line_of(rest),
        None => Err(Stop::Outside),
    }
}

/// The same, kept.
pub(crate) fn text_field<'a>(
    alloc: Global,
    tag: &[u8],
    bytes: &'a [u8],
) -> Result<(Text, &'a [u8]), Stop>
    ensures { Reads (λ r. r.0) (λ r. r.1.now) (λ text. line (tag.now ++ text)) IsLine
        Anything bytes.now result }
{
    let (text, rest) = field(tag, bytes)?;
    Ok((Text::of(alloc, text)?, rest))
}

/// The first byte, or 0 where there is none.
pub(crate) fn first_byte(bytes: &[u8]) -> u8
    ensures { result ≡ slice_index bytes.now 0 }
{
    bytes.first().copied().unwrap_or(0)
}

/// The byte at a place, or 0 past the end.
pub(crate) fn byte_at(text: &[u8], at: usize) -> u8
    ensures { result ≡ slice_index text.now at }
{
    text.get(at).copied().unwrap_or(0)
}
