ghost use Rattle.std.specs.Prelude.{◌≡◌, ◌≤◌, ◌<◌, length, IfSome, option_map};
ghost use Rattle.smtp_lines.specs.Paths.{without_route, local_part};
ghost use Rattle.smtp_lines.specs.Reading as reading;
ghost use Rattle.smtp_lines.specs.inner.Borrowed.{parts_of};
ghost use Rattle.smtp_lines.specs.PathEnds as ends;

use bstr::ByteSlice;
use mail_base::{MOST_LOCAL_PART, MOST_PATH};

/// A path, and what is after it.
#[derive(Clone, Copy)]
pub(crate) struct Parts<'a> {
    pub(crate) front: &'a [u8],
    pub(crate) back: &'a [u8],
}

/// The path at the front of a text, without its angles, or `None` where it doesn't end.
pub(crate) fn path_parts(text: &[u8]) -> Option<Parts<'_>>
    ensures { option_map parts_of result ≡ reading.path_parts text.now }
{
    let (first, rest) = text.split_first()?;
    if *first == b'<' {
        return angle_parts(rest);
    }
    let end = word_end(text);
    Some(Parts {
        front: &text[..end],
        back: &text[end..],
    })
}

fn angle_parts(text: &[u8]) -> Option<Parts<'_>>
    ensures { option_map parts_of result ≡ ends.angle_parts text.now }
{
    let end = path_end(text)?;
    Some(Parts {
        front: &text[..end],
        back: &text[end + 1..],
    })
}

/// How many bytes stand before the `>` that ends a path, or `None` where none does.
fn path_end(text: &[u8]) -> Option<usize>
    ensures end { result ≡ ends.path_end text.now 0 }
    ensures within { IfSome result (λ end. end < length text.now) }
{
    let mut place = 0;
    while place < text.len() {
        let byte = text[place];
        if byte == b'>' {
            return Some(place);
        }
        place += 1;
        if byte == b'"' {
            let length = quote_length(&text[place..])?;
            place += length;
        }
    }
    None
}

/// How many bytes a quoted string has behind its first `"`, or `None` where it isn't closed.
fn quote_length(text: &[u8]) -> Option<usize>
    ensures length { result ≡ ends.quote_length text.now }
    ensures within { IfSome result (λ n. n ≤ length text.now) }
{
    let mut place = 0;
    while place < text.len() {
        let byte = text[place];
        if byte == b'"' {
            return Some(place + 1);
        }
        place += if byte == b'\\' { 2 } else { 1 };
    }
    None
}

/// How many bytes stand before the first blank.
pub(crate) fn word_end(text: &[u8]) -> usize
    ensures end { result ≡ reading.word_end text.now }
    ensures within { result ≤ length text.now }
{
    text.find_byteset(b" \t").unwrap_or(text.len())
}

/// The path without its source route.
pub(crate) fn without_route(path: &[u8]) -> &[u8]
    ensures { result.now ≡ without_route path.now }
{
    let Some(colon) = path.find_byte(b':') else {
        return path;
    };
    let first = path[0];
    if first == b'@' {
        return &path[colon + 1..];
    }
    path
}

/// Whether the path with its angles, or its local part, is above its limit.
#[tactic(auto, unfolding(mail_base::specs::Limits::most_path, mail_base::specs::Limits::most_local_part))]
pub(crate) fn is_long(path: &[u8]) -> bool
    ensures { result ≡ reading.is_long path.now }
{
    path.len() + 2 > MOST_PATH || local_part(path).len() > MOST_LOCAL_PART
}

fn local_part(path: &[u8]) -> &[u8]
    ensures { result.now ≡ local_part path.now }
{
    match path.rfind_byte(b'@') {
        Some(at) => &path[..at],
        None => path,
    }
}
