ghost use Rattle.std.specs.Prelude.{◌≡◌, ◌≤◌, ◌<◌, ◌-◌, IsTrue, length};
ghost use Rattle.std.specs.List.{position_or_len, prefix_len, suffix_len};
ghost use Rattle.mail_base.specs.Texts.{ends_in, is_blank, trimmed, without_angles, without_blanks, without_ends};
ghost use Rattle.mail_base.specs.Whites.{is_white, stripped, without_whites};

use crate::is_white;
use bstr::ByteSlice;

/// How many bytes stand before the first white space.
pub fn word_length(text: &[u8]) -> usize
    ensures length { result ≡ position_or_len is_white text.now }
    ensures within { result ≤ length text.now }
{
    for (index, byte) in text.iter().enumerate() {
        if is_white(*byte) {
            return index;
        }
    }
    text.len()
}

/// How many bytes of white space a text begins with.
pub fn whites_length(text: &[u8]) -> usize
    ensures length { result ≡ prefix_len is_white text.now }
    ensures within { result ≤ length text.now }
{
    for (index, byte) in text.iter().enumerate() {
        if !is_white(*byte) {
            return index;
        }
    }
    text.len()
}

/// The text without the white space at its front.
pub fn without_whites(text: &[u8]) -> &[u8]
    ensures { result.now ≡ without_whites text.now }
{
    &text[whites_length(text)..]
}

/// The text without the white space at both ends.
pub fn stripped(text: &[u8]) -> &[u8]
    ensures { result.now ≡ stripped text.now }
{
    let rest = without_whites(text);
    let mut end = rest.len();
    'bytes: while end > 0 && is_white(rest[end - 1]) {
        end -= 1;
    }
    &rest[..end]
}

/// The text without the blanks at its front.
pub fn without_blanks(text: &[u8]) -> &[u8]
    ensures { result.now ≡ without_blanks text.now }
{
    &text[blanks_length(text)..]
}

/// The text without the blanks at both ends.
pub fn trimmed(text: &[u8]) -> &[u8]
    ensures { result.now ≡ trimmed text.now }
{
    let rest = without_blanks(text);
    &rest[..last_end(rest)]
}

/// The text without the two bytes around it, where it begins with `opens` and ends in `closes`; any
/// other text as it is.
pub fn without_ends(text: &[u8], opens: u8, closes: u8) -> &[u8]
    ensures { result.now ≡ without_ends opens closes text.now }
{
    match text.split_first() {
        Some((first, rest)) => {
            if *first == opens && ends_in(rest, closes) {
                return &rest[..rest.len() - 1];
            }
            text
        }
        None => text,
    }
}

/// A path without its angles; any other text as it is.
pub fn without_angles(path: &[u8]) -> &[u8]
    ensures { result.now ≡ without_angles path.now }
{
    without_ends(path, b'<', b'>')
}

fn ends_in(text: &[u8], byte: u8) -> bool
    ensures value { result ≡ ends_in byte text.now }
    ensures some { IsTrue result → 0 < length text.now }
{
    !text.is_empty() && text[text.len() - 1] == byte
}

fn blanks_length(text: &[u8]) -> usize
    ensures length { result ≡ prefix_len is_blank text.now }
    ensures within { result ≤ length text.now }
{
    text.find_not_byteset(b" \t").unwrap_or(text.len())
}

/// Where the last byte that isn't blank ends, or 0 where none is.
fn last_end(text: &[u8]) -> usize
    ensures end { result ≡ length text.now - suffix_len is_blank text.now }
    ensures within { result ≤ length text.now }
{
    match text.rfind_not_byteset(b" \t") {
        Some(place) => place + 1,
        None => 0,
    }
}
