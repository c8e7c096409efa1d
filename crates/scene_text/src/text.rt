//! The signs that stand for other bytes.

use crate::Bad;
use crate::number::given_number;
use bstr::ByteSlice;
use mail_base::{NoMemory, Text};
use std::slice;

/// The most bytes of a text.
const MOST_TEXT: usize = 67_108_864;

/// What stands in front of the first such sign, and behind it.
pub fn parted(bytes: &[u8], sign: u8) -> Option<(&[u8], &[u8])> {
    bytes.split_once_str(&[sign])
}

/// The first word, and what stands behind the blank that ends it.
pub(crate) fn first_word(words: &[u8]) -> (&[u8], &[u8]) {
    parted(words, b' ').unwrap_or((words, &[]))
}

/// Adds a word of a program that is started, with a blank in front of it unless it is the first.
/// Blanks and backslashes in it are written as codes, so that each list of words has a text of its
/// own.
pub fn put_word(text: &mut Text, word: &[u8]) -> Result<(), NoMemory> {
    if !text.is_empty() {
        text.push(b' ')?;
    }
    for byte in word {
        let written = match *byte {
            b' ' => b"\\x20".as_slice(),
            b'\\' => b"\\\\".as_slice(),
            _ => slice::from_ref(byte),
        };
        text.extend(written)?;
    }
    Ok(())
}

/// Adds what is written, with each sign as the byte that it stands for.
pub(crate) fn add_text(text: &mut Text, written: &[u8]) -> Result<(), Bad> {
    let mut rest = written;
    for _ in 0..written.len() {
        if rest.is_empty() {
            break;
        }
        rest = match rest {
            [b'\\', b'{', behind @ ..] => add_repeated(text, behind)?,
            _ => add_part(text, rest)?,
        };
    }
    Ok(())
}

// Adds what is written without repetitions.
fn add_simple(text: &mut Text, written: &[u8]) -> Result<(), Bad> {
    let mut rest = written;
    for _ in 0..written.len() {
        if rest.is_empty() {
            break;
        }
        rest = add_part(text, rest)?;
    }
    Ok(())
}

// Adds the bytes up to the next backslash, or one sign, and gives what stands behind.
fn add_part<'a>(text: &mut Text, written: &'a [u8]) -> Result<&'a [u8], Bad> {
    match written {
        [b'\\', b'x', high, low, behind @ ..] => {
            text.push(byte_of(*high, *low)?)?;
            Ok(behind)
        }
        [b'\\', sign, behind @ ..] => {
            text.extend(meant_by(*sign)?)?;
            Ok(behind)
        }
        [b'\\'] => Err(Bad::Escape),
        _ => Ok(add_plain(text, written)?),
    }
}

/// Adds the bytes up to the next backslash, and gives what stands behind.
pub(crate) fn add_plain<'a>(text: &mut Text, written: &'a [u8]) -> Result<&'a [u8], NoMemory> {
    let length = written.find_byte(b'\\').unwrap_or(written.len());
    let (front, behind) = written.split_at(length);
    text.extend(front)?;
    Ok(behind)
}

fn meant_by(sign: u8) -> Result<&'static [u8], Bad> {
    match sign {
        b'e' => Ok(b""),
        b't' => Ok(b"\t"),
        b'r' => Ok(b"\r"),
        b'n' => Ok(b"\n"),
        b'0' => Ok(b"\0"),
        b'\\' => Ok(b"\\"),
        _ => Err(Bad::Escape),
    }
}

fn byte_of(high: u8, low: u8) -> Result<u8, Bad> {
    Ok(digit_of(high)? * 16 + digit_of(low)?)
}

ghost use Rattle.std.specs.Prelude.{◌<◌, IfOk};

fn digit_of(sign: u8) -> Result<u8, Bad>
    ensures { IfOk result (λ digit. digit < 16) }
{
    match sign {
        b'0'..=b'9' => Ok(sign - b'0'),
        b'a'..=b'f' => Ok(sign - b'a' + 10),
        b'A'..=b'F' => Ok(sign - b'A' + 10),
        _ => Err(Bad::Escape),
    }
}

// Adds a text so many times, which stands before a brace, and gives what stands behind it.
fn add_repeated<'a>(text: &mut Text, written: &'a [u8]) -> Result<&'a [u8], Bad> {
    let (inside, behind) = parted(written, b'}').ok_or(Bad::Escape)?;
    let (times, once) = parted(inside, b'*').ok_or(Bad::Escape)?;
    let times = given_number(times)?;
    let mut part = Text::new(text.allocator());
    add_simple(&mut part, once)?;
    add_often(text, part.bytes(), times)?;
    Ok(behind)
}

fn add_often(text: &mut Text, part: &[u8], times: u64) -> Result<(), Bad> {
    for _ in 0..times {
        if text.len() > MOST_TEXT {
            return Err(Bad::Large);
        }
        text.extend(part)?;
    }
    Ok(())
}
