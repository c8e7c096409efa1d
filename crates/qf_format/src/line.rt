ghost use Rattle.std.specs.Prelude.{◌≡◌, ◌<◌, ◌↔◌, ◌++◌, IsTrue, codes, FitsSigned};
ghost use Rattle.std.specs.Int.{w64, w128};
ghost use Rattle.std.specs.Fmt.{decimal, signed_decimal};
ghost use Rattle.mail_base.specs.Texts.{IsBracketed};
ghost use Rattle.qf_format.specs.inner.Reading.{Reads, Spells, Anything};
ghost use Rattle.qf_format.specs.inner.Parts.{At, NotAt, HasBrackets, IsMarked, IsSmall, AnyMarks, AnyBool, IsParentOrNone, letter_first, parent_text};
ghost use Rattle.qf_format.specs.Spelling.{eight_line, letters, line, marks_line, parent_line};
ghost use Rattle.qf_format.specs.Valid.{IsParent, IsRevision};

use crate::field::{after_tag, byte_at, field, first_byte, split_end, text_field};
use crate::number::{class_of, id_of, priority_of, revision_of, small_of};
use crate::stop::Stop;
use bstr::ByteSlice;
use mail_base::{Marks, Parent, Text};
use std::alloc::Global;

/// The line of a number below 2^64.
pub(crate) fn number_line<'a>(tag: &[u8], bytes: &'a [u8]) -> Result<(u64, &'a [u8]), Stop>
    ensures { Reads (λ r. r.0) (λ r. r.1.now) (λ n. line (tag.now ++ decimal n)) IsSmall
        Anything bytes.now result }
{
    let (text, rest) = field(tag, bytes)?;
    match small_of(text) {
        Some(number) => Ok((number, rest)),
        None => Err(Stop::Outside),
    }
}

pub(crate) fn revision_line<'a>(tag: &[u8], bytes: &'a [u8]) -> Result<(u64, &'a [u8]), Stop>
    ensures { Reads (λ r. r.0) (λ r. r.1.now) (λ n. line (tag.now ++ decimal n)) IsRevision
        Anything bytes.now result }
{
    let (text, rest) = field(tag, bytes)?;
    match revision_of(text) {
        Some(number) => Ok((number, rest)),
        None => Err(Stop::Outside),
    }
}

pub(crate) fn priority_line<'a>(tag: &[u8], bytes: &'a [u8]) -> Result<(i128, &'a [u8]), Stop>
    ensures { Reads (λ r. r.0) (λ r. r.1.now) (λ n. line (tag.now ++ signed_decimal n))
        (FitsSigned w128) Anything bytes.now result }
{
    let (text, rest) = field(tag, bytes)?;
    match priority_of(text) {
        Some(number) => Ok((number, rest)),
        None => Err(Stop::Outside),
    }
}

pub(crate) fn class_line<'a>(tag: &[u8], bytes: &'a [u8]) -> Result<(i64, &'a [u8]), Stop>
    ensures { Reads (λ r. r.0) (λ r. r.1.now) (λ n. line (tag.now ++ signed_decimal n))
        (FitsSigned w64) Anything bytes.now result }
{
    let (text, rest) = field(tag, bytes)?;
    match class_of(text) {
        Some(number) => Ok((number, rest)),
        None => Err(Stop::Outside),
    }
}

/// The line of the entry's parent, if it is there.
pub(crate) fn parent_of(bytes: &[u8]) -> Result<(Option<Parent>, &[u8]), Stop>
    ensures { Reads (λ r. r.0) (λ r. r.1.now) parent_line IsParentOrNone
        (NotAt 112) bytes.now result }
{
    if first_byte(bytes) != b'p' {
        return Ok((None, bytes));
    }
    let (text, rest) = field(b"p", bytes)?;
    match parent_text(text) {
        Some(parent) => Ok((Some(parent), rest)),
        None => Err(Stop::Outside),
    }
}

// A parent: an id, a space and a revision.
fn parent_text(bytes: &[u8]) -> Option<Parent>
    ensures { Spells parent_text IsParent bytes.now result }
{
    let at = bytes.find_byte(b' ')?;
    let (id, revision) = split_end(bytes, at);
    Some(Parent {
        id: id_of(id)?,
        revision: revision_of(revision)?,
    })
}

/// The line of the marks, where some are set.
pub(crate) fn marks_of(bytes: &[u8]) -> Result<(Marks, &[u8]), Stop>
    ensures { Reads (λ r. r.0) (λ r. r.1.now) marks_line AnyMarks (NotAt 70) bytes.now result }
{
    if first_byte(bytes) != b'F' {
        return Ok((marks(false, false, false), bytes));
    }
    let (text, rest) = field(b"F", bytes)?;
    match letters_of(text) {
        Some(marks) => Ok((marks, rest)),
        None => Err(Stop::Outside),
    }
}

fn marks(bounce: bool, double: bool, warned: bool) -> Marks
    ensures { result ≡ record { bounce = bounce; double = double; warned = warned } }
{
    Marks {
        bounce,
        double,
        warned,
    }
}

// The marks of letters, of which there are some.
fn letters_of(bytes: &[u8]) -> Option<Marks>
    ensures { Spells letters IsMarked bytes.now result }
{
    if bytes.is_empty() {
        return None;
    }
    let (bounce, rest) = letter_of(b'b', bytes);
    let (double, rest) = letter_of(b'd', rest);
    let (warned, rest) = letter_of(b'w', rest);
    if !rest.is_empty() {
        return None;
    }
    Some(marks(bounce, double, warned))
}

// Whether a letter is first, and what comes after it.
fn letter_of(letter: u8, bytes: &[u8]) -> (bool, &[u8])
    requires { 0 < letter }
    ensures { (result.0, result.1.now) ≡ letter_first letter bytes.now }
{
    if first_byte(bytes) == letter {
        (true, &bytes[1..])
    } else {
        (false, bytes)
    }
}

/// Whether the line of 8BITMIME is there, and what comes after it.
pub(crate) fn eight_of(bytes: &[u8]) -> Result<(bool, &[u8]), Stop>
    ensures { Reads (λ r. r.0) (λ r. r.1.now) eight_line AnyBool (At 83) bytes.now result }
{
    match after_tag(b"B8BITMIME\n", bytes) {
        Some(rest) => Ok((true, rest)),
        None => Ok((false, bytes)),
    }
}

pub(crate) fn sender_of(alloc: Global, bytes: &[u8]) -> Result<(Text, &[u8]), Stop>
    ensures { Reads (λ r. r.0) (λ r. r.1.now) (λ text. line (codes "S" ++ text)) IsBracketed
        Anything bytes.now result }
{
    let (sender, rest) = text_field(alloc, b"S", bytes)?;
    if !has_brackets(sender.bytes()) {
        return Err(Stop::Outside);
    }
    Ok((sender, rest))
}

/// Whether a text begins and ends with the brackets of a path.
pub(crate) fn has_brackets(text: &[u8]) -> bool
    ensures { IsTrue result ↔ HasBrackets text.now }
{
    first_byte(text) == b'<' && byte_at(text, text.len().saturating_sub(1)) == b'>'
}
