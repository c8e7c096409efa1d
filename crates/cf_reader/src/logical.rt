ghost use Rattle.std.specs.Prelude.{◌≡◌, ◌+◌, ◌<◌, ◌≤◌, ◌^◌, [], ◌∷◌, length, IfNone, IfOk, IfSome, false};
ghost use Rattle.std.specs.List.{take_while};
ghost use Rattle.cf_reader.specs.LogicalLines.{physical_lines};
ghost use Rattle.cf_reader.specs.LogicalLines as spec;
ghost use Rattle.cf_reader.specs.inner.Scans.{left, read_on};

use mail_base::{NoMemory, Text, is_white, split_line};
use std::alloc::Global;

/// A logical line of a configuration file, and the number of its first physical line, from 1.
#[derive(Drop)]
pub struct Logical {
    pub number: u32,
    pub text: Text,
}

/// The next logical line of a text behind so many physical lines, with what follows its first
/// physical line, or `None` where there is none.
pub fn next_line<'a>(
    alloc: Global,
    number: u32,
    text: &'a [u8],
) -> Result<Option<(Logical, &'a [u8])>, NoMemory>
    requires { number + length text.now < 2 ^ 32 }
    ensures some { IfOk result (λ next. IfSome next (λ found.
        (left number text.now ≡ found.0 ∷ left found.0.number found.1.now)
        × (found.0.number + length found.1.now ≤ number + length text.now)
        × (length found.1.now < length text.now))) }
    ensures none { IfOk result (λ next. IfNone next (left number text.now ≡ [])) }
{
    let mut rest = text;
    let mut number = number;
    while !rest.is_empty() {
        let (line, after) = split_line(rest);
        number += 1;
        if !is_indented(line) && !is_silent(line) {
            let text = whole_line(alloc, line, after)?;
            return Ok(Some((Logical { number, text }, after)));
        }
        rest = after;
    }
    Ok(None)
}

fn is_indented(line: &[u8]) -> bool
    ensures { result ≡ spec.is_indented line.now }
{
    match line.first() {
        Some(byte) => *byte == b' ' || *byte == b'\t',
        None => false,
    }
}

fn is_silent(line: &[u8]) -> bool
    ensures { result ≡ spec.is_silent line.now }
{
    match line.first() {
        Some(byte) => *byte == b'#',
        None => true,
    }
}

fn joint_of(line: &[u8]) -> u8
    ensures { result ≡ spec.joint_of line.now }
{
    match line.first() {
        Some(byte) if *byte == b'H' => b'\n',
        _ => b' ',
    }
}

// The logical line that a physical line begins, with what stands after it.
fn whole_line(alloc: Global, line: &[u8], after: &[u8]) -> Result<Text, NoMemory>
    ensures { IfOk result
        (λ whole. whole ≡ spec.uncommented
        (spec.joined line.now (take_while spec.is_indented (physical_lines after.now)))) }
{
    if !goes_on(after) {
        return uncommented(alloc, line);
    }
    let joined = joined(alloc, line, after)?;
    uncommented(alloc, joined.bytes())
}

// Whether a text begins with lines that belong to the one before.
fn goes_on(text: &[u8]) -> bool
    ensures { result ≡ false → take_while spec.is_indented (physical_lines text.now) ≡ [] }
{
    if text.is_empty() {
        return false;
    }
    is_indented(split_line(text).0)
}

fn joined(alloc: Global, line: &[u8], after: &[u8]) -> Result<Text, NoMemory>
    ensures { IfOk result
        (λ text. text ≡ spec.joined line.now
        (take_while spec.is_indented (physical_lines after.now))) }
{
    let joint = joint_of(line);
    let mut text = Text::of(alloc, line)?;
    let mut rest = after;
    while !rest.is_empty() {
        let (more, next) = split_line(rest);
        if !is_indented(more) {
            return Ok(text);
        }
        text.push(joint)?;
        text.extend(more)?;
        rest = next;
    }
    Ok(text)
}

fn uncommented(alloc: Global, text: &[u8]) -> Result<Text, NoMemory>
    ensures { IfOk result (λ kept. kept ≡ spec.uncommented text.now) }
{
    let kept = before_comment(text);
    if kept.len() < text.len() {
        unshielded(alloc, trimmed(kept))
    } else {
        unshielded(alloc, kept)
    }
}

fn is_shield(byte: u8) -> bool
    ensures { result ≡ spec.is_shield byte }
{
    byte == b'\\' || byte == b'$'
}

#[tactic(auto, using(crate::proofs::ScanLemmas::comment_cut))]
fn before_comment(text: &[u8]) -> &[u8]
    ensures { result.now ≡ spec.before_comment text.now }
{
    up_to_comment(text)
}

fn up_to_comment(text: &[u8]) -> &[u8]
    ensures { result.now ≡ read_on 0 text.now }
{
    let mut last = 0;
    for (index, byte) in text.iter().enumerate() {
        if *byte == b'#' && !is_shield(last) {
            return &text[..index];
        }
        last = *byte;
    }
    text
}

fn trimmed(text: &[u8]) -> &[u8]
    ensures { result.now ≡ spec.trimmed text.now }
{
    let mut end = text.len();
    while end > 0 && is_white(text[end - 1]) {
        end -= 1;
    }
    &text[..end]
}

fn unshielded(alloc: Global, text: &[u8]) -> Result<Text, NoMemory>
    ensures { IfOk result (λ plain. plain ≡ spec.unshielded text.now) }
{
    let mut plain = Text::from_vec(Vec::with_capacity(alloc, text.len())?);
    for index in 0..text.len() {
        let is_shield = text[index] == b'\\' && text.get(index + 1) == Some(&b'#');
        if !is_shield {
            plain.push(text[index])?;
        }
    }
    Ok(plain)
}
