ghost use Rattle.std.specs.Prelude.{◌≡◌, ◌<◌, ◌^◌, ◌≤◌, ◌+◌, ◌++◌, ◌∷◌, [], false, ◌&&◌, IfOk, IsTrue, OnOk, length, filter, if◌then◌else◌};
ghost use Rattle.std.specs.List.{slice_split};
ghost use Rattle.mail_base.specs.Texts.{is_lf};
ghost use Rattle.alias_expand.specs.Lines as spec;
ghost use Rattle.alias_expand.specs.Lines.{goes_on, is_heard};
ghost use Rattle.alias_expand.specs.inner.Cutting.{added, heard_on, onto_last, part_of};

use bstr::ByteSlice;
use mail_base::{NoMemory, Text, is_white};
use std::alloc::Global;

/// A line of an alias file with those that go on with it, and the number of its first physical
/// line, from 1.
#[derive(Drop)]
pub(crate) struct Line {
    pub number: u32,
    pub text: Text,
}

/// The lines of an alias file, each with those that continue it, without those that say nothing.
pub(crate) fn logical_lines(alloc: Global, text: &[u8]) -> Result<Vec<Line>, NoMemory>
    requires { length text.now < 2 ^ 32 }
    ensures { IfOk result (λ lines. lines.items ≡ spec.logical_lines text.now) }
{
    let joined = joined_lines(alloc, text)?;
    grouped(alloc, joined.as_slice())
}

// The physical lines of a text, each with what goes on with it behind a backslash.
fn joined_lines(alloc: Global, text: &[u8]) -> Result<Vec<Line>, NoMemory>
    requires { length text.now < 2 ^ 32 }
    ensures { IfOk result (λ lines. filter is_heard lines.items ≡ spec.heard_lines text.now) }
{
    let mut lines = Vec::new(alloc);
    let mut rest = text;
    let mut behind = false;
    let mut number: u32 = 0;
    'lines: while !rest.is_empty() {
        let (line, after, ended) = split_lf(rest);
        number += 1;
        let is_open = is_open(ended, behind, line);
        add(alloc, &mut lines, behind, number, part_of(line, is_open))?;
        behind = is_open;
        rest = after;
    }
    Ok(lines)
}

/// The first physical line, what stands behind its LF, and whether it has one.
pub(crate) fn split_lf(text: &[u8]) -> (&[u8], &[u8], bool)
    requires { 0 < length text.now }
    ensures lines { slice_split is_lf text.now
        ≡ result.0.now ∷ (if result.2 then slice_split is_lf result.1.now else []) }
    ensures last { result.2 ≡ false → result.1.now ≡ [] }
    ensures shorter { length result.1.now < length text.now }
{
    match text.find_byte(b'\n') {
        Some(end) => (&text[..end], &text[end + 1..], true),
        None => (text, &[], false),
    }
}

// Whether the next physical line goes on with this one, which may have an LF and may stand behind
// another.
fn is_open(ended: bool, behind: bool, line: &[u8]) -> bool
    ensures { result ≡ (ended && goes_on behind line.now) }
{
    ended && ends_open(line) && (behind || line[0] != b'#')
}

fn ends_open(line: &[u8]) -> bool
    ensures ends { result ≡ spec.ends_open line.now }
    ensures some { IsTrue result → 0 < length line.now }
{
    !line.is_empty() && line[line.len() - 1] == b'\\'
}

// A physical line without the backslash by which the next one goes on.
fn part_of(line: &[u8], is_open: bool) -> &[u8]
    ensures { result.now ≡ part_of line.now is_open }
{
    if is_open && !line.is_empty() {
        return &line[..line.len() - 1];
    }
    line
}

// Adds a physical line: as a line, or onto the last one.
fn add(
    alloc: Global,
    lines: &mut Vec<Line>,
    behind: bool,
    number: u32,
    text: &[u8],
) -> Result<(), NoMemory>
    ensures { OnOk result (lines.new.items ≡ added behind number text.now lines.old.items) }
{
    if behind {
        return lengthen_last(lines, &[], text);
    }
    lines.push(Line {
        number,
        text: Text::of(alloc, text)?,
    })?;
    Ok(())
}

// Puts two texts behind the last line.
#[tactic(auto, using(crate::proofs::JoinLemmas::onto_last_push, crate::proofs::JoinLemmas::texts_behind))]
fn lengthen_last(lines: &mut Vec<Line>, first: &[u8], second: &[u8]) -> Result<(), NoMemory>
    ensures { OnOk result (lines.new.items ≡ onto_last (first.now ++ second.now) lines.old.items) }
{
    let Some(last) = lines.pop() else {
        return Ok(());
    };
    let Line { number, mut text } = last;
    text.extend(first)?;
    text.extend(second)?;
    lines.push(Line { number, text })?;
    Ok(())
}

// The lines that say something, each with those that continue it.
fn grouped(alloc: Global, joined: &[Line]) -> Result<Vec<Line>, NoMemory>
    ensures { IfOk result (λ lines. lines.items ≡ spec.grouped (filter is_heard joined.now)) }
{
    let mut lines = Vec::new(alloc);
    for line in joined {
        hear(alloc, &mut lines, line)?;
    }
    Ok(lines)
}

// Whether a line says something.
fn is_heard(line: &Line) -> bool
    ensures { result ≡ spec.is_heard line.now }
{
    match line.text.bytes().first() {
        Some(first) => *first != b'#',
        None => false,
    }
}

/// Whether a line begins with white space.
pub(crate) fn is_indented(text: &[u8]) -> bool
    ensures { result ≡ spec.is_indented text.now }
{
    match text.first() {
        Some(first) => is_white(*first),
        None => false,
    }
}

// Adds a line, onto the last one where it continues that, unless it says nothing.
fn hear(alloc: Global, lines: &mut Vec<Line>, line: &Line) -> Result<(), NoMemory>
    ensures { OnOk result (lines.new.items
        ≡ (if spec.is_heard line.now then heard_on line.now lines.old.items else lines.old.items)) }
{
    if !is_heard(line) {
        return Ok(());
    }
    if is_indented(line.text.bytes()) && !lines.is_empty() {
        return lengthen_last(lines, b" ", line.text.bytes());
    }
    lines.push(Line {
        number: line.number,
        text: Text::of(alloc, line.text.bytes())?,
    })?;
    Ok(())
}
