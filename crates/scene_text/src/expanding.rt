//! The lines of a file, with its repeats and uses written out.

use crate::number::given_number;
use crate::substitution::{Given, add_given};
use crate::text::{first_word, parted};
use crate::{Bad, Refusal};
use bstr::ByteSlice;
use mail_base::{NoMemory, Seq, Text};
use std::alloc::Global;

/// The most lines that a file is written out to.
const MOST_LINES: u32 = 1_000_000;

/// How deep uses and repeats may stand in each other.
const DEEPEST: usize = 8;

/// A line as it is written out, and the number of the line of the file that it comes of; of a line
/// of a block that of the use.
#[derive(Drop)]
pub struct Line {
    pub number: u32,
    pub text: Text,
}

// Lines that are gone over, from the first on up to one, in this turn of so many, and the line of
// the use that they stand for.
#[derive(Drop)]
struct Frame {
    user: Option<u32>,
    first: usize,
    at: usize,
    end: usize,
    turn: u64,
    last: u64,
    repeats: bool,
    arguments: Option<Text>,
}

/// The lines of a file, with its repeats and uses written out. Empty ones and comments are left
/// out.
pub fn expanded(alloc: Global, file: &[u8]) -> Result<Seq<Line>, Refusal> {
    let mut lines = Seq::new(alloc);
    let mut line = 0u32;
    match write_out(alloc, file, &mut line, &mut lines) {
        Ok(()) => Ok(lines),
        Err(why) => Err(Refusal { line, why }),
    }
}

// Adds all lines of a file, and tells the number of the one that it is at.
fn write_out(alloc: Global, file: &[u8], at: &mut u32, lines: &mut Seq<Line>) -> Result<(), Bad> {
    let source = lines_of(alloc, file)?;
    let mut frames = Vec::new(alloc);
    push_frame(&mut frames, whole(source.len()))?;
    go_over(&source, at, &mut frames, lines)
}

fn lines_of(alloc: Global, file: &[u8]) -> Result<Vec<&[u8]>, NoMemory> {
    Ok(file.split(|byte| *byte == b'\n').collect(alloc)?)
}

fn go_over(
    source: &[&[u8]],
    at: &mut u32,
    frames: &mut Vec<Frame>,
    lines: &mut Seq<Line>,
) -> Result<(), Bad> {
    for _ in 0..MOST_LINES {
        let Some(place) = next_place(frames) else {
            return Ok(());
        };
        *at = place.saturating_add(1).min(1_000_000_000) as u32;
        take(source, place, *at, frames, lines)?;
    }
    Err(Bad::Large)
}

fn whole(end: usize) -> Frame {
    Frame {
        user: None,
        first: 0,
        at: 0,
        end,
        turn: 0,
        last: 0,
        repeats: false,
        arguments: None,
    }
}

fn push_frame(frames: &mut Vec<Frame>, frame: Frame) -> Result<(), Bad> {
    if frames.len() > DEEPEST {
        return Err(Bad::Deep);
    }
    frames.push(frame).map_err(NoMemory::from)?;
    Ok(())
}

// The place of the next line. Where there is none, all is gone over.
fn next_place(frames: &mut Vec<Frame>) -> Option<usize> {
    for _ in 0..MOST_LINES {
        let frame = frames.last_mut()?;
        if let Some(place) = frame.next() {
            return Some(place);
        }
        let _over = frames.pop();
    }
    None
}

impl Frame {
    fn next(&mut self) -> Option<usize> {
        if self.at >= self.end && self.turn < self.last {
            self.turn = self.turn.saturating_add(1);
            self.at = self.first;
        }
        if self.at >= self.end {
            return None;
        }
        let place = self.at;
        self.at = self.at.saturating_add(1);
        Some(place)
    }

    fn given(&self) -> Given<'_> {
        let turn = if self.repeats { Some(self.turn) } else { None };
        let arguments = match &self.arguments {
            Some(words) => Some(words.bytes()),
            None => None,
        };
        Given { turn, arguments }
    }
}

// Takes a line: it is added with what it is given, or the lines that it stands for come next.
fn take(
    source: &[&[u8]],
    place: usize,
    number: u32,
    frames: &mut Vec<Frame>,
    lines: &mut Seq<Line>,
) -> Result<(), Bad> {
    let Some(line) = source.get(place) else {
        return Ok(());
    };
    if line.is_empty() || line.starts_with(b"#") {
        return Ok(());
    }
    let mut text = Text::new(lines.allocator());
    if let Some(frame) = frames.last() {
        add_given(&mut text, line, frame.given())?;
    }
    let number = user_of(frames).unwrap_or(number);
    if is_plain(source, place, number, text.bytes(), frames)? {
        lines.push(Line { number, text })?;
    }
    Ok(())
}

// Whether a line stands for itself. Else the lines that it stands for come next.
fn is_plain(
    source: &[&[u8]],
    place: usize,
    number: u32,
    line: &[u8],
    frames: &mut Vec<Frame>,
) -> Result<bool, Bad> {
    let (word, rest) = first_word(line);
    if word == b"block".as_slice() {
        skip(frames, end_of(source, place)?);
    } else if word == b"repeat".as_slice() {
        repeat(source, place, turns_of(rest)?, frames)?;
    } else if word == b"use".as_slice() {
        use_block(source, place, number, rest, frames)?;
    } else {
        return Ok(true);
    }
    Ok(false)
}

// The line of the use that lines stand for.
fn user_of(frames: &[Frame]) -> Option<u32> {
    frames.last()?.user
}

// The turns of a repeat: `N`, or `A..B`.
fn turns_of(words: &[u8]) -> Result<(u64, u64), Bad> {
    match words.split_once_str(b"..") {
        Some((first, last)) => Ok((given_number(first)?, given_number(last)?)),
        None => Ok((1, given_number(words)?)),
    }
}

// The place of the `end` of a block or a repeat, in which a repeat of a block may end before.
fn end_of(source: &[&[u8]], place: usize) -> Result<usize, Bad> {
    let mut open = 0u32;
    for at in place..source.len() {
        let Some(line) = source.get(at) else {
            return Err(Bad::NoEnd);
        };
        let (word, _rest) = first_word(line);
        if word == b"repeat".as_slice() || word == b"block".as_slice() {
            open = open.saturating_add(1);
        }
        if word == b"end".as_slice() {
            open = open.saturating_sub(1);
            if open == 0 {
                return Ok(at);
            }
        }
    }
    Err(Bad::NoEnd)
}

// Goes on behind a place.
fn skip(frames: &mut Vec<Frame>, end: usize) {
    if let Some(frame) = frames.last_mut() {
        frame.at = frame.at.max(end.saturating_add(1));
    }
}

fn repeat(
    source: &[&[u8]],
    place: usize,
    (first, last): (u64, u64),
    frames: &mut Vec<Frame>,
) -> Result<(), Bad> {
    let end = end_of(source, place)?;
    let arguments = arguments_of(frames)?;
    let user = user_of(frames);
    skip(frames, end);
    if last < first {
        return Ok(());
    }
    push_frame(
        frames,
        Frame {
            user,
            first: place.saturating_add(1),
            at: place.saturating_add(1),
            end,
            turn: first,
            last,
            repeats: true,
            arguments,
        },
    )
}

// The arguments of the use that is gone over, which lines of a repeat in it have too.
fn arguments_of(frames: &[Frame]) -> Result<Option<Text>, Bad> {
    let Some(frame) = frames.last() else {
        return Ok(None);
    };
    if frame.repeats {
        return Err(Bad::Nested);
    }
    match &frame.arguments {
        Some(words) => Ok(Some(Text::of(words.allocator(), words.bytes())?)),
        None => Ok(None),
    }
}

fn use_block(
    source: &[&[u8]],
    place: usize,
    number: u32,
    words: &[u8],
    frames: &mut Vec<Frame>,
) -> Result<(), Bad> {
    let (name, rest) = match parted(words, b' ') {
        Some((name, rest)) => (name, Some(rest)),
        None => (words, None),
    };
    let first = block_of(source, place, name)?;
    let end = end_of(source, first)?;
    let arguments = match rest {
        Some(rest) => Some(Text::of(*frames.allocator(), rest)?),
        None => None,
    };
    push_frame(
        frames,
        Frame {
            user: Some(number),
            first: first.saturating_add(1),
            at: first.saturating_add(1),
            end,
            turn: 0,
            last: 0,
            repeats: false,
            arguments,
        },
    )
}

// The place of the last block of that name above a line.
fn block_of(source: &[&[u8]], place: usize, name: &[u8]) -> Result<usize, Bad> {
    for at in (0..place).rev() {
        let Some(line) = source.get(at) else {
            return Err(Bad::NoBlock);
        };
        if line.strip_prefix(b"block ".as_slice()) == Some(name) {
            return Ok(at);
        }
    }
    Err(Bad::NoBlock)
}
