//! Feeds a message to a reader of lines, in pieces of so many bytes, gathers its lines, and counts
//! the bytes of headers and of body that are kept. Each time a message is fed: one of 65,520 bytes
//! of headers, or one of 16,777,200 bytes of body.

ghost use Rattle.std.specs.Prelude.{◌<◌};

use crate::lines::{lines_of, reader_of_data};
use anyhow::{Result, ensure};
use mail_base::{MOST_MESSAGE, NoMemory, Seq, Text};
use mail_header::Gathering;
use smtp_lines::Line;
use std::alloc::Global;

/// What a message is made of.
#[derive(Clone, Copy)]
pub(crate) enum Part {
    Headers,
    Body,
}

pub(crate) fn kept(alloc: Global, part: Part, size: u32, rounds: u32) -> Result<u64> {
    ensure!(size > 0, "a piece has at least one byte");
    let message = message(alloc, part)?;
    Ok(feed(alloc, &message, size as usize, rounds)?)
}

/// Lines of 78 bytes and their ends: 65,520 bytes of headers, or 16,777,200 of body.
pub(crate) fn message(alloc: Global, part: Part) -> Result<Vec<u8>, NoMemory> {
    match part {
        Part::Headers => lines_of(alloc, b"name: ", 819),
        Part::Body => lines_of(alloc, b"text  ", 209_715),
    }
}

fn feed(alloc: Global, message: &[u8], size: usize, rounds: u32) -> Result<u64, NoMemory>
    requires { 0 < size }
{
    let mut kept = 0u64;
    for _ in 0..rounds {
        let mut gathering = Gathering::new(alloc);
        gather_all(alloc, &mut gathering, message, size)?;
        let split = gathering.into_split();
        kept = kept.wrapping_add(split.block.wrapping_add(split.body.len() as u64));
    }
    Ok(kept)
}

fn gather_all(
    alloc: Global,
    gathering: &mut Gathering,
    message: &[u8],
    size: usize,
) -> Result<(), NoMemory>
    requires { 0 < size }
{
    let mut reader = reader_of_data(alloc)?;
    for piece in message.chunks(size) {
        gather(gathering, &reader.feed(piece)?)?;
    }
    Ok(())
}

fn gather(gathering: &mut Gathering, lines: &Seq<Line>) -> Result<(), NoMemory> {
    for line in lines.items() {
        if let Line::Data(text) = line {
            add(gathering, text)?;
        }
    }
    Ok(())
}

#[tactic(auto, unfolding(mail_base::specs::Limits::most_message))]
fn add(gathering: &mut Gathering, text: &Text) -> Result<(), NoMemory> {
    gathering.add(text.bytes(), MOST_MESSAGE)
}
