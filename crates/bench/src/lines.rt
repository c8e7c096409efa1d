//! Feeds a message of 1,048,560 bytes to a reader of lines, in pieces of so many bytes, and counts
//! the lines that it gives.

ghost use Rattle.std.specs.Prelude.{◌<◌};

use anyhow::{Result, ensure};
use mail_base::NoMemory;
use smtp_lines::Lines;
use std::alloc::Global;

pub(crate) fn fed(alloc: Global, size: u32, rounds: u32) -> Result<u64> {
    ensure!(size > 0, "a piece has at least one byte");
    let message = lines_of(alloc, b"text  ", 13_107)?;
    Ok(feed(alloc, &message, size as usize, rounds)?)
}

/// So many lines that begin with these six bytes and have 78 without their ends, in memory of their
/// size.
pub(crate) fn lines_of(alloc: Global, front: &[u8; 6], count: u32) -> Result<Vec<u8>, NoMemory> {
    let mut bytes = Vec::with_capacity(alloc, (count as usize).wrapping_mul(80))?;
    for _ in 0..count {
        bytes.extend_from_slice(front)?;
        for _ in 0..72u32 {
            bytes.push(b'x')?;
        }
        bytes.extend_from_slice(b"\r\n")?;
    }
    Ok(bytes)
}

/// A reader that takes lines of a message.
pub(crate) fn reader_of_data(alloc: Global) -> Result<Lines, NoMemory> {
    let mut reader = Lines::new(alloc);
    let _command = reader.feed(b"DATA\r\n")?;
    if reader.may_turn() {
        reader.data();
    }
    Ok(reader)
}

fn feed(alloc: Global, message: &[u8], size: usize, rounds: u32) -> Result<u64, NoMemory>
    requires { 0 < size }
{
    let mut reader = reader_of_data(alloc)?;
    let mut lines = 0u64;
    for _ in 0..rounds {
        for piece in message.chunks(size) {
            lines = lines.wrapping_add(reader.feed(piece)?.len() as u64);
        }
    }
    Ok(lines)
}
