//! Parses and prints a control text of so many rows, and counts its bytes.

use anyhow::{Result, ensure};
use mail_base::{Id, Kind, NoMemory, Text};
use qf_format::{parse, print};
use spool_disk::File;
use std::alloc::Global;

/// The directory of entries.
pub(crate) static DIR: &[u8] = b"/var/spool/mqueue";

/// What a control text of one sender and no rows begins with.
pub(crate) static FRONT: &[u8] =
    b"V1\nv1\ngmqueue\nT1767225600\nK0\nN0\nP30022\nc0\nS<bob@c.example>\n$rESMTP\n$sc.example\n\
        ${client_addr}\n";

static ROW: &[u8] = b"RPFD:<ann@mx.example>\neF 5.1.1 550 user unknown\n";

pub(crate) static END: &[u8] = b"HSubject: hi\n.\n";

/// That of an entry with one row, which is queued.
pub(crate) static ONE_ROW: &[u8] =
    b"V1\nv1\ngmqueue\nT1767225600\nK0\nN0\nP30022\nc0\nS<bob@c.example>\n$rESMTP\n$sc.example\n\
        ${client_addr}\nRPFD:<ann@mx.example>\neQ\nHSubject: hi\n.\n";

pub(crate) fn printed(alloc: Global, rows: u32, rounds: u32) -> Result<u64> {
    ensure!(rows > 0, "an entry has at least one row");
    let text = text_of(alloc, rows)?;
    Ok(print_often(&text, rounds)?)
}

/// A control text with so many rows that failed.
fn text_of(alloc: Global, rows: u32) -> Result<Text, NoMemory> {
    let mut text = Text::of(alloc, FRONT)?;
    for _ in 0..rows {
        text.extend(ROW)?;
    }
    text.extend(END)?;
    Ok(text)
}

fn print_often(text: &Text, rounds: u32) -> Result<u64, NoMemory> {
    let mut bytes = 0;
    for _ in 0..rounds {
        bytes = printed_again(text)?;
    }
    Ok(bytes)
}

/// How many bytes the text has once it is parsed and printed; none where it is no control text.
fn printed_again(text: &Text) -> Result<u64, NoMemory> {
    match parse(text)? {
        Some(control) => Ok(print(&control)?.len() as u64),
        None => Ok(0),
    }
}

/// A file of the entry of that id.
pub(crate) fn file_of(alloc: Global, id: Id, kind: Kind, bytes: &[u8]) -> Result<File, NoMemory> {
    Ok(File {
        dir: Text::of(alloc, DIR)?,
        name: Text::of(alloc, id.name(kind).bytes())?,
        bytes: Text::of(alloc, bytes)?,
    })
}
