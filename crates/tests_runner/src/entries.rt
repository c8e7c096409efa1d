//! Control texts of entries, and the files that they stand in.

use mail_base::{NoMemory, Seq, Text};
use spool_disk::File;
use std::alloc::{AllocError, Global};

/// An entry, as a message to some recipients.
#[derive(Clone, Copy)]
pub(crate) struct Letter {
    /// The lines of what it is marked with and how it was declared.
    pub marks: &'static str,
    pub class: &'static str,
    pub sender: &'static str,
    /// Its recipients, parted by blanks: a user of this host, an address in brackets, or a
    /// program behind its bar; behind a `=` its state: S, F or Q.
    pub rows: &'static str,
}

/// A message of 22 bytes from bob.
pub(crate) fn from_bob(rows: &'static str) -> Letter {
    Letter {
        marks: "",
        class: "0",
        sender: "<bob@c.example>",
        rows,
    }
}

fn state_of(letter: &str) -> &'static str {
    match letter {
        "S" => "eS",
        "F" => "eF 5.1.1 exit 67",
        "Q" => "eQ exit 75",
        _ => "eQ",
    }
}

fn put_row(out: &mut String, row: &str) -> Result<(), AllocError> {
    let (address, letter) = match row.split_once('=') {
        Some((address, letter)) => (address, letter),
        None => (row, ""),
    };
    let state = state_of(letter);
    if address.starts_with('<') || address.starts_with('|') {
        return write!(out, "RPFD:{address}\n{state}\n");
    }
    write!(out, "RPFD:<{address}@mx.example>\n{state}\n")
}

// Adds the control text of an entry.
fn put_control(out: &mut String, letter: &Letter) -> Result<(), AllocError> {
    let mut priority = 22u64;
    for _ in letter.rows.split(' ') {
        priority = priority.saturating_add(30_000);
    }
    let (class, marks, sender) = (letter.class, letter.marks, letter.sender);
    write!(
        out,
        "V1\nv1\ngmqueue\nT1767225600\nK0\nN0\nP{priority}\nc{class}\n{marks}S{sender}\n"
    )?;
    out.push_str("$rESMTP\n$sc.example\n${client_addr}\n")?;
    for row in letter.rows.split(' ') {
        put_row(out, row)?;
    }
    out.push_str(
        "HReceived: from c.example by mx.example with ESMTP id w000000000001; \
         Thu, 1 Jan 2026 00:00:00 +0000\nHSubject: hi\n.\n",
    )
}

fn put_file(files: &mut Seq<File>, name: &[u8], bytes: &[u8]) -> Result<(), NoMemory> {
    let alloc = files.allocator();
    let dir = Text::of(alloc, b"/q")?;
    let name = Text::of(alloc, name)?;
    let bytes = Text::of(alloc, bytes)?;
    files.push(File { dir, name, bytes })
}

/// The files of an entry.
pub(crate) fn files_for(alloc: Global, letter: &Letter) -> Result<Seq<File>, NoMemory> {
    let mut control = String::new(alloc);
    let mut files = Seq::new(alloc);
    put_control(&mut control, letter)?;
    put_file(&mut files, b"dfw000000000001", b"hello\r\n")?;
    put_file(&mut files, b"qfw000000000001", control.as_bytes())?;
    Ok(files)
}
