// Rows of messages, as lines.
use crate::listed::add;
use mail_base::{Cause, Draw, NoMemory, Resolved, RouteError, Seq, Status, Text, Triple, words_of};
use std::alloc::Global;

/// The word at a place, or nothing.
pub(crate) fn word(words: &Seq<Text>, place: usize) -> &[u8] {
    match words.get(place) {
        Some(word) => word.bytes(),
        None => b"",
    }
}

fn triple_of(alloc: Global, words: &Seq<Text>) -> Result<Resolved, NoMemory> {
    let mailer = Text::of(alloc, word(words, 2))?;
    let host = Text::of(alloc, word(words, 3))?;
    let user = Text::of(alloc, word(words, 4))?;
    Ok(Resolved::Goes(Triple { mailer, host, user }))
}

// An error, whose code and text differ by a word.
fn error_of(alloc: Global, text: &[u8]) -> Result<Resolved, NoMemory> {
    let Some(status) = Status::of(b"5.1.1") else {
        return Err(NoMemory);
    };
    let text = Text::of(alloc, text)?;
    Ok(Resolved::Refuses(RouteError {
        code: 553,
        status,
        text,
        cause: Cause::NoUser,
    }))
}

fn resolved_of(alloc: Global, words: &Seq<Text>) -> Result<Resolved, NoMemory> {
    if word(words, 2) == b"error".as_slice() {
        return error_of(alloc, word(words, 3));
    }
    triple_of(alloc, words)
}

fn row_by(alloc: Global, words: &Seq<Text>) -> Result<Draw, NoMemory> {
    let address = Text::of(alloc, word(words, 0))?;
    let sender = Text::of(alloc, word(words, 1))?;
    let resolved = resolved_of(alloc, words)?;
    Ok(Draw {
        address,
        sender,
        primary: true,
        resolved,
    })
}

/// A row of a line: address, sender, and mailer, host and user, or `error` and a text.
pub(crate) fn row_of(alloc: Global, line: &[u8]) -> Result<Draw, NoMemory> {
    row_by(alloc, &words_of(alloc, line)?)
}

/// The rows of lines.
pub(crate) fn rows_of(alloc: Global, lines: &[&[u8]]) -> Result<Seq<Draw>, NoMemory> {
    let mut rows = Seq::new(alloc);
    for line in lines {
        rows.push(row_of(alloc, line)?)?;
    }
    Ok(rows)
}

/// Adds the addresses of rows to a text, each behind a blank.
pub(crate) fn put_addresses(out: &mut Text, rows: &[Draw]) -> Result<(), NoMemory> {
    for row in rows {
        add(out, &[b" ", row.address.bytes()])?;
    }
    Ok(())
}
