//! Cuts a text of a mebibyte into tokens, of the kind `mixed`, `words` or `comment`, or as sides of
//! rules, of the kind `sides` or `side_words`, and counts the tokens, none where the text is
//! refused.

use addr_tokens::{ScanFault, lexemes, tokens};
use anyhow::{Result, bail};
use mail_base::{NoMemory, Text};
use std::alloc::Global;

const SIZE: usize = 1_048_576;

/// What the text repeats.
#[derive(Clone, Copy)]
enum Kind {
    /// Addresses with quoted strings, comments and angles.
    Mixed,
    /// Words of 1,023 bytes, of which there are not too many.
    Words,
    /// One comment in many.
    Comment,
    /// Sides of rules.
    Sides,
    /// The same words as a side of a rule.
    SideWords,
}

pub(crate) fn cut(alloc: Global, kind: &str, rounds: u32) -> Result<u64> {
    let kind = kind_of(kind)?;
    let text = text_of(alloc, kind)?;
    let operators = Text::of(alloc, b".:@[]")?;
    Ok(cut_often(kind, &text, &operators, rounds)?)
}

fn kind_of(word: &str) -> Result<Kind> {
    match word {
        "mixed" => Ok(Kind::Mixed),
        "words" => Ok(Kind::Words),
        "comment" => Ok(Kind::Comment),
        "sides" => Ok(Kind::Sides),
        "side_words" => Ok(Kind::SideWords),
        _ => bail!("no kind of text"),
    }
}

/// The text of a kind.
fn text_of(alloc: Global, kind: Kind) -> Result<Text, NoMemory> {
    let mut text = Text::new(alloc);
    for place in 0..SIZE {
        text.push(byte_at(kind, place))?;
    }
    Ok(text)
}

fn byte_at(kind: Kind, place: usize) -> u8 {
    let mixed = b"\"Ann B.\" <ann.b@mx.example> (home (old)), carl\\@x@[10.1.2.3]; d ";
    let side = b"$* < @ $=w . $~{x} > $&m \"a $1\" $(host $1 $: $2 $) $[ $3 $] a$$b ";
    match kind {
        Kind::Mixed => mixed[place % mixed.len()],
        Kind::Sides => side[place % side.len()],
        Kind::Words | Kind::SideWords if place % 1_024 == 1_023 => b' ',
        Kind::Words | Kind::SideWords => b'w',
        Kind::Comment if place < 1_000 => b'(',
        Kind::Comment if place >= SIZE - 1_000 => b')',
        Kind::Comment => b'c',
    }
}

fn cut_often(kind: Kind, text: &Text, operators: &Text, rounds: u32) -> Result<u64, NoMemory> {
    let mut count = 0;
    for _ in 0..rounds {
        count = told(count_of(kind, text, operators))?;
    }
    Ok(count)
}

/// How many there are, none where the text is refused.
fn told(count: Result<u64, ScanFault>) -> Result<u64, NoMemory> {
    match count {
        Ok(count) => Ok(count),
        Err(ScanFault::NoMemory) => Err(NoMemory),
        Err(_) => Ok(0),
    }
}

fn count_of(kind: Kind, text: &Text, operators: &Text) -> Result<u64, ScanFault> {
    let alloc = text.allocator();
    match kind {
        Kind::Mixed | Kind::Words | Kind::Comment => {
            Ok(tokens(alloc, text, operators, true)?.len() as u64)
        }
        Kind::Sides | Kind::SideWords => Ok(lexemes(alloc, text, operators, false)?.len() as u64),
    }
}
