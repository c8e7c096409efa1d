//! Extends one class by so many lines of one member each, and counts the members that it has then.

use crate::names::numbered;
use anyhow::Result;
use mail_base::{Classes, Member, NoMemory, Seq, Text, Token, Word};
use std::alloc::Global;

pub(crate) fn members(alloc: Global, lines: u32, rounds: u32) -> Result<u64> {
    let name = Text::of(alloc, b"w")?;
    let mut members = 0;
    for _ in 0..rounds {
        members = extended(alloc, &name, lines)?;
    }
    Ok(members)
}

fn tokens_of(alloc: Global, name: &Text) -> Result<Seq<Token>, NoMemory> {
    let mut tokens = Seq::new(alloc);
    tokens.push(Token::Word(Word::of(alloc, name.bytes())?))?;
    Ok(tokens)
}

/// A member of one word.
fn member(alloc: Global, number: u32) -> Result<Member, NoMemory> {
    let text = numbered(alloc, "host", number, "")?;
    let tokens = Some(tokens_of(alloc, &text)?);
    Ok(Member { text, tokens })
}

fn line(alloc: Global, number: u32) -> Result<Seq<Member>, NoMemory> {
    let mut members = Seq::new(alloc);
    members.push(member(alloc, number)?)?;
    Ok(members)
}

fn extended(alloc: Global, name: &Text, lines: u32) -> Result<u64, NoMemory> {
    let mut classes = Classes::new(alloc);
    for number in 0..lines {
        classes.extend(name, line(alloc, number)?)?;
    }
    Ok(classes.members(name).len() as u64)
}
