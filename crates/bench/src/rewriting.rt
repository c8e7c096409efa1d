//! Rewrites a header of so many members for a mailer that hides the host of each, and counts the
//! bytes that it has then. Of two members one has a name before its address, and a comment and a
//! fold behind it.

use crate::configured::World;
use crate::names::{FIRST, add};
use anyhow::{Result, bail};
use mail_base::{Mailer, NoMemory, Seq, Text};
use std::alloc::Global;

static CONFIG: &[u8] = b"O OperatorChars=.:%@!^/[]+
Mhub, P=[IPC], F=mu, S=envs/hide, A=TCP $h
Scanonify=3
R$* < $+ > $*\t$2
R$+ @ $+\t$: $1 < @ $2 >
Senvs
Shide
R$+ < @ $+ >\t$: $1 < @ hub.example >
Sfinal=4
R$+ < @ $+ >\t$1 @ $2
";

pub(crate) fn rewritten(alloc: Global, members: u32, rounds: u32) -> Result<u64> {
    let headers = headers(alloc, members)?;
    let name = Text::of(alloc, b"hub")?;
    let world = World::of(alloc, CONFIG)?;
    match world.config.mailer(&name) {
        Some(mailer) => Ok(rewrite_often(&world, mailer, &headers, rounds)?),
        None => bail!("no mailer"),
    }
}

fn headers(alloc: Global, members: u32) -> Result<Seq<Text>, NoMemory> {
    let mut headers = Seq::new(alloc);
    headers.push(header(alloc, members)?)?;
    Ok(headers)
}

/// A header with so many members.
fn header(alloc: Global, members: u32) -> Result<Text, NoMemory> {
    let mut text = Text::of(alloc, b"From: first@c.example")?;
    for number in FIRST..FIRST.saturating_add(members.saturating_sub(1)) {
        add_member(&mut text, number)?;
    }
    Ok(text)
}

fn add_member(text: &mut Text, number: u32) -> Result<(), NoMemory> {
    if number % 2 == 0 {
        return add(text, ", u", number, "@c.example");
    }
    add(text, ", \"U. ", number, "\"")?;
    add(text, " <u", number, "@c.example> (office)\r\n ")
}

/// The bytes that headers have when they were rewritten, so many times.
fn rewrite_often(
    world: &World,
    mailer: &Mailer,
    headers: &Seq<Text>,
    rounds: u32,
) -> Result<u64, NoMemory> {
    let mut bytes = 0;
    for _ in 0..rounds {
        bytes = rewrite(world, mailer, headers)?;
    }
    Ok(bytes)
}

fn rewrite(world: &World, mailer: &Mailer, headers: &Seq<Text>) -> Result<u64, NoMemory> {
    let config = &world.config;
    let texts = header_rewrite::rewritten(config, &world.maps, &config.macros, mailer, headers)?;
    let mut bytes = 0u64;
    for text in texts.items() {
        bytes = bytes.wrapping_add(text.len() as u64);
    }
    Ok(bytes)
}
