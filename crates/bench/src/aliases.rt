//! Alias files, and what addresses come to by them. `members` expands an alias of so many members,
//! `chain` the first of ten aliases that have so many members each and, but for the last, the next
//! alias, and both count the rows that come. `alias_file` reads an alias file of so many lines, and
//! counts how many times. `alias_names` looks up so many of its names as the third word says, and
//! counts those that are found.

use crate::configured::{World, no_files};
use crate::names::{FIRST, add, numbered};
use alias_expand::{Aliases, Homes, expand};
use anyhow::{Result, bail, ensure};
use mail_base::{NoMemory, Text};
use mail_edge::SureFiles;
use std::alloc::Global;

/// Each address is local, and so may be an alias.
static CONFIG: &[u8] = b"Mlocal, P=/bin/mail, F=lsDFMAw, A=mail -d $u\nS0\nR$*\t$#local $: $1\n";

/// As many aliases deep as MaxAliasRecursion allows where it isn't set.
pub(crate) const LINKS: u32 = 10;

/// What an alias comes to that has so many members, and the next alias so many times.
pub(crate) fn expanded(alloc: Global, links: u32, members: u32, rounds: u32) -> Result<u64> {
    let aliases = aliases_of(alloc, &chain_file(alloc, links, members)?)?;
    let world = World::of(alloc, CONFIG)?;
    rows_often(alloc, &aliases, &world, rounds)
}

pub(crate) fn read(alloc: Global, lines: u32, rounds: u32) -> Result<u64> {
    let text = names_file(alloc, lines)?;
    for _ in 0..rounds {
        let _aliases = aliases_of(alloc, &text)?;
    }
    Ok(u64::from(rounds))
}

pub(crate) fn found(alloc: Global, lines: u32, rounds: u32) -> Result<u64> {
    let aliases = aliases_of(alloc, &names_file(alloc, lines)?)?;
    Ok(looked_up(alloc, &aliases, lines, rounds)?)
}

/// So many aliases from `a0` on, of which each has so many members and the next alias, if any.
fn chain_file(alloc: Global, links: u32, members: u32) -> Result<Text, NoMemory> {
    let mut text = Text::new(alloc);
    for link in 0..links {
        add_members(&mut text, link, members)?;
        if link + 1 < links {
            add(&mut text, "a", link + 1, "")?;
        }
        text.push(b'\n')?;
    }
    Ok(text)
}

fn add_members(text: &mut Text, link: u32, members: u32) -> Result<(), NoMemory> {
    add(text, "a", link, ": ")?;
    for number in FIRST..FIRST.saturating_add(members) {
        add(text, "u", number, "")?;
        add(text, "x", link, ", ")?;
    }
    Ok(())
}

/// So many names with a member each.
fn names_file(alloc: Global, lines: u32) -> Result<Text, NoMemory> {
    let mut text = Text::new(alloc);
    for number in FIRST..FIRST.saturating_add(lines) {
        add(&mut text, "n", number, ": somebody@another.host.example\n")?;
    }
    Ok(text)
}

fn aliases_of(alloc: Global, text: &Text) -> Result<Aliases> {
    ensure!(text.len() < 1 << 32, "a large file");
    let mut aliases = Aliases::new(alloc);
    match aliases.read(text) {
        Ok(()) => Ok(aliases),
        Err(fault) => bail!("{fault}"),
    }
}

/// How many of the names are found, each asked once and again from the first on.
fn looked_up(alloc: Global, aliases: &Aliases, lines: u32, rounds: u32) -> Result<u64, NoMemory> {
    let mut found = 0u64;
    for round in 0..rounds {
        let name = numbered(alloc, "N", FIRST.saturating_add(round % lines.max(1)), "")?;
        if aliases.members(&name).is_some() {
            found = found.saturating_add(1);
        }
    }
    Ok(found)
}

/// How many rows the first of the aliases comes to, so many times.
fn rows_often(alloc: Global, aliases: &Aliases, world: &World, rounds: u32) -> Result<u64> {
    let homes = Homes::read(alloc, &Text::new(alloc))?;
    let mut files = no_files(alloc)?;
    let mut rows = 0;
    for _ in 0..rounds {
        rows = rows_once(alloc, aliases, &homes, world, &mut files)?;
    }
    Ok(rows)
}

fn rows_once(
    alloc: Global,
    aliases: &Aliases,
    homes: &Homes,
    world: &World,
    files: &mut SureFiles,
) -> Result<u64> {
    let address = Text::of(alloc, b"a0")?;
    let sender = Text::of(alloc, b"<bob@c.example>")?;
    match expand(
        alloc,
        aliases,
        homes,
        &world.config,
        &world.maps,
        &world.config.macros,
        files,
        &address,
        &sender,
    ) {
        Ok(rows) => Ok(rows.len() as u64),
        Err(_) => bail!("no rows"),
    }
}
