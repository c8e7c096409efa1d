//! Loads a hash map's file of so many lines, looks so many of its keys up as the third word says,
//! and counts those that are found.

use crate::configured::config_of;
use crate::names::{add, numbered};
use anyhow::Result;
use mail_base::{Macros, NoMemory, Seq, Text};
use map_tables::{Found, Maps, Named};
use std::alloc::Global;

static CONFIG: &[u8] = b"Kh hash /h\n";

pub(crate) fn found(alloc: Global, lines: u32, rounds: u32) -> Result<u64> {
    let maps = maps_of(alloc, lines)?;
    looked_up(alloc, &maps, lines, rounds)
}

fn key(alloc: Global, number: u32) -> Result<Text, NoMemory> {
    numbered(alloc, "user", number, "@host.example")
}

fn text_of(alloc: Global, lines: u32) -> Result<Text, NoMemory> {
    let mut text = Text::new(alloc);
    for number in 0..lines {
        add(
            &mut text,
            "user",
            number,
            "@host.example somebody@another.host.example\n",
        )?;
    }
    Ok(text)
}

fn file_of(alloc: Global, lines: u32) -> Result<Named, NoMemory> {
    Ok(Named {
        name: Text::of(alloc, b"/h")?,
        bytes: text_of(alloc, lines)?,
    })
}

fn files_of(alloc: Global, lines: u32) -> Result<Seq<Named>, NoMemory> {
    let mut files = Seq::new(alloc);
    files.push(file_of(alloc, lines)?)?;
    Ok(files)
}

fn maps_of(alloc: Global, lines: u32) -> Result<Maps> {
    let files = files_of(alloc, lines)?;
    let config = config_of(alloc, CONFIG)?;
    Ok(Maps::load(alloc, &config, &files, &Text::new(alloc))?)
}

/// How many of the keys are found, each asked once and again from the first on.
fn looked_up(alloc: Global, maps: &Maps, lines: u32, rounds: u32) -> Result<u64> {
    let name = Text::of(alloc, b"h")?;
    let mut macros = Macros::new(alloc);
    let mut found = 0u64;
    for round in 0..rounds {
        let key = key(alloc, round % lines.max(1))?;
        if is_found(maps, &name, &key, &mut macros)? {
            found = found.saturating_add(1);
        }
    }
    Ok(found)
}

fn is_found(maps: &Maps, name: &Text, key: &Text, macros: &mut Macros) -> Result<bool> {
    let args = Seq::new(key.allocator());
    match maps.lookup(name, key, &args, macros)? {
        Found::Value(_) => Ok(true),
        _ => Ok(false),
    }
}
