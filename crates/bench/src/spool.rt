//! Writes so many entries into a spool in memory, each as two files, of a body and of a control
//! text. Then it reads each file once, and counts their bytes.

use crate::names::numbered;
use anyhow::{Result, bail};
use mail_base::{Seq, Text};
use spool_disk::{MemSpool, Spool};
use std::alloc::Global;

pub(crate) fn read(alloc: Global, entries: u32, rounds: u32) -> Result<u64> {
    let dir = Text::of(alloc, b"/var/spool/mqueue")?;
    let mut bytes = 0;
    for _ in 0..rounds {
        let mut spool = MemSpool::new(alloc, Seq::new(alloc));
        bytes = written_and_read(alloc, &mut spool, &dir, entries)?;
    }
    Ok(bytes)
}

fn written_and_read(alloc: Global, spool: &mut MemSpool, dir: &Text, entries: u32) -> Result<u64> {
    let text = Text::of(alloc, &[b'x'; 600])?;
    for number in 0..entries {
        write(spool, dir, &numbered(alloc, "dfw", number, "")?, &text)?;
        write(spool, dir, &numbered(alloc, "qfw", number, "")?, &text)?;
    }
    read_all(alloc, spool, dir, entries)
}

/// How many bytes all files have.
fn read_all(alloc: Global, spool: &mut MemSpool, dir: &Text, entries: u32) -> Result<u64> {
    let mut bytes = 0u64;
    for number in 0..entries {
        let control = length_of(spool, dir, &numbered(alloc, "qfw", number, "")?)?;
        let body = length_of(spool, dir, &numbered(alloc, "dfw", number, "")?)?;
        bytes = bytes.saturating_add(control).saturating_add(body);
    }
    Ok(bytes)
}

fn write(spool: &mut MemSpool, dir: &Text, name: &Text, text: &Text) -> Result<()> {
    match spool.write_new(dir, name, text) {
        Ok(()) => Ok(()),
        Err(_) => bail!("a file isn't written"),
    }
}

fn length_of(spool: &mut MemSpool, dir: &Text, name: &Text) -> Result<u64> {
    match spool.read(dir.allocator(), dir, name) {
        Ok(Some(bytes)) => Ok(bytes.len() as u64),
        Ok(None) => bail!("a file isn't there"),
        Err(_) => bail!("a read fails"),
    }
}
