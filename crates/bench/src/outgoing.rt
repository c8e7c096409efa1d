//! Makes the text that a program is handed of a message whose body has so many lines of 80 bytes
//! with their ends, and counts its bytes. 209,715 lines are 16 MB.

use crate::configured::config_of;
use crate::lines::lines_of;
use anyhow::{Result, bail};
use mail_base::{Config, Mailer, NoMemory, Seq, Text};
use mail_header::{added, outgoing};
use std::alloc::Global;

static CONFIG: &[u8] = b"Dgbob@c.example
H?F?From: $g
Mcat, P=/bin/cat, F=lsDFM, A=cat $u
";

pub(crate) fn handed(alloc: Global, lines: u32, rounds: u32) -> Result<u64> {
    let body = Text::from_vec(lines_of(alloc, b"text  ", lines)?);
    let name = Text::of(alloc, b"cat")?;
    let config = config_of(alloc, CONFIG)?;
    match config.mailer(&name) {
        Some(mailer) => Ok(hand_often(alloc, &config, mailer, &body, rounds)?),
        None => bail!("no mailer"),
    }
}

fn headers(alloc: Global) -> Result<Seq<Text>, NoMemory> {
    let mut headers = Seq::new(alloc);
    headers.push(Text::of(alloc, b"Subject: hi")?)?;
    Ok(headers)
}

/// The bytes of the text, which is made so many times.
fn hand_often(
    alloc: Global,
    config: &Config,
    mailer: &Mailer,
    body: &Text,
    rounds: u32,
) -> Result<u64, NoMemory> {
    let headers = headers(alloc)?;
    let mut bytes = 0u64;
    for _ in 0..rounds {
        bytes = hand(config, mailer, &headers, body)?;
    }
    Ok(bytes)
}

fn hand(
    config: &Config,
    mailer: &Mailer,
    headers: &Seq<Text>,
    body: &Text,
) -> Result<u64, NoMemory> {
    let all = added(config, mailer, &config.macros, headers)?;
    let text = outgoing(mailer, &config.macros, &all, body)?;
    Ok(text.len() as u64)
}
