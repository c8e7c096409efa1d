//! Prints messages that the program makes of its own accord. Each line of standard input names one:
//! its kind, which is `bounce`, `double` (a bounce of the null sender) or `warning`, a number of
//! rows, and how many lines of 80 bytes the body of the entry has. A word that isn't so says 0.
#![tactic(auto)]

mod entry;

use crate::entry::{Asked, Topic, asked_of, body_of, control_of};
use anyhow::Result;
use dsn_bounce::{bounce, warning};
use mail_base::{Config, Control, Message, NoMemory, Text};
use std::alloc::Global;
use std::io::{Read, Write};

// A day after the beginning of 2026, at which each entry was made.
const LATER: u64 = 1_767_312_000;

fn main(rt: HostRuntime) -> Result<()> {
    let mut asked = Vec::new(rt.alloc());
    let _bytes = rt.stdin().read_to_end(&mut asked)?;
    for line in asked.split(|byte| *byte == b'\n') {
        if !line.is_empty() {
            print(&rt, line)?;
        }
    }
    Ok(())
}

// Prints the message that a line asks for: its headers, an empty line and its body.
fn print(rt: &HostRuntime, line: &[u8]) -> Result<()> {
    let Some(message) = message_of(rt.alloc(), &asked_of(line))? else {
        return Ok(());
    };
    let mut out = rt.stdout();
    for header in message.headers.items() {
        out.write_all(header.bytes())?;
        out.write_all(b"\r\n")?;
    }
    out.write_all(b"\r\n")?;
    out.write_all(message.body.bytes())?;
    Ok(())
}

fn message_of(alloc: Global, asked: &Asked) -> Result<Option<Message>, NoMemory> {
    let mut config = Config::new(alloc)?;
    config.options.double_bounce_address = Text::of(alloc, b"postmaster@mx.example")?;
    match control_of(alloc, asked)? {
        Some(control) => Ok(Some(told(alloc, &config, &control, asked)?)),
        None => Ok(None),
    }
}

fn told(
    alloc: Global,
    config: &Config,
    control: &Control,
    asked: &Asked,
) -> Result<Message, NoMemory> {
    match asked.topic {
        Topic::Warning => warning(config, control, LATER),
        Topic::Bounce | Topic::Double => {
            let body = body_of(alloc, asked.lines)?;
            bounce(config, control, &body, LATER)
        }
    }
}
