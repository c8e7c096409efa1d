//! Prints what a program mailer is handed of a message: the program, its arguments and its input,
//! by the calls that a delivery makes. It is for scripts that compare these with what another
//! program hands over.
#![tactic(auto)]

mod letter;
mod order;

use crate::letter::started;
use crate::order::Order;
use anyhow::{Result, bail};
use cf_reader::{CfFault, read};
use mail_base::{Config, Seq, Text};
use mail_edge::SureFiles;
use spawn_edge::{SpawnEvent, Start};
use std::alloc::Global;
use std::io::{Read, Write};
use std::{fs, rt};

fn main(rt: HostRuntime) -> Result<()> {
    let mut input = Vec::new(rt.alloc());
    let _bytes = rt.stdin().read_to_end(&mut input)?;
    let order = Order::read(rt.alloc(), &input)?;
    let config = config_of(&rt, &order.config)?;
    let spawner = started(rt.alloc(), &config, &order)?;
    for event in spawner.seen() {
        if let SpawnEvent::Began { start, .. } = event {
            print(&rt, start)?;
        }
    }
    Ok(())
}

// The configuration of a file, which may ask for no other.
fn config_of<R: rt::Files + Alloc<A = Global>>(rt: &R, name: &Text) -> Result<Config> {
    let Ok(path) = str::from_utf8(name.bytes()) else {
        bail!("no name of a file");
    };
    let text = Text::from_vec(fs::read(rt, path)?);
    if text.len() >= 1 << 32 {
        bail!("a large configuration");
    }
    let Some(mut files) = SureFiles::new(Seq::new(rt.alloc())) else {
        bail!("a large file");
    };
    match read(rt.alloc(), &text, &mut files) {
        Ok(config) => Ok(config),
        Err(CfFault::Refused { line, fault }) => bail!("line {line}: {fault}"),
        Err(CfFault::FilesFault) => bail!("files fault"),
        Err(CfFault::NoMemory) => bail!("no memory"),
    }
}

// Prints the program, its arguments, and behind a line `text` its input.
fn print(rt: &HostRuntime, start: &Start) -> Result<()> {
    let mut out = rt.stdout();
    out.write_all(b"program ")?;
    out.write_all(start.program.bytes())?;
    for argument in start.args.items() {
        out.write_all(b"\nargument ")?;
        out.write_all(argument.bytes())?;
    }
    out.write_all(b"\ntext\n")?;
    out.write_all(start.input.bytes())?;
    Ok(())
}
