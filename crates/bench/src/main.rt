//! Does one thing over much input, so that its time can be measured, and prints what it counted.
//! The first word says what, the second over what, mostly a number, and the third how many times it
//! is done, once where it is left out: each module tells. The scripts in `bench/` measure it.
#![tactic(auto)]

mod aliases;
mod classes;
mod conf;
mod configured;
mod control;
mod dropping;
mod gather;
mod lines;
mod maps;
mod matches;
mod names;
mod outgoing;
mod parts;
mod queue;
mod receipt;
mod rewriting;
mod rules;
mod runner;
mod spool;
mod table;
mod tokens;

use crate::conf::Then;
use crate::gather::Part;
use crate::runner::Routes;
use anyhow::{Result, bail};
use std::alloc::Global;
use std::{env, rt};

fn main(rt: HostRuntime) -> Result<()> {
    let mut what = String::new(rt.alloc());
    let mut over = String::new(rt.alloc());
    let mut rounds = 1u32;
    for (place, word) in env::args(&rt)?.enumerate() {
        match place {
            1 => what = word,
            2 => over = word,
            3 => rounds = word.parse()?,
            _ => {}
        }
    }
    let count = counted(&rt, &what, &over, rounds)?;
    println!(rt; "{count}")?;
    Ok(())
}

// Does what the first word says over what the second names.
fn counted<R: rt::Files + Alloc<A = Global>>(
    rt: &R,
    what: &str,
    over: &str,
    rounds: u32,
) -> Result<u64> {
    let alloc = rt.alloc();
    match what {
        "conf" => conf::warnings(rt, over, rounds, Then::Drops),
        "kept" => conf::warnings(rt, over, rounds, Then::Keeps),
        "tokens" => tokens::cut(alloc, over, rounds),
        "matches" => matches::found(alloc, over, rounds),
        _ => counted_of(alloc, what, over.parse()?, rounds),
    }
}

// Does it over so many.
fn counted_of(alloc: Global, what: &str, number: u32, rounds: u32) -> Result<u64> {
    match what {
        "lines" => lines::fed(alloc, number, rounds),
        "headers" => gather::kept(alloc, Part::Headers, number, rounds),
        "body" => gather::kept(alloc, Part::Body, number, rounds),
        "receipt_headers" => receipt::received(alloc, Part::Headers, number, rounds),
        "receipt_body" => receipt::received(alloc, Part::Body, number, rounds),
        "control" => control::printed(alloc, number, rounds),
        "classes" => classes::members(alloc, number, rounds),
        "maps" => maps::found(alloc, number, rounds),
        "rules" => rules::made(alloc, number, rounds),
        "rewriting" => rewriting::rewritten(alloc, number, rounds),
        "outgoing" => outgoing::handed(alloc, number, rounds),
        _ => counted_of_aliases(alloc, what, number, rounds),
    }
}

// Does it to aliases, or to the rows that they come to.
fn counted_of_aliases(alloc: Global, what: &str, number: u32, rounds: u32) -> Result<u64> {
    match what {
        "members" => aliases::expanded(alloc, 1, number, rounds),
        "chain" => aliases::expanded(alloc, aliases::LINKS, number, rounds),
        "alias_file" => aliases::read(alloc, number, rounds),
        "alias_names" => aliases::found(alloc, number, rounds),
        "parts" => parts::calls(alloc, number, rounds),
        _ => counted_of_queue(alloc, what, number, rounds),
    }
}

// Does it to a queue.
fn counted_of_queue(alloc: Global, what: &str, number: u32, rounds: u32) -> Result<u64> {
    match what {
        "spool" => spool::read(alloc, number, rounds),
        "commits" => queue::commits(alloc, number, rounds),
        "opening" => queue::opened(alloc, number, rounds),
        "table" => table::changed(alloc, number, rounds),
        "idle" => table::due(alloc, number, rounds, false),
        "woken" => table::due(alloc, number, rounds, true),
        "claims" => runner::claims(alloc, Routes::One, number, rounds),
        "claims_each" => runner::claims(alloc, Routes::Each, number, rounds),
        "steps" => runner::steps(alloc, Routes::One, number),
        "steps_each" => runner::steps(alloc, Routes::Each, number),
        "records_each" => runner::records(alloc, Routes::Each, number, rounds),
        _ => bail!("nothing to measure"),
    }
}
