//! Each of many sessions is answered as it is alone, and the queue is left as if their messages had
//! come one after another, in the order of their 250s.

use crate::attempts::most_in_turn;
use crate::letters::Client;
use crate::machines::Machine;
use crate::mixing::{SESSIONS, alone, in_turn, mixed};
use crate::told::{count_of, put_acks, put_said};
use mail_base::{NoMemory, Text};
use spool_disk::{File, find};
use std::alloc::Global;
use std::test::Fail;

// Whether that session was answered as it is alone.
fn is_as_alone(alloc: Global, machine: &Machine, seed: u64, session: u64) -> Result<bool, Fail> {
    let mut other = Machine::new(alloc, alone(alloc, seed, session)?);
    other.run(alloc, "-bd")?;
    Ok(said(alloc, machine, session)?.bytes() == said(alloc, &other, 1)?.bytes())
}

fn said(alloc: Global, machine: &Machine, session: u64) -> Result<Text, NoMemory> {
    let mut said = Text::new(alloc);
    put_said(&mut said, machine.floor.seen(), session)?;
    Ok(said)
}

/// Adds the sessions of a run that weren't answered as they are alone.
pub(crate) fn put_otherwise(
    alloc: Global,
    out: &mut String,
    machine: &Machine,
    seed: u64,
) -> Result<(), Fail> {
    for session in 1..=SESSIONS {
        if !is_as_alone(alloc, machine, seed, session)? {
            write!(out, "session {session}\n")?;
        }
    }
    Ok(())
}

// Whether each of these files is among the others, byte for byte.
fn are_among(files: &[File], others: &[File]) -> bool {
    for file in files {
        match find(others, &file.dir, &file.name) {
            Some(bytes) if bytes.bytes() == file.bytes.bytes() => {}
            _ => return false,
        }
    }
    true
}

// Whether two queues have the same files.
fn is_left_alike(one: &Machine, other: &Machine) -> Result<bool, NoMemory> {
    let files = one.spool.files()?;
    let others = other.spool.files()?;
    Ok(files.len() == others.len() && are_among(files.items(), others.items()))
}

// A run in which no attempt fails.
fn run_well(alloc: Global, machine: &mut Machine, seed: u64) -> Result<(), Fail> {
    machine.equip(alloc, seed, false)?;
    machine.run(alloc, "-bd")
}

// Whether as many messages of each session are among these as its client brought to an end.
fn are_all(names: &[(u64, u64)], seed: u64) -> bool {
    for session in 1..=SESSIONS {
        if count_of(names, session) != Client::of(seed, session).finished {
            return false;
        }
    }
    true
}

// Whether all messages are acknowledged in a run, and it goes as one in which they come one after
// another.
fn is_in_order(alloc: Global, machine: &Machine, seed: u64, behind: u64) -> Result<bool, Fail> {
    let mut names = Vec::new(alloc);
    let mut ids = Text::new(alloc);
    put_acks(&mut names, &mut ids, machine.floor.seen())?;
    let is_all = are_all(&names, seed);
    let mut other = Machine::new(alloc, in_turn(alloc, seed, &names, behind)?);
    run_well(alloc, &mut other, seed)?;
    names.clear();
    let mut others = Text::new(alloc);
    put_acks(&mut names, &mut others, other.floor.seen())?;
    Ok(is_all && ids.bytes() == others.bytes() && is_left_alike(machine, &other)?)
}

// Adds what isn't as it is to be, by a seed, where nothing comes in so many of a hundred turns, so that
// the queue is run, and in so many behind the sessions.
fn put_wrong(
    alloc: Global,
    out: &mut String,
    seed: u64,
    rests: u64,
    behind: u64,
) -> Result<(), Fail> {
    let mut machine = Machine::new(alloc, mixed(alloc, seed, rests, behind)?);
    run_well(alloc, &mut machine, seed)?;
    put_otherwise(alloc, out, &machine, seed)?;
    let most = if rests > 0 { 8 } else { 0 };
    if most_in_turn(alloc, machine.spawner.seen())? != Some(most) {
        out.push_str("the runners\n")?;
    }
    if !is_in_order(alloc, &machine, seed, behind)? {
        out.push_str("the queue\n")?;
    }
    Ok(())
}

#[test]
fn sessions_are_answered_as_alone(rt: HostRuntime) -> Result<(), Fail> {
    let mut wrong = String::new(rt.alloc());
    put_wrong(rt.alloc(), &mut wrong, 1, 0, 0)?;
    assert_eq!(rt; wrong.as_str(), "");
    Ok(())
}

#[test]
fn sessions_are_answered_as_alone_beside_runners(rt: HostRuntime) -> Result<(), Fail> {
    let mut wrong = String::new(rt.alloc());
    put_wrong(rt.alloc(), &mut wrong, 2, 30, 1_500)?;
    assert_eq!(rt; wrong.as_str(), "");
    Ok(())
}
