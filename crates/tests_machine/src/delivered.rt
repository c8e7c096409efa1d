//! Many sessions and many runners in one run, where attempts fail: each message that was acknowledged
//! stands once in the queue, and each row is what its attempts came to.

use crate::alone::put_otherwise;
use crate::attempts::{most_in_turn, put_children, put_peers};
use crate::letters::{Client, Letter};
use crate::machines::{Machine, NOW};
use crate::mixing::{SESSIONS, mixed};
use crate::rows::{Rows, put_unlike};
use mail_edge::MemClock;
use std::alloc::{AllocError, Global};
use std::test::Fail;

// Adds the rows of all messages that clients brought to an end.
fn put_wanted(out: &mut String, seed: u64) -> Result<(), AllocError> {
    for session in 1..=SESSIONS {
        for number in 1..=Client::of(seed, session).finished {
            Letter::of(seed, session, number).put_rows(out, "", "\n", "\n")?;
        }
    }
    Ok(())
}

// Runs the program, and adds what was tried.
fn run(
    alloc: Global,
    machine: &mut Machine,
    words: &str,
    seed: u64,
    tried: &mut String,
) -> Result<(), Fail> {
    machine.run(alloc, words)?;
    put_children(alloc, tried, seed, machine.spawner.seen())?;
    put_peers(alloc, tried, seed, machine.dialer.seen())?;
    Ok(())
}

// Tries what waits until all is done, where no attempt fails, and adds what was tried.
fn run_later(
    alloc: Global,
    machine: &mut Machine,
    seed: u64,
    tried: &mut String,
) -> Result<(), Fail> {
    for days in 1..=2u64 {
        machine.equip(alloc, seed, false)?;
        machine.clock = MemClock::new(NOW + 86_400 * days, 1);
        run(alloc, machine, "-q", seed, tried)?;
    }
    Ok(())
}

// Adds what isn't as it is to be of the rows of a queue, and of what was tried.
fn put_wrong_rows(
    alloc: Global,
    out: &mut String,
    machine: &Machine,
    seed: u64,
    tried: &str,
) -> Result<(), Fail> {
    let mut wanted = String::new(alloc);
    put_wanted(&mut wanted, seed)?;
    let files = machine.spool.files()?;
    let mut rows = Rows {
        all: String::new(alloc),
        done: String::new(alloc),
    };
    rows.put_all(alloc, files.items())?;
    put_unlike(out, &rows.all, &wanted)?;
    put_unlike(out, &rows.done, tried)?;
    Ok(())
}

// Adds what isn't as it is to be in a run with so many turns behind the sessions in which nothing
// comes, and in those that follow.
fn put_wrong(alloc: Global, out: &mut String, seed: u64, behind: u64) -> Result<(), Fail> {
    let mut machine = Machine::new(alloc, mixed(alloc, seed, 30, behind)?);
    let mut tried = String::new(alloc);
    machine.equip(alloc, seed, true)?;
    machine.clock = MemClock::new(NOW, 1);
    run(alloc, &mut machine, "-bd -q60s", seed, &mut tried)?;
    put_otherwise(alloc, out, &machine, seed)?;
    if most_in_turn(alloc, machine.spawner.seen())? != Some(8) {
        out.push_str("the runners\n")?;
    }
    run_later(alloc, &mut machine, seed, &mut tried)?;
    put_wrong_rows(alloc, out, &machine, seed, &tried)
}

#[test]
fn messages_are_delivered_beside_sessions(rt: HostRuntime) -> Result<(), Fail> {
    let mut wrong = String::new(rt.alloc());
    put_wrong(rt.alloc(), &mut wrong, 1, 400)?;
    assert_eq!(rt; wrong.as_str(), "");
    Ok(())
}

// It is stopped as soon as the sessions have said all.
#[test]
fn a_stop_leaves_what_was_delivered(rt: HostRuntime) -> Result<(), Fail> {
    let mut wrong = String::new(rt.alloc());
    put_wrong(rt.alloc(), &mut wrong, 2, 0)?;
    assert_eq!(rt; wrong.as_str(), "");
    Ok(())
}
