//! The message table over a queue in memory, of so many entries. `table` does to each as many of
//! these as the third word says: it is put in, its row is recorded as sent, and it is finished; and
//! it counts the entries that are left. `idle` asks so many times which entry of a table is due
//! where none is, `woken` the same where the table changed before each time, and both count the
//! times that one is due all the same.

ghost use Rattle.std.specs.Prelude.{◌≡◌, IfOk, OnOk, Some};
ghost use Rattle.spool_disk.specs.Changes.{after_all};
ghost use Rattle.spool_store.specs.Stores.{Agrees};
ghost use Rattle.queue_table.specs.Calls.{store};
ghost use Rattle.queue_table.specs.Claims.{IsQuiet};
ghost use Rattle.table_samples.specs.Samples.{AreSampleCuts, IsReady, IsSampleMessage};

use crate::control::ONE_ROW;
use anyhow::Result;
use mail_base::{
    Catalog, Config, Cut, Message, NoMemory, Note, Outcomes, Result1, Seq, StoreFault, Text,
    TryCopy,
};
use queue_table::{Lane, Table, Waiting};
use spool_disk::MemSpool;
use spool_store::Held;
use std::alloc::Global;
use table_samples::{accept, finish_done, message_of, one_cut, opened, record};

static BODY: &[u8] = b"hello\r\n";

const MOMENT: u64 = 1_767_225_600;

pub(crate) fn changed(alloc: Global, entries: u32, stages: u32) -> Result<u64> {
    let config = Config::new(alloc)?;
    let mut spool = MemSpool::new(alloc, Seq::new(alloc));
    let mut table = opened(alloc, &mut spool, &config)?;
    change(alloc, &mut spool, &mut table, entries, stages)
}

/// Where it wakes, each turn asks the entries anew.
pub(crate) fn due(alloc: Global, entries: u32, turns: u32, wakes: bool) -> Result<u64> {
    let mut waiting = waiting_of(alloc)?;
    let table = tried(alloc, entries)?;
    Ok(asked(&mut waiting, table.entries(), turns, wakes))
}

fn waiting_of(alloc: Global) -> Result<Waiting, NoMemory>
    ensures { IfOk result (λ w. w.quiet ≡ 0) }
{
    let other = Lane {
        group: Text::of(alloc, b"mqueue")?,
        wait: 1_800,
        runners: 1,
    };
    Ok(Waiting::new(alloc, Catalog::new(alloc), other))
}

// How many of so many turns of one second each find an entry that is due.
fn asked(waiting: &mut Waiting, entries: &[Held], turns: u32, wakes: bool) -> u64
    requires { IsQuiet waiting.old entries.now }
{
    let mut due = 0u64;
    for turn in 0..turns {
        if wakes {
            waiting.wake();
        }
        if waiting
            .least_due(entries, MOMENT + u64::from(turn % 1_000))
            .is_some()
        {
            due = due.saturating_add(1);
        }
    }
    due
}

fn put_in(
    spool: &mut MemSpool,
    table: &mut Table,
    message: &Message,
    cuts: &[Cut],
) -> Result<(), StoreFault>
    requires ready { IsReady (Some (after_all spool.old.past spool.old.start)) table.old }
    requires message { IsSampleMessage message.now }
    requires cuts { AreSampleCuts cuts.now }
    ensures { OnOk result (IsReady (Some (after_all spool.new.past spool.new.start)) table.new) }
{
    let message = message.copy()?;
    accept(spool, table, message, cuts, MOMENT)
}

fn put_often(
    spool: &mut MemSpool,
    table: &mut Table,
    message: &Message,
    cuts: &[Cut],
    count: u32,
) -> Result<(), StoreFault>
    requires ready { IsReady (Some (after_all spool.old.past spool.old.start)) table.old }
    requires message { IsSampleMessage message.now }
    requires cuts { AreSampleCuts cuts.now }
    ensures { OnOk result (IsReady (Some (after_all spool.new.past spool.new.start)) table.new) }
{
    for _ in 0..count {
        put_in(spool, table, message, cuts)?;
    }
    Ok(())
}

fn put_all(
    alloc: Global,
    spool: &mut MemSpool,
    table: &mut Table,
    count: u32,
) -> Result<(), StoreFault>
    requires { IsReady (Some (after_all spool.old.past spool.old.start)) table.old }
    ensures { OnOk result (IsReady (Some (after_all spool.new.past spool.new.start)) table.new) }
{
    let cuts = one_cut(alloc, ONE_ROW)?;
    let message = message_of(alloc, ONE_ROW, BODY, 22)?;
    put_often(spool, table, &message, cuts.items(), count)
}

fn outcomes_of(alloc: Global, each: Result1) -> Result<Outcomes, NoMemory> {
    let mut results = Seq::new(alloc);
    results.push(each)?;
    Ok(Outcomes { results })
}

/// What a row comes to that is tried again later.
pub(crate) fn deferred(alloc: Global) -> Result<Outcomes, StoreFault> {
    match Note::of(b"exit 75") {
        Some(note) => Ok(outcomes_of(alloc, Result1::Deferred(note))?),
        None => Err(StoreFault::SpoolFault),
    }
}

fn record_all(
    spool: &mut MemSpool,
    table: &mut Table,
    count: u32,
    outcomes: &Outcomes,
) -> Result<(), StoreFault>
    requires { IsReady (Some (after_all spool.old.past spool.old.start)) table.old }
    ensures { OnOk result (IsReady (Some (after_all spool.new.past spool.new.start)) table.new) }
{
    for place in 0..count {
        record(spool, table, place as usize, outcomes, MOMENT)?;
    }
    Ok(())
}

fn finish_all(spool: &mut MemSpool, table: &mut Table, count: u32) -> Result<(), StoreFault>
    requires { Agrees (store table.old) (after_all spool.old.past spool.old.start) }
{
    for place in 0..count {
        finish_done(spool, table, place as usize)?;
    }
    Ok(())
}

// Does so many stages, and counts the entries that are left.
fn change(
    alloc: Global,
    spool: &mut MemSpool,
    table: &mut Table,
    count: u32,
    stages: u32,
) -> Result<u64>
    requires { IsReady (Some (after_all spool.old.past spool.old.start)) table.old }
{
    if stages == 0 {
        return Ok(0);
    }
    put_all(alloc, spool, table, count)?;
    if stages == 1 {
        return Ok(table.entries().len() as u64);
    }
    let outcomes = outcomes_of(alloc, Result1::Sent)?;
    record_all(spool, table, count, &outcomes)?;
    if stages > 2 {
        finish_all(spool, table, count)?;
    }
    Ok(table.entries().len() as u64)
}

// A table of so many entries that were tried once.
fn tried(alloc: Global, count: u32) -> Result<Table, StoreFault> {
    let outcomes = deferred(alloc)?;
    let config = Config::new(alloc)?;
    let mut spool = MemSpool::new(alloc, Seq::new(alloc));
    let mut table = opened(alloc, &mut spool, &config)?;
    put_all(alloc, &mut spool, &mut table, count)?;
    record_all(&mut spool, &mut table, count, &outcomes)?;
    Ok(table)
}
