//! Commands of a table over a spool that is opened for each, of entries by their places.

ghost use Rattle.std.specs.Prelude.{IfOk, IfSome, OnOk, Some};
ghost use Rattle.spool_disk.specs.Changes.{after_all};
ghost use Rattle.spool_store.specs.Stores.{IsAtRest};
ghost use Rattle.queue_table.specs.Calls.{store};
ghost use Rattle.table_samples.specs.Samples.{IsReady};
ghost use Rattle.tests_table.specs.Samples.{IsOpenWith};

use crate::mails::{Mail, Sent, backs_of, config, cuts_of, message_for};
use mail_base::{Id, NoMemory, Note, Outcomes, Result1, Seq, Status, StoreFault, Text};
use queue_table::{Table, Terms};
use spool_disk::{Spool, StopSpool};
use std::alloc::Global;
use table_samples::{accept, finish_done, opened, record};

/// What is done to a table.
#[derive(Clone, Copy, PartialEq, Eq)]
pub(crate) enum Command {
    Accept(Mail),
    /// The entry at a place gets results at a moment, and is finished where it is done then.
    Record(usize, Results, u64),
    /// The failed rows of the entry at a place are given back, and it is finished where it is done.
    Return(usize, Sent, u64),
    /// The same without a bounce, of a double bounce.
    Bury(usize, u64),
    /// A warning is sent for the entry at a place.
    Warn(usize, u64),
}

/// What becomes of the rows from the first on.
#[derive(Clone, Copy, PartialEq, Eq)]
pub(crate) enum Results {
    Sent,
    Deferred,
    Failed,
    /// The first is sent, the second deferred, and the third fails.
    Each,
}

/// The directories of the groups.
pub(crate) fn dirs(alloc: Global) -> Result<Seq<Text>, NoMemory> {
    let config = config(alloc)?;
    Terms::of(&config)?.dirs()
}

// The table of a spool.
fn table_of(alloc: Global, spool: &mut StopSpool) -> Result<Table, StoreFault>
    ensures { IfOk result (IsReady (Some (after_all spool.new.spool.past spool.new.spool.start))) }
{
    let config = config(alloc)?;
    opened(alloc, spool, &config)
}

// Takes a message in at the first second of 2026.
fn accept_mail<D: Spool>(
    alloc: Global,
    spool: &mut D,
    table: &mut Table,
    mail: Mail,
) -> Result<(), StoreFault>
    requires { IsReady (D.seen spool.old).told table.old }
{
    let cuts = cuts_of(alloc, mail)?;
    let message = message_for(alloc, mail)?;
    accept(spool, table, message, cuts.items(), 1_767_225_600)
}

fn note_of(bytes: &[u8]) -> Result<Note, StoreFault> {
    match Note::of(bytes) {
        Some(note) => Ok(note),
        None => Err(StoreFault::SpoolFault),
    }
}

fn failed() -> Result<Result1, StoreFault> {
    match Status::of(b"5.1.1") {
        Some(status) => Ok(Result1::Failed(status, note_of(b"exit 67")?)),
        None => Err(StoreFault::SpoolFault),
    }
}

fn deferred() -> Result<Result1, StoreFault> {
    Ok(Result1::Deferred(note_of(b"exit 75")?))
}

fn add_results(results: &mut Seq<Result1>, what: Results) -> Result<(), StoreFault> {
    match what {
        Results::Sent => results.push(Result1::Sent)?,
        Results::Deferred => results.push(deferred()?)?,
        Results::Failed => results.push(failed()?)?,
        Results::Each => {
            results.push(Result1::Sent)?;
            results.push(deferred()?)?;
            results.push(failed()?)?;
        }
    }
    Ok(())
}

fn record_at<D: Spool>(
    alloc: Global,
    spool: &mut D,
    table: &mut Table,
    place: usize,
    what: Results,
    moment: u64,
) -> Result<(), StoreFault>
    requires ready { IsReady (D.seen spool.old).told table.old }
    ensures { OnOk result (IsReady (D.seen spool.new).told table.new) }
{
    let mut results = Seq::new(alloc);
    add_results(&mut results, what)?;
    let outcomes = Outcomes { results };
    record(spool, table, place, &outcomes, moment)
}

// The id of the entry at a place, if a row of it is open and it is a double bounce or none.
fn open_id(table: &Table, place: usize, double: bool) -> Option<Id>
    ensures { IfSome result (IsOpenWith (store table.now).entries double) }
{
    let held = table.entries().get(place)?;
    if held.entry.finished() {
        return None;
    }
    if held.entry.control.marks.double != double {
        return None;
    }
    Some(held.entry.id)
}

#[tactic(auto, using(crate::proofs::Lemmas::asked_return))]
fn return_at<D: Spool>(
    alloc: Global,
    spool: &mut D,
    table: &mut Table,
    place: usize,
    sent: Sent,
    moment: u64,
) -> Result<(), StoreFault>
    requires ready { IsReady (D.seen spool.old).told table.old }
    ensures { OnOk result (IsAtRest (store table.new) (D.seen spool.new)) }
{
    let backs = backs_of(alloc, sent)?;
    let Some(id) = open_id(table, place, false) else {
        return Err(StoreFault::SpoolFault);
    };
    table.give_back(spool, &id, backs, moment)
}

#[tactic(auto, using(crate::proofs::Lemmas::asked_burial, crate::proofs::Lemmas::no_backs))]
fn bury_at<D: Spool>(
    alloc: Global,
    spool: &mut D,
    table: &mut Table,
    place: usize,
    moment: u64,
) -> Result<(), StoreFault>
    requires ready { IsReady (D.seen spool.old).told table.old }
    ensures { OnOk result (IsAtRest (store table.new) (D.seen spool.new)) }
{
    let Some(id) = open_id(table, place, true) else {
        return Err(StoreFault::SpoolFault);
    };
    table.give_back(spool, &id, Seq::new(alloc), moment)
}

#[tactic(auto, using(crate::proofs::Lemmas::asked_warning))]
fn warn_at<D: Spool>(
    alloc: Global,
    spool: &mut D,
    table: &mut Table,
    place: usize,
    moment: u64,
) -> Result<(), StoreFault>
    requires ready { IsReady (D.seen spool.old).told table.old }
{
    let backs = backs_of(alloc, Sent::Warning)?;
    let Some(id) = open_id(table, place, false) else {
        return Err(StoreFault::SpoolFault);
    };
    table.warn(spool, &id, backs, moment)
}

fn carry_out<D: Spool>(
    alloc: Global,
    spool: &mut D,
    table: &mut Table,
    command: Command,
) -> Result<(), StoreFault>
    requires ready { IsReady (D.seen spool.old).told table.old }
{
    match command {
        Command::Accept(mail) => accept_mail(alloc, spool, table, mail),
        Command::Record(place, what, moment) => {
            record_at(alloc, spool, table, place, what, moment)?;
            finish_done(spool, table, place)
        }
        Command::Return(place, sent, moment) => {
            return_at(alloc, spool, table, place, sent, moment)?;
            finish_done(spool, table, place)
        }
        Command::Bury(place, moment) => {
            bury_at(alloc, spool, table, place, moment)?;
            finish_done(spool, table, place)
        }
        Command::Warn(place, moment) => warn_at(alloc, spool, table, place, moment),
    }
}

/// Opens the table of a spool, and does a command.
pub(crate) fn did(
    alloc: Global,
    spool: &mut StopSpool,
    command: Command,
) -> Result<(), StoreFault> {
    let mut table = table_of(alloc, spool)?;
    carry_out(alloc, spool, &mut table, command)
}
