//! Calls of the message table on entries by their places.

ghost use Rattle.std.specs.Prelude.{IfOk, IfSome, OnOk};
ghost use Rattle.spool_store.specs.Keepers.{CanFinish};
ghost use Rattle.spool_store.specs.Stores.{IsAtRest};
ghost use Rattle.queue_table.specs.Calls.{AreDirs, store};
ghost use Rattle.queue_table.specs.Directories.{terms_of};
ghost use Rattle.table_samples.specs.Samples.{AreSampleCuts, IsReady, IsSampleMessage};

use crate::reserving::reserved_at;
use mail_base::{Config, Cut, Id, Message, NoMemory, Outcomes, Seq, StoreFault, Text};
use queue_table::{Table, Terms};
use spool_disk::Spool;
use spool_store::Queue;
use std::alloc::Global;

fn dirs_of(config: &Config) -> Result<Seq<Text>, NoMemory>
    ensures { IfOk result (AreDirs (terms_of config.now)) }
{
    Terms::of(config)?.dirs()
}

/// The table of a spool.
pub fn opened<D: Spool>(alloc: Global, spool: &mut D, config: &Config) -> Result<Table, StoreFault>
    ensures { IfOk result (IsReady (D.seen spool.new).told) }
{
    let dirs = dirs_of(config)?;
    let queue = Queue::open(alloc, spool, &dirs)?;
    Ok(Table::over(queue, config)?)
}

/// Takes a message in.
#[tactic(auto, using(crate::proofs::Lemmas::are_cuts, crate::proofs::Lemmas::ready_after))]
pub fn accept<D: Spool>(
    spool: &mut D,
    table: &mut Table,
    message: Message,
    cuts: &[Cut],
    moment: u64,
) -> Result<(), StoreFault>
    requires ready { IsReady (D.seen spool.old).told table.old }
    requires message { IsSampleMessage message }
    requires cuts { AreSampleCuts cuts.now }
    ensures { OnOk result (IsReady (D.seen spool.new).told table.new) }
{
    match table.accept(spool, message, cuts, moment) {
        Ok(_id) => Ok(()),
        Err(fault) => Err(fault),
    }
}

/// The first rows of the entry at a place get these results, where each is still tried.
pub fn record<D: Spool>(
    spool: &mut D,
    table: &mut Table,
    place: usize,
    outcomes: &Outcomes,
    moment: u64,
) -> Result<(), StoreFault>
    requires ready { IsReady (D.seen spool.old).told table.old }
    ensures { OnOk result (IsReady (D.seen spool.new).told table.new) }
{
    let Ok(count) = u32::try_from(outcomes.results.len()) else {
        return Err(StoreFault::SpoolFault);
    };
    let reserved = reserved_at(table, place, count)?;
    if reserved.rows().len() != outcomes.results.len() {
        return Err(StoreFault::SpoolFault);
    }
    match table.record(spool, reserved, outcomes, moment) {
        Ok(()) => Ok(()),
        Err(_fault) => Err(StoreFault::SpoolFault),
    }
}

// The id of the entry at a place, if every row of it is done.
fn done_id(table: &Table, place: usize) -> Option<Id>
    ensures { IfSome result (CanFinish (store table.now).entries) }
{
    let held = table.entries().get(place)?;
    if held.entry.finished() {
        return Some(held.entry.id);
    }
    None
}

/// Finishes the entry at a place where it is done.
pub fn finish_done<D: Spool>(
    spool: &mut D,
    table: &mut Table,
    place: usize,
) -> Result<(), StoreFault>
    requires { IsAtRest (store table.old) (D.seen spool.old) }
    ensures { OnOk result (IsAtRest (store table.new) (D.seen spool.new)) }
{
    let Some(id) = done_id(table, place) else {
        return Ok(());
    };
    match table.finish(spool, &id) {
        Ok(()) => Ok(()),
        Err(_fault) => Err(StoreFault::SpoolFault),
    }
}
