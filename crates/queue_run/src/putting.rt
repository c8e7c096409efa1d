ghost use Rattle.std.specs.Prelude.{◌≡◌, Contains, Err, IfOk, OnOk, false, length, map};
ghost use Rattle.spool_store.specs.Stores.{recontrolled};
ghost use Rattle.queue_table.specs.Calls.{Tallies, store};
ghost use Rattle.queue_table.specs.Commands.Command.{Record};
ghost use Rattle.queue_table.specs.Reserves.{CanReserve, IsReserved};
ghost use Rattle.spool_store.specs.declared.held.Held.{Held};
ghost use Rattle.queue_table.specs.Results.{recorded};
ghost use Rattle.queue_run.specs.declared.runner.Did.TheVariants.{Recorded as WasRecorded};
ghost use Rattle.queue_run.specs.declared.runner.RunStop.TheVariants.{NoMemory as Memory};
ghost use Rattle.queue_run.specs.inner.Puts.{IsPutOrNot, Put};

use crate::results::alike;
use crate::{Did, RunStop};
use mail_base::{Id, NoMemory, Outcomes, Result1, Seq};
use queue_table::{Reserved, Table};
use spool_disk::Spool;
use std::alloc::Global;

// Records what was reserved. It takes no memory.
pub(crate) fn put<D: Spool>(
    table: &mut Table,
    spool: &mut D,
    reserved: Reserved,
    outcomes: &Outcomes,
    moment: u64,
) -> Result<Did, RunStop>
    requires agrees { Tallies table.old (D.seen spool.old) }
    requires whole { (store table.old).broken ≡ false }
    requires reserved { IsReserved (store table.old).entries reserved }
    requires each { length outcomes.now.results ≡ length reserved.rows }
    ensures put { Put table.old table.new
        (Record table.old.terms reserved.room.id reserved.rows outcomes.now.results moment)
        WasRecorded result (D.seen spool.old) (D.seen spool.new) }
    ensures entries { OnOk result
        ((store table.new).entries
        ≡ map
        (recontrolled reserved.room.id
        (recorded table.old.terms reserved.rows outcomes.now.results moment reserved.room.control))
        (store table.old).entries) }
{
    match table.record(spool, reserved, outcomes, moment) {
        Ok(()) => Ok(Did::Recorded),
        Err(_fault) => Err(RunStop::SpoolFault),
    }
}

// Memory for the record of an attempt at rows of an entry that are still tried.
pub(crate) fn reserve(table: &Table, id: &Id, places: &Seq<u32>) -> Result<Reserved, NoMemory>
    requires can { CanReserve (store table.now).entries id.now places.now }
    ensures id { IfOk result (λ r. r.room.id ≡ id.now) }
    ensures rows { IfOk result (λ r. r.rows ≡ places.now) }
    ensures is { IfOk result (IsReserved (store table.now).entries) }
    ensures control { (h : Held) → Contains (store table.now).entries h → h.entry.id ≡ id.now
        → IfOk result (λ r. r.room.control ≡ h.entry.control) }
{
    // Only clauses are used: one entry has an id, and its control has a text.
    let _held = table.entries();
    table.reserve(id, places)
}

// The same result for each of some rows of an entry is recorded.
pub(crate) fn put_alike<D: Spool>(
    alloc: Global,
    table: &mut Table,
    spool: &mut D,
    id: &Id,
    places: &Seq<u32>,
    one: &Result1,
    moment: u64,
) -> Result<Did, RunStop>
    requires agrees { Tallies table.old (D.seen spool.old) }
    requires whole { (store table.old).broken ≡ false }
    requires can { CanReserve (store table.old).entries id.now places.now }
    ensures put { (h : Held) → Contains (store table.old).entries h → h.entry.id ≡ id.now
        → IsPutOrNot table.old table.new id.now places.now one.now moment h.entry.control result
        (D.seen spool.old) (D.seen spool.new) }
    ensures none { result ≡ Err Memory → spool.new ≡ spool.old }
{
    let outcomes = alike(alloc, one, places.items())?;
    let reserved = reserve(table, id, places)?;
    put(table, spool, reserved, &outcomes, moment)
}
