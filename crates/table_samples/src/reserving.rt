//! Memory for a record of an entry by its place.

ghost use Rattle.std.specs.Prelude.{◌≡◌, All, Contains, IfOk, IsTrue, OnOk};
ghost use Rattle.spool_store.specs.Queue.{IsOpen};
ghost use Rattle.queue_table.specs.Calls.{store};
ghost use Rattle.mail_base.specs.States.{is_queued};
ghost use Rattle.queue_table.specs.Reserves.{IsReserved};
ghost use Rattle.queue_table.specs.Soundness.{IsTried};

use mail_base::{NoMemory, Row, Seq, State, StoreFault};
use queue_table::{Reserved, Table};
use spool_store::Held;
use std::alloc::Global;

fn is_queued(state: &State) -> bool
    ensures { result ≡ is_queued state.now }
{
    matches!(state, State::Queued(_))
}

#[tactic(auto, using(crate::proofs::Lemmas::tried_at))]
fn is_tried(rows: &[Row], place: u32) -> bool
    ensures { IsTrue result → IsTried rows.now place }
{
    match rows.get(place as usize) {
        Some(row) => is_queued(&row.state),
        None => false,
    }
}

// Adds the place of a row that is still tried.
#[tactic(auto, using(crate::proofs::Lemmas::place_pushed))]
fn add_place(places: &mut Seq<u32>, rows: &[Row], place: u32) -> Result<(), NoMemory>
    requires { All (IsTried rows.now) places.old }
    ensures { OnOk result (All (IsTried rows.now) places.new) }
{
    if !is_tried(rows, place) {
        return Ok(());
    }
    places.push(place)
}

// The places of the first so many rows, if they are still tried.
fn places_of(alloc: Global, rows: &[Row], count: u32) -> Result<Seq<u32>, NoMemory>
    ensures { IfOk result (All (IsTried rows.now)) }
{
    let mut places = Seq::new(alloc);
    for place in 0..count {
        add_place(&mut places, rows, place)?;
    }
    Ok(places)
}

// Memory for a record of the first so many rows of an entry that isn't done.
#[tactic(auto, using(crate::proofs::Lemmas::can_reserve))]
fn reserved_of(table: &Table, held: &Held, count: u32) -> Result<Reserved, NoMemory>
    requires among { Contains (store table.now).entries held.now }
    requires waits { IsOpen held.now.entry.control }
    ensures { IfOk result (IsReserved (store table.now).entries) }
{
    let rows = held.entry.control.rows.items();
    let places = places_of(held.entry.dir.allocator(), rows, count)?;
    table.reserve(&held.entry.id, &places)
}

/// The same of the entry at a place.
pub(crate) fn reserved_at(table: &Table, place: usize, count: u32) -> Result<Reserved, StoreFault>
    ensures { IfOk result (IsReserved (store table.now).entries) }
{
    let Some(held) = table.entries().get(place) else {
        return Err(StoreFault::SpoolFault);
    };
    if held.entry.finished() {
        return Err(StoreFault::SpoolFault);
    }
    Ok(reserved_of(table, held, count)?)
}
