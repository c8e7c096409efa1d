ghost use Rattle.std.specs.Prelude.{◌≡◌, ◌++◌, Contains, IfOk, List, OnOk, true};
ghost use Rattle.std.specs.List.{AllZip};
ghost use Rattle.spool_store.specs.Stores.{HasId};
ghost use Rattle.spool_store.specs.declared.held.Held.{Held};
ghost use Rattle.queue_table.specs.Calls.{store};
ghost use Rattle.queue_run.specs.Batches.{Waiting, waiting_at, waiting_from};
ghost use Rattle.queue_run.specs.Claims.{IsClaimed, IsRouted, claim_macros};
ghost use Rattle.queue_run.specs.Holders.{holder_of};
ghost use Rattle.queue_run.specs.Ready.{IsReady};

use crate::splitting::batches;
use crate::{Routed, Runner};
use addr_route::route;
use cf_macros::session_macros;
use mail_base::{Config, Control, Id, Macros, NoMemory, Row, Seq};
use map_tables::Maps;
use queue_table::Table;
use std::alloc::Global;

/// What rulesets see of an entry: the macros of its session, and i, its id.
pub(crate) fn claim_macros(
    alloc: Global,
    config: &Config,
    id: &Id,
    control: &Control,
) -> Result<Macros, NoMemory>
    ensures { IfOk result (λ macros. macros ≡ claim_macros config.now id.now control.now) }
{
    let text = id.text(alloc)?;
    let mut macros = session_macros(alloc, config, &control.kept, &control.sender)?;
    macros.define(b"i", &text)?;
    Ok(macros)
}

// Adds where a row goes, if it is still tried.
fn add_row(
    alloc: Global,
    config: &Config,
    maps: &Maps,
    macros: &Macros,
    routed: &mut Seq<Routed>,
    place: usize,
    row: &Row,
) -> Result<(), NoMemory>
    ensures { (rows : List Waiting)
        → AllZip (IsRouted config.now maps.now macros.now) rows routed.old
        → OnOk result (AllZip (IsRouted config.now maps.now macros.now)
        (rows ++ waiting_at place row.now) routed.new) }
{
    if row.state.is_queued() {
        let Ok(place) = u32::try_from(place) else {
            return Err(NoMemory);
        };
        let resolved = route(alloc, config, maps, macros, &row.address, true)?;
        routed.push(Routed { place, resolved })?;
    }
    Ok(())
}

// Where the rows that are still tried go, in order.
fn routed_rows(
    alloc: Global,
    config: &Config,
    maps: &Maps,
    macros: &Macros,
    rows: &[Row],
) -> Result<Seq<Routed>, NoMemory>
    ensures { IfOk result
        (AllZip (IsRouted config.now maps.now macros.now) (waiting_from 0 rows.now)) }
{
    let mut routed = Seq::new(alloc);
    for (place, row) in rows.iter().enumerate() {
        add_row(alloc, config, maps, macros, &mut routed, place, row)?;
    }
    Ok(routed)
}

impl Runner {
    /// Claims an entry: each of its rows that are still tried is routed, as one for which no alias
    /// stands, and they are parted into the batches in which they are tried. Nothing is written.
    pub fn claim(
        alloc: Global,
        table: &Table,
        config: &Config,
        maps: &Maps,
        id: &Id,
    ) -> Result<Runner, NoMemory>
        requires entry { HasId (store table.now).entries id.now }
        ensures id { IfOk result (λ runner. runner.id ≡ id.now) }
        ensures claims { (h : Held) → Contains (store table.now).entries h → h.entry.id ≡ id.now
            → IfOk result (λ runner. IsClaimed config.now maps.now id.now h.entry.control
            (holder_of runner)) }
        ensures ready { IfOk result (IsReady table.now) }
    {
        let control = &table.queue().entry(id).control;
        let macros = claim_macros(alloc, config, id, control)?;
        let rows = routed_rows(alloc, config, maps, &macros, control.rows.items())?;
        let rest = batches(alloc, config, rows)?;
        Ok(Runner {
            id: *id,
            rest,
            running: None,
        })
    }
}
