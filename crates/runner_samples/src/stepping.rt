//! Claims and steps.

ghost use Rattle.std.specs.Prelude.{◌≡◌, IfOk};
ghost use Rattle.spawn_edge.specs.Spawned.{Spawned};
ghost use Rattle.spool_store.specs.Stores.{HasId};
ghost use Rattle.queue_table.specs.Calls.{store};
ghost use Rattle.queue_run.specs.Ready.{IsReady};
ghost use Rattle.queue_run.specs.Working.{HasChild};
ghost use Rattle.runner_samples.specs.Runs.{GoesOn, IsUnderWay};

use link_edge::Dialer;
use mail_base::{Config, Draws, Id, NoMemory};
use map_tables::Maps;
use queue_run::{Did, RunStop, Runner};
use queue_table::Table;
use spawn_edge::Spawner;
use spool_disk::Spool;
use std::alloc::Global;

/// Claims an entry.
pub fn claimed(
    alloc: Global,
    table: &Table,
    config: &Config,
    maps: &Maps,
    id: &Id,
) -> Result<Runner, NoMemory>
    requires entry { HasId (store table.now).entries id.now }
    ensures ready { IfOk result (IsReady table.now) }
    ensures child { (spawned : Spawned) → IfOk result (HasChild spawned) }
{
    Runner::claim(alloc, table, config, maps, id)
}

/// Takes a step of a runner.
pub fn advance<D: Spool, S: Spawner, N: Dialer, W: Draws>(
    alloc: Global,
    table: &mut Table,
    spool: &mut D,
    spawner: &mut S,
    dialer: &mut N,
    draws: &mut W,
    config: &Config,
    maps: &Maps,
    runner: &mut Runner,
    moment: u64,
) -> Result<Did, RunStop>
    requires way { IsUnderWay config.now table.old (D.seen spool.old) (S.seen spawner.old)
        runner.old }
    ensures goes { IfOk result
        (GoesOn config.now table.new (D.seen spool.new) (S.seen spawner.new) runner.new) }
    ensures fixed { W.fixed draws.new ≡ W.fixed draws.old }
{
    runner.step(
        alloc, table, spool, spawner, dialer, draws, config, maps, moment,
    )
}
