ghost use Rattle.std.specs.Prelude.{◌≡◌, None, []};
ghost use Rattle.link_edge.specs.Dials.{DialSeen};
ghost use Rattle.spawn_edge.specs.Spawned.{Spawned};
ghost use Rattle.spool_store.specs.Entries.{Table as Entries};
ghost use Rattle.queue_table.specs.Calls.{HoldsTable, Tallies};
ghost use Rattle.queue_run.specs.Backs.{IsDrawnIn, drawer};
ghost use Rattle.queue_run.specs.Meant.{ground_by};
ghost use Rattle.queue_run.specs.Ready.{IsReady};
ghost use Rattle.queue_run.specs.Working.{HasChild, IsWhole, Steps, bench};

use crate::ending::is_warning_due;
use crate::{Did, RunStop, Runner};
use link_edge::Dialer;
use mail_base::{Config, Draws};
use map_tables::Maps;
use queue_table::Table;
use spawn_edge::Spawner;
use spool_disk::Spool;
use std::alloc::Global;

impl Runner {
    /// Takes the next step for its entry: the first of these that applies. The child of a batch is
    /// polled, and its end recorded; the next batch is tried, or recorded where no attempt can be
    /// made; failed rows are given back by a bounce, or are dead; the sender is warned; the entry is
    /// finished; it is let go.
    ///
    /// Where a device fails at an attempt, its rows are deferred and the run goes on. `SpoolFault`
    /// comes only where a call of the spool failed, and `FilesFault` only where a file couldn't be
    /// read for the receiver of returned mail; after either, and after `IdsSpent` and `NoMemory`,
    /// nothing that was recorded is lost. A record is reserved before its attempt begins: after an
    /// answer was read only the spool can fail.
    pub fn step<D: Spool, S: Spawner, N: Dialer, W: Draws>(
        &mut self,
        alloc: Global,
        table: &mut Table,
        spool: &mut D,
        spawner: &mut S,
        dialer: &mut N,
        draws: &mut W,
        config: &Config,
        maps: &Maps,
        moment: u64,
    ) -> Result<Did, RunStop>
        requires agrees { Tallies table.old (D.seen spool.old) }
        requires whole { IsWhole config.now table.old }
        requires ready { IsReady table.old self.old }
        requires child { HasChild (S.seen spawner.old) self.old }
        ensures steps { (entries : Entries) → HoldsTable table.old entries
            → Steps (ground_by config.now maps.now moment
            (drawer (W.seen draws.old) (W.answers draws.old)))
            entries table.old table.new self.old self.new
            (bench (D.seen spool.old) (S.seen spawner.old) (N.seen dialer.old))
            (bench (D.seen spool.new) (S.seen spawner.new) (N.seen dialer.new)) result }
        ensures drawn { IsDrawnIn (drawer (W.seen draws.old) (W.answers draws.old))
            (drawer (W.seen draws.new) (W.answers draws.new)) result }
        ensures fixed { W.fixed draws.new ≡ W.fixed draws.old }
    {
        if self.running.is_some() {
            return self.wait(table, spool, spawner, moment);
        }
        if self.rest.is_empty() {
            return self.close(alloc, table, spool, draws, config, maps, moment);
        }
        self.attempt(alloc, table, spool, spawner, dialer, config, maps, moment)
    }

    // All rows were tried: what is left to do for the entry.
    fn close<D: Spool, W: Draws>(
        &mut self,
        alloc: Global,
        table: &mut Table,
        spool: &mut D,
        draws: &mut W,
        config: &Config,
        maps: &Maps,
        moment: u64,
    ) -> Result<Did, RunStop>
        requires agrees { Tallies table.old (D.seen spool.old) }
        requires whole { IsWhole config.now table.old }
        requires ready { IsReady table.old self.old }
        requires rest { self.old.rest.items ≡ [] }
        requires running { self.old.running ≡ None }
        ensures steps { (entries : Entries) (spawner : Spawned) (dialer : DialSeen)
            → HoldsTable table.old entries
            → Steps (ground_by config.now maps.now moment
            (drawer (W.seen draws.old) (W.answers draws.old)))
            entries table.old table.new self.old self.new
            (bench (D.seen spool.old) spawner dialer) (bench (D.seen spool.new) spawner dialer)
            result }
        ensures drawn { IsDrawnIn (drawer (W.seen draws.old) (W.answers draws.old))
            (drawer (W.seen draws.new) (W.answers draws.new)) result }
        ensures fixed { W.fixed draws.new ≡ W.fixed draws.old }
    {
        let control = &table.queue().entry(&self.id).control;
        if control.has_failed() {
            if control.wants_bounce() {
                return self.give_back(alloc, table, spool, draws, config, maps, moment);
            }
            return self.bury(alloc, table, spool, moment);
        }
        if is_warning_due(config, control, moment) {
            return self.warn(alloc, table, spool, draws, config, maps, moment);
        }
        if control.is_finished() {
            return self.finish(table, spool, moment);
        }
        Ok(Did::Free)
    }
}
