ghost use Rattle.std.specs.Prelude.{◌≡◌, None, [], false, true};
ghost use Rattle.link_edge.specs.Dials.{DialSeen};
ghost use Rattle.mail_base.specs.States.{has_failed, has_queued, wants_bounce};
ghost use Rattle.mail_base.specs.declared.config.Config.{Config as TheConfig};
ghost use Rattle.map_tables.specs.Answers.{Loaded};
ghost use Rattle.spawn_edge.specs.Spawned.{Spawned};
ghost use Rattle.spool_store.specs.Entries.{Table as Entries};
ghost use Rattle.queue_table.specs.Calls.{AreDirs, HoldsTable, Tallies, store};
ghost use Rattle.queue_run.specs.Backs.{IsDrawnIn, drawer};
ghost use Rattle.queue_run.specs.Holders.{holder_of};
ghost use Rattle.queue_run.specs.Kinds.{Buries, Returns, Warns};
ghost use Rattle.queue_run.specs.Meant.{ground_by, ground_of};
ghost use Rattle.queue_run.specs.Ready.{IsReady};
ghost use Rattle.queue_run.specs.Working.{IsWhole, Steps, bench, kind_in};
ghost use Rattle.queue_run.specs.inner.Sendings.{OfEntry};

use crate::backs::{body_of, bounce_of, one, warning_of};
use crate::handing::stop_of;
use crate::{Did, RunStop, Runner};
use mail_base::{Config, Draws, Seq};
use map_tables::Maps;
use queue_table::Table;
use spool_disk::Spool;
use std::alloc::Global;

impl Runner {
    // Failed rows of a double bounce become dead.
    pub(crate) fn bury<D: Spool>(
        &self,
        alloc: Global,
        table: &mut Table,
        spool: &mut D,
        moment: u64,
    ) -> Result<Did, RunStop>
        requires agrees { Tallies table.old (D.seen spool.old) }
        requires whole { (store table.old).broken ≡ false }
        requires ready { IsReady table.old self.now }
        requires rest { self.now.rest.items ≡ [] }
        requires running { self.now.running ≡ None }
        requires failed { OfEntry table.old self.now.id (λ c. has_failed c ≡ true) }
        requires double { OfEntry table.old self.now.id (λ c. wants_bounce c ≡ false) }
        requires dirs { AreDirs table.old.terms (store table.old).dirs }
        ensures steps { (config : TheConfig) (maps : Loaded) (entries : Entries)
            (spawner : Spawned) (dialer : DialSeen) → IsWhole config table.old
            → HoldsTable table.old entries
            → kind_in (ground_of config maps moment) entries (holder_of self.now) ≡ Buries
            → Steps (ground_of config maps moment) entries table.old table.new self.now self.now
            (bench (D.seen spool.old) spawner dialer) (bench (D.seen spool.new) spawner dialer)
            result }
    {
        match table.give_back(spool, &self.id, Seq::new(alloc), moment) {
            Ok(()) => Ok(Did::Gave),
            Err(fault) => Err(stop_of(fault)),
        }
    }

    // Failed rows are given back by a bounce. All memory is taken before the table is asked.
    pub(crate) fn give_back<D: Spool, W: Draws>(
        &self,
        alloc: Global,
        table: &mut Table,
        spool: &mut D,
        draws: &mut W,
        config: &Config,
        maps: &Maps,
        moment: u64,
    ) -> Result<Did, RunStop>
        requires agrees { Tallies table.old (D.seen spool.old) }
        requires whole { (store table.old).broken ≡ false }
        requires ready { IsReady table.old self.now }
        requires rest { self.now.rest.items ≡ [] }
        requires running { self.now.running ≡ None }
        requires failed { OfEntry table.old self.now.id (λ c. has_failed c ≡ true) }
        requires single { OfEntry table.old self.now.id (λ c. wants_bounce c ≡ true) }
        requires dirs { AreDirs table.old.terms (store table.old).dirs }
        ensures steps { (entries : Entries) (spawner : Spawned) (dialer : DialSeen)
            → IsWhole config.now table.old → HoldsTable table.old entries
            → kind_in (ground_of config.now maps.now moment) entries (holder_of self.now) ≡ Returns
            → Steps (ground_by config.now maps.now moment
            (drawer (W.seen draws.old) (W.answers draws.old)))
            entries table.old table.new self.now self.now
            (bench (D.seen spool.old) spawner dialer) (bench (D.seen spool.new) spawner dialer)
            result }
        ensures drawn { IsDrawnIn (drawer (W.seen draws.old) (W.answers draws.old))
            (drawer (W.seen draws.new) (W.answers draws.new)) result }
        ensures fixed { W.fixed draws.new ≡ W.fixed draws.old }
    {
        let body = body_of(table, spool, &self.id)?;
        let control = &table.queue().entry(&self.id).control;
        let bounce = bounce_of(alloc, config, maps, draws, control, &body, moment)?;
        let bounces = one(alloc, bounce)?;
        match table.give_back(spool, &self.id, bounces, moment) {
            Ok(()) => Ok(Did::Gave),
            Err(fault) => Err(stop_of(fault)),
        }
    }

    // The sender is warned of the rows that are still tried. No body is read.
    pub(crate) fn warn<D: Spool, W: Draws>(
        &self,
        alloc: Global,
        table: &mut Table,
        spool: &mut D,
        draws: &mut W,
        config: &Config,
        maps: &Maps,
        moment: u64,
    ) -> Result<Did, RunStop>
        requires agrees { Tallies table.old (D.seen spool.old) }
        requires whole { (store table.old).broken ≡ false }
        requires ready { IsReady table.old self.now }
        requires rest { self.now.rest.items ≡ [] }
        requires running { self.now.running ≡ None }
        requires queued { OfEntry table.old self.now.id (λ c. has_queued c ≡ true) }
        requires dirs { AreDirs table.old.terms (store table.old).dirs }
        ensures steps { (entries : Entries) (spawner : Spawned) (dialer : DialSeen)
            → IsWhole config.now table.old → HoldsTable table.old entries
            → kind_in (ground_of config.now maps.now moment) entries (holder_of self.now) ≡ Warns
            → Steps (ground_by config.now maps.now moment
            (drawer (W.seen draws.old) (W.answers draws.old)))
            entries table.old table.new self.now self.now
            (bench (D.seen spool.old) spawner dialer) (bench (D.seen spool.new) spawner dialer)
            result }
        ensures drawn { IsDrawnIn (drawer (W.seen draws.old) (W.answers draws.old))
            (drawer (W.seen draws.new) (W.answers draws.new)) result }
        ensures fixed { W.fixed draws.new ≡ W.fixed draws.old }
    {
        let control = &table.queue().entry(&self.id).control;
        let warning = warning_of(alloc, config, maps, draws, control, moment)?;
        let warnings = one(alloc, warning)?;
        match table.warn(spool, &self.id, warnings, moment) {
            Ok(()) => Ok(Did::Gave),
            Err(fault) => Err(stop_of(fault)),
        }
    }
}
