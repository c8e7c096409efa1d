ghost use Rattle.std.specs.Prelude.{◌≡◌, ◌<◌, [], Contains, IfOk, None, OnOk, Some, vec_capacity, vec_len};
ghost use Rattle.std.specs.Option.{option_map};
ghost use Rattle.spawn_edge.specs.Spawned.{Spawned};
ghost use Rattle.spool_store.specs.Entries.{Table as Entries};
ghost use Rattle.spool_store.specs.Stores.{HasId};
ghost use Rattle.spool_store.specs.declared.held.Held.{Held};
ghost use Rattle.queue_table.specs.Calls.{HoldsTable, Tallies, store};
ghost use Rattle.queue_table.specs.Claims.{IsQuiet};
ghost use Rattle.queue_table.specs.declared.table.Table.{Table as Kept};
ghost use Rattle.queue_run.specs.Backs.{IsDrawnIn, drawer};
ghost use Rattle.queue_run.specs.Claims.{IsClaimed};
ghost use Rattle.queue_run.specs.Holders.{holder_of};
ghost use Rattle.queue_run.specs.Meant.{ground_by};
ghost use Rattle.queue_run.specs.Ready.{IsReady};
ghost use Rattle.queue_run.specs.Working.{IsWhole, bench};
ghost use Rattle.mail_core.specs.Holding.{waiting_of, without_id};
ghost use Rattle.mail_core.specs.Judges.{drawing};
ghost use Rattle.mail_core.specs.Sites.{IsUnder, Site};
ghost use Rattle.mail_core.specs.States.{State};
ghost use Rattle.mail_core.specs.inner.Carrying.{Carries, IsHolding, IsOut, IsPutBack, IsSettled, bare};
ghost use Rattle.mail_core.specs.Crews.{IsCrew, IsListOf, IsManned, KeepsReady};
ghost use Rattle.mail_core.specs.inner.Nexts.{AreAscending, IsAlike, IsFirstRunning, IsNext};
ghost use Rattle.mail_core.specs.inner.Turns.{Rests, Stops, act_by};

use crate::act::Act;
use crate::listing::{first_listed, without};
use link_edge::Dialer;
use mail_base::{Config, Draws, Id, NoMemory, Seq};
use map_tables::Maps;
use queue_run::{Did, RunStop, Runner};
use queue_table::{Table, Waiting};
use spawn_edge::Spawner;
use spool_disk::Spool;
use std::alloc::Global;

/// Those who hold entries of the queue, of which the first one takes the next step, and what says
/// which entry is claimed next: what each lane allows, or in a run over the queue its list.
pub struct Crew {
    pub(crate) runners: Vec<Runner>,
    pub(crate) waiting: Waiting,
    /// What is left of the list of a run over the queue, in order.
    pub(crate) list: Option<Seq<Id>>,
}

// Written out, since a caller's proof goes through the parts of a derived drop at each way out.
impl Drop for Crew {
    fn drop(self) {
        let Crew {
            runners: _,
            waiting: _,
            list: _,
        } = self;
    }
}

impl Crew {
    /// One in which nobody holds an entry, of these lanes, and of a list in a run over the queue.
    /// It takes no memory.
    pub fn new(alloc: Global, waiting: Waiting, list: Option<Seq<Id>>) -> Crew
        ensures crew { (site : Site) (m : State) → waiting ≡ waiting_of site [] → m.seats ≡ []
            → IsListOf site.plan list m.list → IsCrew site result m }
        ensures manned { (site : Site) (kept : Kept) (spawner : Spawned)
            → waiting ≡ waiting_of site [] → IsManned kept spawner result }
    {
        Crew {
            runners: Vec::new(alloc),
            waiting,
            list,
        }
    }

    /// The table has entries that are new, of which one may be due at once. It takes no memory.
    pub fn wake(&mut self)
        ensures crew { (site : Site) (m now : State) → now.seats ≡ m.seats → now.list ≡ m.list
            → IsCrew site self.old m → IsCrew site self.new now }
        ensures manned { (old new : Kept) (spawner : Spawned) → KeepsReady old new
            → IsManned old spawner self.old → IsManned new spawner self.new }
    {
        self.waiting.wake();
    }

    /// A turn in which nothing came: the next entry that may be claimed is claimed, and its first
    /// step taken; or else the first of those who hold entries takes a step, and stands behind the
    /// others then, unless its entry was let go.
    ///
    /// It ends where nobody holds an entry and nothing is left of the list of a run over the queue.
    /// Of the causes for which it fails, `NoMemory` also comes where there is none for a claim.
    pub fn rest<D: Spool, S: Spawner, N: Dialer, W: Draws>(
        &mut self,
        alloc: Global,
        table: &mut Table,
        spool: &mut D,
        spawner: &mut S,
        dialer: &mut N,
        draws: &mut W,
        config: &Config,
        maps: &Maps,
        moment: u64,
    ) -> Result<Act, RunStop>
        requires agrees { Tallies table.old (D.seen spool.old) }
        requires whole { IsWhole config.now table.old }
        requires manned { IsManned table.old (S.seen spawner.old) self.old }
        ensures rests { (site : Site) (m : State) → IsUnder site config.now maps.now
            → IsCrew site self.old m → HoldsTable table.old m.table → m.latest ≡ moment
            → m.over ≡ None
            → Rests (drawing (W.seen draws.old) (W.answers draws.old)) site m table.old table.new
            self.new
            (bench (D.seen spool.old) (S.seen spawner.old) (N.seen dialer.old))
            (bench (D.seen spool.new) (S.seen spawner.new) (N.seen dialer.new)) result }
        ensures drawn { IsDrawnIn (drawer (W.seen draws.old) (W.answers draws.old))
            (drawer (W.seen draws.new) (W.answers draws.new)) (bare result) }
        ensures fixed { W.fixed draws.new ≡ W.fixed draws.old }
    {
        match self.next(table, moment) {
            Some(id) => self.begin(
                alloc, table, spool, spawner, dialer, draws, config, maps, moment, &id,
            ),
            None => self.go_on(
                alloc, table, spool, spawner, dialer, draws, config, maps, moment,
            ),
        }
    }

    // An entry is claimed, and its holder takes the first step.
    fn begin<D: Spool, S: Spawner, N: Dialer, W: Draws>(
        &mut self,
        alloc: Global,
        table: &mut Table,
        spool: &mut D,
        spawner: &mut S,
        dialer: &mut N,
        draws: &mut W,
        config: &Config,
        maps: &Maps,
        moment: u64,
        id: &Id,
    ) -> Result<Act, RunStop>
        requires agrees { Tallies table.old (D.seen spool.old) }
        requires whole { IsWhole config.now table.old }
        requires manned { IsManned table.old (S.seen spawner.old) self.old }
        requires next { IsNext self.old.waiting self.old.list moment (store table.old).entries
            (Some id.now) }
        requires ascending { AreAscending (store table.old).entries }
        ensures rests { (site : Site) (m : State) → IsUnder site config.now maps.now
            → IsCrew site self.old m → HoldsTable table.old m.table → m.latest ≡ moment
            → m.over ≡ None
            → Rests (drawing (W.seen draws.old) (W.answers draws.old)) site m table.old table.new
            self.new
            (bench (D.seen spool.old) (S.seen spawner.old) (N.seen dialer.old))
            (bench (D.seen spool.new) (S.seen spawner.new) (N.seen dialer.new)) result }
        ensures drawn { IsDrawnIn (drawer (W.seen draws.old) (W.answers draws.old))
            (drawer (W.seen draws.new) (W.answers draws.new)) (bare result) }
        ensures fixed { W.fixed draws.new ≡ W.fixed draws.old }
    {
        let runner = self.claim(alloc, table, config, maps, id)?;
        self.carry(
            alloc, table, spool, spawner, dialer, draws, config, maps, moment, runner,
        )?;
        Ok(self.act())
    }

    // The first of those who hold entries takes a step, if there is one.
    fn go_on<D: Spool, S: Spawner, N: Dialer, W: Draws>(
        &mut self,
        alloc: Global,
        table: &mut Table,
        spool: &mut D,
        spawner: &mut S,
        dialer: &mut N,
        draws: &mut W,
        config: &Config,
        maps: &Maps,
        moment: u64,
    ) -> Result<Act, RunStop>
        requires agrees { Tallies table.old (D.seen spool.old) }
        requires whole { IsWhole config.now table.old }
        requires manned { IsManned table.old (S.seen spawner.old) self.old }
        requires next { IsNext self.old.waiting self.old.list moment (store table.old).entries
            None }
        ensures rests { (site : Site) (m : State) → IsUnder site config.now maps.now
            → IsCrew site self.old m → HoldsTable table.old m.table → m.latest ≡ moment
            → m.over ≡ None
            → Rests (drawing (W.seen draws.old) (W.answers draws.old)) site m table.old table.new
            self.new
            (bench (D.seen spool.old) (S.seen spawner.old) (N.seen dialer.old))
            (bench (D.seen spool.new) (S.seen spawner.new) (N.seen dialer.new)) result }
        ensures drawn { IsDrawnIn (drawer (W.seen draws.old) (W.answers draws.old))
            (drawer (W.seen draws.new) (W.answers draws.new)) (bare result) }
        ensures fixed { W.fixed draws.new ≡ W.fixed draws.old }
    {
        if self.runners.is_empty() {
            return Ok(self.act());
        }
        let runner = self.runners.remove(0);
        self.carry(
            alloc, table, spool, spawner, dialer, draws, config, maps, moment, runner,
        )?;
        Ok(self.act())
    }

    // Whether a run over the queue is over, since nothing is left of its list and nobody holds an
    // entry.
    fn act(&self) -> Act
        ensures { result ≡ act_by self.now.list self.now.runners.items }
    {
        match &self.list {
            Some(ids) => {
                if ids.is_empty() && self.runners.is_empty() {
                    return Act::Ended;
                }
                Act::Went
            }
            None => Act::Went,
        }
    }

    /// A turn behind a Stop: the first of those whose child runs takes a step. Where no child runs
    /// any more it ends.
    pub fn stop<D: Spool, S: Spawner, N: Dialer, W: Draws>(
        &mut self,
        alloc: Global,
        table: &mut Table,
        spool: &mut D,
        spawner: &mut S,
        dialer: &mut N,
        draws: &mut W,
        config: &Config,
        maps: &Maps,
        moment: u64,
    ) -> Result<Act, RunStop>
        requires agrees { Tallies table.old (D.seen spool.old) }
        requires whole { IsWhole config.now table.old }
        requires manned { IsManned table.old (S.seen spawner.old) self.old }
        ensures stops { (site : Site) (m : State) → IsUnder site config.now maps.now
            → IsCrew site self.old m → HoldsTable table.old m.table → m.latest ≡ moment
            → m.over ≡ None
            → Stops (drawing (W.seen draws.old) (W.answers draws.old)) site m table.old table.new
            self.new
            (bench (D.seen spool.old) (S.seen spawner.old) (N.seen dialer.old))
            (bench (D.seen spool.new) (S.seen spawner.new) (N.seen dialer.new)) result }
        ensures drawn { IsDrawnIn (drawer (W.seen draws.old) (W.answers draws.old))
            (drawer (W.seen draws.new) (W.answers draws.new)) (bare result) }
        ensures fixed { W.fixed draws.new ≡ W.fixed draws.old }
    {
        let Some(place) = self.first_running() else {
            return Ok(Act::Ended);
        };
        let runner = self.runners.remove(place);
        self.carry(
            alloc, table, spool, spawner, dialer, draws, config, maps, moment, runner,
        )?;
        Ok(Act::Went)
    }

    // Where the first runner is whose child runs.
    fn first_running(&self) -> Option<usize>
        ensures { IsFirstRunning self.now.runners.items result }
    {
        self.runners.iter().position(|runner| runner.is_running())
    }

    // The id of the next entry that is claimed.
    fn next(&mut self, table: &Table, moment: u64) -> Option<Id>
        requires quiet { IsQuiet self.old.waiting (store table.now).entries }
        ensures next { IsNext self.old.waiting self.old.list moment (store table.now).entries
            result }
        ensures ascending { AreAscending (store table.now).entries }
        ensures quiet { IsQuiet self.new.waiting (store table.now).entries }
        ensures same { IsAlike self.old self.new }
    {
        let entries = table.entries();
        match &self.list {
            Some(ids) => first_listed(&self.waiting, ids.items(), entries),
            None => self.waiting.least_due(entries, moment),
        }
    }

    // An entry is held from now on, and isn't on the list any more. All memory is taken before.
    fn claim(
        &mut self,
        alloc: Global,
        table: &Table,
        config: &Config,
        maps: &Maps,
        id: &Id,
    ) -> Result<Runner, NoMemory>
        requires entry { HasId (store table.now).entries id.now }
        ensures claims { (h : Held) → Contains (store table.now).entries h → h.entry.id ≡ id.now
            → IfOk result (λ runner. IsClaimed config.now maps.now id.now h.entry.control
            (holder_of runner)) }
        ensures ready { IfOk result (IsReady table.now) }
        ensures holds { (h : Held) → Contains (store table.now).entries h → h.entry.id ≡ id.now
            → OnOk result (IsHolding h.entry self.old self.new) }
        ensures room { OnOk result (vec_len self.new.runners < vec_capacity self.new.runners) }
    {
        self.runners.reserve(1)?;
        let runner = Runner::claim(alloc, table, config, maps, id)?;
        self.waiting.hold(table.queue().entry(id))?;
        self.unlist(id);
        Ok(runner)
    }

    // An entry is on the list no more.
    fn unlist(&mut self, id: &Id)
        ensures list { self.new.list ≡ option_map (without_id id.now) self.old.list }
        ensures same { self.new ≡ record self.old { list = self.new.list } }
    {
        if let Some(ids) = &mut self.list {
            without(ids, *id);
        }
    }

    // The step of a runner, which is put back or let go.
    fn carry<D: Spool, S: Spawner, N: Dialer, W: Draws>(
        &mut self,
        alloc: Global,
        table: &mut Table,
        spool: &mut D,
        spawner: &mut S,
        dialer: &mut N,
        draws: &mut W,
        config: &Config,
        maps: &Maps,
        moment: u64,
        runner: Runner,
    ) -> Result<(), RunStop>
        requires agrees { Tallies table.old (D.seen spool.old) }
        requires whole { IsWhole config.now table.old }
        requires out { IsOut table.old (S.seen spawner.old) self.old runner }
        requires room { vec_len self.old.runners < vec_capacity self.old.runners }
        ensures carries { (entries : Entries) → HoldsTable table.old entries
            → Carries (ground_by config.now maps.now moment
            (drawer (W.seen draws.old) (W.answers draws.old)))
            entries table.old table.new runner self.old self.new
            (bench (D.seen spool.old) (S.seen spawner.old) (N.seen dialer.old))
            (bench (D.seen spool.new) (S.seen spawner.new) (N.seen dialer.new)) result }
        ensures drawn { IsDrawnIn (drawer (W.seen draws.old) (W.answers draws.old))
            (drawer (W.seen draws.new) (W.answers draws.new)) (bare result) }
        ensures fixed { W.fixed draws.new ≡ W.fixed draws.old }
    {
        let mut runner = runner;
        let id = runner.id();
        let did = runner.step(
            alloc, table, spool, spawner, dialer, draws, config, maps, moment,
        )?;
        self.settle(&id, runner, did);
        Ok(())
    }

    // What becomes of the runner of an entry behind its step.
    fn settle(&mut self, id: &Id, runner: Runner, did: Did)
        requires room { vec_len self.old.runners < vec_capacity self.old.runners }
        ensures { IsSettled did id.now runner self.old self.new }
    {
        match did {
            Did::Free => self.waiting.release(id),
            Did::Waits => self.runners.push_reserved(runner),
            Did::Began => self.put_back(runner),
            Did::Recorded => self.put_back(runner),
            Did::Gave => self.put_back(runner),
        }
    }

    // A runner stands behind the others, and the table may have changed.
    fn put_back(&mut self, runner: Runner)
        requires room { vec_len self.old.runners < vec_capacity self.old.runners }
        ensures put { IsPutBack runner self.old self.new }
        ensures awake { self.new.waiting.quiet ≡ 0 }
    {
        self.waiting.wake();
        self.runners.push_reserved(runner);
    }
}
