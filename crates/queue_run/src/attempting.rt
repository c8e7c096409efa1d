ghost use Rattle.std.specs.Prelude.{◌≡◌, ◌<◌, Contains, IfOk, None, Some, length, slice_get};
ghost use Rattle.std.specs.List.{list_all};
ghost use Rattle.mailer_pipe.specs.Arguments.{is_argument};
ghost use Rattle.spool_store.specs.Entries.{Table as Entries};
ghost use Rattle.spool_store.specs.declared.held.Held.{Held};
ghost use Rattle.queue_table.specs.Calls.{HoldsTable, Tallies, store};
ghost use Rattle.queue_run.specs.declared.batch.Batch.{Batch as TheBatch};
ghost use Rattle.queue_run.specs.Holders.{holder_of};
ghost use Rattle.queue_run.specs.Kinds.{host_macros};
ghost use Rattle.queue_run.specs.Meant.{ground_of, host_of};
ghost use Rattle.queue_run.specs.Peers as spec;
ghost use Rattle.queue_run.specs.Ready.{IsReady};
ghost use Rattle.queue_run.specs.Working.{IsWhole, Steps, bench};
ghost use Rattle.queue_run.specs.inner.Attempts.{GoesBy, IsFirst};

use crate::handing::{host_macros, host_of};
use crate::peers::peers_of;
use crate::results::{no_host, no_mailer, no_user, refused_by};
use crate::{Batch, Did, RunStop, Runner};
use link_edge::{Dialer, Peer};
use mail_base::{Config, Mailer, NoMemory, Resolved, Seq};
use mail_header::is_network;
use mailer_pipe::{are_arguments, no_argument, takes_users};
use map_tables::Maps;
use queue_table::Table;
use spawn_edge::Spawner;
use spool_disk::Spool;
use std::alloc::Global;

impl Runner {
    // The next batch is tried, or recorded where no attempt can be made.
    pub(crate) fn attempt<D: Spool, S: Spawner, N: Dialer>(
        &mut self,
        alloc: Global,
        table: &mut Table,
        spool: &mut D,
        spawner: &mut S,
        dialer: &mut N,
        config: &Config,
        maps: &Maps,
        moment: u64,
    ) -> Result<Did, RunStop>
        requires agrees { Tallies table.old (D.seen spool.old) }
        requires whole { IsWhole config.now table.old }
        requires ready { IsReady table.old self.old }
        requires some { 0 < length self.old.rest.items }
        requires running { self.old.running ≡ None }
        ensures steps { (entries : Entries) → HoldsTable table.old entries
            → Steps (ground_of config.now maps.now moment) entries table.old table.new self.old
            self.new (bench (D.seen spool.old) (S.seen spawner.old) (N.seen dialer.old))
            (bench (D.seen spool.new) (S.seen spawner.new) (N.seen dialer.new)) result }
    {
        match &self.next().resolved {
            Resolved::Refuses(error) => {
                let one = refused_by(error)?;
                self.settle(alloc, table, spool, &one, moment)
            }
            Resolved::Goes(triple) => match config.mailer(&triple.mailer) {
                Some(mailer) => self.attempt_by(
                    alloc, table, spool, spawner, dialer, config, maps, mailer, moment,
                ),
                None => self.settle(alloc, table, spool, &no_mailer(), moment),
            },
        }
    }

    // The same of a batch that goes by this mailer.
    fn attempt_by<D: Spool, S: Spawner, N: Dialer>(
        &mut self,
        alloc: Global,
        table: &mut Table,
        spool: &mut D,
        spawner: &mut S,
        dialer: &mut N,
        config: &Config,
        maps: &Maps,
        mailer: &Mailer,
        moment: u64,
    ) -> Result<Did, RunStop>
        requires agrees { Tallies table.old (D.seen spool.old) }
        requires whole { IsWhole config.now table.old }
        requires ready { IsReady table.old self.old }
        requires some { 0 < length self.old.rest.items }
        requires running { self.old.running ≡ None }
        requires goes { IsFirst self.old (GoesBy config.now mailer.now) }
        ensures steps { (entries : Entries) → HoldsTable table.old entries
            → Steps (ground_of config.now maps.now moment) entries table.old table.new self.old
            self.new (bench (D.seen spool.old) (S.seen spawner.old) (N.seen dialer.old))
            (bench (D.seen spool.new) (S.seen spawner.new) (N.seen dialer.new)) result }
    {
        if is_network(mailer) {
            let peers = self.peers(alloc, table, config, maps, mailer)?;
            if peers.is_empty() {
                return self.settle(alloc, table, spool, &no_host(), moment);
            }
            return self.talk(
                alloc, table, spool, dialer, config, maps, mailer, &peers, moment,
            );
        }
        if !takes_users(mailer) {
            return self.settle(alloc, table, spool, &no_user(), moment);
        }
        if !self.has_arguments() {
            return self.settle(alloc, table, spool, &no_argument(), moment);
        }
        self.start(alloc, table, spool, spawner, config, maps, mailer, moment)
    }

    // Whether each user of the next batch may be an argument.
    fn has_arguments(&self) -> bool
        requires some { 0 < length self.now.rest.items }
        ensures { IsFirst self.now (λ batch. result ≡ list_all is_argument batch.users) }
    {
        are_arguments(&self.next().users)
    }

    // The peers to which the next batch goes by a network mailer.
    fn peers(
        &self,
        alloc: Global,
        table: &Table,
        config: &Config,
        maps: &Maps,
        mailer: &Mailer,
    ) -> Result<Seq<Peer>, NoMemory>
        requires ready { IsReady table.now self.now }
        requires some { 0 < length self.now.rest.items }
        ensures { (h : Held) → Contains (store table.now).entries h → h.entry.id ≡ self.now.id
            → IfOk result (λ peers. IsFirst self.now (λ batch. peers ≡ spec.peers_of maps.now
            mailer.now (host_macros config.now self.now.id h.entry.control
            (host_of batch.resolved)))) }
    {
        let host = host_of(alloc, &self.next().resolved)?;
        let control = &table.queue().entry(&self.id).control;
        let macros = host_macros(alloc, config, &self.id, control, &host)?;
        peers_of(alloc, maps, mailer, &macros)
    }

    // The next batch.
    fn next(&self) -> &Batch
        requires some { 0 < length self.now.rest.items }
        ensures { IsFirst self.now (λ batch. result.now ≡ batch) }
    {
        match self.rest.last() {
            Some(batch) => batch,
            None => unreachable!(),
        }
    }
}
