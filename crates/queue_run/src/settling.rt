ghost use Rattle.std.specs.Prelude.{◌≡◌, ◌<◌, Some, false, length, slice_get};
ghost use Rattle.link_edge.specs.Dials.{DialSeen};
ghost use Rattle.spawn_edge.specs.Spawned.{Spawned};
ghost use Rattle.spool_store.specs.Entries.{Table as Entries};
ghost use Rattle.queue_table.specs.Calls.{HoldsTable, Tallies, store};
ghost use Rattle.queue_run.specs.declared.batch.Batch.{Batch as TheBatch};
ghost use Rattle.queue_run.specs.Holders.{holder_of};
ghost use Rattle.queue_run.specs.Kinds.{Settles};
ghost use Rattle.mail_base.specs.declared.config.Config.{Config};
ghost use Rattle.map_tables.specs.Answers.{Loaded};
ghost use Rattle.queue_run.specs.Meant.{ground_of};
ghost use Rattle.queue_run.specs.Ready.{IsReady};
ghost use Rattle.queue_run.specs.Working.{IsWhole, Steps, bench, kind_in};

use crate::putting::put_alike;
use crate::{Did, RunStop, Runner};
use mail_base::Result1;
use queue_table::Table;
use spool_disk::Spool;
use std::alloc::Global;

impl Runner {
    // A batch that needs no attempt is recorded.
    pub(crate) fn settle<D: Spool>(
        &mut self,
        alloc: Global,
        table: &mut Table,
        spool: &mut D,
        one: &Result1,
        moment: u64,
    ) -> Result<Did, RunStop>
        requires agrees { Tallies table.old (D.seen spool.old) }
        requires whole { (store table.old).broken ≡ false }
        requires ready { IsReady table.old self.old }
        requires some { 0 < length self.old.rest.items }
        ensures steps { (config : Config) (maps : Loaded) (entries : Entries) (spawner : Spawned)
            (dialer : DialSeen) (batch : TheBatch)
            → IsWhole config table.old → HoldsTable table.old entries
            → slice_get (holder_of self.old).rest 0 ≡ Some batch
            → kind_in (ground_of config maps moment) entries (holder_of self.old) ≡ Settles batch one.now
            → Steps (ground_of config maps moment) entries table.old table.new self.old self.new
            (bench (D.seen spool.old) spawner dialer) (bench (D.seen spool.new) spawner dialer)
            result }
    {
        let Some(batch) = self.rest.pop() else {
            unreachable!()
        };
        put_alike(alloc, table, spool, &self.id, &batch.places, one, moment)
    }
}
