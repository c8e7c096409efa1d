ghost use Rattle.std.specs.Prelude.{◌≡◌, ◌<◌, Some, false, length, slice_get, true};
ghost use Rattle.std.specs.List.{list_all};
ghost use Rattle.link_edge.specs.Dials.{DialSeen};
ghost use Rattle.mailer_pipe.specs.Arguments.{is_argument, takes_users};
ghost use Rattle.spool_store.specs.Entries.{Table as Entries};
ghost use Rattle.queue_table.specs.Calls.{HoldsTable, Tallies, store};
ghost use Rattle.queue_run.specs.declared.batch.Batch.{Batch as TheBatch};
ghost use Rattle.queue_run.specs.Holders.{holder_of};
ghost use Rattle.queue_run.specs.Kinds.{Starts};
ghost use Rattle.queue_run.specs.Meant.{ground_of};
ghost use Rattle.queue_run.specs.Ready.{IsReady};
ghost use Rattle.queue_run.specs.Working.{IsWhole, Steps, bench, kind_in};

use crate::handing::{hand, host_of, is_large};
use crate::putting::{put, put_alike, reserve};
use crate::results::{alike, device_fault, too_large};
use crate::{Did, RunStop, Runner, Running};
use mail_base::{Config, Mailer};
use mailer_pipe::{PipeFault, begin};
use map_tables::Maps;
use queue_table::Table;
use spawn_edge::Spawner;
use spool_disk::Spool;
use std::alloc::Global;

impl Runner {
    // A program is started for a batch. All memory of the record is taken before that.
    pub(crate) fn start<D: Spool, S: Spawner>(
        &mut self,
        alloc: Global,
        table: &mut Table,
        spool: &mut D,
        spawner: &mut S,
        config: &Config,
        maps: &Maps,
        mailer: &Mailer,
        moment: u64,
    ) -> Result<Did, RunStop>
        requires agrees { Tallies table.old (D.seen spool.old) }
        requires whole { (store table.old).broken ≡ false }
        requires ready { IsReady table.old self.old }
        requires some { 0 < length self.old.rest.items }
        requires takes { takes_users mailer.now ≡ true }
        requires users { (batch : TheBatch)
            → slice_get (holder_of self.old).rest 0 ≡ Some batch
            → list_all is_argument batch.users ≡ true }
        ensures steps { (entries : Entries) (dialer : DialSeen) (batch : TheBatch)
            → IsWhole config.now table.old → HoldsTable table.old entries
            → slice_get (holder_of self.old).rest 0 ≡ Some batch
            → kind_in (ground_of config.now maps.now moment) entries (holder_of self.old)
            ≡ Starts batch mailer.now
            → Steps (ground_of config.now maps.now moment) entries table.old table.new self.old
            self.new (bench (D.seen spool.old) (S.seen spawner.old) dialer)
            (bench (D.seen spool.new) (S.seen spawner.new) dialer) result }
    {
        let Some(batch) = self.rest.pop() else {
            unreachable!()
        };
        let host = host_of(alloc, &batch.resolved)?;
        let letter = hand(
            alloc, table, spool, config, maps, mailer, &self.id, &host, moment,
        )?;
        if is_large(mailer, &letter) {
            let one = too_large();
            return put_alike(alloc, table, spool, &self.id, &batch.places, &one, moment);
        }
        let outcomes = alike(alloc, &device_fault(), batch.places.items())?;
        let reserved = reserve(table, &self.id, &batch.places)?;
        match begin(
            alloc,
            spawner,
            mailer,
            &letter.macros,
            &batch.users,
            &letter.text,
        ) {
            Ok(child) => {
                self.running = Some(Running {
                    child,
                    reserved,
                    outcomes,
                });
                Ok(Did::Began)
            }
            Err(PipeFault::DeviceFault) => put(table, spool, reserved, &outcomes, moment),
            Err(PipeFault::NoMemory) => Err(RunStop::NoMemory),
        }
    }
}
