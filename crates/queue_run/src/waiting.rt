ghost use Rattle.std.specs.Prelude.{◌≡◌, IsSome, false};
ghost use Rattle.link_edge.specs.Dials.{DialSeen};
ghost use Rattle.spool_store.specs.Entries.{Table as Entries};
ghost use Rattle.queue_table.specs.Calls.{HoldsTable, Tallies, store};
ghost use Rattle.mail_base.specs.declared.config.Config.{Config};
ghost use Rattle.map_tables.specs.Answers.{Loaded};
ghost use Rattle.queue_run.specs.Meant.{ground_of};
ghost use Rattle.queue_run.specs.Ready.{IsReady};
ghost use Rattle.queue_run.specs.Working.{HasChild, IsWhole, Steps, bench};

use crate::putting::put;
use crate::results::{fill_ended, fill_lost};
use crate::{Did, RunStop, Runner, Running};
use mail_base::Failed;
use queue_table::Table;
use spawn_edge::Spawner;
use spool_disk::Spool;

impl Runner {
    // A child is polled, and its end is recorded. It takes no memory.
    pub(crate) fn wait<D: Spool, S: Spawner>(
        &mut self,
        table: &mut Table,
        spool: &mut D,
        spawner: &mut S,
        moment: u64,
    ) -> Result<Did, RunStop>
        requires agrees { Tallies table.old (D.seen spool.old) }
        requires whole { (store table.old).broken ≡ false }
        requires ready { IsReady table.old self.old }
        requires child { HasChild (S.seen spawner.old) self.old }
        requires running { IsSome self.old.running }
        ensures steps { (config : Config) (maps : Loaded) (entries : Entries) (dialer : DialSeen)
            → IsWhole config table.old → HoldsTable table.old entries
            → Steps (ground_of config maps moment) entries table.old table.new self.old self.new
            (bench (D.seen spool.old) (S.seen spawner.old) dialer)
            (bench (D.seen spool.new) (S.seen spawner.new) dialer) result }
    {
        let Some(running) = self.running.take() else {
            unreachable!()
        };
        match spawner.finished(running.child) {
            Ok(None) => {
                self.running = Some(running);
                Ok(Did::Waits)
            }
            Ok(Some(status)) => {
                let Running {
                    child: _,
                    reserved,
                    mut outcomes,
                } = running;
                fill_ended(&mut outcomes, status);
                put(table, spool, reserved, &outcomes, moment)
            }
            Err(Failed) => {
                let Running {
                    child: _,
                    reserved,
                    mut outcomes,
                } = running;
                fill_lost(&mut outcomes);
                put(table, spool, reserved, &outcomes, moment)
            }
        }
    }
}
