ghost use Rattle.std.specs.Prelude.{◌≡◌, Ok, false};
ghost use Rattle.link_edge.specs.Dials.{DialSeen};
ghost use Rattle.mail_base.specs.declared.config.Config.{Config as TheConfig};
ghost use Rattle.map_tables.specs.Answers.{Loaded};
ghost use Rattle.spawn_edge.specs.Spawned.{Spawned};
ghost use Rattle.spool_store.specs.Entries.{Table as Entries};
ghost use Rattle.spool_store.specs.Keepers.{CanFinish};
ghost use Rattle.queue_table.specs.Calls.{HoldsTable, Tallies, store};
ghost use Rattle.queue_run.specs.Holders.{holder_of};
ghost use Rattle.queue_run.specs.Kinds.{Finishes, Leaves, is_late, is_warning_due};
ghost use Rattle.queue_run.specs.Meant.{ground_of};
ghost use Rattle.queue_run.specs.Ready.{IsReady};
ghost use Rattle.queue_run.specs.Working.{IsWhole, Steps, bench, kind_in};

use crate::{Did, RunStop, Runner};
use mail_base::{Config, Control};
use queue_table::Table;
use spool_disk::Spool;

impl Runner {
    // An entry whose rows are all done is finished, and let go. It takes no memory.
    pub(crate) fn finish<D: Spool>(
        &mut self,
        table: &mut Table,
        spool: &mut D,
        moment: u64,
    ) -> Result<Did, RunStop>
        requires agrees { Tallies table.old (D.seen spool.old) }
        requires whole { (store table.old).broken ≡ false }
        requires ready { IsReady table.old self.old }
        requires can { CanFinish (store table.old).entries self.old.id }
        ensures steps { (config : TheConfig) (maps : Loaded) (entries : Entries)
            (spawner : Spawned) (dialer : DialSeen) → IsWhole config table.old
            → HoldsTable table.old entries
            → kind_in (ground_of config maps moment) entries (holder_of self.old) ≡ Finishes
            → Steps (ground_of config maps moment) entries table.old table.new self.old self.new
            (bench (D.seen spool.old) spawner dialer) (bench (D.seen spool.new) spawner dialer)
            result }
    {
        match table.finish(spool, &self.id) {
            Ok(()) => Ok(Did::Free),
            Err(_fault) => Err(RunStop::SpoolFault),
        }
    }
}

fn is_late(wait: Option<u64>, created: u64, moment: u64) -> bool
    ensures { result ≡ is_late wait created moment }
{
    match wait {
        Some(wait) => created <= moment && wait <= moment - created,
        None => false,
    }
}

// Whether a row is still tried long after the message came, and its sender wasn't warned yet.
pub(crate) fn is_warning_due(config: &Config, control: &Control, moment: u64) -> bool
    ensures { result ≡ is_warning_due config.now moment control.now }
{
    is_late(config.options.queue_warn, control.created, moment)
        && control.has_queued()
        && control.sender.bytes() != b"<>".as_slice()
        && control.class >= 0
        && !control.marks.warned
}
