ghost use Rattle.std.specs.Prelude.{◌≡◌, ◌<◌, ◌-◌, ◌^◌, false};
ghost use Rattle.spool_disk.specs.Disk.{FileMap};
ghost use Rattle.spool_store.specs.Entries.{Table as Entries};
ghost use Rattle.spool_store.specs.Moves.{Moves};
ghost use Rattle.spool_store.specs.Stores.{KeepsOthers};
ghost use Rattle.queue_table.specs.Calls.{HoldsTable, IsSame, Stays, Tallies, store};
ghost use Rattle.submit_run.specs.Taken.{Counts, IsReadAtMostOnce, MayTake, is_committed, is_files_fault};
ghost use Rattle.submit_run.specs.inner.Storing.{IsFit, Stores};
ghost use Rattle.submit_run.specs.declared.end.SubmitEnd.TheVariants.{SpoolFault};

use crate::SubmitEnd;
use mail_base::{Config, Message, StoreFault};
use mail_edge::Clock;
use mail_made::{has_class, moment_of, planned};
use map_tables::Maps;
use queue_table::Table;
use spool_disk::Spool;
use std::alloc::Global;

/// Takes a message into the table by one command, at the moment that the clock says.
pub(crate) fn stored<D: Spool, C: Clock>(
    alloc: Global,
    config: &Config,
    maps: &Maps,
    table: &mut Table,
    spool: &mut D,
    clock: &mut C,
    message: Message,
) -> SubmitEnd
    requires table { MayTake config.now table.old (D.seen spool.old) }
    requires readings { (C.seen clock.old).readings < 2 ^ 64 - 1 }
    requires form { IsFit message }
    ensures stores { (entries : Entries) → HoldsTable table.old entries
        → Stores config.now maps.now entries message (C.seen clock.old) (C.seen clock.new)
        (store table.old).dirs (D.seen spool.old) (D.seen spool.new) table.new result }
    ensures clock { IsReadAtMostOnce (C.seen clock.old) (C.seen clock.new) }
    ensures spool { Counts SpoolFault result (D.seen spool.old).faults (D.seen spool.new).faults }
    ensures untouched { is_committed result ≡ false → spool.new ≡ spool.old }
    ensures same { is_committed result ≡ false → IsSame table.old table.new }
    ensures stays { Stays table.old table.new }
    ensures tallied { Tallies table.new (D.seen spool.new) }
    ensures quiet { is_files_fault result ≡ false }
    ensures frame { (f : FileMap)
        → Moves (D.seen spool.old) (D.seen spool.new) (λ g. g ≡ f)
        (KeepsOthers (store table.old).dirs f) (KeepsOthers (store table.old).dirs f) }
{
    has_class(&message);
    let moment = moment_of(clock.now());
    match planned(alloc, config, maps, table, moment, message) {
        Ok(accepting) => match table.accept_planned(spool, accepting) {
            Ok(_) => SubmitEnd::Done,
            Err(_) => SubmitEnd::SpoolFault,
        },
        Err(StoreFault::IdsSpent) => SubmitEnd::IdsSpent,
        Err(StoreFault::SpoolFault) => SubmitEnd::SpoolFault,
        Err(StoreFault::NoMemory) => SubmitEnd::NoMemory,
    }
}
