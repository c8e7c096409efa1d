ghost use Rattle.std.specs.Prelude.{◌≡◌, ◌≢◌, ◌⊎◌, ◌≤◌, IfOk, IsErrOf};
ghost use Rattle.mail_base.specs.Histories.{Rose};
ghost use Rattle.mail_base.specs.declared.fault.StoreFault.TheVariants.{IdsSpent as Spent, SpoolFault as Broke};
ghost use Rattle.queue_table.specs.Directories.{all_dirs, terms_of};
ghost use Rattle.sendmail_run.specs.Listings.{IsListed, Lists};
ghost use Rattle.sendmail_run.specs.Outcomes.{of_list};
ghost use Rattle.sendmail_run.specs.Rises.{RisesOnlyAt};
ghost use Rattle.sendmail_run.specs.Serving.{IsTakenOver};
ghost use Rattle.sendmail_run.specs.declared.list_mode.ListEnd.TheVariants as ends;
ghost use Rattle.sendmail_run.specs.declared.outcome.Outcome.TheVariants.{SpoolFault, WriteFault};

use crate::queue_listing::listing;
use crate::site::queue_dirs;
use mail_base::{Config, StoreFault, Text};
use mail_edge::Sink;
use queue_table::Table;
use spool_disk::Spool;
use spool_store::Queue;
use std::alloc::Global;

/// How the mode that lists the queue ends.
#[derive(Clone, Copy)]
pub enum ListEnd {
    /// The listing was written.
    Done,
    /// The output could not be written.
    WriteFault,
    /// The spool failed as the queue was opened, or a body of it could not be read.
    SpoolFault,
    NoMemory,
}

/// Opens the queue, whatever its directories hold, and writes its listing. The configuration says
/// the directories. The whole listing is made before any of it is written.
pub fn list_mode<D: Spool, O: Sink>(
    alloc: Global,
    config: &Config,
    spool: &mut D,
    output: &mut O,
) -> ListEnd
    ensures lists { Lists (all_dirs (terms_of config.now)) (D.seen spool.old) (D.seen spool.new)
        (O.seen output.old) (O.seen output.new) result }
    ensures spool { (D.seen spool.old).faults ≤ (D.seen spool.new).faults }
    ensures output { (O.seen output.old).faults ≤ (O.seen output.new).faults }
    ensures opened { RisesOnlyAt SpoolFault (of_list result) (D.seen spool.old).faults
        (D.seen spool.new).faults }
    ensures written { RisesOnlyAt WriteFault (of_list result) (O.seen output.old).faults
        (O.seen output.new).faults }
{
    let text = match listed(alloc, config, spool) {
        Ok(text) => text,
        Err(fault) => return not_listed(fault),
    };
    match output.give(text.bytes()) {
        Ok(()) => ListEnd::Done,
        Err(_) => ListEnd::WriteFault,
    }
}

// Opens the queue, and makes its listing.
fn listed<D: Spool>(alloc: Global, config: &Config, spool: &mut D) -> Result<Text, StoreFault>
    ensures taken { IsTakenOver (all_dirs (terms_of config.now)) (D.seen spool.old)
        (D.seen spool.new) }
    ensures is { IfOk result (IsListed (all_dirs (terms_of config.now)) (D.seen spool.old)) }
    ensures never { IsErrOf result Spent → ⊥ }
    ensures later { (D.seen spool.old).faults ≤ (D.seen spool.new).faults }
    ensures cause { IsErrOf result Broke
        → Rose (D.seen spool.old).faults (D.seen spool.new).faults }
    ensures calm { IsErrOf result Broke ⊎ ((D.seen spool.new).faults ≡ (D.seen spool.old).faults) }
{
    let dirs = queue_dirs(config)?;
    let queue = Queue::open(alloc, spool, &dirs)?;
    let table = Table::over(queue, config)?;
    listing(alloc, &table, spool)
}

// The end of a run without a listing.
fn not_listed(fault: StoreFault) -> ListEnd
    requires never { fault ≢ Spent }
    ensures broke { fault ≡ Broke → result ≡ ends.SpoolFault }
    ensures memory { fault ≢ Broke → result ≡ ends.NoMemory }
{
    match fault {
        StoreFault::SpoolFault => ListEnd::SpoolFault,
        StoreFault::NoMemory => ListEnd::NoMemory,
        StoreFault::IdsSpent => unreachable!(),
    }
}
