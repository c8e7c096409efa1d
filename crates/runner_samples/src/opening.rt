//! The table of a spool, and its entries.

ghost use Rattle.std.specs.Prelude.{IfOk, IfSome};
ghost use Rattle.spool_store.specs.Stores.{HasId};
ghost use Rattle.queue_table.specs.Calls.{AreDirs, store};
ghost use Rattle.queue_table.specs.Directories.{terms_of};
ghost use Rattle.runner_samples.specs.Runs.{IsStanding};

use mail_base::{Config, Id, NoMemory, Seq, StoreFault, Text};
use queue_table::{Table, Terms};
use spool_disk::Spool;
use spool_store::Queue;
use std::alloc::Global;

fn dirs_of(config: &Config) -> Result<Seq<Text>, NoMemory>
    ensures { IfOk result (AreDirs (terms_of config.now)) }
{
    Terms::of(config)?.dirs()
}

/// The table of a spool, of which entries may be claimed.
pub fn opened<D: Spool>(alloc: Global, spool: &mut D, config: &Config) -> Result<Table, StoreFault>
    ensures { IfOk result (λ table. IsStanding config.now table (D.seen spool.new)) }
{
    let dirs = dirs_of(config)?;
    let queue = Queue::open(alloc, spool, &dirs)?;
    Ok(Table::over(queue, config)?)
}

/// The id of that number, if it is one of an entry.
pub fn id_of(table: &Table, number: u64) -> Option<Id>
    ensures { IfSome result (HasId (store table.now).entries) }
{
    for held in table.entries() {
        if held.entry.id.number() == number {
            return Some(held.entry.id);
        }
    }
    None
}
