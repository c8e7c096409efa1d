ghost use Rattle.std.specs.Prelude.{◌≡◌, ◌≢◌, ◌≤◌, ◌+◌, ◌^◌, ℕ, true, false, IfOk, IfErr, OnOk};
ghost use Rattle.mail_base.specs.declared.fault.StoreFault.TheVariants.{IdsSpent as Spent, SpoolFault as Broke};
ghost use Rattle.mail_edge.specs.Seen.{FilesSeen};
ghost use Rattle.link_edge.specs.Heard.{Heard};
ghost use Rattle.spawn_edge.specs.Spawned.{Spawned};
ghost use Rattle.spool_store.specs.Entries.{Table as Entries};
ghost use Rattle.spool_store.specs.Keepers.{seen as queue_seen};
ghost use Rattle.spool_store.specs.Stores.{Holds};
ghost use Rattle.queue_table.specs.Directories.{all_dirs, terms_of};
ghost use Rattle.map_tables.specs.Answers.{Loaded};
ghost use Rattle.mail_core.specs.Seen.{Hands, IsSparing, beside, hands, seen};
ghost use Rattle.mail_core.specs.Sites.{Site};
ghost use Rattle.mail_core.specs.Standing.{MayGoOn, Stores, table_of};
ghost use Rattle.mail_judge.specs.Judged.{Grounds as TheGrounds};
ghost use Rattle.sendmail_run.specs.Outcomes.{of_serving};
ghost use Rattle.sendmail_run.specs.Rises.{RisesOnlyAt};
ghost use Rattle.sendmail_run.specs.Serving.{IsReadFor, IsTakenOver, Serves, judge_by, site_of};
ghost use Rattle.sendmail_run.specs.Tasks.{plan_of};
ghost use Rattle.sendmail_run.specs.inner.Opened.{AreManned, HasBegun, IsOpened, has_lost_files};
ghost use Rattle.sendmail_run.specs.declared.outcome.Outcome.TheVariants.{SpoolFault};
ghost use Rattle.sendmail_run.specs.declared.serving_mode.ServeEnd.TheVariants as ends;

use crate::serving_mode::ServeEnd;
use crate::site::{host_of, queue_dirs};
use crate::task::Task;
use mail_base::{Config, NoMemory, StoreFault, Text};
use mail_core::Core;
use mail_edge::Clock;
use queue_table::Table;
use spool_disk::Spool;
use spool_store::{Queue, opening_settles};
use std::alloc::Global;

/// Opens the queue, and makes a core over it, as a task asks.
pub(crate) fn opened<D: Spool, C: Clock>(
    alloc: Global,
    task: &Task,
    config: &Config,
    spool: &mut D,
    clock: &mut C,
) -> Result<Core, ServeEnd>
    requires { (C.seen clock.old).readings ≤ 2 ^ 63 }
    ensures taken { IsTakenOver (all_dirs (terms_of config.now)) (D.seen spool.old)
        (D.seen spool.new) }
    ensures later { (D.seen spool.old).faults ≤ (D.seen spool.new).faults }
    ensures core { IfOk result
        (λ core. (maps : Loaded) → IsOpened (site_of config.now maps (plan_of task.now))
        (D.seen spool.old).told core (C.seen clock.old) (C.seen clock.new)) }
    ensures able { IfOk result
        (λ core. (spawner : Spawned) → MayGoOn core (D.seen spool.new) spawner) }
    ensures sparing { IfOk result
        (λ _. IsSparing (all_dirs (terms_of config.now)) (D.seen spool.old) (D.seen spool.new)
        true) }
    ensures readings { (C.seen clock.new).readings ≤ (C.seen clock.old).readings + 1 }
    ensures serves { IfErr result
        (λ end. (maps : Loaded) (grounds : TheGrounds) (files : FilesSeen) (faults : ℕ)
        (floor : Heard) (hands : Hands)
        → Serves (judge_by grounds files) faults (site_of config.now maps (plan_of task.now))
        task.now (seen floor (D.seen spool.old) (beside (C.seen clock.old) hands))
        (seen floor (D.seen spool.new) (beside (C.seen clock.new) hands)) end) }
    ensures quiet { IfErr result (λ end. has_lost_files end ≡ false) }
    ensures kept { OnOk result ((D.seen spool.new).faults ≡ (D.seen spool.old).faults) }
    ensures rises { IfErr result
        (λ end. RisesOnlyAt SpoolFault (of_serving end) (D.seen spool.old).faults
        (D.seen spool.new).faults) }
{
    let Ok(dirs) = queue_dirs(config) else {
        return Err(ServeEnd::NoMemory);
    };
    let queue = match Queue::open(alloc, spool, &dirs) {
        Ok(queue) => queue,
        Err(fault) => return Err(not_opened(fault)),
    };
    // A law: what an opening leaves is settled, with the table that the files stood for.
    opening_settles();
    match core_over(alloc, task, config, queue, clock) {
        Ok(core) => Ok(core),
        Err(NoMemory) => Err(ServeEnd::NoMemory),
    }
}

// The end of a run whose queue isn't opened.
fn not_opened(fault: StoreFault) -> ServeEnd
    requires never { fault ≢ Spent }
    ensures broke { fault ≡ Broke → result ≡ ends.NotOpened }
    ensures memory { fault ≢ Broke → result ≡ ends.NoMemory }
{
    match fault {
        StoreFault::SpoolFault => ServeEnd::NotOpened,
        StoreFault::NoMemory => ServeEnd::NoMemory,
        StoreFault::IdsSpent => unreachable!(),
    }
}

// A core over the store of the queue.
fn core_over<C: Clock>(
    alloc: Global,
    task: &Task,
    config: &Config,
    queue: Queue,
    clock: &mut C,
) -> Result<Core, NoMemory>
    requires readings { (C.seen clock.old).readings ≤ 2 ^ 63 }
    requires whole { (queue_seen queue).broken ≡ false }
    requires dirs { (queue_seen queue).dirs ≡ all_dirs (terms_of config.now) }
    ensures begins { IfOk result
        (λ core. (maps : Loaded) (entries : Entries) → Holds (queue_seen queue) entries
        → HasBegun (site_of config.now maps (plan_of task.now)) core entries (C.seen clock.old)
        (C.seen clock.new)) }
    ensures manned { IfOk result AreManned }
    ensures queue { IfOk result (λ core. (table_of core).queue ≡ queue) }
    ensures read { IsReadFor (plan_of task.now) (C.seen clock.old) (C.seen clock.new) }
{
    let host = host_of(alloc, &config.macros)?;
    let table = Table::over(queue, config)?;
    core_for(alloc, task, config, host, table, clock)
}

// A core over a table, as a task asks; for a run over the queue the clock is read.
fn core_for<C: Clock>(
    alloc: Global,
    task: &Task,
    config: &Config,
    host: Text,
    table: Table,
    clock: &mut C,
) -> Result<Core, NoMemory>
    requires { (C.seen clock.old).readings ≤ 2 ^ 63 }
    ensures begins { IfOk result
        (λ core. (site : Site) (entries : Entries) → site.host ≡ host
        → site.config ≡ config.now → site.plan ≡ plan_of task.now → Stores site table entries
        → HasBegun site core entries (C.seen clock.old) (C.seen clock.new)) }
    ensures manned { IfOk result AreManned }
    ensures table { IfOk result (λ core. table_of core ≡ table) }
    ensures read { IsReadFor (plan_of task.now) (C.seen clock.old) (C.seen clock.new) }
{
    match task {
        Task::Session => Core::serving(alloc, host, table, config, None),
        Task::Daemon { wait } => Core::serving(alloc, host, table, config, *wait),
        Task::Run { group } => {
            let first = clock.now();
            Core::once(alloc, host, table, config, group.as_ref(), first)
        }
    }
}
