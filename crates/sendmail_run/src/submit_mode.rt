ghost use Rattle.std.specs.Prelude.{◌≡◌, ◌≢◌, ◌≤◌, ◌^◌, IfErr, IfOk, OnOk, None, true};
ghost use Rattle.mail_base.specs.Histories.{Rose};
ghost use Rattle.mail_base.specs.declared.fault.StoreFault.TheVariants.{IdsSpent as Spent, SpoolFault as Broke};
ghost use Rattle.mail_edge.specs.Asking.{Asks};
ghost use Rattle.mail_edge.specs.Seen.{SinkSeen};
ghost use Rattle.link_edge.specs.Heard.{Heard};
ghost use Rattle.queue_table.specs.Calls.{store};
ghost use Rattle.queue_table.specs.Directories.{all_dirs, terms_of};
ghost use Rattle.mail_core.specs.Plans.{Serve};
ghost use Rattle.mail_core.specs.Seen.{Hands, IsSparing, beside};
ghost use Rattle.mail_submit.specs.Said.{AreSaid};
ghost use Rattle.submit_run.specs.Taken.{MayTake};
ghost use Rattle.submit_run.specs.declared.end.SubmitEnd.{SubmitEnd as SubmitEndSeen};
ghost use Rattle.sendmail_run.specs.Devices.{world};
ghost use Rattle.sendmail_run.specs.Outcomes.{of_submitting};
ghost use Rattle.sendmail_run.specs.Rises.{RisesOnlyAt};
ghost use Rattle.sendmail_run.specs.Serving.{IsTakenOver, grounds_of, site_of};
ghost use Rattle.sendmail_run.specs.Submitting.{EndsSo};
ghost use Rattle.sendmail_run.specs.inner.Opened.{IsFound};
ghost use Rattle.sendmail_run.specs.inner.Submitted.{has_lost_files};
ghost use Rattle.sendmail_run.specs.declared.outcome.Outcome.TheVariants.{ReadFault, SpoolFault};
ghost use Rattle.sendmail_run.specs.declared.submit_mode.SubmitModeEnd.TheVariants as ends;

use crate::aliases::Names;
use crate::site::queue_dirs;
use mail_base::{Config, StoreFault};
use mail_edge::{Clock, Files, Source};
use mail_judge::Grounds;
use mail_submit::SubmitWords;
use map_tables::Maps;
use queue_table::Table;
use spool_disk::Spool;
use spool_store::{Queue, opening_settles};
use std::alloc::Global;
use submit_run::{SubmitEnd, submit};

/// How a run ends that takes a message of a program.
#[derive(Drop)]
pub enum SubmitModeEnd {
    /// The spool failed as the queue was opened.
    NotOpened,
    /// There was no memory before the input was read.
    NoMemory,
    /// The queue was opened, and the run over it ended so.
    Over(SubmitEnd),
}

/// Takes the message on the input into the queue, as words of a run ask.
///
/// The steps are taken in this order, and the first refusal ends the run: the queue is opened,
/// whatever its directories hold; then come those of [`submit`].
pub fn submit_mode<F: Files, D: Spool, C: Clock, I: Source>(
    alloc: Global,
    words: &SubmitWords,
    config: &Config,
    maps: &Maps,
    names: &Names,
    files: &mut F,
    spool: &mut D,
    clock: &mut C,
    input: &mut I,
) -> SubmitModeEnd
    requires words { AreSaid words.now }
    requires readings { (C.seen clock.old).readings ≤ 2 ^ 63 }
    ensures rises_input { RisesOnlyAt ReadFault (of_submitting result) (I.seen input.old).faults
        (I.seen input.new).faults }
    ensures rises_spool { RisesOnlyAt SpoolFault (of_submitting result) (D.seen spool.old).faults
        (D.seen spool.new).faults }
    ensures later_input { (I.seen input.old).faults ≤ (I.seen input.new).faults }
    ensures later_spool { (D.seen spool.old).faults ≤ (D.seen spool.new).faults }
    ensures asks { Asks (F.seen files.old) (F.seen files.new) (has_lost_files result) }
    ensures ends { (output : SinkSeen) (floor : Heard) (hands : Hands)
        → EndsSo (grounds_of config.now maps.now names.now)
        (site_of config.now maps.now (Serve None)) words.now
        (world (F.seen files.old) (I.seen input.old) output floor (D.seen spool.old)
        (beside (C.seen clock.old) hands))
        (world (F.seen files.new) (I.seen input.new) output floor (D.seen spool.new)
        (beside (C.seen clock.new) hands)) result }
{
    let mut table = match opened_table(alloc, config, spool) {
        Ok(table) => table,
        Err(end) => return end,
    };
    let grounds = Grounds::new(config, maps, &names.aliases, &names.homes);
    let end = submit(
        alloc, words, &grounds, files, &mut table, spool, clock, input,
    );
    SubmitModeEnd::Over(end)
}

// Opens the queue, and makes a table over it.
fn opened_table<D: Spool>(
    alloc: Global,
    config: &Config,
    spool: &mut D,
) -> Result<Table, SubmitModeEnd>
    ensures taken { IsTakenOver (all_dirs (terms_of config.now)) (D.seen spool.old)
        (D.seen spool.new) }
    ensures later { (D.seen spool.old).faults ≤ (D.seen spool.new).faults }
    ensures kept { OnOk result ((D.seen spool.new).faults ≡ (D.seen spool.old).faults) }
    ensures dirs { IfOk result (λ table. (store table).dirs ≡ all_dirs (terms_of config.now)) }
    ensures sparing { IfOk result
        (λ _. IsSparing (all_dirs (terms_of config.now)) (D.seen spool.old) (D.seen spool.new)
        true) }
    ensures found { IfOk result
        (λ table. IsFound (all_dirs (terms_of config.now)) (D.seen spool.old).told (store table)) }
    ensures may { IfOk result (λ table. MayTake config.now table (D.seen spool.new)) }
    ensures rises { IfErr result
        (λ end. RisesOnlyAt SpoolFault (of_submitting end) (D.seen spool.old).faults
        (D.seen spool.new).faults) }
    ensures cause { IfErr result
        (λ end. end ≡ ends.NotOpened → Rose (D.seen spool.old).faults (D.seen spool.new).faults) }
    ensures early { IfErr result (λ end. (over : SubmitEndSeen) → end ≢ ends.Over over) }
{
    let Ok(dirs) = queue_dirs(config) else {
        return Err(SubmitModeEnd::NoMemory);
    };
    let queue = match Queue::open(alloc, spool, &dirs) {
        Ok(queue) => queue,
        Err(fault) => return Err(not_opened(fault)),
    };
    // A law: what an opening leaves is settled, with the table that the files stood for.
    opening_settles();
    let Ok(table) = Table::over(queue, config) else {
        return Err(SubmitModeEnd::NoMemory);
    };
    Ok(table)
}

// The end of a run whose queue isn't opened.
fn not_opened(fault: StoreFault) -> SubmitModeEnd
    requires never { fault ≢ Spent }
    ensures broke { fault ≡ Broke → result ≡ ends.NotOpened }
    ensures memory { fault ≢ Broke → result ≡ ends.NoMemory }
{
    match fault {
        StoreFault::SpoolFault => SubmitModeEnd::NotOpened,
        StoreFault::NoMemory => SubmitModeEnd::NoMemory,
        StoreFault::IdsSpent => unreachable!(),
    }
}
