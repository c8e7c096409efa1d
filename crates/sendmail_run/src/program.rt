ghost use Rattle.std.specs.Prelude.{◌≡◌, ◌<◌, ◌≤◌, ◌^◌, length, IfErr, OnOk};
ghost use Rattle.link_edge.specs.Heard.{Heard};
ghost use Rattle.mail_core.specs.Seen.{Hands, beside, hands};
ghost use Rattle.mail_submit.specs.Said.{AreSaid};
ghost use Rattle.mail_edge.specs.Seen.{SinkSeen, SourceSeen};
ghost use Rattle.sendmail_run.specs.Beginning.{Begins};
ghost use Rattle.sendmail_run.specs.Devices.{world};
ghost use Rattle.sendmail_run.specs.Outcomes.{of_config};
ghost use Rattle.sendmail_run.specs.Rises.{RisesOnlyAt};
ghost use Rattle.sendmail_run.specs.inner.Submitted.{IsWellSaid};
ghost use Rattle.sendmail_run.specs.Runs.{Completes, Ends, Stays, SubmitsAt, Works, WorksAt};
ghost use Rattle.sendmail_run.specs.declared.outcome.Outcome.TheVariants.{FilesFault};

use crate::address_test::address_test;
use crate::aliases::load_names;
use crate::fault::ConfigFault;
use crate::list_mode::list_mode;
use crate::maps::load_maps;
use crate::outcome::Outcome;
use crate::serving_mode::serving_mode;
use crate::submit_mode::submit_mode;
use crate::task::Task;
use cf_reader::{CfFault, read};
use command_line::{Job, words};
use link_edge::{Dialer, Floor};
use mail_base::{Config, EdgeFault, Seq, Text};
use mail_edge::{Clock, Files, Sink, Source};
use mail_submit::SubmitWords;
use spawn_edge::Spawner;
use spool_disk::Spool;
use std::alloc::Global;

/// The whole program, over its words without the program's name, and its devices.
///
/// The steps are taken in this order, and the first refusal ends the run: the words, the
/// configuration file, its lines, and then the work of the mode. Address test mode, the modes that
/// serve and the one that takes a message of a program read the files of maps in the order of K
/// lines and the host table; the first then answers the lines of input, the others read the alias
/// files with the lines of each and the file of homes, and take the steps of [`serving_mode`] or of
/// [`submit_mode`]. The listing of the queue reads no more files, and takes the steps of
/// [`list_mode`].
pub fn sendmail<F: Files, D: Spool, L: Floor, S: Spawner, N: Dialer, C: Clock, I: Source, O: Sink>(
    alloc: Global,
    arguments: &Seq<Text>,
    files: &mut F,
    spool: &mut D,
    floor: &mut L,
    spawner: &mut S,
    dialer: &mut N,
    clock: &mut C,
    input: &mut I,
    output: &mut O,
) -> Outcome
    requires words { length arguments.now < 2 ^ 32 }
    requires clock { (C.seen clock.old).readings ≤ 2 ^ 63 }
    ensures ends { Ends arguments.now
        (world (F.seen files.old) (I.seen input.old) (O.seen output.old)
        (L.seen floor.old) (D.seen spool.old)
        (beside (C.seen clock.old) (hands (S.seen spawner.old) (N.seen dialer.old))))
        (world (F.seen files.new) (I.seen input.new) (O.seen output.new)
        (L.seen floor.new) (D.seen spool.new)
        (beside (C.seen clock.new) (hands (S.seen spawner.new) (N.seen dialer.new))))
        result }
    ensures stays { Stays
        (world (F.seen files.old) (I.seen input.old) (O.seen output.old)
        (L.seen floor.old) (D.seen spool.old)
        (beside (C.seen clock.old) (hands (S.seen spawner.old) (N.seen dialer.old))))
        (world (F.seen files.new) (I.seen input.new) (O.seen output.new)
        (L.seen floor.new) (D.seen spool.new)
        (beside (C.seen clock.new) (hands (S.seen spawner.new) (N.seen dialer.new))))
        result }
    ensures complete { Completes arguments.now
        (world (F.seen files.old) (I.seen input.old) (O.seen output.old)
        (L.seen floor.old) (D.seen spool.old)
        (beside (C.seen clock.old) (hands (S.seen spawner.old) (N.seen dialer.old))))
        (world (F.seen files.new) (I.seen input.new) (O.seen output.new)
        (L.seen floor.new) (D.seen spool.new)
        (beside (C.seen clock.new) (hands (S.seen spawner.new) (N.seen dialer.new))))
        result }
{
    run(
        alloc, arguments, files, spool, floor, spawner, dialer, clock, input, output,
    )
}

// The same, without the clause that follows from the other two.
fn run<F: Files, D: Spool, L: Floor, S: Spawner, N: Dialer, C: Clock, I: Source, O: Sink>(
    alloc: Global,
    arguments: &Seq<Text>,
    files: &mut F,
    spool: &mut D,
    floor: &mut L,
    spawner: &mut S,
    dialer: &mut N,
    clock: &mut C,
    input: &mut I,
    output: &mut O,
) -> Outcome
    requires words { length arguments.now < 2 ^ 32 }
    requires clock { (C.seen clock.old).readings ≤ 2 ^ 63 }
    ensures ends { Ends arguments.now
        (world (F.seen files.old) (I.seen input.old) (O.seen output.old)
        (L.seen floor.old) (D.seen spool.old)
        (beside (C.seen clock.old) (hands (S.seen spawner.old) (N.seen dialer.old))))
        (world (F.seen files.new) (I.seen input.new) (O.seen output.new)
        (L.seen floor.new) (D.seen spool.new)
        (beside (C.seen clock.new) (hands (S.seen spawner.new) (N.seen dialer.new))))
        result }
    ensures stays { Stays
        (world (F.seen files.old) (I.seen input.old) (O.seen output.old)
        (L.seen floor.old) (D.seen spool.old)
        (beside (C.seen clock.old) (hands (S.seen spawner.old) (N.seen dialer.old))))
        (world (F.seen files.new) (I.seen input.new) (O.seen output.new)
        (L.seen floor.new) (D.seen spool.new)
        (beside (C.seen clock.new) (hands (S.seen spawner.new) (N.seen dialer.new))))
        result }
{
    let mode = match words(alloc, arguments) {
        Ok(mode) => mode,
        Err(fault) => return Outcome::of_words(fault),
    };
    let mut config = match configuration(alloc, mode.file, files) {
        Ok(config) => config,
        Err(fault) => return Outcome::of_config(fault),
    };
    work(
        alloc,
        mode.job,
        &mut config,
        files,
        spool,
        floor,
        spawner,
        dialer,
        clock,
        input,
        output,
    )
}

// The work of a mode under its configuration, with the files that it reads before.
fn work<F: Files, D: Spool, L: Floor, S: Spawner, N: Dialer, C: Clock, I: Source, O: Sink>(
    alloc: Global,
    job: Job,
    config: &mut Config,
    files: &mut F,
    spool: &mut D,
    floor: &mut L,
    spawner: &mut S,
    dialer: &mut N,
    clock: &mut C,
    input: &mut I,
    output: &mut O,
) -> Outcome
    requires said { IsWellSaid job }
    requires readings { (C.seen clock.old).readings ≤ 2 ^ 63 }
    ensures works { Works job config.old
        (world (F.seen files.old) (I.seen input.old) (O.seen output.old)
        (L.seen floor.old) (D.seen spool.old)
        (beside (C.seen clock.old) (hands (S.seen spawner.old) (N.seen dialer.old))))
        (world (F.seen files.new) (I.seen input.new) (O.seen output.new)
        (L.seen floor.new) (D.seen spool.new)
        (beside (C.seen clock.new) (hands (S.seen spawner.new) (N.seen dialer.new))))
        result }
    ensures stays { Stays
        (world (F.seen files.old) (I.seen input.old) (O.seen output.old)
        (L.seen floor.old) (D.seen spool.old)
        (beside (C.seen clock.old) (hands (S.seen spawner.old) (N.seen dialer.old))))
        (world (F.seen files.new) (I.seen input.new) (O.seen output.new)
        (L.seen floor.new) (D.seen spool.new)
        (beside (C.seen clock.new) (hands (S.seen spawner.new) (N.seen dialer.new))))
        result }
{
    match job {
        Job::Test => {
            let maps = match load_maps(alloc, config, files) {
                Ok(maps) => maps,
                Err(fault) => return Outcome::of_maps(fault),
            };
            Outcome::of_test(address_test(alloc, config, &maps, input, output))
        }
        Job::Session => {
            let task = Task::Session;
            served(
                alloc, &task, config, files, spool, floor, spawner, dialer, clock,
            )
        }
        Job::Daemon { wait } => {
            let task = Task::Daemon { wait };
            served(
                alloc, &task, config, files, spool, floor, spawner, dialer, clock,
            )
        }
        Job::Run { group } => {
            let task = Task::Run { group };
            served(
                alloc, &task, config, files, spool, floor, spawner, dialer, clock,
            )
        }
        Job::List => Outcome::of_list(list_mode(alloc, config, spool, output)),
        Job::Submit(words) => submitted(alloc, &words, config, files, spool, clock, input),
    }
}

// A mode that serves, with the files of maps, aliases and homes that it reads before it opens the
// queue.
fn served<F: Files, D: Spool, L: Floor, S: Spawner, N: Dialer, C: Clock>(
    alloc: Global,
    task: &Task,
    config: &Config,
    files: &mut F,
    spool: &mut D,
    floor: &mut L,
    spawner: &mut S,
    dialer: &mut N,
    clock: &mut C,
) -> Outcome
    requires { (C.seen clock.old).readings ≤ 2 ^ 63 }
    ensures works { (input : SourceSeen) (output : SinkSeen)
        → WorksAt task.now config.now
        (world (F.seen files.old) input output (L.seen floor.old) (D.seen spool.old)
        (beside (C.seen clock.old) (hands (S.seen spawner.old) (N.seen dialer.old))))
        (world (F.seen files.new) input output (L.seen floor.new) (D.seen spool.new)
        (beside (C.seen clock.new) (hands (S.seen spawner.new) (N.seen dialer.new))))
        result }
    ensures stays { (input : SourceSeen) (output : SinkSeen)
        → Stays
        (world (F.seen files.old) input output (L.seen floor.old) (D.seen spool.old)
        (beside (C.seen clock.old) (hands (S.seen spawner.old) (N.seen dialer.old))))
        (world (F.seen files.new) input output (L.seen floor.new) (D.seen spool.new)
        (beside (C.seen clock.new) (hands (S.seen spawner.new) (N.seen dialer.new))))
        result }
{
    let maps = match load_maps(alloc, config, files) {
        Ok(maps) => maps,
        Err(fault) => return Outcome::of_maps(fault),
    };
    let names = match load_names(alloc, config, files) {
        Ok(names) => names,
        Err(fault) => return Outcome::of_aliases(fault),
    };
    Outcome::of_serving(serving_mode(
        alloc, task, config, &maps, &names, files, spool, floor, spawner, dialer, clock,
    ))
}

// The mode that takes a message of a program, with the files of maps, aliases and homes that it reads
// before it opens the queue.
fn submitted<F: Files, D: Spool, C: Clock, I: Source>(
    alloc: Global,
    words: &SubmitWords,
    config: &Config,
    files: &mut F,
    spool: &mut D,
    clock: &mut C,
    input: &mut I,
) -> Outcome
    requires words { AreSaid words.now }
    requires readings { (C.seen clock.old).readings ≤ 2 ^ 63 }
    ensures works { (output : SinkSeen) (floor : Heard) (hands : Hands)
        → SubmitsAt words.now config.now
        (world (F.seen files.old) (I.seen input.old) output floor (D.seen spool.old)
        (beside (C.seen clock.old) hands))
        (world (F.seen files.new) (I.seen input.new) output floor (D.seen spool.new)
        (beside (C.seen clock.new) hands))
        result }
    ensures stays { (output : SinkSeen) (floor : Heard) (hands : Hands)
        → Stays
        (world (F.seen files.old) (I.seen input.old) output floor (D.seen spool.old)
        (beside (C.seen clock.old) hands))
        (world (F.seen files.new) (I.seen input.new) output floor (D.seen spool.new)
        (beside (C.seen clock.new) hands))
        result }
{
    let maps = match load_maps(alloc, config, files) {
        Ok(maps) => maps,
        Err(fault) => return Outcome::of_maps(fault),
    };
    let names = match load_names(alloc, config, files) {
        Ok(names) => names,
        Err(fault) => return Outcome::of_aliases(fault),
    };
    Outcome::of_submitting(submit_mode(
        alloc, words, config, &maps, &names, files, spool, clock, input,
    ))
}

// The configuration that the file of that name gives.
fn configuration<F: Files>(alloc: Global, name: Text, files: &mut F) -> Result<Config, ConfigFault>
    ensures begins { Begins name (F.seen files.old) (F.seen files.new) result }
    ensures map { (F.seen files.new).map ≡ (F.seen files.old).map }
    ensures later { (F.seen files.old).faults ≤ (F.seen files.new).faults }
    ensures kept { OnOk result ((F.seen files.new).faults ≡ (F.seen files.old).faults) }
    ensures rises { IfErr result
        (λ fault. RisesOnlyAt FilesFault (of_config fault) (F.seen files.old).faults
        (F.seen files.new).faults) }
{
    let text = match files.read(alloc, &name) {
        Ok(Some(text)) => text,
        Ok(None) => return Err(ConfigFault::NoFile(name)),
        Err(EdgeFault::Failed) => return Err(ConfigFault::FilesFault),
        Err(EdgeFault::NoMemory) => return Err(ConfigFault::NoMemory),
    };
    match read(alloc, &text, files) {
        Ok(config) => Ok(config),
        Err(CfFault::Refused { line, fault }) => Err(ConfigFault::Refused { line, fault }),
        Err(CfFault::FilesFault) => Err(ConfigFault::FilesFault),
        Err(CfFault::NoMemory) => Err(ConfigFault::NoMemory),
    }
}
