ghost use Rattle.std.specs.Prelude.{◌≡◌, ◌≤◌, ◌^◌, Bool, true, false, IfOk, IfErr, OnOk, is_ok, is_some, length};
ghost use Rattle.mail_base.specs.Histories.{HasCause};
ghost use Rattle.mail_edge.specs.Asking.{Asks};
ghost use Rattle.mail_edge.specs.Seen.{ClockSeen};
ghost use Rattle.link_edge.specs.Heard.{Heard};
ghost use Rattle.link_edge.specs.Turns.{Fits};
ghost use Rattle.link_edge.specs.declared.event.Event.TheVariants.{Rests, Stops};
ghost use Rattle.spawn_edge.specs.Spawned.{Spawned};
ghost use Rattle.queue_table.specs.Calls.{Tallies};
ghost use Rattle.mail_core.specs.Causes.{is_judge_fault, is_well};
ghost use Rattle.mail_core.specs.Events.{IsHeardAt, IsTaken, Turns, event_of};
ghost use Rattle.mail_core.specs.Plans.{Origin, OfFloor, comes_from, is_own, reading_of};
ghost use Rattle.mail_core.specs.Seen.{Hands, beside, hands, seen};
ghost use Rattle.mail_core.specs.Sites.{IsUnder, Site};
ghost use Rattle.mail_core.specs.Standing.{IsStanding, MayGoOn, Stands, table_of};
ghost use Rattle.mail_core.specs.States.{State};
ghost use Rattle.sendmail_run.specs.Outcomes.{of_serving};
ghost use Rattle.sendmail_run.specs.Rises.{RisesOnlyAt};
ghost use Rattle.sendmail_run.specs.Serving.{Serves, grounds_of, judge_by, site_of};
ghost use Rattle.sendmail_run.specs.Tasks.{IsBegunAt, door_of, plan_of};
ghost use Rattle.sendmail_run.specs.inner.Opened.{Comes, FailsAt, has_lost_files, origin_of};
ghost use Rattle.sendmail_run.specs.declared.outcome.Outcome.TheVariants.{FloorFault, SpoolFault};
ghost use Rattle.sendmail_run.specs.declared.serving_mode.ServeEnd.TheVariants as ends;

use crate::aliases::Names;
use crate::buffer::zeros;
use crate::opening::opened;
use crate::task::Task;
use link_edge::{Dialer, Floor, Place, Turn};
use mail_base::{Config, Failed, MOST_PIECE, NoMemory};
use mail_core::{Act, Core, CoreStop};
use mail_edge::{Clock, Files};
use mail_judge::{Grounds, Rules};
use map_tables::Maps;
use spawn_edge::Spawner;
use spool_disk::Spool;
use std::alloc::Global;

/// The most turns that a run takes.
pub const MOST_TURNS: u64 = 1 << 60;

/// How a run that opens the queue ends.
#[derive(Clone, Copy)]
pub enum ServeEnd {
    /// The spool failed as the queue was opened.
    NotOpened,
    /// There was no memory before the floor was begun.
    NoMemory,
    /// The floor could not begin, or a turn of it failed; one that fails to send only ends that
    /// session.
    FloorFault,
    /// All was done that the run was made for, or the floor told `Stop`, and no child runs.
    Finished,
    /// A turn could not be served whole.
    Over(CoreStop),
    /// So many turns were served, which are all that a run takes, and none of them ended it.
    TurnsSpent(u64),
}

/// Serves the queue as a task asks: with sessions, whose messages are taken into it, and between
/// their turns its runners; or once, or one group of it. The configuration says the directories of
/// the queue, and by `$j` the host that replies name. Include and forward files are read as
/// recipients ask for them, and as returned mail does.
///
/// The steps are taken in this order, and the first refusal ends the run: the queue is opened,
/// whatever its directories hold; a run over the queue reads the clock for its list; the floor
/// begins, if there is a door for it; and then come turns, for each of which the clock is read
/// once. A run over the queue makes them itself, and so does one to which a `Stop` came, until no
/// child runs any more; each other turn is the floor's.
pub fn serving_mode<F: Files, D: Spool, L: Floor, S: Spawner, N: Dialer, C: Clock>(
    alloc: Global,
    task: &Task,
    config: &Config,
    maps: &Maps,
    names: &Names,
    files: &mut F,
    spool: &mut D,
    floor: &mut L,
    spawner: &mut S,
    dialer: &mut N,
    clock: &mut C,
) -> ServeEnd
    requires { (C.seen clock.old).readings ≤ 2 ^ 63 }
    ensures rises_floor { RisesOnlyAt FloorFault (of_serving result) (L.seen floor.old).faults
        (L.seen floor.new).faults }
    ensures rises_spool { RisesOnlyAt SpoolFault (of_serving result) (D.seen spool.old).faults
        (D.seen spool.new).faults }
    ensures asks { Asks (F.seen files.old) (F.seen files.new) (has_lost_files result) }
    ensures serves { Serves
        (judge_by (grounds_of config.now maps.now names.now) (F.seen files.old))
        (F.seen files.new).faults (site_of config.now maps.now (plan_of task.now)) task.now
        (seen (L.seen floor.old) (D.seen spool.old)
        (beside (C.seen clock.old) (hands (S.seen spawner.old) (N.seen dialer.old))))
        (seen (L.seen floor.new) (D.seen spool.new)
        (beside (C.seen clock.new) (hands (S.seen spawner.new) (N.seen dialer.new)))) result }
{
    let Ok(mut buffer) = zeros(alloc, MOST_PIECE) else {
        return ServeEnd::NoMemory;
    };
    let Ok(door) = task.door(alloc, config) else {
        return ServeEnd::NoMemory;
    };
    serve(
        alloc,
        task,
        &door,
        config,
        maps,
        names,
        files,
        spool,
        floor,
        spawner,
        dialer,
        clock,
        &mut buffer,
    )
}

// Opens the queue, begins the floor and serves the turns, taking as many bytes at once as the
// buffer holds.
fn serve<F: Files, D: Spool, L: Floor, S: Spawner, N: Dialer, C: Clock>(
    alloc: Global,
    task: &Task,
    door: &Option<(Place, u64)>,
    config: &Config,
    maps: &Maps,
    names: &Names,
    files: &mut F,
    spool: &mut D,
    floor: &mut L,
    spawner: &mut S,
    dialer: &mut N,
    clock: &mut C,
    buffer: &mut [u8],
) -> ServeEnd
    requires readings { (C.seen clock.old).readings ≤ 2 ^ 63 }
    requires room { 64 ≤ length buffer.old }
    requires door { door.now ≡ door_of config.now task.now }
    ensures rises_floor { RisesOnlyAt FloorFault (of_serving result) (L.seen floor.old).faults
        (L.seen floor.new).faults }
    ensures rises_spool { RisesOnlyAt SpoolFault (of_serving result) (D.seen spool.old).faults
        (D.seen spool.new).faults }
    ensures asks { Asks (F.seen files.old) (F.seen files.new) (has_lost_files result) }
    ensures serves { Serves
        (judge_by (grounds_of config.now maps.now names.now) (F.seen files.old))
        (F.seen files.new).faults (site_of config.now maps.now (plan_of task.now)) task.now
        (seen (L.seen floor.old) (D.seen spool.old)
        (beside (C.seen clock.old) (hands (S.seen spawner.old) (N.seen dialer.old))))
        (seen (L.seen floor.new) (D.seen spool.new)
        (beside (C.seen clock.new) (hands (S.seen spawner.new) (N.seen dialer.new)))) result }
{
    let mut core = match opened(alloc, task, config, spool, clock) {
        Ok(core) => core,
        Err(end) => return end,
    };
    let Ok(()) = begin_at(door, floor) else {
        return ServeEnd::FloorFault;
    };
    for _ in 0..MOST_TURNS {
        let Ok(coming) = next_turn(task, core.is_stopping(), floor, buffer) else {
            return ServeEnd::FloorFault;
        };
        let reading = clock.now();
        match take_turn(
            &mut core,
            config,
            maps,
            names,
            files,
            spool,
            floor,
            spawner,
            dialer,
            reading,
            coming.turn,
            buffer,
        ) {
            Ok(Act::Went) => {}
            Ok(Act::Ended) => return ServeEnd::Finished,
            Err(stop) => return ServeEnd::Over(stop),
        }
    }
    ServeEnd::TurnsSpent(MOST_TURNS)
}

// Begins the floor at its door, if there is one.
fn begin_at<L: Floor>(door: &Option<(Place, u64)>, floor: &mut L) -> Result<(), Failed>
    ensures told { (L.seen floor.new).told ≡ (L.seen floor.old).told }
    ensures begun { IsBegunAt door.now (L.seen floor.old) (L.seen floor.new) }
    ensures door { IfErr result (λ _. is_some door.now ≡ true) }
    ensures cause { HasCause (L.seen floor.old).faults (L.seen floor.new).faults result }
    ensures calm { OnOk result ((L.seen floor.new).faults ≡ (L.seen floor.old).faults) }
{
    match door {
        Some((place, most)) => floor.begin(place, *most),
        None => Ok(()),
    }
}

// ---- turns

// A turn that comes next, and whether the floor told it.
#[derive(Clone, Copy)]
struct Coming {
    turn: Turn,
    told: bool,
}

// The next turn. A run over the queue makes each itself, and so does one that is stopping.
fn next_turn<L: Floor>(
    task: &Task,
    stopping: bool,
    floor: &mut L,
    buffer: &mut [u8],
) -> Result<Coming, Failed>
    requires { 64 ≤ length buffer.old }
    ensures comes { IfOk result
        (λ coming. Comes task.now stopping (L.seen floor.old) (L.seen floor.new) coming.turn
        coming.told buffer.new) }
    ensures fails { IfErr result
        (λ _. FailsAt task.now stopping (L.seen floor.old) (L.seen floor.new)) }
{
    if task.is_run() {
        return Ok(Coming {
            turn: Turn::Idle,
            told: false,
        });
    }
    if stopping {
        return Ok(Coming {
            turn: Turn::Stop,
            told: false,
        });
    }
    match floor.turn(buffer) {
        Ok(turn) => Ok(Coming { turn, told: true }),
        Err(failed) => Err(failed),
    }
}

// One turn of the core, by a judge that reads these files.
fn take_turn<F: Files, D: Spool, L: Floor, S: Spawner, N: Dialer>(
    core: &mut Core,
    config: &Config,
    maps: &Maps,
    names: &Names,
    files: &mut F,
    spool: &mut D,
    floor: &mut L,
    spawner: &mut S,
    dialer: &mut N,
    reading: u64,
    turn: Turn,
    buffer: &[u8],
) -> Result<Act, CoreStop>
    requires fits { Fits turn buffer.now }
    requires sound { IsHeardAt (L.seen floor.old) turn }
    requires standing { IsStanding core.old config.now maps.now }
    requires able { MayGoOn core.old (D.seen spool.old) (S.seen spawner.old) }
    ensures turns { (site : Site) (m : State) (told : Bool) (before : Heard)
        (clock read : ClockSeen)
        → IsUnder site config.now maps.now → Stands site core.old m
        → comes_from site.plan m.stopping (origin_of told reading) (event_of turn buffer.now)
        ≡ true
        → IsTaken (origin_of told reading) before (L.seen floor.old) clock read
        (event_of turn buffer.now)
        → Turns (judge_by (grounds_of config.now maps.now names.now) (F.seen files.old)) site m
        (event_of turn buffer.now) (origin_of told reading)
        (seen before (D.seen spool.old)
        (beside clock (hands (S.seen spawner.old) (N.seen dialer.old))))
        (seen (L.seen floor.new) (D.seen spool.new)
        (beside read (hands (S.seen spawner.new) (N.seen dialer.new)))) core.new result }
    ensures asks { Asks (F.seen files.old) (F.seen files.new) (is_judge_fault result) }
    ensures own { (L.seen floor.new).faults ≡ (L.seen floor.old).faults }
    ensures begun { (L.seen floor.new).begun ≡ (L.seen floor.old).begun }
    ensures alone { is_own (event_of turn buffer.now) ≡ true
        → (L.seen floor.new) ≡ (L.seen floor.old) }
    ensures calm { is_well result ≡ true
        → (D.seen spool.new).faults ≡ (D.seen spool.old).faults }
    ensures able { is_ok result ≡ true
        → MayGoOn core.new (D.seen spool.new) (S.seen spawner.new) }
{
    match turn {
        Turn::Idle => rest(
            core, config, maps, names, files, spool, spawner, dialer, reading,
        ),
        Turn::Stop => stop(
            core, config, maps, names, files, spool, spawner, dialer, reading,
        ),
        _ => speak(
            core, config, maps, names, files, spool, floor, reading, turn, buffer,
        ),
    }
}

// A turn of a session.
fn speak<F: Files, D: Spool, L: Floor>(
    core: &mut Core,
    config: &Config,
    maps: &Maps,
    names: &Names,
    files: &mut F,
    spool: &mut D,
    floor: &mut L,
    reading: u64,
    turn: Turn,
    buffer: &[u8],
) -> Result<Act, CoreStop>
    requires fits { Fits turn buffer.now }
    requires sound { IsHeardAt (L.seen floor.old) turn }
    requires session { is_own (event_of turn buffer.now) ≡ false }
    requires standing { IsStanding core.old config.now maps.now }
    requires tallied { Tallies (table_of core.old) (D.seen spool.old) }
    ensures turns { (site : Site) (m : State) (before : Heard) (clock read : ClockSeen)
        (hands : Hands) → IsUnder site config.now maps.now → Stands site core.old m
        → comes_from site.plan m.stopping (OfFloor reading) (event_of turn buffer.now) ≡ true
        → IsTaken (OfFloor reading) before (L.seen floor.old) clock read
        (event_of turn buffer.now)
        → Turns (judge_by (grounds_of config.now maps.now names.now) (F.seen files.old)) site m
        (event_of turn buffer.now) (OfFloor reading)
        (seen before (D.seen spool.old) (beside clock hands))
        (seen (L.seen floor.new) (D.seen spool.new) (beside read hands)) core.new result }
    ensures asks { Asks (F.seen files.old) (F.seen files.new) (is_judge_fault result) }
    ensures own { (L.seen floor.new).faults ≡ (L.seen floor.old).faults }
    ensures begun { (L.seen floor.new).begun ≡ (L.seen floor.old).begun }
    ensures calm { is_well result ≡ true
        → (D.seen spool.new).faults ≡ (D.seen spool.old).faults }
    ensures able { (spawner : Spawned) → is_ok result ≡ true
        → MayGoOn core.old (D.seen spool.old) spawner
        → MayGoOn core.new (D.seen spool.new) spawner }
{
    let grounds = Grounds::new(config, maps, &names.aliases, &names.homes);
    let mut judge = Rules {
        grounds: &grounds,
        files,
    };
    core.turn(
        floor, spool, config, maps, &mut judge, reading, turn, buffer,
    )
}

// A turn in which nothing came.
fn rest<F: Files, D: Spool, S: Spawner, N: Dialer>(
    core: &mut Core,
    config: &Config,
    maps: &Maps,
    names: &Names,
    files: &mut F,
    spool: &mut D,
    spawner: &mut S,
    dialer: &mut N,
    reading: u64,
) -> Result<Act, CoreStop>
    requires standing { IsStanding core.old config.now maps.now }
    requires able { MayGoOn core.old (D.seen spool.old) (S.seen spawner.old) }
    ensures turns { (site : Site) (m : State) (origin : Origin) (before now : Heard)
        (clock read : ClockSeen) → IsUnder site config.now maps.now → Stands site core.old m
        → comes_from site.plan m.stopping origin Rests ≡ true → reading_of origin ≡ reading
        → IsTaken origin before now clock read Rests
        → Turns (judge_by (grounds_of config.now maps.now names.now) (F.seen files.old)) site m
        Rests origin
        (seen before (D.seen spool.old)
        (beside clock (hands (S.seen spawner.old) (N.seen dialer.old))))
        (seen now (D.seen spool.new)
        (beside read (hands (S.seen spawner.new) (N.seen dialer.new)))) core.new result }
    ensures asks { Asks (F.seen files.old) (F.seen files.new) (is_judge_fault result) }
    ensures calm { is_well result ≡ true
        → (D.seen spool.new).faults ≡ (D.seen spool.old).faults }
    ensures able { is_ok result ≡ true
        → MayGoOn core.new (D.seen spool.new) (S.seen spawner.new) }
{
    let grounds = Grounds::new(config, maps, &names.aliases, &names.homes);
    let mut judge = Rules {
        grounds: &grounds,
        files,
    };
    core.rest(spool, spawner, dialer, config, maps, &mut judge, reading)
}

// A Stop, or a turn behind it.
fn stop<F: Files, D: Spool, S: Spawner, N: Dialer>(
    core: &mut Core,
    config: &Config,
    maps: &Maps,
    names: &Names,
    files: &mut F,
    spool: &mut D,
    spawner: &mut S,
    dialer: &mut N,
    reading: u64,
) -> Result<Act, CoreStop>
    requires standing { IsStanding core.old config.now maps.now }
    requires able { MayGoOn core.old (D.seen spool.old) (S.seen spawner.old) }
    ensures turns { (site : Site) (m : State) (origin : Origin) (before now : Heard)
        (clock read : ClockSeen) → IsUnder site config.now maps.now → Stands site core.old m
        → comes_from site.plan m.stopping origin Stops ≡ true → reading_of origin ≡ reading
        → IsTaken origin before now clock read Stops
        → Turns (judge_by (grounds_of config.now maps.now names.now) (F.seen files.old)) site m
        Stops origin
        (seen before (D.seen spool.old)
        (beside clock (hands (S.seen spawner.old) (N.seen dialer.old))))
        (seen now (D.seen spool.new)
        (beside read (hands (S.seen spawner.new) (N.seen dialer.new)))) core.new result }
    ensures asks { Asks (F.seen files.old) (F.seen files.new) (is_judge_fault result) }
    ensures calm { is_well result ≡ true
        → (D.seen spool.new).faults ≡ (D.seen spool.old).faults }
    ensures able { is_ok result ≡ true
        → MayGoOn core.new (D.seen spool.new) (S.seen spawner.new) }
{
    let grounds = Grounds::new(config, maps, &names.aliases, &names.homes);
    let mut judge = Rules {
        grounds: &grounds,
        files,
    };
    core.stop(spool, spawner, dialer, config, maps, &mut judge, reading)
}
