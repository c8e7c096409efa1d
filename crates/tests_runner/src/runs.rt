//! Runs: entries of a spool are claimed one after another, and each is stepped until it is let go
//! or a step fails.

ghost use Rattle.std.specs.Prelude.{◌≡◌, IfOk, true};
ghost use Rattle.spawn_edge.specs.Lives.{script_spawned};
ghost use Rattle.runner_samples.specs.Runs.{IsStanding, IsUnderWay};

use crate::entries::{Letter, files_for};
use crate::telling::{Teller, entry_of, revision_of};
use crate::worlds::{World, files_of, world_with};
use link_edge::ScriptDialer;
use mail_base::{Draws, NoMemory, Seq, Text, TryCopy};
use mail_edge::MemFiles;
use mail_judge::{Grounds, Rules};
use queue_run::{Did, Runner};
use queue_table::Table;
use runner_samples::{advance, claimed, id_of, opened};
use spawn_edge::{Life, ScriptSpawner};
use spool_disk::{File, MemSpool, Spool, StopSpool};
use std::alloc::Global;
use std::test::Fail;

/// A run over one entry, and those that are made in it.
#[derive(Clone, Copy)]
pub(crate) struct Case {
    /// Lines of the configuration before its rules.
    pub lines: &'static str,
    pub letter: Letter,
    /// When the first entry is claimed; each other one is ten seconds later.
    pub moment: u64,
    /// The entries that are claimed, by their ids, in order, parted by blanks.
    pub ids: &'static str,
    /// The statuses with which programs end, parted by blanks; behind a `~` one that the first poll
    /// finds running.
    pub lives: &'static str,
    /// What peers say, in pieces parted by bars.
    pub says: &'static str,
}

/// The device of which a call fails.
#[derive(Clone, Copy, PartialEq, Eq)]
pub(crate) enum Device {
    Nothing,
    Spool,
    Spawner,
    Dialer,
    /// The files that are read for receivers.
    Files,
}

/// A call of a device that fails, counted from 0, of a spool from its opening on.
#[derive(Clone, Copy)]
pub(crate) struct Failing {
    pub device: Device,
    pub call: u64,
}

impl Failing {
    fn calls(self, alloc: Global, device: Device) -> Result<Seq<u64>, NoMemory> {
        let mut calls = Seq::new(alloc);
        if self.device == device {
            calls.push(self.call)?;
        }
        Ok(calls)
    }
}

/// No call fails.
pub(crate) static NOTHING: Failing = Failing {
    device: Device::Nothing,
    call: 0,
};

/// The devices beside a spool.
pub(crate) struct Bench {
    spawner: ScriptSpawner,
    dialer: ScriptDialer,
    files: MemFiles,
}

// Written out, since a caller's proof goes through the parts of a derived drop at each way out.
impl Drop for Bench {
    fn drop(self) {
        let Bench {
            spawner: _,
            dialer: _,
            files: _,
        } = self;
    }
}

fn lives_of(alloc: Global, words: &str) -> Result<Seq<Life>, NoMemory> {
    let mut lives = Seq::new(alloc);
    for word in words.split(' ') {
        let (polls, digits) = match word.strip_prefix("~") {
            Some(digits) => (1, digits),
            None => (0, word),
        };
        let status = digits.parse().unwrap_or(0);
        lives.push(Life { polls, status })?;
    }
    Ok(lives)
}

fn pieces_of(alloc: Global, says: &str) -> Result<Seq<Text>, NoMemory> {
    let mut pieces = Seq::new(alloc);
    for piece in says.split('|') {
        pieces.push(Text::of(alloc, piece.as_bytes())?)?;
    }
    Ok(pieces)
}

// The devices of a case.
fn bench_of(alloc: Global, case: &Case, failing: Failing) -> Result<Bench, Fail> {
    let lives = lives_of(alloc, case.lives)?;
    let pieces = pieces_of(alloc, case.says)?;
    Ok(Bench {
        spawner: ScriptSpawner::new(alloc, lives, failing.calls(alloc, Device::Spawner)?),
        dialer: ScriptDialer::new(alloc, pieces, failing.calls(alloc, Device::Dialer)?),
        files: files_of(alloc, failing.calls(alloc, Device::Files)?)?,
    })
}

// Steps a runner until its entry is let go, and says whether it was.
fn stepped<D: Spool, W: Draws>(
    alloc: Global,
    world: &World,
    table: &mut Table,
    spool: &mut D,
    spawner: &mut ScriptSpawner,
    dialer: &mut ScriptDialer,
    draws: &mut W,
    runner: &mut Runner,
    moment: u64,
    teller: &mut Teller,
) -> Result<bool, NoMemory>
    requires way { IsUnderWay world.now.config table.old (D.seen spool.old)
        (script_spawned spawner.old.told spawner.old.missed spawner.old.calls.faults) runner.old }
    ensures stands { IfOk result
        (λ free. free ≡ true → IsStanding world.now.config table.new (D.seen spool.new)) }
    ensures fixed { W.fixed draws.new ≡ W.fixed draws.old }
{
    for _ in 0..100u32 {
        let before = revision_of(entry_of(table, &runner.id()));
        let answer = advance(
            alloc,
            table,
            spool,
            spawner,
            dialer,
            draws,
            &world.config,
            &world.maps,
            runner,
            moment,
        );
        let entry = entry_of(table, &runner.id());
        teller.step(spawner, dialer, &answer, entry, before)?;
        match answer {
            Ok(Did::Free) => return Ok(true),
            Ok(Did::Began | Did::Waits | Did::Recorded | Did::Gave) => {}
            Err(_) => return Ok(false),
        }
    }
    Ok(false)
}

// Claims an entry and steps it, and says whether it is let go.
fn run_one<D: Spool, W: Draws>(
    alloc: Global,
    world: &World,
    table: &mut Table,
    spool: &mut D,
    spawner: &mut ScriptSpawner,
    dialer: &mut ScriptDialer,
    draws: &mut W,
    number: u64,
    moment: u64,
    teller: &mut Teller,
) -> Result<bool, NoMemory>
    requires stands { IsStanding world.now.config table.old (D.seen spool.old) }
    ensures stands { IfOk result
        (λ free. free ≡ true → IsStanding world.now.config table.new (D.seen spool.new)) }
    ensures fixed { W.fixed draws.new ≡ W.fixed draws.old }
{
    let Some(id) = id_of(table, number) else {
        return Ok(false);
    };
    let mut runner = claimed(alloc, table, &world.config, &world.maps, &id)?;
    stepped(
        alloc,
        world,
        table,
        spool,
        spawner,
        dialer,
        draws,
        &mut runner,
        moment,
        teller,
    )
}

// The same with what draws returned mail over the files of a bench.
fn run_with<D: Spool>(
    alloc: Global,
    world: &World,
    table: &mut Table,
    spool: &mut D,
    bench: &mut Bench,
    number: u64,
    moment: u64,
    teller: &mut Teller,
) -> Result<bool, NoMemory>
    requires stands { IsStanding world.now.config table.old (D.seen spool.old) }
    ensures stands { IfOk result
        (λ free. free ≡ true → IsStanding world.now.config table.new (D.seen spool.new)) }
{
    let grounds = Grounds::new(&world.config, &world.maps, &world.aliases, &world.homes);
    let mut draws = Rules {
        grounds: &grounds,
        files: &mut bench.files,
    };
    run_one(
        alloc,
        world,
        table,
        spool,
        &mut bench.spawner,
        &mut bench.dialer,
        &mut draws,
        number,
        moment,
        teller,
    )
}

// Claims the entries of a case, and steps each.
fn run<D: Spool>(
    alloc: Global,
    world: &World,
    table: &mut Table,
    spool: &mut D,
    bench: &mut Bench,
    case: &Case,
    teller: &mut Teller,
) -> Result<(), NoMemory>
    requires { IsStanding world.now.config table.old (D.seen spool.old) }
{
    let mut moment = case.moment;
    for word in case.ids.split(' ') {
        let number = word.parse().unwrap_or(0);
        if !run_with(alloc, world, table, spool, bench, number, moment, teller)? {
            return Ok(());
        }
        moment = moment.saturating_add(10);
    }
    Ok(())
}

/// Opens a spool of these files, and tells what they say.
pub(crate) fn tell_files(
    alloc: Global,
    world: &World,
    files: Seq<File>,
    teller: &mut Teller,
) -> Result<(), Fail> {
    let mut spool = MemSpool::of(alloc, files, Seq::new(alloc))?;
    let told = match opened(alloc, &mut spool, &world.config) {
        Ok(table) => teller.entries(&table),
        Err(_) => teller.told.push_str("no table"),
    };
    Ok(told?)
}

/// Runs a case over a spool of these files in which a call fails, and which stops behind so many
/// calls that change files.
pub(crate) fn run_over(
    alloc: Global,
    world: &World,
    files: Seq<File>,
    case: &Case,
    failing: Failing,
    passes: u64,
    teller: &mut Teller,
) -> Result<StopSpool, Fail> {
    let mut bench = bench_of(alloc, case, failing)?;
    let spool = MemSpool::of(alloc, files, failing.calls(alloc, Device::Spool)?)?;
    let mut spool = StopSpool::new(spool, passes);
    teller.turn();
    let ran = match opened(alloc, &mut spool, &world.config) {
        Ok(mut table) => run(
            alloc, world, &mut table, &mut spool, &mut bench, case, teller,
        ),
        Err(_) => teller.unopened(),
    };
    ran?;
    Ok(spool)
}

/// Whether that is told of a case in which a call fails, and of the files that are left; or less of
/// it, where it isn't told whole.
pub(crate) fn is_told(
    alloc: Global,
    case: &Case,
    failing: Failing,
    is_whole: bool,
    wanted: &str,
) -> Result<bool, Fail> {
    let world = world_with(alloc, case.lines)?;
    let mut teller = Teller::new(alloc, is_whole);
    let files = files_for(alloc, &case.letter)?;
    let spool = run_over(alloc, &world, files, case, failing, u64::MAX, &mut teller)?;
    tell_files(alloc, &world, spool.spool.files()?, &mut teller)?;
    Ok(teller.told.as_str() == wanted)
}
