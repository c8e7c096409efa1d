//! A runner over one entry in memory of so many rows, all of which go to one host, in one batch, or
//! each to a host of its own. `claims` claims the entry so many times as the third word says.
//! `steps` claims it once, and counts the steps until it is let go: a program is started for each
//! batch, and ends at once. `records` records so many times that its first row is deferred. What is
//! written behind the opening is dropped, since the spool in memory would keep each text.

ghost use Rattle.std.specs.Prelude.{◌≡◌, IfOk, None, false};
ghost use Rattle.spawn_edge.specs.Lives.{script_spawned};
ghost use Rattle.queue_run.specs.Working.{IsWhole};
ghost use Rattle.runner_samples.specs.Runs.{IsUnderWay};
ghost use Rattle.table_samples.specs.Samples.{IsReady};
ghost use Rattle.bench.specs.Untold.{untold};

use crate::configured::World;
use crate::control::{END, FRONT, file_of};
use crate::dropping::{Dropping, Nobody};
use crate::names::{FIRST, add};
use crate::table::deferred;
use anyhow::{Result, bail};
use link_edge::ScriptDialer;
use mail_base::{Config, Id, Kind, NoMemory, Seq, StoreFault, Text};
use queue_run::{Did, RunStop, Runner};
use queue_table::Table;
use runner_samples::{advance, claimed, id_of, opened};
use spawn_edge::ScriptSpawner;
use spool_disk::{File, MemSpool};
use std::alloc::Global;
use table_samples::record;

static CONFIG: &[u8] = b"Msome, P=/bin/mail, F=mn, r=10000, A=mail $u\n\
    S3\nR$*<$+>$*\t$2\nS0\nR$-@$-\t$#some $@ $2 $: $1\n";

const MOMENT: u64 = 1_767_225_610;

/// Where the rows of an entry go.
#[derive(Clone, Copy)]
pub(crate) enum Routes {
    /// All to one host.
    One,
    /// Each to a host of its own.
    Each,
}

pub(crate) fn claims(alloc: Global, routes: Routes, rows: u32, rounds: u32) -> Result<u64> {
    let world = World::of(alloc, CONFIG)?;
    let table = table_of(alloc, &world.config, routes, rows)?;
    claim_often(alloc, &world, &table, rounds)
}

pub(crate) fn steps(alloc: Global, routes: Routes, rows: u32) -> Result<u64> {
    let world = World::of(alloc, CONFIG)?;
    let mut table = table_of(alloc, &world.config, routes, rows)?;
    stepped(alloc, &world, &mut table)
}

#[tactic(auto, using(crate::proofs::Lemmas::ready_of))]
pub(crate) fn records(alloc: Global, routes: Routes, rows: u32, rounds: u32) -> Result<u64> {
    let world = World::of(alloc, CONFIG)?;
    let mut table = table_of(alloc, &world.config, routes, rows)?;
    record_often(alloc, &mut table, rounds)
}

fn control(alloc: Global, routes: Routes, rows: u32) -> Result<Text, NoMemory> {
    let mut text = Text::of(alloc, FRONT)?;
    for number in FIRST..FIRST.saturating_add(rows) {
        let host = match routes {
            Routes::One => FIRST,
            Routes::Each => number,
        };
        add(&mut text, "RPFD:<u", number, "@h")?;
        add(&mut text, "", host, ">\neQ\n")?;
    }
    text.extend(END)?;
    Ok(text)
}

fn files(alloc: Global, routes: Routes, rows: u32) -> Result<Seq<File>, NoMemory> {
    let id = Id::new(1);
    let text = control(alloc, routes, rows)?;
    let mut files = Seq::new(alloc);
    files.push(file_of(alloc, id, Kind::Df, b"hello\r\n")?)?;
    files.push(file_of(alloc, id, Kind::Qf, text.bytes())?)?;
    Ok(files)
}

// The table of an entry. From here on the spool may be another one, which tells nothing.
fn table_of(alloc: Global, config: &Config, routes: Routes, rows: u32) -> Result<Table, StoreFault>
    ensures { IfOk result (IsWhole config.now) }
{
    let files = files(alloc, routes, rows)?;
    let mut spool = MemSpool::of(alloc, files, Seq::new(alloc))?;
    opened(alloc, &mut spool, config)
}

fn claim_often(alloc: Global, world: &World, table: &Table, rounds: u32) -> Result<u64> {
    let Some(id) = id_of(table, 1) else {
        bail!("no entry");
    };
    for _ in 0..rounds {
        let _runner = claimed(alloc, table, &world.config, &world.maps, &id)?;
    }
    Ok(u64::from(rounds))
}

// One step, and whether it lets the entry go.
fn step(
    alloc: Global,
    world: &World,
    table: &mut Table,
    spool: &mut Dropping,
    spawner: &mut ScriptSpawner,
    dialer: &mut ScriptDialer,
    runner: &mut Runner,
) -> Result<bool, RunStop>
    requires way { IsUnderWay world.now.config table.old (untold spool.old.faults)
        (script_spawned spawner.old.told spawner.old.missed spawner.old.calls.faults) runner.old }
    ensures { IfOk result (λ free. free ≡ false
        → IsUnderWay world.now.config table.new (untold spool.new.faults)
        (script_spawned spawner.new.told spawner.new.missed spawner.new.calls.faults) runner.new) }
{
    let did = advance(
        alloc,
        table,
        spool,
        spawner,
        dialer,
        &mut Nobody,
        &world.config,
        &world.maps,
        runner,
        MOMENT,
    )?;
    match did {
        Did::Free => Ok(true),
        Did::Began | Did::Waits | Did::Recorded | Did::Gave => Ok(false),
    }
}

// Claims the entry, and steps until it is let go.
fn stepped(alloc: Global, world: &World, table: &mut Table) -> Result<u64>
    requires { IsWhole world.now.config table.old }
{
    let Some(id) = id_of(table, 1) else {
        bail!("no entry");
    };
    let mut spool = Dropping::new(alloc)?;
    let mut runner = claimed(alloc, table, &world.config, &world.maps, &id)?;
    let mut spawner = ScriptSpawner::new(alloc, Seq::new(alloc), Seq::new(alloc));
    let mut dialer = ScriptDialer::new(alloc, Seq::new(alloc), Seq::new(alloc));
    step_often(
        alloc,
        world,
        table,
        &mut spool,
        &mut spawner,
        &mut dialer,
        &mut runner,
    )
}

// Steps until the entry is let go.
fn step_often(
    alloc: Global,
    world: &World,
    table: &mut Table,
    spool: &mut Dropping,
    spawner: &mut ScriptSpawner,
    dialer: &mut ScriptDialer,
    runner: &mut Runner,
) -> Result<u64>
    requires { IsUnderWay world.now.config table.old (untold spool.old.faults)
        (script_spawned spawner.old.told spawner.old.missed spawner.old.calls.faults) runner.old }
{
    for number in 1..1_000_000u64 {
        match step(alloc, world, table, spool, spawner, dialer, runner) {
            Ok(true) => return Ok(number),
            Ok(false) => {}
            Err(_) => bail!("a step that fails"),
        }
    }
    bail!("a runner that is never free")
}

fn record_often(alloc: Global, table: &mut Table, rounds: u32) -> Result<u64>
    requires { IsReady None table.old }
{
    let outcomes = deferred(alloc)?;
    let mut spool = Dropping::new(alloc)?;
    for _ in 0..rounds {
        record(&mut spool, table, 0, &outcomes, MOMENT)?;
    }
    Ok(u64::from(rounds))
}
