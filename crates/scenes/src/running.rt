//! A run of the program over devices in memory.

ghost use Rattle.std.specs.Prelude.{◌<◌, ◌^◌, ◌≤◌, length};

use crate::came::{Came, add_begun, add_floor, add_lines};
use crate::children::Children;
use crate::devices::{add_failing, clock_of, files_of, opening_words, words_of};
use crate::party::Party;
use crate::peers::Peers;
use crate::place::Place;
use crate::plot::{Plot, cut_steps};
use crate::source::{Cutting, Pieces};
use crate::told::told_of;
use crate::watch::{RunClock, Watch, Watched};
use link_edge::{Floor, OneFloor, ScriptFloor, Step};
use mail_base::{NoMemory, Seq, Text};
use mail_edge::{MemFiles, MemSink, MemSource};
use scene_text::{Bad, Device, Run};
use sendmail_run::{Outcome, sendmail};
use spool_disk::StopSpool;
use std::alloc::Global;

/// In what a run differs from what the scene says: its pieces, whether its own fails count, one
/// more call that fails, whether its session is over a source and a sink, and whether it is a
/// session that opens the queue alone.
#[derive(Clone, Copy)]
pub(crate) struct Way {
    pub pieces: Pieces,
    pub heeds: bool,
    pub fails: Option<(Device, u64)>,
    pub streams: bool,
    pub opens: bool,
}

impl Way {
    pub(crate) fn as_said() -> Way {
        Way {
            pieces: Pieces::AsSaid,
            heeds: true,
            fails: None,
            streams: false,
            opens: false,
        }
    }

    /// The calls of a device that fail.
    pub(crate) fn failing(
        &self,
        alloc: Global,
        run: &Run,
        device: Device,
    ) -> Result<Seq<u64>, NoMemory> {
        let mut calls = Seq::new(alloc);
        if let Some((other, call)) = self.fails {
            if other == device {
                calls.push(call)?;
            }
        }
        if self.heeds {
            add_failing(&mut calls, run, device)?;
        }
        Ok(calls)
    }
}

/// How many calls of each device there were.
#[derive(Clone, Copy)]
pub(crate) struct Calls {
    pub files: u64,
    pub spool: u64,
    pub turns: u64,
    pub sends: u64,
    pub reads: u64,
    pub writes: u64,
    pub children: u64,
    pub peers: u64,
}

impl Calls {
    pub(crate) fn of(&self, device: Device) -> u64 {
        match device {
            Device::Files => self.files,
            Device::Spool => self.spool,
            Device::Turns => self.turns,
            Device::Sends => self.sends,
            Device::Reads => self.reads,
            Device::Writes => self.writes,
            Device::Children => self.children,
            Device::Peers => self.peers,
        }
    }
}

/// How a run went: its status, the line that is told of it, what came back, how many calls there
/// were, and where the floor was begun.
pub(crate) struct Ran {
    pub status: u8,
    pub told: Text,
    pub came: Seq<Came>,
    pub calls: Calls,
    pub door: Text,
}

// Written out, since a caller's proof goes through the parts of a derived drop at each way out.
impl Drop for Ran {
    fn drop(self) {
        let Ran {
            status: _,
            told: _,
            came: _,
            calls: _,
            door: _,
        } = self;
    }
}

/// Runs the program over a spool.
pub(crate) fn run_over(
    alloc: Global,
    run: &Run,
    plot: &Plot,
    way: Way,
    spool: &mut StopSpool,
) -> Result<Ran, Bad> {
    let mut files = files_of(alloc, run, way.failing(alloc, run, Device::Files)?)?;
    let before = spool.spool.calls();
    let mut ran = if way.streams {
        over_stream(alloc, run, plot, way, &mut files, spool)?
    } else {
        over_floor(alloc, run, plot, way, &mut files, spool)?
    };
    ran.calls.files = files.script.calls;
    ran.calls.spool = spool.spool.calls().saturating_sub(before);
    Ok(ran)
}

fn over_floor(
    alloc: Global,
    run: &Run,
    plot: &Plot,
    way: Way,
    files: &mut MemFiles,
    spool: &mut StopSpool,
) -> Result<Ran, Bad> {
    let watch = Watch::new();
    let steps = cut_steps(&plot.steps, way.pieces)?;
    let turns = way.failing(alloc, run, Device::Turns)?;
    let sends = way.failing(alloc, run, Device::Sends)?;
    let mut floor = Watched {
        floor: ScriptFloor::new(alloc, cut_steps(&plot.steps, way.pieces)?, turns, sends),
        steps: &steps,
        place: Place::first(),
        watch: &watch,
        door: Text::new(alloc),
    };
    let mut ran = over(alloc, run, plot, way, &watch, files, spool, &mut floor)?;
    ran.calls.turns = floor.floor.turns.calls;
    ran.calls.sends = floor.floor.sends.calls;
    ran.door.extend(floor.door.bytes())?;
    add_floor(&mut ran.came, &steps, floor.floor.seen())?;
    Ok(ran)
}

// All that is said in one session, over a source and a sink.
fn over_stream(
    alloc: Global,
    run: &Run,
    plot: &Plot,
    way: Way,
    files: &mut MemFiles,
    spool: &mut StopSpool,
) -> Result<Ran, Bad> {
    let watch = Watch::new();
    let said = said_in(alloc, plot)?;
    let source = MemSource::new(said, Seq::new(alloc));
    let mut floor = OneFloor::new(source, MemSink::new(alloc, Seq::new(alloc)));
    let mut ran = over(alloc, run, plot, way, &watch, files, spool, &mut floor)?;
    add_lines(&mut ran.came, Party::Session(1), 0, floor.sink.seen())?;
    Ok(ran)
}

fn said_in(alloc: Global, plot: &Plot) -> Result<Text, NoMemory> {
    let mut text = Text::new(alloc);
    for step in plot.steps.items() {
        if let Step::Say(_session, bytes) = step {
            text.extend(bytes.bytes())?;
        }
    }
    Ok(text)
}

// A run over any floor, with what it started, dialled and wrote.
fn over<L: Floor>(
    alloc: Global,
    run: &Run,
    plot: &Plot,
    way: Way,
    watch: &Watch,
    files: &mut MemFiles,
    spool: &mut StopSpool,
    floor: &mut L,
) -> Result<Ran, Bad> {
    let failing = way.failing(alloc, run, Device::Children)?;
    let mut children = Children::new(alloc, &plot.fates, watch, failing);
    let failing = way.failing(alloc, run, Device::Peers)?;
    let mut peers = Peers::new(alloc, &plot.manners, watch, way.pieces, failing);
    let mut ran = between(
        alloc,
        run,
        plot,
        way,
        watch,
        files,
        spool,
        floor,
        &mut children,
        &mut peers,
    )?;
    if children.starved || peers.starved {
        return Err(Bad::NoMemory);
    }
    ran.calls.children = children.script.calls;
    ran.calls.peers = peers.script.calls;
    add_begun(&mut ran.came, &children, &peers)?;
    Ok(ran)
}

// A run between standard input and output.
fn between<L: Floor>(
    alloc: Global,
    run: &Run,
    plot: &Plot,
    way: Way,
    watch: &Watch,
    files: &mut MemFiles,
    spool: &mut StopSpool,
    floor: &mut L,
    children: &mut Children,
    peers: &mut Peers,
) -> Result<Ran, Bad> {
    let mut output = MemSink::new(alloc, way.failing(alloc, run, Device::Writes)?);
    let mut input = input_of(alloc, run, plot, way)?;
    let outcome = outcome_of(
        alloc,
        run,
        plot,
        way,
        watch,
        files,
        spool,
        floor,
        children,
        peers,
        &mut input,
        &mut output,
    )?;
    let mut ran = ran_of(alloc, &outcome, &output)?;
    ran.calls.reads = input.source.script.calls;
    ran.calls.writes = output.script.calls;
    Ok(ran)
}

fn input_of(
    alloc: Global,
    run: &Run,
    plot: &Plot,
    way: Way,
) -> Result<Cutting<MemSource>, NoMemory> {
    let bytes = Text::of(alloc, plot.input.bytes())?;
    let fails = way.failing(alloc, run, Device::Reads)?;
    Ok(Cutting {
        source: MemSource::new(bytes, fails),
        pieces: way.pieces,
    })
}

fn ran_of(alloc: Global, outcome: &Outcome, output: &MemSink) -> Result<Ran, NoMemory> {
    let mut came = Seq::new(alloc);
    add_lines(&mut came, Party::Standard, 0, output.seen())?;
    let told = told_of(alloc, outcome)?;
    Ok(Ran {
        status: outcome.status(),
        told,
        came,
        calls: Calls {
            files: 0,
            spool: 0,
            turns: 0,
            sends: 0,
            reads: 0,
            writes: 0,
            children: 0,
            peers: 0,
        },
        door: Text::new(alloc),
    })
}

fn outcome_of<L: Floor>(
    alloc: Global,
    run: &Run,
    plot: &Plot,
    way: Way,
    watch: &Watch,
    files: &mut MemFiles,
    spool: &mut StopSpool,
    floor: &mut L,
    children: &mut Children,
    peers: &mut Peers,
    input: &mut Cutting<MemSource>,
    output: &mut MemSink,
) -> Result<Outcome, Bad> {
    let words = if way.opens {
        opening_words(alloc, run)?
    } else {
        words_of(alloc, run, plot.counts.sessions)?
    };
    if words.len() > 1000 {
        return Err(Bad::Large);
    }
    let (start, step) = clock_of(run);
    let mut clock = RunClock {
        start,
        step,
        readings: 0,
        rests: plot.rests.items(),
        watch,
    };
    Ok(sendmail(
        alloc, &words, files, spool, floor, children, peers, &mut clock, input, output,
    ))
}
