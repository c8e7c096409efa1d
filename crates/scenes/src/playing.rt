//! A scene, played as it stands and in each of its further ways.

use crate::came::said_to;
use crate::chance::Chance;
use crate::devices::{add_all_held, find, has_fails, has_stop};
use crate::failing::play_failing;
use crate::judging::{judge, status_text};
use crate::plot::{Plot, plot_of};
use crate::report::{Report, Spot};
use crate::running::{Ran, Way, run_over};
use crate::source::Pieces;
use crate::stopped::play_stopped;
use mail_base::{NoMemory, Seq, Text, TryCopy};
use scene_text::{Bad, Device, Item, Play, Run, Scene, Word};
use spool_disk::{File, MemSpool, StopSpool};
use std::alloc::Global;

/// How a run of a scene went as it stands: its plot, the files that it began with and those that it
/// left, and what came.
pub(crate) struct Base {
    pub plot: Plot,
    pub start: Seq<File>,
    pub ran: Ran,
    pub left: Seq<File>,
}

// Written out, since a caller's proof goes through the parts of a derived drop at each way out.
impl Drop for Base {
    fn drop(self) {
        let Base {
            plot: _,
            start: _,
            ran: _,
            left: _,
        } = self;
    }
}

/// Why a scene can't be played, and the line of it.
#[derive(Clone, Copy)]
pub(crate) struct Halt {
    pub line: u32,
    pub why: Bad,
}

impl From<NoMemory> for Halt {
    fn from(_error: NoMemory) -> Halt {
        Halt {
            line: 0,
            why: Bad::NoMemory,
        }
    }
}

impl From<Bad> for Halt {
    fn from(why: Bad) -> Halt {
        Halt { line: 0, why }
    }
}

/// Plays a scene in all of its ways.
pub(crate) fn play(
    alloc: Global,
    spot: Spot,
    scene: &Scene,
    report: &mut Report,
) -> Result<(), Halt> {
    let faults = report.faults;
    let bases = bases_of(alloc, scene)?;
    for (run, base) in scene.runs.iter().zip(bases.iter()) {
        judge(alloc, spot, run, &base.plot, &base.ran, &base.left, report)?;
    }
    if report.faults == faults {
        for way in scene.plays.iter() {
            play_also(alloc, spot, scene, &bases, *way, report)?;
        }
    }
    if report.faults == faults {
        report.passed = report.passed.saturating_add(1);
    } else {
        report.failed = report.failed.saturating_add(1);
    }
    Ok(())
}

/// The runs of a scene as it stands.
pub(crate) fn bases_of(alloc: Global, scene: &Scene) -> Result<Vec<Base>, Halt> {
    let mut bases = Vec::new(alloc);
    let mut left = Seq::new(alloc);
    for run in scene.runs.iter() {
        let base = base_of(alloc, run, &left)?;
        left = base.left.copy()?;
        bases.push(base).map_err(NoMemory::from)?;
    }
    Ok(bases)
}

// A run over the files that the one before left, and those that it holds itself.
fn base_of(alloc: Global, run: &Run, before: &Seq<File>) -> Result<Base, Halt> {
    let plot = match plot_of(alloc, run) {
        Ok(plot) => plot,
        Err((line, why)) => return Err(Halt { line, why }),
    };
    let mut start = before.copy()?;
    add_all_held(&mut start, run)?;
    let (ran, left) = ran_over(alloc, run, &plot, Way::as_said(), &start)?;
    Ok(Base {
        plot,
        start,
        ran,
        left,
    })
}

/// A run over these files, and those that it leaves.
pub(crate) fn ran_over(
    alloc: Global,
    run: &Run,
    plot: &Plot,
    way: Way,
    start: &Seq<File>,
) -> Result<(Ran, Seq<File>), Bad> {
    let fails = way.failing(alloc, run, Device::Spool)?;
    let stop = find(run, Word::Stop).filter(|_| way.heeds);
    let passes = match stop {
        Some(item) => item.number,
        None => u64::MAX,
    };
    let mut spool = StopSpool::new(MemSpool::of(alloc, start.copy()?, fails)?, passes);
    let ran = run_over(alloc, run, plot, way, &mut spool)?;
    let left = left_by(&spool, stop)?;
    Ok((ran, left))
}

// The files that a run leaves, or that its stop does.
fn left_by(spool: &StopSpool, stop: Option<&Item>) -> Result<Seq<File>, Bad> {
    let Some(stop) = stop else {
        return Ok(spool.spool.files()?);
    };
    let images = spool.images()?;
    let writes = images.len() > 2;
    let place = match stop.beside.bytes() {
        b"empty" if writes => 1,
        b"half" if writes => 2,
        b"empty" | b"half" => images.len(),
        b"done" => images.len().saturating_sub(1),
        _ => 0,
    };
    match images.get(place) {
        Some(image) => Ok(image.files()?),
        None => Err(Bad::NoImage),
    }
}

fn play_also(
    alloc: Global,
    spot: Spot,
    scene: &Scene,
    bases: &[Base],
    play: Play,
    report: &mut Report,
) -> Result<(), Halt> {
    match play {
        Play::Cut => {
            let spot = named(spot, b"cut");
            Ok(play_in(alloc, spot, scene, bases, cut(Pieces::Bytes), report)?)
        }
        Play::Random(seed, times) => play_random(alloc, spot, scene, bases, (seed, times), report),
        Play::Stream => play_stream(alloc, spot, scene, bases, report),
        Play::Failing => {
            if scene.runs.iter().any(has_fails) || scene.runs.iter().any(has_stop) {
                return Err(Halt::from(Bad::Fails));
            }
            Ok(play_failing(alloc, spot, scene, bases, report)?)
        }
        Play::Stopped(calls, changes) => {
            if scene.runs.iter().any(has_stop) {
                return Err(Halt::from(Bad::Stops));
            }
            let spot = named(spot, b"stopped");
            Ok(play_stopped(alloc, spot, scene, bases, (calls, changes), report)?)
        }
    }
}

fn named<'a>(spot: Spot<'a>, play: &'a [u8]) -> Spot<'a> {
    Spot { play, ..spot }
}

fn cut(pieces: Pieces) -> Way {
    Way {
        pieces,
        ..Way::as_said()
    }
}

fn play_random(
    alloc: Global,
    spot: Spot,
    scene: &Scene,
    bases: &[Base],
    (seed, times): (u64, u64),
    report: &mut Report,
) -> Result<(), Halt> {
    for turn in 0..times {
        let chance = Chance::new(seed.wrapping_add(turn));
        let way = cut(Pieces::Random(chance));
        play_in(alloc, named(spot, b"random"), scene, bases, way, report)?;
    }
    Ok(())
}

fn play_stream(
    alloc: Global,
    spot: Spot,
    scene: &Scene,
    bases: &[Base],
    report: &mut Report,
) -> Result<(), Halt> {
    if !bases.iter().all(|base| base.plot.counts.sessions == 1) {
        return Err(Halt::from(Bad::Stream));
    }
    let way = Way {
        streams: true,
        ..Way::as_said()
    };
    Ok(play_in(alloc, named(spot, b"stream"), scene, bases, way, report)?)
}

// Plays each run in a way that is to bring the same.
fn play_in(
    alloc: Global,
    spot: Spot,
    scene: &Scene,
    bases: &[Base],
    way: Way,
    report: &mut Report,
) -> Result<(), Bad> {
    for (run, base) in scene.runs.iter().zip(bases.iter()) {
        let (ran, left) = ran_over(alloc, run, &base.plot, way, &base.start)?;
        compare(alloc, spot, scene.line, base, &ran, &left, report)?;
    }
    Ok(())
}

// Tells where a run doesn't bring the same as it does as it stands.
fn compare(
    alloc: Global,
    spot: Spot,
    line: u32,
    base: &Base,
    ran: &Ran,
    left: &Seq<File>,
    report: &mut Report,
) -> Result<(), NoMemory> {
    compare_status(alloc, spot, line, &base.ran, ran, report)?;
    for party in base.plot.counts.parties(alloc)?.items() {
        let wanted = said_to(alloc, &base.ran.came, *party)?;
        let came = said_to(alloc, &ran.came, *party)?;
        if wanted.bytes() != came.bytes() {
            report.fail(spot, line, wanted.bytes(), came.bytes())?;
        }
    }
    if !are_same(&base.left, left) {
        report.fail(spot, line, b"the same files", b"others")?;
    }
    Ok(())
}

fn compare_status(
    alloc: Global,
    spot: Spot,
    line: u32,
    base: &Ran,
    ran: &Ran,
    report: &mut Report,
) -> Result<(), NoMemory> {
    if base.status == ran.status && base.told.bytes() == ran.told.bytes() {
        return Ok(());
    }
    let wanted = status_text(alloc, u64::from(base.status), base.told.bytes())?;
    let came = status_text(alloc, u64::from(ran.status), ran.told.bytes())?;
    report.fail(spot, line, wanted.bytes(), came.bytes())
}

/// Whether a file is among these, with the same bytes.
pub(crate) fn is_among(files: &Seq<File>, file: &File) -> bool {
    files.items().iter().any(|other| {
        other.is_at(&file.dir, &file.name) && other.bytes.bytes() == file.bytes.bytes()
    })
}

/// Whether two lists have the same files.
pub(crate) fn are_same(one: &Seq<File>, other: &Seq<File>) -> bool {
    one.len() == other.len() && one.items().iter().all(|file| is_among(other, file))
}

/// A text of two parts and a number.
pub(crate) fn numbered(alloc: Global, front: &[u8], number: u64) -> Result<Text, NoMemory> {
    let mut text = Text::of(alloc, front)?;
    scene_text::put_number(&mut text, number)?;
    Ok(text)
}
