//! A scene stopped at each changing call of the queue, with each image of the stop opened again.

use crate::came::{acknowledged, id_of};
use crate::failing::play_name;
use crate::keeping::{delivers, has_entry};
use crate::playing::{Base, are_same, numbered, ran_over};
use crate::plot::Plot;
use crate::report::{Report, Spot};
use crate::running::{Way, run_over};
use link_edge::Step;
use mail_base::{NoMemory, Seq, Text, TryCopy};
use scene_text::{Bad, Run, Scene};
use spool_disk::{File, MemSpool, StopSpool};
use std::alloc::Global;

/// The most changing calls of a scene.
const MOST_CALLS: u64 = 100_000;

/// The files of a queue that was opened when so many messages were acknowledged; or, where mail is
/// delivered, after so many changing calls.
#[derive(Drop)]
struct Stage {
    files: Seq<File>,
}

/// The files that an image of a stop has once it is opened: the stop came after so many changing
/// calls, and so many messages were acknowledged by then.
#[derive(Drop)]
struct Image {
    passes: u64,
    count: u64,
    files: Seq<File>,
}

/// Plays a scene, which makes so many changing calls, stopped at each of them. So many of them
/// change what is there once the queue is opened again.
pub(crate) fn play_stopped(
    alloc: Global,
    spot: Spot,
    scene: &Scene,
    bases: &[Base],
    (calls, changes): (Option<u64>, Option<u64>),
    report: &mut Report,
) -> Result<(), Bad> {
    let mut stages = Seq::new(alloc);
    let mut images = Seq::new(alloc);
    let delivers = bases.iter().any(|base| delivers(&base.ran));
    let came = stop_everywhere(alloc, scene, bases, delivers, &mut stages, &mut images)?;
    compare_count(
        alloc,
        spot,
        scene.line,
        b"changing calls: ",
        calls,
        came,
        report,
    )?;
    let came = changes_of(&stages);
    compare_count(alloc, spot, scene.line, b"changes: ", changes, came, report)?;
    for image in images.items() {
        if delivers {
            compare_calls(alloc, spot, scene.line, bases, &stages, image, report)?;
        } else {
            compare(alloc, spot, scene.line, &stages, image, report)?;
        }
    }
    Ok(())
}

fn compare_count(
    alloc: Global,
    spot: Spot,
    line: u32,
    of: &[u8],
    wanted: Option<u64>,
    came: u64,
    report: &mut Report,
) -> Result<(), NoMemory> {
    let Some(wanted) = wanted else {
        return Ok(());
    };
    report.count(1);
    if wanted == came {
        return Ok(());
    }
    let one = numbered(alloc, of, wanted)?;
    let other = numbered(alloc, b"", came)?;
    report.fail(spot, line, one.bytes(), other.bytes())
}

// How many stages differ from the one before.
fn changes_of(stages: &Seq<Stage>) -> u64 {
    let mut count = 0u64;
    let mut before: Option<&Stage> = None;
    for stage in stages.items() {
        if let Some(last) = before {
            if !are_same(&last.files, &stage.files) {
                count = count.saturating_add(1);
            }
        }
        before = Some(stage);
    }
    count
}

// Stops a scene at each changing call, and tells how many there are. It fills in what stands when
// no message is acknowledged, one is, and so on, or after each changing call, and the images.
fn stop_everywhere(
    alloc: Global,
    scene: &Scene,
    bases: &[Base],
    delivers: bool,
    stages: &mut Seq<Stage>,
    images: &mut Seq<Image>,
) -> Result<u64, Bad> {
    for passes in 0..MOST_CALLS {
        let mut spool = StopSpool::new(first_spool(alloc, bases)?, passes);
        let count = live(alloc, scene, bases, &mut spool)?;
        let most = if delivers { passes } else { count };
        add_stages(alloc, scene, stages, most, &spool.spool.files()?)?;
        if !spool.stopped {
            return Ok(passes);
        }
        for image in spool.images()?.into_vec() {
            let files = opened(alloc, scene, &image.files()?)?;
            images.push(Image {
                passes,
                count,
                files,
            })?;
        }
    }
    Err(Bad::Large)
}

// Adds the files as those of each stage up to this one that has none yet.
fn add_stages(
    alloc: Global,
    scene: &Scene,
    stages: &mut Seq<Stage>,
    count: u64,
    files: &Seq<File>,
) -> Result<(), Bad> {
    for number in 0..count.saturating_add(1) {
        if number >= stages.len() as u64 {
            let files = opened(alloc, scene, files)?;
            stages.push(Stage { files })?;
        }
    }
    Ok(())
}

fn first_spool(alloc: Global, bases: &[Base]) -> Result<MemSpool, NoMemory> {
    let files = match bases.first() {
        Some(base) => base.start.copy()?,
        None => Seq::new(alloc),
    };
    MemSpool::of(alloc, files, Seq::new(alloc))
}

// Plays all runs over a spool, and tells how many messages were acknowledged.
fn live(alloc: Global, scene: &Scene, bases: &[Base], spool: &mut StopSpool) -> Result<u64, Bad> {
    let mut count = 0u64;
    for (run, base) in scene.runs.iter().zip(bases.iter()) {
        let ran = run_over(alloc, run, &base.plot, Way::as_said(), spool)?;
        count = count.saturating_add(acknowledged(&ran.came));
    }
    Ok(count)
}

// The files of a queue once it was opened by a run that says QUIT.
fn opened(alloc: Global, scene: &Scene, files: &Seq<File>) -> Result<Seq<File>, Bad> {
    let Some(run) = scene.runs.last() else {
        return Err(Bad::NoScene);
    };
    let plot = quitting(alloc)?;
    let (ran, left) = ran_over(alloc, run, &plot, unheeding(), files)?;
    if ran.status == 0 {
        return Ok(left);
    }
    Ok(unopened(alloc)?)
}

// Files that no queue has, in the place of those of one that can't be opened.
fn unopened(alloc: Global) -> Result<Seq<File>, NoMemory> {
    let mut files = Seq::new(alloc);
    files.push(File {
        dir: Text::new(alloc),
        name: Text::of(alloc, b"not opened")?,
        bytes: Text::new(alloc),
    })?;
    Ok(files)
}

fn unheeding() -> Way {
    Way {
        heeds: false,
        opens: true,
        ..Way::as_said()
    }
}

fn quitting(alloc: Global) -> Result<Plot, NoMemory> {
    let mut plot = Plot::new(alloc);
    plot.steps.push(Step::Open(Text::new(alloc)))?;
    plot.steps
        .push(Step::Say(1, Text::of(alloc, b"QUIT\r\n")?))?;
    plot.counts.sessions = 1;
    Ok(plot)
}

// Whether an image has what there was before the call that was stopped or what there is behind it,
// and each message that was acknowledged.
fn compare_calls(
    alloc: Global,
    spot: Spot,
    line: u32,
    bases: &[Base],
    stages: &Seq<Stage>,
    image: &Image,
    report: &mut Report,
) -> Result<(), NoMemory> {
    let is_right = is_stage(stages, image.passes, &image.files)
        || is_stage(stages, image.passes.saturating_add(1), &image.files);
    if is_right && !is_unopened(&image.files) && has_acknowledged(bases, image) {
        return Ok(());
    }
    let play = play_name(alloc, image.passes)?;
    let spot = Spot {
        play: play.bytes(),
        ..spot
    };
    let came = names_of(alloc, &image.files)?;
    report.fail(
        spot,
        line,
        b"what was there before the call, or is behind it",
        came.bytes(),
    )
}

// Whether the messages that were acknowledged first are there.
fn has_acknowledged(bases: &[Base], image: &Image) -> bool {
    let mut left = image.count;
    for base in bases {
        for came in base.ran.came.items() {
            let Some(id) = id_of(came) else {
                continue;
            };
            if left > 0 && !has_entry(&image.files, id) {
                return false;
            }
            left = left.saturating_sub(1);
        }
    }
    true
}

// Whether an image has the messages that were acknowledged, and at most one more.
fn compare(
    alloc: Global,
    spot: Spot,
    line: u32,
    stages: &Seq<Stage>,
    image: &Image,
    report: &mut Report,
) -> Result<(), NoMemory> {
    let is_right = is_stage(stages, image.count, &image.files)
        || is_stage(stages, image.count.saturating_add(1), &image.files);
    if is_right && !is_unopened(&image.files) {
        return Ok(());
    }
    let play = play_name(alloc, image.passes)?;
    let spot = Spot {
        play: play.bytes(),
        ..spot
    };
    let mut wanted = numbered(alloc, b"what was acknowledged, messages: ", image.count)?;
    wanted.extend(b", or one more")?;
    let came = names_of(alloc, &image.files)?;
    report.fail(spot, line, wanted.bytes(), came.bytes())
}

fn is_unopened(files: &Seq<File>) -> bool {
    files.items().iter().any(|file| file.dir.is_empty())
}

fn is_stage(stages: &Seq<Stage>, number: u64, files: &Seq<File>) -> bool {
    for (place, stage) in stages.items().iter().enumerate() {
        if place as u64 == number {
            return are_same(&stage.files, files);
        }
    }
    false
}

fn names_of(alloc: Global, files: &Seq<File>) -> Result<Text, NoMemory> {
    let mut text = Text::of(alloc, b"files:")?;
    for file in files.items() {
        text.push(b' ')?;
        text.extend(file.dir.bytes())?;
        text.push(b'/')?;
        text.extend(file.name.bytes())?;
    }
    Ok(text)
}
