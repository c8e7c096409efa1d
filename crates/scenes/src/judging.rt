//! Whether a run went as its scene wants it.

use crate::devices::find;
use crate::judging_files::judge_files;
use crate::judging_replies::judge_replies;
use crate::plot::Plot;
use crate::report::{Report, Spot};
use crate::running::Ran;
use mail_base::{NoMemory, Seq, Text};
use scene_text::{Run, Word, put_number};
use spool_disk::File;
use std::alloc::Global;

/// Compares all that a run wants.
pub(crate) fn judge(
    alloc: Global,
    spot: Spot,
    run: &Run,
    plot: &Plot,
    ran: &Ran,
    left: &Seq<File>,
    report: &mut Report,
) -> Result<(), NoMemory> {
    judge_status(alloc, spot, run, ran, report)?;
    judge_door(spot, run, ran, report)?;
    for party in plot.counts.parties(alloc)?.items() {
        judge_replies(alloc, spot, run, plot, ran, *party, report)?;
    }
    judge_files(alloc, spot, run, ran, left, report)
}

// The status, and the line that is told of it.
fn judge_status(
    alloc: Global,
    spot: Spot,
    run: &Run,
    ran: &Ran,
    report: &mut Report,
) -> Result<(), NoMemory> {
    let Some(item) = find(run, Word::Status) else {
        if ran.status == 0 {
            return Ok(());
        }
        let line = first_line(run);
        let came = status_text(alloc, u64::from(ran.status), ran.told.bytes())?;
        return report.fail(spot, line, b"status 0", came.bytes());
    };
    report.count(1);
    let is_told = item.name.is_empty() || item.name.bytes() == ran.told.bytes();
    if item.number == u64::from(ran.status) && is_told {
        return Ok(());
    }
    let wanted = status_text(alloc, item.number, item.name.bytes())?;
    let came = status_text(alloc, u64::from(ran.status), ran.told.bytes())?;
    report.fail(spot, item.line, wanted.bytes(), came.bytes())
}

// Where the floor was begun.
fn judge_door(spot: Spot, run: &Run, ran: &Ran, report: &mut Report) -> Result<(), NoMemory> {
    let Some(item) = find(run, Word::Begins) else {
        return Ok(());
    };
    report.count(1);
    if item.name.bytes() == ran.door.bytes() {
        return Ok(());
    }
    report.fail(spot, item.line, item.name.bytes(), ran.door.bytes())
}

// The line of a run's first item of its own.
fn first_line(run: &Run) -> u32 {
    for item in run.items.iter() {
        if !item.taken {
            return item.line;
        }
    }
    0
}

/// A status as it is written.
pub(crate) fn status_text(alloc: Global, status: u64, told: &[u8]) -> Result<Text, NoMemory> {
    let mut text = Text::of(alloc, b"status ")?;
    put_number(&mut text, status)?;
    if !told.is_empty() {
        text.push(b' ')?;
        text.extend(told)?;
    }
    Ok(text)
}
