//! Whether the files that a run left are those that a scene wants.

use crate::devices::place_of;
use crate::report::{Report, Spot};
use crate::running::Ran;
use mail_base::{NoMemory, Seq, Text};
use scene_text::{Device, Item, Run, Word, put_number};
use spool_disk::File;
use std::alloc::Global;

/// Compares the files that are left, and the numbers of calls.
pub(crate) fn judge_files(
    alloc: Global,
    spot: Spot,
    run: &Run,
    ran: &Ran,
    left: &Seq<File>,
    report: &mut Report,
) -> Result<(), NoMemory> {
    for item in run.items.iter() {
        let file = file_at(left, item.name.bytes());
        match item.word {
            Word::Queue => judge_bytes(spot, item, file, item.body.bytes(), report)?,
            Word::Stays => judge_stays(spot, run, item, file, report)?,
            Word::There => judge_there(spot, item, file, true, report)?,
            Word::Absent => judge_there(spot, item, file, false, report)?,
            Word::Lines => judge_lines(alloc, spot, item, file, report)?,
            Word::Count => judge_count(alloc, spot, item, file, report)?,
            Word::NothingElse => judge_rest(spot, run, item, left, report)?,
            Word::Calls => judge_calls(alloc, spot, item, ran, report)?,
            _ => {}
        }
    }
    Ok(())
}

// The file of that directory and name.
fn file_at<'a>(files: &'a Seq<File>, path: &[u8]) -> Option<&'a File> {
    let (dir, name) = place_of(path);
    files.items().iter().find(|file| file.dir.bytes() == dir && file.name.bytes() == name)
}

const NO_FILE: &[u8] = b"no such file";

fn judge_bytes(
    spot: Spot,
    item: &Item,
    file: Option<&File>,
    wanted: &[u8],
    report: &mut Report,
) -> Result<(), NoMemory> {
    report.count(1);
    let Some(file) = file else {
        return report.fail(spot, item.line, item.name.bytes(), NO_FILE);
    };
    compare(spot, item, wanted, file.bytes.bytes(), report)
}

// Compares bytes, and tells the first line of them that isn't as wanted.
fn compare(
    spot: Spot,
    item: &Item,
    wanted: &[u8],
    came: &[u8],
    report: &mut Report,
) -> Result<(), NoMemory> {
    if wanted == came {
        return Ok(());
    }
    let (number, wanted, came) = first_difference(wanted, came);
    report.fail(spot, item.line.saturating_add(number), wanted, came)
}

// The first lines that differ, and their number.
fn first_difference<'a>(wanted: &'a [u8], came: &'a [u8]) -> (u32, &'a [u8], &'a [u8]) {
    let mut wanted = wanted;
    let mut came = came;
    for number in 1..1_000_000u32 {
        let (one, behind_one) = line_of(wanted);
        let (other, behind_other) = line_of(came);
        if one != other || one.is_empty() {
            return (number, one, other);
        }
        wanted = behind_one;
        came = behind_other;
    }
    (0, wanted, came)
}

/// The first line with its end, and what stands behind.
pub(crate) fn line_of(bytes: &[u8]) -> (&[u8], &[u8]) {
    match bytes.iter().position(|byte| *byte == b'\n') {
        Some(at) => {
            let length = at.saturating_add(1);
            (
                bytes.get(..length).unwrap_or(bytes),
                bytes.get(length..).unwrap_or(&[]),
            )
        }
        None => (bytes, &[]),
    }
}

fn judge_stays(
    spot: Spot,
    run: &Run,
    item: &Item,
    file: Option<&File>,
    report: &mut Report,
) -> Result<(), NoMemory> {
    let name = item.name.bytes();
    let held = run.items.iter().rev().find(|other| other.word == Word::Held
        && other.name.bytes() == name);
    match held {
        Some(held) => judge_bytes(spot, item, file, held.body.bytes(), report),
        None => report.fail(spot, item.line, b"a file that is held", NO_FILE),
    }
}

fn judge_there(
    spot: Spot,
    item: &Item,
    file: Option<&File>,
    wanted: bool,
    report: &mut Report,
) -> Result<(), NoMemory> {
    report.count(1);
    match file {
        Some(file) if !wanted => report.fail(spot, item.line, NO_FILE, file.bytes.bytes()),
        None if wanted => report.fail(spot, item.line, item.name.bytes(), NO_FILE),
        _ => Ok(()),
    }
}

// Adds the lines that begin with one of these letters, and gives their number.
fn add_lettered(text: &mut Text, bytes: &[u8], letters: &[u8]) -> Result<u64, NoMemory> {
    let mut count = 0u64;
    let mut rest = bytes;
    for _ in 0..bytes.len() {
        let (line, behind) = line_of(rest);
        if let Some(first) = line.first() {
            if letters.contains(first) {
                text.extend(line)?;
                count = count.saturating_add(1);
            }
        }
        rest = behind;
    }
    Ok(count)
}

fn judge_lines(
    alloc: Global,
    spot: Spot,
    item: &Item,
    file: Option<&File>,
    report: &mut Report,
) -> Result<(), NoMemory> {
    report.count(1);
    let Some(file) = file else {
        return report.fail(spot, item.line, item.name.bytes(), NO_FILE);
    };
    let mut lines = Text::new(alloc);
    let _count = add_lettered(&mut lines, file.bytes.bytes(), item.beside.bytes())?;
    compare(spot, item, item.body.bytes(), lines.bytes(), report)
}

fn judge_count(
    alloc: Global,
    spot: Spot,
    item: &Item,
    file: Option<&File>,
    report: &mut Report,
) -> Result<(), NoMemory> {
    report.count(1);
    let Some(file) = file else {
        return report.fail(spot, item.line, item.name.bytes(), NO_FILE);
    };
    let mut lines = Text::new(alloc);
    let count = add_lettered(&mut lines, file.bytes.bytes(), item.beside.bytes())?;
    compare_numbers(alloc, spot, item, count, report)
}

fn compare_numbers(
    alloc: Global,
    spot: Spot,
    item: &Item,
    came: u64,
    report: &mut Report,
) -> Result<(), NoMemory> {
    if item.number == came {
        return Ok(());
    }
    let mut one = Text::new(alloc);
    let mut other = Text::new(alloc);
    put_number(&mut one, item.number)?;
    put_number(&mut other, came)?;
    report.fail(spot, item.line, one.bytes(), other.bytes())
}

fn judge_calls(
    alloc: Global,
    spot: Spot,
    item: &Item,
    ran: &Ran,
    report: &mut Report,
) -> Result<(), NoMemory> {
    report.count(1);
    let came = match Device::of(item.name.bytes()) {
        Some(device) => ran.calls.of(device),
        None => 0,
    };
    compare_numbers(alloc, spot, item, came, report)
}

// Whether each file is one that the scene names.
fn judge_rest(
    spot: Spot,
    run: &Run,
    item: &Item,
    left: &Seq<File>,
    report: &mut Report,
) -> Result<(), NoMemory> {
    report.count(1);
    for file in left.items() {
        if !run.items.iter().any(|other| names(other, file)) {
            report.fail(spot, item.line, b"nothing else", file.name.bytes())?;
        }
    }
    Ok(())
}

fn names(item: &Item, file: &File) -> bool {
    let (dir, name) = place_of(item.name.bytes());
    matches!(
        item.word,
        Word::Queue | Word::Stays | Word::There | Word::Lines | Word::Count
    ) && file.dir.bytes() == dir
        && file.name.bytes() == name
}
