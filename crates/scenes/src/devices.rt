//! The devices of a run, as its items give them.

use mail_base::{NoMemory, Seq, Text};
use mail_edge::{MemFiles, SureFiles};
use scene_text::{Bad, Device, FIRST_READING, Item, Run, Word, number_of, parted};
use sendmail_run::DEFAULT_FILE;
use spool_disk::File;
use std::alloc::Global;

/// The last item of a word.
pub(crate) fn find(run: &Run, word: Word) -> Option<&Item> {
    run.items.iter().rev().find(|item| item.word == word)
}

/// The words of the command line.
pub(crate) fn words_of(alloc: Global, run: &Run, sessions: u64) -> Result<Seq<Text>, NoMemory> {
    let Some(item) = find(run, Word::Words) else {
        return default_words(alloc, sessions);
    };
    let mut words = Seq::new(alloc);
    let mut rest = item.name.bytes();
    for _ in 0..item.name.len() {
        let Some((word, behind)) = parted(rest, 0) else {
            break;
        };
        words.push(Text::of(alloc, word)?)?;
        rest = behind;
    }
    Ok(words)
}

fn default_words(alloc: Global, sessions: u64) -> Result<Seq<Text>, NoMemory> {
    let mut words = Seq::new(alloc);
    if sessions > 0 {
        words.push(Text::of(alloc, b"-bs")?)?;
    } else {
        words.push(Text::of(alloc, b"-bt")?)?;
    }
    Ok(words)
}

/// The words of a session under the configuration of a run: those of its own that name the file.
pub(crate) fn opening_words(alloc: Global, run: &Run) -> Result<Seq<Text>, NoMemory> {
    let mut words = Seq::new(alloc);
    words.push(Text::of(alloc, b"-bs")?)?;
    let mut is_name = false;
    for word in words_of(alloc, run, 1)?.items() {
        if is_name || word.bytes().starts_with(b"-C") {
            words.push(Text::of(alloc, word.bytes())?)?;
        }
        is_name = !is_name && word.bytes() == b"-C".as_slice();
    }
    Ok(words)
}

/// The files, of which these calls fail.
pub(crate) fn files_of(alloc: Global, run: &Run, failing: Seq<u64>) -> Result<MemFiles, Bad> {
    let mut files = Seq::new(alloc);
    add_config(&mut files, run)?;
    for item in run.items.iter() {
        if item.word == Word::File {
            add_file(&mut files, item.name.bytes(), item.body.bytes())?;
        }
    }
    let sure = SureFiles::new(files).ok_or(Bad::Large)?;
    Ok(MemFiles::new(sure, failing))
}

fn add_file(files: &mut Seq<(Text, Text)>, name: &[u8], text: &[u8]) -> Result<(), NoMemory> {
    let alloc = files.allocator();
    let name = Text::of(alloc, name)?;
    files.push((name, Text::of(alloc, text)?))
}

// Adds the configuration, where there is one.
fn add_config(files: &mut Seq<(Text, Text)>, run: &Run) -> Result<(), NoMemory> {
    let mut text = Text::new(files.allocator());
    let mut is_there = false;
    for word in [Word::Front, Word::Config, Word::Behind] {
        if let Some(item) = find(run, word) {
            text.extend(item.body.bytes())?;
            is_there = true;
        }
    }
    if is_there {
        add_file(files, DEFAULT_FILE, text.bytes())?;
    }
    Ok(())
}

/// Adds the calls of a device that fail in a run.
pub(crate) fn add_failing(calls: &mut Seq<u64>, run: &Run, device: Device) -> Result<(), NoMemory> {
    for item in run.items.iter() {
        if item.word == Word::Fail && Device::of(item.name.bytes()) == Some(device) {
            add_numbers(calls, item.beside.bytes())?;
        }
    }
    Ok(())
}

fn add_numbers(calls: &mut Seq<u64>, numbers: &[u8]) -> Result<(), NoMemory> {
    for digits in numbers.split(|byte| *byte == b' ') {
        if let Some(number) = number_of(digits) {
            calls.push(number)?;
        }
    }
    Ok(())
}

/// Whether a run has fails.
pub(crate) fn has_fails(run: &Run) -> bool {
    run.items
        .iter()
        .any(|item| item.word == Word::Fail && !item.beside.is_empty())
}

/// Whether a run is stopped.
pub(crate) fn has_stop(run: &Run) -> bool {
    find(run, Word::Stop).is_some()
}

/// The first reading of the clock, and how much later each next one is.
pub(crate) fn clock_of(run: &Run) -> (u64, u64) {
    match find(run, Word::Clock) {
        Some(item) => (item.number, item.seconds),
        None => (FIRST_READING, 0),
    }
}

/// The directory and the name of a file of the queue, which the last slash parts.
pub(crate) fn place_of(path: &[u8]) -> (&[u8], &[u8]) {
    match path.iter().rposition(|byte| *byte == b'/') {
        Some(at) => (
            path.get(..at).unwrap_or(&[]),
            path.get(at.saturating_add(1)..).unwrap_or(&[]),
        ),
        None => (&[], path),
    }
}

fn add_held(files: &mut Seq<File>, item: &Item) -> Result<(), NoMemory> {
    let alloc = files.allocator();
    let (dir, name) = place_of(item.name.bytes());
    let dir = Text::of(alloc, dir)?;
    let name = Text::of(alloc, name)?;
    let bytes = Text::of(alloc, item.body.bytes())?;
    files.push(File { dir, name, bytes })
}

/// The files that are held in the queue.
pub(crate) fn add_all_held(files: &mut Seq<File>, run: &Run) -> Result<(), NoMemory> {
    for item in run.items.iter() {
        if item.word == Word::Held {
            add_held(files, item)?;
        }
    }
    Ok(())
}
