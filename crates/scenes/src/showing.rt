//! A scene as it was wanted and as it came, line by line.

use crate::came::{Came, What};
use crate::judging_replies::{Wanted, add_came, add_wanted, wanted_of};
use crate::party::Party;
use crate::playing::{Base, Halt, bases_of};
use crate::report::{Report, add_shown};
use mail_base::{NoMemory, Seq, Text, TryCopy};
use scene_text::{Item, Run, Scene, Word};
use std::alloc::Global;

/// How far a line is looked for.
const FAR: usize = 200;

/// Shows each run of a scene: what came of each session, and the files that were left.
pub(crate) fn show_scene(alloc: Global, scene: &Scene, report: &mut Report) -> Result<(), Halt> {
    let bases = bases_of(alloc, scene)?;
    for (run, base) in scene.runs.iter().zip(bases.iter()) {
        show_run(alloc, run, base, report)?;
    }
    Ok(())
}

fn show_run(alloc: Global, run: &Run, base: &Base, report: &mut Report) -> Result<(), NoMemory> {
    for party in base.plot.counts.parties(alloc)?.items() {
        show_party(alloc, run, base, *party, report)?;
    }
    show_files(alloc, run, base, report)
}

fn show_party(
    alloc: Global,
    run: &Run,
    base: &Base,
    party: Party,
    report: &mut Report,
) -> Result<(), NoMemory> {
    let wanted = wanted_of(alloc, run, &base.plot, party)?;
    let hangs = wanted.hangs(run);
    let wanted = wanted_lines(alloc, run, &wanted, party)?;
    let came = came_lines(alloc, &base.ran.came, party, hangs)?;
    if wanted.is_empty() && came.is_empty() {
        return Ok(());
    }
    add_name(&mut report.text, party)?;
    differ(&mut report.text, &wanted, &came)
}

fn add_name(text: &mut Text, party: Party) -> Result<(), NoMemory> {
    match party {
        Party::Standard => return text.extend(b"standard input and output\n"),
        Party::Begun => return text.extend(b"children and peers\n"),
        Party::Session(number) => add_numbered(text, b"session ", number)?,
        Party::Child(number) => add_numbered(text, b"child ", number)?,
        Party::Peer(number) => add_numbered(text, b"peer ", number)?,
    }
    text.push(b'\n')
}

fn add_numbered(text: &mut Text, name: &[u8], number: u64) -> Result<(), NoMemory> {
    text.extend(name)?;
    scene_text::put_number(text, number)
}

fn wanted_lines(
    alloc: Global,
    run: &Run,
    wanted: &Wanted,
    party: Party,
) -> Result<Seq<Text>, NoMemory> {
    let mut lines = Seq::new(alloc);
    for due in wanted.due.iter() {
        if let Some(item) = run.items.as_slice().get(due.item) {
            lines.push(wanted_line(alloc, item, party)?)?;
        }
    }
    Ok(lines)
}

fn wanted_line(alloc: Global, item: &Item, party: Party) -> Result<Text, NoMemory> {
    let mut text = Text::new(alloc);
    if item.word == Word::Any {
        text.extend(b"..")?;
    } else {
        add_wanted(&mut text, item, party)?;
    }
    Ok(text)
}

fn came_lines(
    alloc: Global,
    came: &Seq<Came>,
    party: Party,
    hangs: bool,
) -> Result<Seq<Text>, NoMemory> {
    let mut lines = Seq::new(alloc);
    for line in came.items() {
        if line.party == party && (hangs || line.what != What::HungUp) {
            let mut text = Text::new(alloc);
            add_came(&mut text, Some(line))?;
            lines.push(text)?;
        }
    }
    Ok(lines)
}

// Adds lines that are in both, those that are wanted alone and those that came alone.
fn differ(text: &mut Text, wanted: &Seq<Text>, came: &Seq<Text>) -> Result<(), NoMemory> {
    let mut one = wanted.items();
    let mut other = came.items();
    for _ in 0..wanted.len().saturating_add(came.len()) {
        let (missing, more) = apart(one, other);
        one = add_marked(text, b"- ", one, missing)?;
        other = add_marked(text, b"+ ", other, more)?;
        one = add_marked(text, b"  ", one, 1)?;
        other = other.get(1..).unwrap_or(&[]);
        if one.is_empty() && other.is_empty() {
            break;
        }
    }
    Ok(())
}

// How many lines stand in front of the next ones that are the same.
fn apart(one: &[Text], other: &[Text]) -> (usize, usize) {
    for sum in 0..FAR {
        for missing in 0..sum.saturating_add(1) {
            let more = sum.saturating_sub(missing);
            if let (Some(left), Some(right)) = (one.get(missing), other.get(more)) {
                if left.bytes() == right.bytes() {
                    return (missing, more);
                }
            }
        }
    }
    (one.len(), other.len())
}

// Adds so many lines with a mark, and gives those behind.
fn add_marked<'a>(
    text: &mut Text,
    mark: &[u8],
    lines: &'a [Text],
    count: usize,
) -> Result<&'a [Text], NoMemory> {
    for line in lines.get(..count.min(lines.len())).unwrap_or(&[]) {
        text.extend(mark)?;
        add_shown(text, line.bytes())?;
        text.push(b'\n')?;
    }
    Ok(lines.get(count..).unwrap_or(&[]))
}

// Shows the files that were left beside those that are wanted byte by byte.
fn show_files(alloc: Global, run: &Run, base: &Base, report: &mut Report) -> Result<(), NoMemory> {
    for file in base.left.items() {
        let mut name = file.dir.copy()?;
        name.push(b'/')?;
        name.extend(file.name.bytes())?;
        report.text.extend(b"queue ")?;
        report.text.extend(name.bytes())?;
        report.text.push(b'\n')?;
        let came = lines_of(alloc, file.bytes.bytes())?;
        let wanted = match wanted_file(run, &name) {
            Some(item) => lines_of(alloc, item.body.bytes())?,
            None => came.copy()?,
        };
        differ(&mut report.text, &wanted, &came)?;
    }
    Ok(())
}

fn wanted_file<'a>(run: &'a Run, name: &Text) -> Option<&'a Item> {
    run.items.iter().find(|item| item.word == Word::Queue && item.name.bytes() == name.bytes())
}

fn lines_of(alloc: Global, bytes: &[u8]) -> Result<Seq<Text>, NoMemory> {
    let mut lines = Seq::new(alloc);
    let mut rest = bytes;
    for _ in 0..bytes.len() {
        if rest.is_empty() {
            break;
        }
        let length = match rest.iter().position(|byte| *byte == b'\n') {
            Some(at) => at.saturating_add(1),
            None => rest.len(),
        };
        lines.push(Text::of(alloc, rest.get(..length).unwrap_or(rest))?)?;
        rest = rest.get(length..).unwrap_or(&[]);
    }
    Ok(lines)
}
