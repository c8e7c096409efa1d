//! Whether what came back is what a scene wants.

use crate::came::{Came, What};
use crate::party::{Party, end_of};
use crate::plot::{Due, Plot};
use crate::report::{Report, Spot};
use crate::running::Ran;
use mail_base::{NoMemory, Seq, Text};
use scene_text::{Item, Run, Word};
use std::alloc::Global;

/// Which lines have to come back to a session.
#[derive(Drop)]
pub(crate) struct Wanted {
    pub due: Vec<Due>,
    /// Whether each comes at its step.
    pub is_strict: bool,
    /// Whether they are compared at all.
    pub is_any: bool,
}

impl Wanted {
    /// Whether the end of a session or a line is one of them.
    pub(crate) fn hangs(&self, run: &Run) -> bool {
        self.due.iter().any(|due| word_of(run, due) == Word::HungUp)
    }
}

/// What has to come back to a party.
pub(crate) fn wanted_of(
    alloc: Global,
    run: &Run,
    plot: &Plot,
    party: Party,
) -> Result<Wanted, NoMemory> {
    let mut wanted = Wanted {
        due: Vec::new(alloc),
        is_strict: false,
        is_any: false,
    };
    match replies_of(run, plot, party) {
        None => {
            wanted.is_strict = true;
            add_due(&mut wanted.due, plot, party, usize::MAX)?;
            wanted.is_any = wanted.due.is_empty() && is_unnamed(run, plot, party);
        }
        Some(item) if item.word == Word::RepliesFirst => {
            let most = item.number.min(1_000_000_000) as usize;
            add_due(&mut wanted.due, plot, party, most)?;
        }
        Some(item) if item.word == Word::RepliesAny => wanted.is_any = true,
        Some(item) => add_listed(&mut wanted.due, run, item.session, party)?,
    }
    Ok(wanted)
}

// What is said of the replies to a session, or of standard output, behind the transcript.
fn replies_of<'a>(run: &'a Run, plot: &Plot, party: Party) -> Option<&'a Item> {
    let usual = plot.counts.sessions.min(1);
    run.items.iter().rev().find(|item| {
        let named = match item.session {
            0 => usual,
            session => session,
        };
        is_numbered(party, named)
            && matches!(
                item.word,
                Word::Replies | Word::RepliesFirst | Word::RepliesAny
            )
    })
}

// Whether a party is the session of that number, where 0 is standard output.
fn is_numbered(party: Party, number: u64) -> bool {
    match party {
        Party::Standard => number == 0,
        Party::Session(session) => session == number,
        _ => false,
    }
}

// Whether a party is a child or a peer that may be any.
fn is_unnamed(run: &Run, plot: &Plot, party: Party) -> bool {
    let (word, number) = match party {
        Party::Child(number) => (Word::Child, number),
        Party::Peer(number) => (Word::Peer, number),
        _ => return false,
    };
    let mut count = 0u64;
    for due in plot.due.items() {
        let Some(item) = run.items.as_slice().get(due.item) else {
            continue;
        };
        if due.party == Party::Begun && item.word == word {
            count = count.saturating_add(1);
            if count == number {
                return item.name.is_empty();
            }
        }
    }
    false
}

fn add_due(due: &mut Vec<Due>, plot: &Plot, party: Party, most: usize) -> Result<(), NoMemory> {
    for line in plot.due.items() {
        if line.party == party && due.len() < most {
            due.push(*line)?;
        }
    }
    Ok(())
}

fn add_listed(due: &mut Vec<Due>, run: &Run, named: u64, party: Party) -> Result<(), NoMemory> {
    for (place, item) in run.items.iter().enumerate() {
        if item.word == Word::Listed && item.session == named {
            due.push(Due {
                item: place,
                party,
                step: 0,
            })?;
        }
    }
    Ok(())
}

/// Compares what came back to a party.
pub(crate) fn judge_replies(
    alloc: Global,
    spot: Spot,
    run: &Run,
    plot: &Plot,
    ran: &Ran,
    party: Party,
    report: &mut Report,
) -> Result<(), NoMemory> {
    let wanted = wanted_of(alloc, run, plot, party)?;
    if wanted.is_any {
        return Ok(());
    }
    report.count(wanted.due.iter().filter(|due| is_line(run, due)).count());
    let came = came_to(alloc, &ran.came, party, wanted.hangs(run))?;
    match first_wrong(run, &wanted, &came) {
        None => Ok(()),
        Some(wrong) => tell(alloc, spot, run, &wanted, &came, wrong, report),
    }
}

fn word_of(run: &Run, due: &Due) -> Word {
    match run.items.as_slice().get(due.item) {
        Some(item) => item.word,
        None => Word::Any,
    }
}

fn is_line(run: &Run, due: &Due) -> bool {
    word_of(run, due) != Word::Any
}

// What came to a party, with its hang-up or without.
fn came_to<'a>(
    alloc: Global,
    came: &'a Seq<Came>,
    party: Party,
    hangs: bool,
) -> Result<Vec<&'a Came>, NoMemory> {
    let mut lines = Vec::new(alloc);
    for line in came.items() {
        if line.party == party && (hangs || line.what != What::HungUp) {
            lines.push(line)?;
        }
    }
    Ok(lines)
}

/// A line that is wanted and one that came, which aren't the same, by their places.
#[derive(Clone, Copy)]
struct Wrong {
    wanted: usize,
    came: usize,
}

// The steps at which a line may have come: behind those at which the client read before, and up to
// that at which it reads now.
#[derive(Clone, Copy)]
struct Reading {
    before: usize,
    now: usize,
}

impl Reading {
    fn begin() -> Reading {
        Reading { before: 0, now: 0 }
    }

    // The reading of a line that stands behind a step.
    fn at(self, step: usize) -> Reading {
        if step == self.now {
            return self;
        }
        Reading {
            before: self.now,
            now: step,
        }
    }

    fn is_at(self, step: usize) -> bool {
        self.before < step && step <= self.now
    }
}

// The first line that isn't as wanted.
fn first_wrong(run: &Run, wanted: &Wanted, came: &[&Came]) -> Option<Wrong> {
    let mut at = 0usize;
    let mut is_loose = false;
    let mut reading = Reading::begin();
    for (place, due) in wanted.due.iter().enumerate() {
        let Some(item) = run.items.as_slice().get(due.item) else {
            continue;
        };
        reading = reading.at(due.step);
        if item.word == Word::Any {
            is_loose = true;
            continue;
        }
        let found = match is_loose {
            true => found_from(came, at, item, due),
            false => at,
        };
        let is_strict = wanted.is_strict && !is_loose;
        if !is_met(came, found, item, due, is_strict.then_some(reading)) {
            return Some(Wrong {
                wanted: place,
                came: at,
            });
        }
        at = found.saturating_add(1);
        is_loose = false;
    }
    if is_loose || at >= came.len() {
        return None;
    }
    Some(Wrong {
        wanted: wanted.due.len(),
        came: at,
    })
}

// The place from one on at which a line came.
fn found_from(came: &[&Came], at: usize, item: &Item, due: &Due) -> usize {
    let mut place = 0usize;
    for line in came {
        if place >= at && is_same(line, item, due) {
            return place;
        }
        place = place.saturating_add(1);
    }
    place
}

// Whether a line came at a place, at a step of a reading.
fn is_met(came: &[&Came], at: usize, item: &Item, due: &Due, reading: Option<Reading>) -> bool {
    let Some(line) = came.get(at) else {
        return false;
    };
    let is_read = match reading {
        Some(reading) => is_whole(due.party) || reading.is_at(line.step),
        None => true,
    };
    is_same(line, item, due) && is_read
}

// Whether all that comes to a party comes at no step of its own.
fn is_whole(party: Party) -> bool {
    matches!(party, Party::Standard | Party::Child(_))
}

// Whether what came is what is wanted.
fn is_same(came: &Came, item: &Item, due: &Due) -> bool {
    match came.what {
        What::HungUp => item.word == Word::HungUp,
        What::Child => item.word == Word::Child && is_begun(came, item),
        What::Peer => item.word == Word::Peer && is_begun(came, item),
        What::Line => is_line_of(came, item, due),
    }
}

// Whether a program or a peer is the one that is named, if one is.
fn is_begun(came: &Came, item: &Item) -> bool {
    item.name.is_empty() || item.name.bytes() == came.text.bytes()
}

fn is_line_of(came: &Came, item: &Item, due: &Due) -> bool {
    if matches!(item.word, Word::HungUp | Word::Child | Word::Peer) {
        return false;
    }
    match came.text.bytes().strip_prefix(item.name.bytes()) {
        Some(end) => end == end_of(item, due.party),
        None => false,
    }
}

// Tells a line that isn't as wanted.
fn tell(
    alloc: Global,
    spot: Spot,
    run: &Run,
    wanted: &Wanted,
    came: &[&Came],
    wrong: Wrong,
    report: &mut Report,
) -> Result<(), NoMemory> {
    let mut text = Text::new(alloc);
    add_came(&mut text, came.get(wrong.came).copied())?;
    let due = wanted.due.as_slice().get(wrong.wanted).copied();
    let Some(due) = due else {
        return report.fail(spot, line_of(run, wanted), b"nothing more", text.bytes());
    };
    let Some(item) = run.items.as_slice().get(due.item) else {
        return Ok(());
    };
    let mut line = Text::new(alloc);
    add_wanted(&mut line, item, due.party)?;
    if line.bytes() == text.bytes() {
        text.extend(b" in another piece")?;
    }
    report.fail(spot, item.line, line.bytes(), text.bytes())
}

// The line of the last that is wanted.
fn line_of(run: &Run, wanted: &Wanted) -> u32 {
    let mut line = 0;
    for item in run.items.iter() {
        if !item.taken && line == 0 {
            line = item.line;
        }
    }
    match wanted.due.last() {
        Some(due) => match run.items.as_slice().get(due.item) {
            Some(item) => item.line,
            None => line,
        },
        None => line,
    }
}

/// Adds a line as it came.
pub(crate) fn add_came(text: &mut Text, came: Option<&Came>) -> Result<(), NoMemory> {
    let Some(came) = came else {
        return text.extend(b"nothing more");
    };
    match came.what {
        What::HungUp => return text.extend(b"hung up"),
        What::Child => text.extend(b"child ")?,
        What::Peer => text.extend(b"peer ")?,
        What::Line => {}
    }
    text.extend(came.text.bytes())
}

/// Adds a line as it is wanted.
pub(crate) fn add_wanted(text: &mut Text, item: &Item, party: Party) -> Result<(), NoMemory> {
    match item.word {
        Word::HungUp => return text.extend(b"hung up"),
        Word::Child => text.extend(b"child ")?,
        Word::Peer => text.extend(b"peer ")?,
        _ => {
            text.extend(item.name.bytes())?;
            return text.extend(end_of(item, party));
        }
    }
    text.extend(item.name.bytes())
}
