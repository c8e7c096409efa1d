//! Turns of sessions: many that are mixed at random, with their bytes cut at random; one that is
//! alone; and messages one after another.

use crate::chance::drawn;
use crate::letters::{Client, Letter};
use link_edge::Step;
use mail_base::{NoMemory, Seq, Text};
use std::alloc::{AllocError, Global};

/// How many sessions are mixed.
pub(crate) const SESSIONS: u64 = 40;

/// What a session says stands in a text between these places, of which the first moves on.
#[derive(Clone, Copy)]
struct Talk {
    session: u64,
    from: usize,
    end: usize,
    closes: bool,
}

fn open(steps: &mut Seq<Step>, session: u64) -> Result<(), NoMemory> {
    let alloc = steps.allocator();
    let peer = format!(in alloc; "192.0.2.{session}")?;
    steps.push(Step::Open(Text::of(alloc, peer.as_bytes())?))
}

// Adds the step of the next piece of so many bytes, and behind the last one that of the end.
fn say(steps: &mut Seq<Step>, text: &str, talk: &mut Talk, size: usize) -> Result<(), NoMemory> {
    let end = talk.from.saturating_add(size).min(talk.end);
    let piece = text.as_bytes().get(talk.from..end).unwrap_or(&[]);
    steps.push(Step::Say(talk.session, Text::of(steps.allocator(), piece)?))?;
    talk.from = end;
    if talk.closes && end == talk.end {
        return steps.push(Step::Close(talk.session));
    }
    Ok(())
}

/// Adds so many turns in which nothing comes.
pub(crate) fn rest(steps: &mut Seq<Step>, count: u64) -> Result<(), NoMemory> {
    for _ in 0..count {
        steps.push(Step::Rest)?;
    }
    Ok(())
}

fn put_talks(talks: &mut Vec<Talk>, text: &mut String, seed: u64) -> Result<(), AllocError> {
    for session in 1..=SESSIONS {
        let client = Client::of(seed, session);
        let from = text.len();
        client.put(text)?;
        talks.push(Talk {
            session,
            from,
            end: text.len(),
            closes: client.closes,
        })?;
    }
    Ok(())
}

// Of the first sessions the next one from that place on which isn't over, in a circle.
fn next(talks: &[Talk], opened: usize, place: u64) -> Option<usize> {
    for step in 0..opened {
        let at = (place as usize).saturating_add(step) % opened.max(1);
        if let Some(talk) = talks.get(at) {
            if talk.from < talk.end {
                return Some(at);
            }
        }
    }
    None
}

// In each eighth turn a session is opened, while there are more; in so many of a hundred others
// nothing comes; and else a piece of one of the open ones.
fn mix(
    steps: &mut Seq<Step>,
    talks: &mut Vec<Talk>,
    text: &str,
    seed: u64,
    rests: u64,
) -> Result<(), NoMemory> {
    let mut opened = 0usize;
    for turn in 0..1_000_000u64 {
        let place = turn.saturating_mul(4);
        let next = next(talks, opened, drawn(seed, place, opened as u64));
        if opened < talks.len() && (turn % 8 == 0 || next.is_none()) {
            opened = opened.saturating_add(1);
            open(steps, opened as u64)?;
        } else if drawn(seed, place.saturating_add(1), 100) < rests {
            steps.push(Step::Rest)?;
        } else if let Some(talk) = talks.get_mut(next.unwrap_or(usize::MAX)) {
            let bound = drawn(seed, place.saturating_add(2), 64).saturating_add(1);
            let size = drawn(seed, place.saturating_add(3), bound).saturating_add(1);
            say(steps, text, talk, size as usize)?;
        } else {
            return Ok(());
        }
    }
    Ok(())
}

/// The turns of all sessions, of which in so many of a hundred nothing comes, and then so many
/// in which nothing comes.
pub(crate) fn mixed(
    alloc: Global,
    seed: u64,
    rests: u64,
    behind: u64,
) -> Result<Seq<Step>, NoMemory> {
    let mut text = String::new(alloc);
    let mut talks = Vec::new(alloc);
    let mut steps = Seq::new(alloc);
    put_talks(&mut talks, &mut text, seed)?;
    mix(&mut steps, &mut talks, &text, seed, rests)?;
    rest(&mut steps, behind)?;
    Ok(steps)
}

/// The turns of a session that is alone, and comes in one piece.
pub(crate) fn alone(alloc: Global, seed: u64, session: u64) -> Result<Seq<Step>, NoMemory> {
    let mut text = String::new(alloc);
    let mut steps = Seq::new(alloc);
    let client = Client::of(seed, session);
    client.put(&mut text)?;
    let mut talk = Talk {
        session: 1,
        from: 0,
        end: text.len(),
        closes: client.closes,
    };
    open(&mut steps, session)?;
    say(&mut steps, &text, &mut talk, usize::MAX)?;
    Ok(steps)
}

// Adds a session, of that number on the floor, that sends a message of another in one piece.
fn send(steps: &mut Seq<Step>, seed: u64, name: (u64, u64), line: u64) -> Result<(), NoMemory> {
    let alloc = steps.allocator();
    let session = name.0;
    let mut text = format!(in alloc; "EHLO c{session}.example\r\n")?;
    Letter::of(seed, session, name.1).put_lines(&mut text)?;
    text.push_str(".\r\n")?;
    open(steps, session)?;
    steps.push(Step::Say(line, Text::of(alloc, text.as_bytes())?))?;
    steps.push(Step::Close(line))
}

/// The turns of messages one after another, each by its session and its number there, and then so
/// many in which nothing comes.
pub(crate) fn in_turn(
    alloc: Global,
    seed: u64,
    names: &[(u64, u64)],
    behind: u64,
) -> Result<Seq<Step>, NoMemory> {
    let mut steps = Seq::new(alloc);
    for (at, name) in names.iter().enumerate() {
        send(&mut steps, seed, *name, (at as u64).saturating_add(1))?;
    }
    rest(&mut steps, behind)?;
    Ok(steps)
}
