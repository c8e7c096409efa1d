//! What came back of a run, line by line.

use crate::children::Children;
use crate::party::Party;
use crate::peers::{Dialled, Peers};
use crate::place::Place;
use link_edge::{Event, FloorEvent, Step};
use mail_base::{NoMemory, Seq, Text};
use std::alloc::Global;

/// What came.
#[derive(Clone, Copy, PartialEq, Eq)]
pub(crate) enum What {
    /// A line, with its end.
    Line,
    /// The session or the line to a peer was ended.
    HungUp,
    /// A program was to be started.
    Child,
    /// A peer was to be dialled.
    Peer,
}

/// Something that came back to a party, at a step.
#[derive(Drop)]
pub(crate) struct Came {
    pub party: Party,
    pub step: usize,
    pub what: What,
    pub text: Text,
}

/// Adds the lines of bytes.
pub(crate) fn add_lines(
    came: &mut Seq<Came>,
    party: Party,
    step: usize,
    bytes: &[u8],
) -> Result<(), NoMemory> {
    let mut rest = bytes;
    for _ in 0..bytes.len() {
        if rest.is_empty() {
            break;
        }
        let length = match rest.iter().position(|byte| *byte == b'\n') {
            Some(at) => at.saturating_add(1),
            None => rest.len(),
        };
        let (line, behind) = cut_at(rest, length);
        add(came, party, step, What::Line, line)?;
        rest = behind;
    }
    Ok(())
}

fn cut_at(bytes: &[u8], length: usize) -> (&[u8], &[u8]) {
    if length < bytes.len() {
        (&bytes[..length], &bytes[length..])
    } else {
        (bytes, &[])
    }
}

fn add(
    came: &mut Seq<Came>,
    party: Party,
    step: usize,
    what: What,
    bytes: &[u8],
) -> Result<(), NoMemory> {
    let text = Text::of(came.allocator(), bytes)?;
    came.push(Came {
        party,
        step,
        what,
        text,
    })
}

/// Adds what a floor sent and hung up, and at which of its steps.
pub(crate) fn add_floor(
    came: &mut Seq<Came>,
    steps: &Seq<Step>,
    seen: &[FloorEvent],
) -> Result<(), NoMemory> {
    let mut place = Place::first();
    for event in seen {
        match event {
            FloorEvent::Took(turn) => place = place.behind(steps, brought(turn)),
            FloorEvent::Sent(session, bytes) => {
                add_lines(came, Party::Session(*session), place.step, bytes.bytes())?;
            }
            FloorEvent::Unsent(_) => {}
            FloorEvent::HungUp(session) => {
                add(
                    came,
                    Party::Session(*session),
                    place.step,
                    What::HungUp,
                    b"",
                )?;
            }
        }
    }
    Ok(())
}

// How many bytes of a piece a turn brought.
fn brought(turn: &Event) -> Option<usize> {
    match turn {
        Event::Brings(_session, bytes) => Some(bytes.len()),
        _ => None,
    }
}

/// Adds what was started and dialled, in its order, and what was given to each.
pub(crate) fn add_begun(
    came: &mut Seq<Came>,
    children: &Children,
    peers: &Peers,
) -> Result<(), NoMemory> {
    let mut dialled = peers.dialled.as_slice();
    for started in children.started.iter() {
        dialled = add_dialled(came, dialled, started.order)?;
        let step = started.step.saturating_add(1);
        add(came, Party::Begun, step, What::Child, started.words.bytes())?;
    }
    let _none = add_dialled(came, dialled, u64::MAX)?;
    for (place, started) in children.started.iter().enumerate() {
        add_lines(
            came,
            Party::Child(number_at(place)),
            0,
            started.input.bytes(),
        )?;
    }
    for (place, dialled) in peers.dialled.iter().enumerate() {
        add_talk(came, Party::Peer(number_at(place)), dialled)?;
    }
    Ok(())
}

fn number_at(place: usize) -> u64 {
    (place as u64).saturating_add(1)
}

// Adds the peers that were dialled before something else was begun, and gives the others.
fn add_dialled<'a>(
    came: &mut Seq<Came>,
    dialled: &'a [Dialled],
    order: u64,
) -> Result<&'a [Dialled], NoMemory> {
    let mut count = 0usize;
    for peer in dialled {
        if peer.order >= order {
            break;
        }
        let step = peer.step.saturating_add(1);
        add(came, Party::Begun, step, What::Peer, peer.name.bytes())?;
        count = count.saturating_add(1);
    }
    Ok(dialled.get(count..).unwrap_or(&[]))
}

// Adds what was written to a peer.
fn add_talk(came: &mut Seq<Came>, party: Party, dialled: &Dialled) -> Result<(), NoMemory> {
    for wrote in dialled.wrote.iter() {
        let step = wrote.pieces.saturating_add(1);
        add_lines(came, party, step, wrote.bytes.bytes())?;
    }
    match dialled.closed {
        Some(pieces) => add(came, party, pieces.saturating_add(1), What::HungUp, b""),
        None => Ok(()),
    }
}

/// All that came to a party, one line behind the other.
pub(crate) fn said_to(alloc: Global, came: &Seq<Came>, party: Party) -> Result<Text, NoMemory> {
    let mut text = Text::new(alloc);
    for line in came.items() {
        if line.party == party {
            text.extend(line.text.bytes())?;
            if party == Party::Begun {
                text.push(b'\n')?;
            }
        }
    }
    Ok(text)
}

const ACKNOWLEDGED: &[u8] = b"250 2.0.0 w";

/// The id of a message that is acknowledged.
pub(crate) fn id_of(came: &Came) -> Option<&[u8]> {
    let Party::Session(_) = came.party else {
        return None;
    };
    let rest = came.text.bytes().strip_prefix(ACKNOWLEDGED)?;
    let digits = rest.get(..12)?;
    if digits.iter().all(|digit| digit.is_ascii_digit()) {
        Some(digits)
    } else {
        None
    }
}

/// How many messages were acknowledged.
pub(crate) fn acknowledged(came: &Seq<Came>) -> u64 {
    let mut count = 0u64;
    for line in came.items() {
        if id_of(line).is_some() {
            count = count.saturating_add(1);
        }
    }
    count
}
