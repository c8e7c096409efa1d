use link_edge::{DialEvent, Peer, ScriptDialer};
use mail_base::{NoMemory, Outcomes, Result1, Seq, Text, words_of};
use mailer_smtp::{Letter, Speech, deliver};
use std::alloc::Global;

/// How what happened is told.
#[derive(Clone, Copy)]
pub(crate) enum Telling {
    /// A letter for each text that was written.
    Letters,
    /// Hosts and texts as they are.
    Whole,
}

/// Adds these bytes, one after the other.
pub(crate) fn add(text: &mut Text, parts: &[&[u8]]) -> Result<(), NoMemory> {
    for part in parts {
        text.extend(part)?;
    }
    Ok(())
}

/// A letter for these users, parted by blanks.
pub(crate) fn letter_to(alloc: Global, users: &[u8]) -> Result<Letter, NoMemory> {
    Ok(Letter {
        host: Text::of(alloc, b"mx.example")?,
        sender: Text::of(alloc, b"bob@c.example")?,
        message: Text::of(alloc, b".x\r\ny\r\n")?,
        eight: true,
        users: words_of(alloc, users)?,
    })
}

fn peers(alloc: Global, hosts: &[u8]) -> Result<Seq<Peer>, NoMemory> {
    let mut peers = Seq::new(alloc);
    for address in words_of(alloc, hosts)?.into_vec() {
        peers.push(Peer::Host { address, port: 25 })?;
    }
    Ok(peers)
}

/// The calls of these numbers, which are below 256.
pub(crate) fn calls(alloc: Global, numbers: &[u8]) -> Result<Seq<u64>, NoMemory> {
    let mut calls = Seq::new(alloc);
    for number in numbers {
        calls.push(*number as u64)?;
    }
    Ok(calls)
}

/// What happens where a letter is handed over to these hosts, parted by blanks, who say these
/// pieces, an empty one being an end, and where these calls fail. Behind a `=` the rows follow.
pub(crate) fn played(
    alloc: Global,
    telling: Telling,
    speech: Speech,
    letter: &Letter,
    hosts: &[u8],
    says: Seq<Text>,
    failing: Seq<u64>,
) -> Result<Text, NoMemory> {
    let mut told = Text::new(alloc);
    let mut dialer = ScriptDialer::new(alloc, says, failing);
    let mut outcomes = Outcomes {
        results: Seq::new(alloc),
    };
    let hosts = peers(alloc, hosts)?;
    deliver(alloc, &mut dialer, &hosts, speech, letter, &mut outcomes)?;
    tell(&mut told, telling, dialer.seen(), outcomes.results.items())?;
    Ok(told)
}

fn tell(
    told: &mut Text,
    telling: Telling,
    events: &[DialEvent],
    rows: &[Result1],
) -> Result<(), NoMemory> {
    for event in events {
        match telling {
            Telling::Letters => tell_letter(told, event)?,
            Telling::Whole => tell_event(told, event)?,
        }
    }
    told.push(b'=')?;
    for row in rows {
        tell_row(told, row)?;
    }
    Ok(())
}

fn tell_letter(told: &mut Text, event: &DialEvent) -> Result<(), NoMemory> {
    match event {
        DialEvent::Wrote(_, text) => told.push(letter_of(text.bytes())),
        DialEvent::Read(_, _) => Ok(()),
        _ => told.push(mark_of(event)),
    }
}

fn letter_of(text: &[u8]) -> u8 {
    if text.starts_with(b"LHLO") {
        return b'E';
    }
    if text.starts_with(b"..x\r\n") {
        return b'T';
    }
    match text.first() {
        Some(byte) => *byte,
        None => b'?',
    }
}

fn mark_of(event: &DialEvent) -> u8 {
    match event {
        DialEvent::Dialled { .. } => b'+',
        DialEvent::Closed(_) => b'-',
        _ => b'!',
    }
}

fn tell_event(told: &mut Text, event: &DialEvent) -> Result<(), NoMemory> {
    match event {
        DialEvent::Wrote(_, text) => told.extend(text.bytes()),
        DialEvent::Read(_, _) => Ok(()),
        DialEvent::Dialled { peer, .. } => add(told, &[b"+", name_of(peer), b" "]),
        DialEvent::Undialled { peer, .. } => add(told, &[b"!", name_of(peer), b" "]),
        _ => told.push(mark_of(event)),
    }
}

fn name_of(peer: &Peer) -> &[u8] {
    match peer {
        Peer::Host { address, port: _ } => address.bytes(),
        Peer::Path(path) => path.bytes(),
    }
}

/// Adds a result: `S`, or `D` or `F` with its note, before which a failure has its status.
pub(crate) fn tell_row(told: &mut Text, row: &Result1) -> Result<(), NoMemory> {
    match row {
        Result1::Sent => told.push(b'S'),
        Result1::Deferred(note) => add(told, &[b"D(", note.bytes(), b")"]),
        Result1::Failed(status, note) => {
            add(told, &[b"F(", status.bytes(), b" ", note.bytes(), b")"])
        }
    }
}
