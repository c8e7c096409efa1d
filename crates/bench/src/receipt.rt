//! Receives messages in a session, from MAIL to the dot, in pieces of so many bytes, and counts the
//! bytes that are received. Each time a message comes: one of 65,520 bytes of headers, or one of
//! 16,777,200 bytes of body.

ghost use Rattle.std.specs.Prelude.{◌<◌};

use crate::gather::{Part, message};
use anyhow::{Result, ensure};
use judge_samples::TestJudge;
use mail_base::{Config, NoMemory, Seq, Text};
use smtp_lines::{Line, Lines};
use smtp_receive::{Did, Session};
use std::alloc::Global;

/// What the peer says before each message.
static OPENING: &[u8] = b"MAIL FROM:<bob@c.example>\r\nRCPT TO:<ann@mx.example>\r\nDATA\r\n";

pub(crate) fn received(alloc: Global, part: Part, size: u32, rounds: u32) -> Result<u64> {
    ensure!(size > 0, "a piece has at least one byte");
    let message = message(alloc, part)?;
    Ok(receive(alloc, &message, size as usize, rounds)?)
}

fn session_of(alloc: Global) -> Result<Session, NoMemory> {
    let host = Text::of(alloc, b"mx.example")?;
    let peer = Text::of(alloc, b"192.0.2.1")?;
    Session::new(alloc, &host, &peer)
}

fn receive(alloc: Global, message: &[u8], size: usize, rounds: u32) -> Result<u64, NoMemory>
    requires { 0 < size }
{
    let config = Config::new(alloc)?;
    let mut session = session_of(alloc)?;
    let mut reader = Lines::new(alloc);
    receive_often(&mut session, &config, &mut reader, message, size, rounds)
}

fn receive_often(
    session: &mut Session,
    config: &Config,
    reader: &mut Lines,
    message: &[u8],
    size: usize,
    rounds: u32,
) -> Result<u64, NoMemory>
    requires { 0 < size }
{
    let mut received = 0u64;
    for _ in 0..rounds {
        received = received.wrapping_add(receive_one(session, config, reader, message, size)?);
    }
    Ok(received)
}

fn receive_one(
    session: &mut Session,
    config: &Config,
    reader: &mut Lines,
    message: &[u8],
    size: usize,
) -> Result<u64, NoMemory>
    requires { 0 < size }
{
    let _nothing = hear(session, config, &reader.feed(OPENING)?)?;
    if reader.may_turn() {
        reader.data();
    }
    for piece in message.chunks(size) {
        let _nothing = hear(session, config, &reader.feed(piece)?)?;
    }
    hear(session, config, &reader.feed(b".\r\n")?)
}

/// The bytes of the messages that lines end.
fn hear(session: &mut Session, config: &Config, lines: &Seq<Line>) -> Result<u64, NoMemory> {
    let mut received = 0u64;
    for line in lines.items() {
        received = received.wrapping_add(hear_line(session, config, line)?);
    }
    Ok(received)
}

fn hear_line(session: &mut Session, config: &Config, line: &Line) -> Result<u64, NoMemory> {
    match session.line(line, config, &mut TestJudge::new()) {
        Ok(did) => {
            let size = size_of(&did);
            drop(did);
            Ok(size)
        }
        Err(_fault) => Err(NoMemory),
    }
}

/// The bytes of the message that a line ended, if it ended one.
fn size_of(did: &Did) -> u64 {
    match did {
        Did::Message(message) => message.size,
        _ => 0,
    }
}
