//! What standard input asks for.

use anyhow::{Result, bail};
use link_edge::Peer;
use mail_base::{Seq, Text, split_line};
use mailer_smtp::{Letter, Speech};
use std::alloc::Global;

/// A letter, whom it is for, and how it is handed over.
#[derive(Drop)]
pub(crate) struct Order {
    pub(crate) speech: Speech,
    /// Those that are tried, in order.
    pub(crate) peers: Seq<Peer>,
    pub(crate) letter: Letter,
}

impl Order {
    /// The order of these lines. Behind the line `text` stands the message as it is.
    pub(crate) fn read(alloc: Global, input: &[u8]) -> Result<Order> {
        let mut order = Order::new(alloc);
        let mut rest = input;
        'lines: while !rest.is_empty() {
            let (line, after) = split_line(rest);
            if line == b"text".as_slice() {
                order.letter.message = Text::of(alloc, after)?;
                break;
            }
            order.take(alloc, line)?;
            rest = after;
        }
        Ok(order)
    }

    // One of SMTP to nobody.
    fn new(alloc: Global) -> Order {
        Order {
            speech: Speech::Smtp,
            peers: Seq::new(alloc),
            letter: Letter {
                host: Text::new(alloc),
                sender: Text::new(alloc),
                users: Seq::new(alloc),
                message: Text::new(alloc),
                eight: false,
            },
        }
    }

    // Takes what a line says: a name, a blank and a value.
    fn take(&mut self, alloc: Global, line: &[u8]) -> Result<()> {
        let (name, value) = split_word(line);
        if name == b"speech".as_slice() {
            self.speech = speech_of(value)?;
        } else if name == b"peer".as_slice() {
            self.peers.push(host_of(alloc, value)?)?;
        } else if name == b"path".as_slice() {
            self.peers.push(Peer::Path(Text::of(alloc, value)?))?;
        } else {
            take_part(&mut self.letter, alloc, name, value)?;
        }
        Ok(())
    }
}

// Takes what a line says of the letter.
fn take_part(letter: &mut Letter, alloc: Global, name: &[u8], value: &[u8]) -> Result<()> {
    if name == b"host".as_slice() {
        letter.host = Text::of(alloc, value)?;
    } else if name == b"sender".as_slice() {
        letter.sender = Text::of(alloc, value)?;
    } else if name == b"user".as_slice() {
        letter.users.push(Text::of(alloc, value)?)?;
    } else if name == b"eight".as_slice() {
        letter.eight = is_yes(value)?;
    } else {
        bail!("a line that says nothing");
    }
    Ok(())
}

// The word before the first blank of a line, and what stands behind it.
fn split_word(line: &[u8]) -> (&[u8], &[u8]) {
    match line.iter().position(|byte| *byte == b' ') {
        Some(at) => (&line[..at], &line[at + 1..]),
        None => (line, &[]),
    }
}

fn speech_of(value: &[u8]) -> Result<Speech> {
    if value == b"smtp".as_slice() {
        Ok(Speech::Smtp)
    } else if value == b"lmtp".as_slice() {
        Ok(Speech::Lmtp)
    } else {
        bail!("a speech that is neither smtp nor lmtp")
    }
}

fn is_yes(value: &[u8]) -> Result<bool> {
    if value == b"yes".as_slice() {
        Ok(true)
    } else if value == b"no".as_slice() {
        Ok(false)
    } else {
        bail!("neither yes nor no")
    }
}

// A host's address, a blank and a port.
fn host_of(alloc: Global, value: &[u8]) -> Result<Peer> {
    let (address, digits) = split_word(value);
    let Ok(text) = str::from_utf8(digits) else {
        bail!("a port that is no number")
    };
    let Ok(port) = text.parse::<u16>() else {
        bail!("a port that is no number")
    };
    Ok(Peer::Host {
        address: Text::of(alloc, address)?,
        port,
    })
}
