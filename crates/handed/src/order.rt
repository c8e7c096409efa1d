//! What standard input asks for.

use anyhow::{Result, bail};
use mail_base::{Kept, Seq, Text, split_line};
use std::alloc::Global;

/// A message as it came, and what is known of it.
#[derive(Drop)]
pub(crate) struct Order {
    /// The file of the configuration.
    pub(crate) config: Text,
    pub(crate) kept: Kept,
    pub(crate) id: Text,
    pub(crate) sender: Text,
    pub(crate) recipients: Seq<Text>,
    /// When it came, in seconds from the beginning of 1970.
    pub(crate) created: u64,
    /// When it is handed over.
    pub(crate) moment: u64,
    pub(crate) message: Text,
}

impl Order {
    /// The order of these lines. Behind the line `text` stands the message as it is.
    pub(crate) fn read(alloc: Global, input: &[u8]) -> Result<Order> {
        let mut order = Order::new(alloc);
        let mut rest = input;
        'lines: while !rest.is_empty() {
            let (line, after) = split_line(rest);
            if line == b"text".as_slice() {
                order.message = Text::of(alloc, after)?;
                break;
            }
            order.take(alloc, line)?;
            rest = after;
        }
        Ok(order)
    }

    // One of nothing to nobody.
    fn new(alloc: Global) -> Order {
        Order {
            config: Text::new(alloc),
            kept: Kept {
                protocol: Text::new(alloc),
                helo: Text::new(alloc),
                client: Text::new(alloc),
            },
            id: Text::new(alloc),
            sender: Text::new(alloc),
            recipients: Seq::new(alloc),
            created: 0,
            moment: 0,
            message: Text::new(alloc),
        }
    }

    // Takes what a line says: a name, a blank and a value.
    fn take(&mut self, alloc: Global, line: &[u8]) -> Result<()> {
        let (name, value) = split_word(line);
        if name == b"config".as_slice() {
            self.config = Text::of(alloc, value)?;
        } else if name == b"id".as_slice() {
            self.id = Text::of(alloc, value)?;
        } else if name == b"sender".as_slice() {
            self.sender = Text::of(alloc, value)?;
        } else if name == b"recipient".as_slice() {
            self.recipients.push(Text::of(alloc, value)?)?;
        } else if name == b"created".as_slice() {
            self.created = number_of(value)?;
        } else if name == b"moment".as_slice() {
            self.moment = number_of(value)?;
        } else {
            take_kept(&mut self.kept, alloc, name, value)?;
        }
        Ok(())
    }
}

// Takes what a line says of the session.
fn take_kept(kept: &mut Kept, alloc: Global, name: &[u8], value: &[u8]) -> Result<()> {
    if name == b"protocol".as_slice() {
        kept.protocol = Text::of(alloc, value)?;
    } else if name == b"helo".as_slice() {
        kept.helo = Text::of(alloc, value)?;
    } else if name == b"client".as_slice() {
        kept.client = Text::of(alloc, value)?;
    } else {
        bail!("a line that says nothing");
    }
    Ok(())
}

// The word before the first blank of a line, and what stands behind it.
fn split_word(line: &[u8]) -> (&[u8], &[u8]) {
    match line.iter().position(|byte| *byte == b' ') {
        Some(at) => (&line[..at], &line[at + 1..]),
        None => (line, &[]),
    }
}

fn number_of(value: &[u8]) -> Result<u64> {
    let Ok(text) = str::from_utf8(value) else {
        bail!("a moment that is no number")
    };
    let Ok(number) = text.parse::<u64>() else {
        bail!("a moment that is no number")
    };
    Ok(number)
}
