//! The entry of which a line asks for a message.

use mail_base::{Control, NoMemory, Text};
use qf_format::parse;
use std::alloc::Global;

/// Which message is asked for.
#[derive(Clone, Copy)]
pub(crate) enum Topic {
    Bounce,
    Double,
    Warning,
}

/// What a line asks for.
#[derive(Clone, Copy)]
pub(crate) struct Asked {
    pub(crate) topic: Topic,
    pub(crate) rows: u64,
    pub(crate) lines: u64,
}

const FRONT: &[u8] = b"V1\nv1\ngmqueue\nT1767225600\nK0\nN0\nP30022\nc0\n";

const KEPT: &[u8] = b"$rSMTP\n$sc.example\n${client_addr}192.0.2.1\n";

const FAILED: &[u8] = b"RPFD:<cid@mx.example>\neF 5.1.1 550 user unknown\n";

const TRIED: &[u8] = b"RPFD:<dan@mx.example>\neQ exit 75\n";

const LINE: &[u8] =
    b"a line of a body, which has seventy-eight bytes and the two of its end, and so\r\n";

const END: &[u8] = b"HSubject: hi\nHTo: a,\r\n b\nHFrom: Bob <bob@c.example>\n.\n";

pub(crate) fn asked_of(line: &[u8]) -> Asked {
    let mut asked = Asked {
        topic: Topic::Bounce,
        rows: 0,
        lines: 0,
    };
    for (place, word) in line.split(|byte| *byte == b' ').enumerate() {
        match place {
            0 => asked.topic = topic_of(word),
            1 => asked.rows = number_of(word),
            _ => asked.lines = number_of(word),
        }
    }
    asked
}

fn topic_of(word: &[u8]) -> Topic {
    if word == b"warning".as_slice() {
        Topic::Warning
    } else if word == b"double".as_slice() {
        Topic::Double
    } else {
        Topic::Bounce
    }
}

fn number_of(word: &[u8]) -> u64 {
    let mut number = 0u64;
    for byte in word {
        let digit = byte.wrapping_sub(b'0');
        if digit > 9 {
            return 0;
        }
        number = number.wrapping_mul(10).wrapping_add(digit as u64);
    }
    number
}

/// The control of an entry with so many rows: those that failed, and one that is still tried.
pub(crate) fn control_of(alloc: Global, asked: &Asked) -> Result<Option<Control>, NoMemory> {
    let mut text = Text::of(alloc, FRONT)?;
    text.extend(sender_line(asked.topic))?;
    text.extend(KEPT)?;
    for _ in 0..asked.rows {
        text.extend(FAILED)?;
    }
    text.extend(TRIED)?;
    text.extend(END)?;
    parse(&text)
}

fn sender_line(topic: Topic) -> &'static [u8] {
    match topic {
        Topic::Double => b"S<>\n",
        Topic::Bounce | Topic::Warning => b"S<bob@c.example>\n",
    }
}

/// A body of so many lines, in a memory of its size.
pub(crate) fn body_of(alloc: Global, lines: u64) -> Result<Text, NoMemory> {
    let mut bytes = Vec::with_capacity(alloc, (lines as usize).wrapping_mul(LINE.len()))?;
    for _ in 0..lines {
        bytes.extend_from_slice(LINE)?;
    }
    Ok(Text::from_vec(bytes))
}
