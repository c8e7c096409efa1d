use crate::cases::HOPS;
use crate::talk::{Limits, NO_LIMITS, Talk};
use crate::texts::add_often;
use mail_base::{NoMemory, Text};
use std::alloc::Global;

/// Bytes that come so many times, and what is said to them each time.
type Step = (&'static [u8], usize, &'static [u8]);

/// Faults in a session, and what is at a limit of bytes.
static FAULTS: [Step; 30] = [
    (
        b"EHLO c.example\r\n",
        1,
        b"250-localhost Hello\r\n250-PIPELINING\r\n250-SIZE 16777216\r\n250 8BITMIME\r\n",
    ),
    (b"RCPT TO:<a>\r\n", 1, b"503 5.5.1 Need MAIL first\r\n"),
    // Lines of 2,049 bytes, of which the second has a bad byte and no verb, and one of 2,048.
    (b"NOOP ", 1, b""),
    (b"x", 2_042, b""),
    (b"\r\n", 1, b"500 5.5.2 Line too long\r\n"),
    (b"\x01", 2_047, b""),
    (b"\r\n", 1, b"500 5.5.2 Line too long\r\n"),
    (b"NOOP ", 1, b""),
    (b"x", 2_041, b""),
    (b"\r\n", 1, b"250 2.0.0 OK\r\n"),
    // A local part of 65 bytes, and a path that is longer than a line.
    (b"MAIL FROM:<", 1, b""),
    (b"x", 65, b""),
    (b"@y>\r\n", 1, b"501 5.1.3 Path too long\r\n"),
    (b"MAIL FROM:<", 1, b""),
    (b"x", 2_100, b""),
    (b"@y>\r\n", 1, b"500 5.5.2 Line too long\r\n"),
    // A path of 257 bytes, and two of 256, of which the second has no local part.
    (b"MAIL FROM:<", 1, b""),
    (b"x", 64, b""),
    (b"@", 1, b""),
    (b"y", 190, b""),
    (b">\r\n", 1, b"501 5.1.3 Path too long\r\n"),
    (b"MAIL FROM:<", 1, b""),
    (b"x", 64, b""),
    (b"@", 1, b""),
    (b"y", 189, b""),
    (b">\r\n", 1, b"250 2.1.0 Sender ok\r\n"),
    (b"RSET\r\n", 1, b"250 2.0.0 Reset state\r\n"),
    (b"MAIL FROM:<@", 1, b""),
    (b"y", 253, b""),
    (b">\r\n", 1, b"250 2.1.0 Sender ok\r\n"),
];

/// Recipients at and above their number, where the configuration says nothing.
static RECIPIENTS: [Step; 4] = [
    (b"MAIL FROM:<a>\r\n", 1, b"250 2.1.0 Sender ok\r\n"),
    (
        b"RCPT TO:<ann@mx.example>\r\n",
        101,
        b"250 2.1.5 Recipient ok\r\n",
    ),
    (b"RCPT TO:<a>\r\n", 9_899, b"250 2.1.5 Recipient ok\r\n"),
    (
        b"RCPT TO:<a>\r\nRCPT TO:<no>\r\n",
        2,
        b"452 4.5.3 Too many recipients\r\n452 4.5.3 Too many recipients\r\n",
    ),
];

/// Rows at and above their number, where there may be more recipients; a refusal stands
/// before it.
static DRAWN: [Step; 9] = [
    (b"MAIL FROM:<a>\r\n", 1, b"250 2.1.0 Sender ok\r\n"),
    (
        b"RCPT TO:<twin@a>\r\n",
        4_999,
        b"250 2.1.5 Recipient ok\r\n",
    ),
    (b"RCPT TO:<a>\r\n", 1, b"250 2.1.5 Recipient ok\r\n"),
    (
        b"RCPT TO:<twin@b>\r\n",
        1,
        b"452 4.5.3 Too many recipients\r\n",
    ),
    (b"RCPT TO:<a>\r\n", 1, b"250 2.1.5 Recipient ok\r\n"),
    (b"RCPT TO:<b>\r\n", 2, b"452 4.5.3 Too many recipients\r\n"),
    (b"RCPT TO:<no>\r\n", 1, b"550 5.7.1 Refused\r\n"),
    (b"RSET\r\n", 1, b"250 2.0.0 Reset state\r\n"),
    (b"MAIL FROM:<a>\r\n", 1, b"250 2.1.0 Sender ok\r\n"),
];

/// 26 hops; and a header block that is too large, also with 26 hops.
static LOOPED: [Step; 12] = [
    (b"MAIL FROM:<a>\r\n", 1, b"250 2.1.0 Sender ok\r\n"),
    (b"RCPT TO:<b>\r\n", 1, b"250 2.1.5 Recipient ok\r\n"),
    (
        b"DATA\r\n",
        1,
        b"354 Enter mail, end with \".\" on a line by itself\r\n",
    ),
    (b"Received: x\r\n", 26, b"+"),
    (b".\r\n", 1, b"554 5.4.6 Too many hops\r\n"),
    (b"MAIL FROM:<a>\r\n", 1, b"250 2.1.0 Sender ok\r\n"),
    (b"RCPT TO:<b>\r\n", 1, b"250 2.1.5 Recipient ok\r\n"),
    (
        b"DATA\r\n",
        1,
        b"354 Enter mail, end with \".\" on a line by itself\r\n",
    ),
    (b"Received: x\r\n", 5_042, b"+"),
    (b".\r\n", 1, b"552 5.6.0 Header too large\r\n"),
    (b"RCPT TO:<b>\r\n", 1, b"503 5.5.1 Need MAIL first\r\n"),
    (
        b"QUIT\r\n",
        1,
        b"221 2.0.0 localhost closing connection\r\n",
    ),
];

static SMALLER: Limits = Limits {
    size: 65_536,
    recipients: 0,
    hops: 0,
};

/// A header block that is too large, in a message that is too large.
static LARGE: [Step; 5] = [
    (b"MAIL FROM:<a>\r\n", 1, b"250 2.1.0 Sender ok\r\n"),
    (b"RCPT TO:<b>\r\n", 1, b"250 2.1.5 Recipient ok\r\n"),
    (
        b"DATA\r\n",
        1,
        b"354 Enter mail, end with \".\" on a line by itself\r\n",
    ),
    (b"Received: x\r\n", 5_042, b"+"),
    (b".\r\n", 1, b"552 5.3.4 Message too large\r\n"),
];

/// 25 hops.
static TRAVELLED: [Step; 5] = [
    (b"MAIL FROM:<a>\r\n", 1, b"250 2.1.0 Sender ok\r\n"),
    (b"RCPT TO:<b>\r\n", 1, b"250 2.1.5 Recipient ok\r\n"),
    (
        b"DATA\r\n",
        1,
        b"354 Enter mail, end with \".\" on a line by itself\r\n",
    ),
    (b"Received:\r\n", 25, b"+"),
    (
        b".\r\n",
        1,
        b"<a><b>{Received:}{Received:}{Received:}{Received:}{Received:}{Received:}{Received:}\
            {Received:}{Received:}{Received:}{Received:}{Received:}{Received:}{Received:}\
            {Received:}{Received:}{Received:}{Received:}{Received:}{Received:}{Received:}\
            {Received:}{Received:}{Received:}{Received:}[] SMTP  10.0.0.1\r\n\
            250 2.0.0 w000000000001 Message accepted for delivery\r\n",
    ),
];

// The dialogues by number, each with its configuration.
fn dialogue(number: usize) -> (&'static Limits, &'static [Step]) {
    match number {
        0 => (&NO_LIMITS, &FAULTS),
        1 => (&NO_LIMITS, &RECIPIENTS),
        2 => (&HOPS, &DRAWN),
        3 => (&NO_LIMITS, &LOOPED),
        4 => (&SMALLER, &LARGE),
        _ => (&NO_LIMITS, &TRAVELLED),
    }
}

// Whether each time the same is said.
fn goes(talk: &mut Talk, step: &Step) -> bool {
    for _ in 0..step.1 {
        if is_said(talk, step.0, step.2) != Ok(true) {
            return false;
        }
    }
    true
}

fn is_said(talk: &mut Talk, given: &[u8], wanted: &[u8]) -> Result<bool, NoMemory> {
    talk.said.clear();
    talk.take(given)?;
    Ok(is_text(&talk.said, wanted))
}

fn is_text(said: &Text, wanted: &[u8]) -> bool {
    said.bytes() == wanted
}

#[test]
fn sessions_go_on_at_and_above_their_limits(rt: HostRuntime) -> Result<(), NoMemory> {
    for number in 0..6 {
        let (limits, steps) = dialogue(number);
        let mut talk = Talk::new(rt.alloc(), limits)?;
        for (at, step) in steps.iter().enumerate() {
            assert!(rt; goes(&mut talk, step), "dialogue {number}, step {at}");
        }
    }
    Ok(())
}

/// How each of a message's 1,024 lines begins, how many bytes more it has, how many the last one,
/// and how what is said at the message's end begins.
type Limit = (&'static [u8], usize, usize, &'static [u8]);

static LIMITS: [Limit; 4] = [
    (b"a:", 60, 60, b"<b><a>{a:"),
    (b"a:", 60, 61, b"552 5.6.0"),
    (b"", 16_382, 16_382, b"<b><a>[x"),
    (b"", 16_382, 16_383, b"552 5.3.4"),
];

fn take_lines(talk: &mut Talk, row: &Limit) -> Result<(), NoMemory> {
    let mut line = Text::new(talk.said.allocator());
    add_often(&mut line, &[(row.0, 1), (b"x", row.1), (b"\r\n", 1)])?;
    for _ in 0..1_023 {
        talk.take(line.bytes())?;
    }
    line.clear();
    add_often(&mut line, &[(row.0, 1), (b"x", row.2), (b"\r\n", 1)])?;
    talk.take(line.bytes())
}

fn is_limit(alloc: Global, row: &Limit) -> Result<bool, NoMemory> {
    let mut talk = Talk::new(alloc, &NO_LIMITS)?;
    talk.take(b"MAIL FROM:<b>\r\nRCPT TO:<a>\r\nDATA\r\n")?;
    take_lines(&mut talk, row)?;
    talk.said.clear();
    talk.take(b".\r\n")?;
    Ok(talk.said.bytes().starts_with(row.3))
}

#[test]
fn headers_have_65536_bytes_and_a_message_16777216(rt: HostRuntime) {
    for row in &LIMITS {
        let is_limit = is_limit(rt.alloc(), row);
        assert!(rt; is_limit == Ok(true), "{} and {}", row.1, row.2);
    }
}
