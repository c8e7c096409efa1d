//! Returned mail and warnings, whole.

use crate::dialogues::add;
use dsn_bounce::{bounce, warning};
use mail_base::{Config, Control, Message, NoMemory, Text};
use qf_format::parse;
use std::alloc::Global;

// A day after the beginning of 2026, at which each entry was made.
const LATER: u64 = 1_767_312_000;

// A row that failed.
const ONE: &[u8] = b"V1\nv1\ngmqueue\nT1767225600\nK0\nN0\nP30022\n\
        c0\nS<bob@c.example>\n$rSMTP\n$sc.example\n${client_addr}192.0.2.1\n\
        RPFD:<cid@mx.example>\neF 5.1.1 exit 67\n\
        HSubject: hi\nHTo: a,\r\n b\n.\n";

// The same with a header whose lines end in LF alone, as those of an H line do.
const FOLDED: &[u8] = b"V1\nv1\ngmqueue\nT1767225600\nK0\nN0\nP30022\n\
        c0\nS<bob@c.example>\n$rSMTP\n$sc.example\n${client_addr}192.0.2.1\n\
        RPFD:<cid@mx.example>\neF 5.1.1 exit 67\n\
        HReceived: from c;\n\tThu\n now\nHTo: a,\r\n b\n.\n";

// The same of the null sender.
const NULL: &[u8] = b"V1\nv1\ngmqueue\nT1767225600\nK0\nN0\nP30022\n\
        c0\nS<>\n$rSMTP\n$sc.example\n${client_addr}192.0.2.1\n\
        RPFD:<cid@mx.example>\neF 5.1.1 exit 67\n\
        HSubject: hi\nHTo: a,\r\n b\n.\n";

// A row of each kind that a message tells of, and others.
const MANY: &[u8] = b"V1\nv1\ngmqueue\nT1767225600\nK0\nN0\nP30022\n\
        c0\nB8BITMIME\nS<bob@c.example>\n$rSMTP\n$sc.example\n${client_addr}192.0.2.1\n\
        RPFD:<ann@mx.example>\neS\nRPFD:<cid@mx.example>\neF 5.1.1 exit 67\n\
        RFD:<dan@mx.example>\neQ exit 75\nRFD:eve\neQ\nRFD:|sort -u\neF 5.5.4 bad use\n\
        HSubject: hi\nHTo: a,\r\n b\n.\n";

// The same of a class below 0.
const LIST: &[u8] = b"V1\nv1\ngmqueue\nT1767225600\nK0\nN0\nP30022\n\
        c-30\nS<bob@c.example>\n$rSMTP\n$sc.example\n${client_addr}192.0.2.1\n\
        RPFD:<ann@mx.example>\neS\nRPFD:<cid@mx.example>\neF 5.1.1 exit 67\n\
        RFD:<dan@mx.example>\neQ exit 75\nRFD:eve\neQ\nRFD:|sort -u\neF 5.5.4 bad use\n\
        HSubject: hi\nHTo: a,\r\n b\n.\n";

const BOUNCE_OF_ONE: &[u8] = b"Date: Fri, 2 Jan 2026 00:00:00 +0000\r\n\
        From: Mail Delivery Subsystem <MAILER-DAEMON@localhost>\r\n\
        To: <bob@c.example>\r\nSubject: Returned mail: see transcript for details\r\n\
        Auto-Submitted: auto-generated\r\n\r\n\
        The message was received at Thu, 1 Jan 2026 00:00:00 +0000\r\n\r\n\
        \x20  ----- Addresses with fatal errors -----\r\n\
        <cid@mx.example>\r\n    (reason: 5.1.1 exit 67)\r\n\
        \r\n\
        \x20  ----- Original message -----\r\n\r\n\
        Subject: hi\r\nTo: a,\r\n b\r\n\r\nhello\r\n";

const BOUNCE_OF_FOLDED: &[u8] = b"Date: Fri, 2 Jan 2026 00:00:00 +0000\r\n\
        From: Mail Delivery Subsystem <MAILER-DAEMON@localhost>\r\n\
        To: <bob@c.example>\r\nSubject: Returned mail: see transcript for details\r\n\
        Auto-Submitted: auto-generated\r\n\r\n\
        The message was received at Thu, 1 Jan 2026 00:00:00 +0000\r\n\r\n\
        \x20  ----- Addresses with fatal errors -----\r\n\
        <cid@mx.example>\r\n    (reason: 5.1.1 exit 67)\r\n\
        \r\n\
        \x20  ----- Original message -----\r\n\r\n\
        Received: from c;\r\n\tThu\r\n now\r\nTo: a,\r\n b\r\n\r\nhello\r\n";

const DOUBLE_BOUNCE: &[u8] = b"Date: Fri, 2 Jan 2026 00:00:00 +0000\r\n\
        From: Mail Delivery Subsystem <MAILER-DAEMON@localhost>\r\n\
        To: postmaster\r\nSubject: Returned mail: see transcript for details\r\n\
        Auto-Submitted: auto-generated\r\n\r\n\
        The message was received at Thu, 1 Jan 2026 00:00:00 +0000\r\n\r\n\
        \x20  ----- Addresses with fatal errors -----\r\n\
        <cid@mx.example>\r\n    (reason: 5.1.1 exit 67)\r\n\
        \r\n\
        \x20  ----- Original message -----\r\n\r\n\
        Subject: hi\r\nTo: a,\r\n b\r\n\r\nhello\r\n";

const BOUNCE_OF_MANY: &[u8] = b"Date: Fri, 2 Jan 2026 00:00:00 +0000\r\n\
        From: Mail Delivery Subsystem <MAILER-DAEMON@localhost>\r\n\
        To: <bob@c.example>\r\nSubject: Returned mail: see transcript for details\r\n\
        Auto-Submitted: auto-generated\r\n\r\n\
        The message was received at Thu, 1 Jan 2026 00:00:00 +0000\r\n\r\n\
        \x20  ----- Addresses with fatal errors -----\r\n\
        <cid@mx.example>\r\n    (reason: 5.1.1 exit 67)\r\n\
        |sort -u\r\n    (reason: 5.5.4 bad use)\r\n\
        \r\n\
        \x20  ----- Original message -----\r\n\r\n\
        Subject: hi\r\nTo: a,\r\n b\r\n\r\nhello\r\n";

const BOUNCE_OF_A_LIST: &[u8] = b"Date: Fri, 2 Jan 2026 00:00:00 +0000\r\n\
        From: Mail Delivery Subsystem <MAILER-DAEMON@localhost>\r\n\
        To: <bob@c.example>\r\nSubject: Returned mail: see transcript for details\r\n\
        Auto-Submitted: auto-generated\r\n\r\n\
        The message was received at Thu, 1 Jan 2026 00:00:00 +0000\r\n\r\n\
        \x20  ----- Addresses with fatal errors -----\r\n\
        <cid@mx.example>\r\n    (reason: 5.1.1 exit 67)\r\n\
        |sort -u\r\n    (reason: 5.5.4 bad use)\r\n\
        \r\n\
        \x20  ----- Original headers -----\r\n\r\n\
        Subject: hi\r\nTo: a,\r\n b\r\n";

const WARNING_OF_MANY: &[u8] = b"Date: Fri, 2 Jan 2026 00:00:00 +0000\r\n\
        From: Mail Delivery Subsystem <MAILER-DAEMON@localhost>\r\n\
        To: <bob@c.example>\r\nSubject: Warning: message still undelivered\r\n\
        Auto-Submitted: auto-generated\r\n\r\n\
        The message was received at Thu, 1 Jan 2026 00:00:00 +0000\r\n\r\n\
        \x20  ----- Addresses still tried -----\r\n\
        <dan@mx.example>\r\n    (reason: exit 75)\r\neve (not yet tried)\r\n\
        \r\n\
        \x20  ----- Original headers -----\r\n\r\n\
        Subject: hi\r\nTo: a,\r\n b\r\n";

fn control_of(alloc: Global, text: &[u8]) -> Result<Option<Control>, NoMemory> {
    parse(&Text::of(alloc, text)?)
}

// The text of a message: its headers, an empty line and its body.
fn text_of(alloc: Global, message: &Message) -> Result<Text, NoMemory> {
    let mut text = Text::new(alloc);
    for header in message.headers.items() {
        add(&mut text, &[header.bytes(), b"\r\n"])?;
    }
    add(&mut text, &[b"\r\n", message.body.bytes()])?;
    Ok(text)
}

// Whether a message is this text, under the null sender, of its own size and with these marks.
fn is_so(
    alloc: Global,
    message: &Message,
    wanted: &[u8],
    double: bool,
    eight: bool,
) -> Result<bool, NoMemory> {
    let text = text_of(alloc, message)?;
    Ok(
        text.bytes() == wanted
            && message.size == wanted.len() as u64
            && message.sender.bytes() == b"<>".as_slice()
            && message.class == 0
            && message.marks.bounce
            && message.marks.double == double
            && message.eight == eight,
    )
}

/// A bounce (b), a double bounce (d) or a warning (w), of which entry, and its text.
type Row = (u8, &'static [u8], &'static [u8]);

static ROWS: [Row; 6] = [
    (b'b', ONE, BOUNCE_OF_ONE),
    (b'b', FOLDED, BOUNCE_OF_FOLDED),
    (b'd', NULL, DOUBLE_BOUNCE),
    (b'b', MANY, BOUNCE_OF_MANY),
    (b'b', LIST, BOUNCE_OF_A_LIST),
    (b'w', MANY, WARNING_OF_MANY),
];

fn made(config: &Config, control: &Control, letter: u8) -> Result<Message, NoMemory> {
    if letter == b'w' {
        return warning(config, control, LATER);
    }
    let body = Text::of(control.group.allocator(), b"hello\r\n")?;
    bounce(config, control, &body, LATER)
}

fn reads_so(alloc: Global, row: &Row) -> Result<bool, NoMemory> {
    let Some(control) = control_of(alloc, row.1)? else {
        return Ok(false);
    };
    let config = Config::new(alloc)?;
    let message = made(&config, &control, row.0)?;
    is_so(alloc, &message, row.2, row.0 == b'd', control.eight)
}

#[test]
fn returned_mail_reads_as_its_row_says(rt: HostRuntime) {
    for (at, row) in ROWS.iter().enumerate() {
        assert!(rt; reads_so(rt.alloc(), row) == Ok(true), "row {at}");
    }
}
