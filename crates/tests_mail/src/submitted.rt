ghost use Rattle.std.specs.Prelude.{◌<◌};

use crate::texts::{add, add_number};
use mail_base::{NoMemory, Seq, Text};
use mail_submit::{Input, InputFault, Submission, submitted};
use std::alloc::Global;

/// Input, whether the line `.` ends it, and the message.
type InputRow = (&'static [u8], bool, &'static [u8]);

static INPUTS: [InputRow; 14] = [
    (b"", true, b""),
    (b"\n", true, b"\r\n"),
    (b"a", true, b"a\r\n"),
    (b"a\r", true, b"a\r\n"),
    (b"a\nb\r\nc\n", true, b"a\r\nb\r\nc\r\n"),
    (b"a\r\r\nb\rc\n", true, b"a\r\r\nb\rc\r\n"),
    (b"a\n.\nmore\n", true, b"a\r\n"),
    (b"a\r\n.\r\nmore", true, b"a\r\n"),
    (b"a\n.", true, b"a\r\n"),
    (b"a\n.\r", true, b"a\r\n"),
    (b"a\n..\n.b\n", true, b"a\r\n..\r\n.b\r\n"),
    (b"a\n.\nb", false, b"a\r\n.\r\nb\r\n"),
    (b"a\n.", false, b"a\r\n.\r\n"),
    (b"\r\n\r", true, b"\r\n\r\n"),
];

fn feed(input: &mut Input, bytes: &[u8], size: usize) -> Result<(), InputFault>
    requires { 0 < size }
{
    for piece in bytes.chunks(size) {
        input.feed(piece, 1000)?;
    }
    Ok(())
}

fn is_read(alloc: Global, row: &InputRow, size: usize) -> Result<bool, InputFault>
    requires { 0 < size }
{
    let mut input = Input::new(alloc, row.1);
    feed(&mut input, row.0, size)?;
    Ok(input.end(1000)?.bytes() == row.2)
}

// Whether input is read so by bytes, by threes and whole.
fn is_read_in_pieces(alloc: Global, row: &InputRow) -> bool {
    is_read(alloc, row, 1) == Ok(true)
        && is_read(alloc, row, 3) == Ok(true)
        && is_read(alloc, row, 1000) == Ok(true)
}

/// Input, and the least limit that it may have.
static SIZES: [(&[u8], u64); 8] = [
    (b"", 0),
    (b"a\r", 1),
    (b"a\n.", 3),
    (b"a\n.\r", 3),
    (b"a\n.\nmore", 3),
    (b"a\n..", 5),
    (b"a\nb\r\n", 6),
    (b"\n", 2),
];

fn is_within(alloc: Global, bytes: &[u8], most: u64) -> bool {
    let mut input = Input::new(alloc, true);
    input.feed(bytes, most).is_ok()
}

fn is_least(alloc: Global, bytes: &[u8], most: u64) -> bool {
    is_within(alloc, bytes, most) && (most == 0 || !is_within(alloc, bytes, most - 1))
}

#[test]
fn inputs_are_read_and_their_sizes_counted(rt: HostRuntime) {
    for (at, row) in INPUTS.iter().enumerate() {
        assert!(rt; is_read_in_pieces(rt.alloc(), row), "row {at}");
    }
    for (at, row) in SIZES.iter().enumerate() {
        assert!(rt; is_least(rt.alloc(), row.0, row.1), "size {at}");
    }
}

fn add_each(text: &mut Text, items: &Seq<Text>, end: &[u8]) -> Result<(), NoMemory> {
    for item in items.items() {
        add(text, &[item.bytes(), end])?;
    }
    Ok(())
}

fn show(text: &mut Text, submission: &Submission) -> Result<(), NoMemory> {
    add_each(text, &submission.headers, b"|")?;
    add(text, &[b"{", submission.body.bytes(), b"}"])?;
    add_each(text, &submission.recipients, b";")?;
    if let Some(from) = &submission.first_from {
        text.extend(from.bytes())?;
    }
    text.push(b' ')?;
    add_number(text, submission.size.into())
}

/// A message, whether recipients come from headers, and what is handed over.
static ROWS: [(&[u8], bool, &[u8]); 9] = [
    (
        b"To: ann@mx.example\r\nBcc: <cid@mx.example>\r\nSubject: hi\r\n\r\nhello\r\n",
        true,
        b"To: ann@mx.example|Subject: hi|{hello\r\n}ann@mx.example;cid@mx.example; 42",
    ),
    (
        b"To: ann@mx.example\r\nBcc: <cid@mx.example>\r\nSubject: hi\r\n\r\nhello\r\n",
        false,
        b"To: ann@mx.example|Bcc: <cid@mx.example>|Subject: hi|{hello\r\n} 65",
    ),
    (b"Subject: hi\r\n", true, b"Subject: hi|{} 13"),
    (
        b"cc: a,\r\n b (c), \"d\" <e@\r\n f>\r\n",
        true,
        b"cc: a,\r\n b (c), \"d\" <e@\r\n f>|{}a;b;e@ f; 30",
    ),
    (
        b"To: us: a, b;\r\nBCC: c\r\n",
        true,
        b"To: us: a, b;|{}c; 15",
    ),
    (
        b"From: Bob <bob@c>, x\r\nFrom: y\r\nResent-To: z\r\n\r\n",
        true,
        b"From: Bob <bob@c>, x|From: y|Resent-To: z|{}bob@c 47",
    ),
    (
        b"From: a: b;\r\nFrom: y\r\n",
        true,
        b"From: a: b;|From: y|{} 22",
    ),
    (b"\r\nTo: a\r\n", true, b"{To: a\r\n} 9"),
    (b"", true, b"{} 0"),
];

fn is_shown(alloc: Global, row: &(&'static [u8], bool, &'static [u8])) -> Result<bool, NoMemory> {
    let submission = submitted(&Text::of(alloc, row.0)?, row.1)?;
    let mut text = Text::new(alloc);
    show(&mut text, &submission)?;
    Ok(text.bytes() == row.2)
}

#[test]
fn texts_are_submitted(rt: HostRuntime) {
    for (at, row) in ROWS.iter().enumerate() {
        assert!(rt; is_shown(rt.alloc(), row) == Ok(true), "row {at}");
    }
}
