use crate::texts::{add, add_number, add_often};
use mail_base::{NoMemory, Text};
use smtp_lines::{Seen, reply};
use std::alloc::Global;

/// Bytes, and what is seen of a reply at their front, as `show` writes it.
type Row = (&'static [u8], &'static [u8]);

static ROWS: [Row; 45] = [
    (b"", b"part"),
    (b"2", b"part"),
    (b"25", b"part"),
    (b"250", b"part"),
    (b"250\r", b"part"),
    (b"250 ", b"part"),
    (b"250-", b"part"),
    (b"250 ok", b"part"),
    (b"250 ok\r", b"part"),
    (b"250-a\r\n", b"part"),
    (b"250-a\r\n2", b"part"),
    (b"250-a\r\n250", b"part"),
    (b"250-a\r\n250-b", b"part"),
    (b"250\n", b"250 <> 4"),
    (b"250\r\n", b"250 <> 5"),
    (b"250 \r\n", b"250 <> 6"),
    (b"250 ok\r\n", b"250 <ok> 8"),
    (b"250 ok\n", b"250 <ok> 7"),
    (b"250 ok\r\r\n", b"250 <ok\r> 9"),
    (b"250  ok \r\n", b"250 < ok > 10"),
    (b"354 go\r\n250 ", b"354 <go> 8"),
    (b"000 \xff\x00\r\n", b"0 <\xff\x00> 8"),
    (b"999 x\r\n", b"999 <x> 7"),
    (b"250-a\r\n250 b\r\n", b"250 <a> 14"),
    (b"250-a\n250-\n250\n", b"250 <a> 15"),
    (
        b"250-h\r\n250-8bitMIME\r\n250 SIZE\r\n",
        b"250 <h> 31 eight",
    ),
    (b"250 8BITMIME\r\n", b"250 <8BITMIME> 14 eight"),
    (b"250 8BITMIME \r\n", b"250 <8BITMIME > 15"),
    (b"250-h\r\n250 x8BITMIME\r\n", b"250 <h> 22"),
    (
        b"220-mx.example ESMTP\r\n220-two\n220 8bitmime\r\n",
        b"220 <mx.example ESMTP> 44 eight",
    ),
    (b"250-a\r\n251 b\r\n", b"bad"),
    (b"250-a\r\n26", b"bad"),
    (b"250-a\r\n\r\n", b"bad"),
    (b"250-a\r\n25x", b"bad"),
    (b"250x", b"bad"),
    (b"250\rx", b"bad"),
    (b"250\r\r", b"bad"),
    (b"2x", b"bad"),
    (b"-", b"bad"),
    (b"\n", b"bad"),
    (b" 250 ok\r\n", b"bad"),
    (b"25 ok\r\n", b"bad"),
    (b"2500 ok\r\n", b"bad"),
    (b"250\tok\r\n", b"bad"),
    (b"ok\r\n", b"bad"),
];

fn show(text: &mut Text, bytes: &[u8]) -> Result<(), NoMemory> {
    match reply(bytes) {
        Seen::Whole {
            code,
            text: first,
            eight,
            length,
        } => {
            add_number(text, code.into())?;
            add(text, &[b" <", first, b"> "])?;
            add_number(text, length as u128)?;
            let mark: &[u8] = if eight { b" eight" } else { b"" };
            text.extend(mark)
        }
        Seen::Part => text.extend(b"part"),
        Seen::Bad => text.extend(b"bad"),
    }
}

fn seen_so(alloc: Global, row: &Row) -> bool {
    let mut text = Text::new(alloc);
    show(&mut text, row.0).is_ok() && text.bytes() == row.1
}

static LONG: &[u8] = b"220-mx.example ESMTP\r\n220-two\n220 8bitmime\r\n";

/// Whether a reply is a part wherever it is cut.
fn is_part_at_each(bytes: &[u8]) -> bool {
    for end in 0..bytes.len() {
        if !matches!(reply(&bytes[..end]), Seen::Part) {
            return false;
        }
    }
    true
}

#[test]
fn replies_are_seen_and_fronts_are_parts(rt: HostRuntime) {
    for (at, row) in ROWS.iter().enumerate() {
        assert!(rt; seen_so(rt.alloc(), row), "row {at}");
    }
    assert!(rt; is_part_at_each(LONG));
}

/// What a reply begins with, what stands so many times behind that, its end, how many of its bytes
/// are there, and what they are.
type Long = (
    &'static [u8],
    &'static [u8],
    usize,
    &'static [u8],
    usize,
    &'static [u8],
);

static MOST: [Long; 8] = [
    (b"", b"250-\n", 99, b"250\n", 499, b"whole"),
    (b"", b"250-\n", 100, b"250\n", 504, b"bad"),
    // The sign of the 100th line tells already.
    (b"", b"250-\n", 100, b"250\n", 499, b"bad"),
    (b"", b"250-\n", 100, b"250\n", 498, b"part"),
    (b"250 ", b"x", 2_042, b"\r\n", 2_048, b"whole"),
    (b"250 ", b"x", 2_043, b"\r\n", 2_049, b"bad"),
    (b"250 ", b"x", 2_043, b"\r\n", 2_047, b"part"),
    (b"250 ", b"x", 2_043, b"\r\n", 2_048, b"bad"),
];

fn kind(bytes: &[u8]) -> &'static [u8] {
    match reply(bytes) {
        Seen::Whole { length, .. } if length == bytes.len() => b"whole",
        Seen::Whole { .. } => b"more",
        Seen::Part => b"part",
        Seen::Bad => b"bad",
    }
}

fn is_front(bytes: &[u8], count: usize, wanted: &[u8]) -> bool {
    match bytes.get(..count) {
        Some(front) => kind(front) == wanted,
        None => false,
    }
}

fn is_kind(alloc: Global, row: &Long) -> bool {
    let mut text = Text::new(alloc);
    add_often(&mut text, &[(row.0, 1), (row.1, row.2), (row.3, 1)]).is_ok()
        && is_front(text.bytes(), row.4, row.5)
}

#[test]
fn a_reply_has_100_lines_of_2048_bytes_at_most(rt: HostRuntime) {
    for (at, row) in MOST.iter().enumerate() {
        assert!(rt; is_kind(rt.alloc(), row), "row {at}");
    }
}
