ghost use Rattle.qf_format.specs.Valid.{IsValid};

use crate::texts::add_often;
use mail_base::{Control, NoMemory, Text};
use qf_format::{Paper, parse, print, print_into, room};
use std::alloc::Global;

// The control text of an entry whose one row is still tried, line by line.
static LINES: [&[u8]; 17] = [
    b"V1",
    b"v1",
    b"gmqueue",
    b"T1767225600",
    b"K0",
    b"N0",
    b"P30022",
    b"c0",
    b"S<bob@c.example>",
    b"$rESMTP",
    b"$sc.example",
    b"${client_addr}",
    b"RPFD:<ann@mx.example>",
    b"eQ",
    b"HReceived: from c.example by mx.example with ESMTP id w000000000001; \
        Thu, 1 Jan 2026 00:00:00 +0000",
    b"HSubject: hi",
    b".",
];

// The number of a line, what stands in its place, and whether the text is one still.
type Edit = (usize, &'static [u8], bool);

static EDITS: [Edit; 49] = [
    (0, b"V1", true),
    (1, b"v18446744073709551615", true),
    (1, b"v1\npw000000000007 3", true),
    (2, b"g", true),
    (6, b"P-170141183460469231731687303715884105728", true),
    (6, b"P170141183460469231731687303715884105727", true),
    (7, b"c-9223372036854775808", true),
    (8, b"Fbdw\nB8BITMIME\nS<>", true),
    (8, b"Fbw\nS<>", true),
    (12, b"RFD:a b:c", true),
    (13, b"eQ exit 75", true),
    (13, b"eS", true),
    (13, b"eF 5.1.1 no such user", true),
    (13, b"eR w000000000042", true),
    (13, b"eD 4.123.999 x", true),
    (13, b"eS\nRFD:b\neQ", true),
    (14, b"HA: b\n c\n\td\nH", true),
    (15, b"HA: b\n \nH", true),
    (15, b"H", true),
    (0, b"V2", false),
    (1, b"v0", false),
    (1, b"v01", false),
    (1, b"v+1", false),
    (1, b"v18446744073709551616", false),
    (1, b"v1\np7 3", false),
    (1, b"v1\npw000000000007 0", false),
    (1, b"v1\npw000000000007", false),
    (4, b"K", false),
    (4, b"K-0", false),
    (5, b"N 0", false),
    (6, b"P-0", false),
    (6, b"P+1", false),
    (6, b"P170141183460469231731687303715884105728", false),
    (7, b"c9223372036854775808", false),
    (7, b"c-9223372036854775809", false),
    (8, b"F\nS<>", false),
    (8, b"Fdb\nS<>", false),
    (8, b"Fx\nS<>", false),
    (8, b"B8BITMIME\nFb\nS<>", false),
    (8, b"Sbob", false),
    (12, b"RPFD:", false),
    (12, b"RPD:<ann@mx.example>", false),
    (13, b"eQ ", false),
    (13, b"eS x", false),
    (13, b"eF 5.1 x", false),
    (13, b"eF 5.1.1", false),
    (13, b"eR w00000000042", false),
    (13, b"eX", false),
    (16, b".\n.", false),
];

fn add_lines(text: &mut Text, lines: &[&[u8]]) -> Result<(), NoMemory> {
    for line in lines {
        text.extend(line)?;
        text.push(b'\n')?;
    }
    Ok(())
}

// Adds the lines up to one place and from another one on, with others between.
fn splice(text: &mut Text, to: usize, from: usize, other: &[&[u8]]) -> Result<(), NoMemory> {
    add_lines(text, LINES.get(..to).unwrap_or(&LINES))?;
    add_lines(text, other)?;
    match LINES.get(from..) {
        Some(rest) => add_lines(text, rest),
        None => Ok(()),
    }
}

// Whether the text is what is printed of the control, also on paper of its room, which it fits.
fn is_print(control: &Control, text: &Text) -> Result<bool, NoMemory>
    requires { IsValid control.now }
{
    Ok(print(control)?.bytes() == text.bytes() && on_paper(control)? == text.len())
}

// The length of what is written on paper of the control's room.
fn on_paper(control: &Control) -> Result<usize, NoMemory>
    requires { IsValid control.now }
{
    let most = room(control);
    if most == u64::MAX {
        return Err(NoMemory);
    }
    let mut paper = Paper::with_room(control.group.allocator(), most as usize)?;
    print_into(control, &mut paper);
    Ok(paper.bytes().len())
}

fn is_read(text: &Text) -> Result<bool, NoMemory> {
    match parse(text)? {
        None => Ok(false),
        Some(control) => is_print(&control, text),
    }
}

// Whether the text is read, and printed again as it was, with others in place of these lines.
fn comes_back(alloc: Global, to: usize, from: usize, other: &[&[u8]]) -> Result<bool, NoMemory> {
    let mut text = Text::new(alloc);
    splice(&mut text, to, from, other)?;
    is_read(&text)
}

// Whether the text comes back with a line, or several, in the place of one.
fn takes(alloc: Global, place: usize, line: &[u8]) -> Result<bool, NoMemory> {
    comes_back(alloc, place, place.saturating_add(1), &[line])
}

// Whether the text comes back with a line behind the next one, if there is one.
fn swaps(alloc: Global, place: usize) -> Result<bool, NoMemory> {
    let from = place.saturating_add(2);
    match LINES.get(place..from) {
        Some([this, next]) => comes_back(alloc, place, from, &[next, this]),
        _ => comes_back(alloc, 17, 17, &[]),
    }
}

fn takes_note(alloc: Global, length: usize) -> Result<bool, NoMemory> {
    let mut line = Text::new(alloc);
    add_often(&mut line, &[(b"eQ ", 1), (b"x", length)])?;
    takes(alloc, 13, line.bytes())
}

// Whether the text comes back with an address of all bytes but LF.
fn takes_bytes(alloc: Global) -> Result<bool, NoMemory> {
    let mut line = Text::of(alloc, b"RFD:")?;
    for byte in 0..=255u8 {
        if byte != b'\n' {
            line.push(byte)?;
        }
    }
    takes(alloc, 12, line.bytes())
}

// How long a note is, and whether it is taken.
static NOTES: [(usize, bool); 4] = [(1, true), (512, true), (0, false), (513, false)];

#[test]
fn fields_have_their_ranges_addresses_any_bytes_and_notes_512(rt: HostRuntime) {
    for (at, row) in EDITS.iter().enumerate() {
        assert!(rt; takes(rt.alloc(), row.0, row.1) == Ok(row.2), "row {at}");
    }
    for row in &NOTES {
        assert!(rt; takes_note(rt.alloc(), row.0) == Ok(row.1), "{}", row.0);
    }
    assert!(rt; takes_bytes(rt.alloc()) == Ok(true));
}

#[test]
fn each_line_has_its_place(rt: HostRuntime) {
    for place in 0..17usize {
        let is_header = place == 14 || place == 15;
        let lacks = comes_back(rt.alloc(), place, place + 1, &[]);
        assert!(rt; lacks == Ok(is_header), "without {place}");
        let is_last = place == 14 || place == 16;
        let swaps = swaps(rt.alloc(), place);
        assert!(rt; swaps == Ok(is_last), "behind the next, {place}");
    }
}

fn has_its_room(alloc: Global) -> Result<bool, NoMemory> {
    let mut paper = Paper::with_room(alloc, 4)?;
    paper.put(b"ab");
    paper.put(b"cd");
    let is_full = paper.bytes() == b"abcd".as_slice();
    paper.clear();
    if paper.room() != 4 {
        return Ok(false);
    }
    paper.put(b"ef");
    Ok(is_full && paper.into_text().bytes() == b"ef".as_slice())
}

#[test]
fn paper_has_its_room(rt: HostRuntime) {
    assert!(rt; has_its_room(rt.alloc()) == Ok(true));
}
