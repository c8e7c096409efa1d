use crate::dialogues::{Telling, calls, letter_to, played};
use mail_base::{NoMemory, Seq, Text};
use mailer_smtp::Speech;
use std::alloc::Global;

// Two users are asked for. The phases of a dialogue are the replies that it waits for: 0 the
// greeting, 1 to EHLO or LHLO, 2 to MAIL, 3 and 4 to RCPT, 5 to DATA, 6 behind the text, and 7
// there in LMTP alone.

type Row = (u8, u8, u8, &'static [u8], &'static [u8]);

/// What is written where the reply of that phase is a 4xx (4), a 5xx (5) or none in the grammar
/// (0) and all others are well, and what becomes of both rows: S is sent, and x is by that reply.
/// The letter in front says in which protocol: s in SMTP, l in LMTP, b in both.
static ROWS: [Row; 28] = [
    (b'b', 0, 4, b"+Q-", b"xx"),
    (b'b', 0, 5, b"+Q-", b"xx"),
    (b'b', 0, 0, b"+-", b"xx"),
    (b'b', 1, 4, b"+EQ-", b"xx"),
    (b's', 1, 5, b"+EHMRRDTQ-", b"SS"),
    (b'l', 1, 5, b"+EQ-", b"xx"),
    (b'b', 1, 0, b"+E-", b"xx"),
    (b'b', 2, 4, b"+EMQ-", b"xx"),
    (b'b', 2, 5, b"+EMQ-", b"xx"),
    (b'b', 2, 0, b"+EM-", b"xx"),
    (b'b', 3, 4, b"+EMRRDTQ-", b"xS"),
    (b'b', 3, 5, b"+EMRRDTQ-", b"xS"),
    (b'b', 3, 0, b"+EMR-", b"xx"),
    (b'b', 4, 4, b"+EMRRDTQ-", b"Sx"),
    (b'b', 4, 5, b"+EMRRDTQ-", b"Sx"),
    (b'b', 4, 0, b"+EMRR-", b"xx"),
    (b'b', 5, 4, b"+EMRRDQ-", b"xx"),
    (b'b', 5, 5, b"+EMRRDQ-", b"xx"),
    (b'b', 5, 0, b"+EMRRD-", b"xx"),
    (b's', 6, 4, b"+EMRRDTQ-", b"xx"),
    (b's', 6, 5, b"+EMRRDTQ-", b"xx"),
    (b'b', 6, 0, b"+EMRRDT-", b"xx"),
    (b'l', 6, 4, b"+EMRRDTQ-", b"xS"),
    (b'l', 6, 5, b"+EMRRDTQ-", b"xS"),
    (b'l', 7, 4, b"+EMRRDTQ-", b"Sx"),
    (b'l', 7, 5, b"+EMRRDTQ-", b"Sx"),
    (b'l', 7, 0, b"+EMRRDT-", b"Sx"),
    (b'b', 8, 4, b"+EMRRDTQ-", b"SS"),
];

/// Replies of these kinds, and what a row becomes by them.
static FORMS: [(u8, &[u8], &[u8]); 14] = [
    (4, b"451 later\r\n", b"D(451 later)"),
    (4, b"451 later\n", b"D(451 later)"),
    (4, b"400-a\r\n400-b\r\n400 c\r\n", b"D(400 a)"),
    (4, b"499\r\n", b"D(499 )"),
    (5, b"550 no\r\n", b"F(5.0.0 550 no)"),
    (5, b"599-5.7.1 no\r\n599\r\n", b"F(5.0.0 599 5.7.1 no)"),
    (0, b"300 go\r\n", b"D(bad reply)"),
    (0, b"355-go\r\n355 go\r\n", b"D(bad reply)"),
    (0, b"600 what\r\n", b"D(bad reply)"),
    (0, b"199 what\r\n", b"D(bad reply)"),
    (0, b"250-a\r\n251 b\r\n", b"D(bad reply)"),
    (0, b"25 a\r\n", b"D(bad reply)"),
    (0, b"2500\r\n", b"D(bad reply)"),
    (0, b"hello\r\n", b"D(bad reply)"),
];

fn usual(phase: u8) -> &'static [u8] {
    match phase {
        0 => b"220 hi\r\n",
        1 => b"250-hi\r\n250 8BITMIME\r\n",
        5 => b"354 go\r\n",
        _ => b"250 ok\r\n",
    }
}

static SPEECHES: [Speech; 2] = [Speech::Smtp, Speech::Lmtp];

fn is_of(row: u8, speech: Speech) -> bool {
    match speech {
        Speech::Smtp => row != b'l',
        Speech::Lmtp => row != b's',
    }
}

// How replies come: each at once, or byte by byte.
fn say(says: &mut Seq<Text>, alloc: Global, reply: &[u8], bytes: bool) -> Result<(), NoMemory> {
    if !bytes {
        return says.push(Text::of(alloc, reply)?);
    }
    for at in 0..reply.len() {
        says.push(Text::of(alloc, &reply[at..at + 1])?)?;
    }
    Ok(())
}

// What a peer says, with that reply in that phase. HELO is answered too.
fn said(alloc: Global, phase: u8, reply: &[u8], bytes: bool) -> Result<Seq<Text>, NoMemory> {
    let mut says = Seq::new(alloc);
    for at in 0..8u8 {
        if at != phase {
            say(&mut says, alloc, usual(at), bytes)?;
        } else {
            say(&mut says, alloc, reply, bytes)?;
            if phase == 1 && reply.starts_with(b"5") {
                say(&mut says, alloc, b"250 ok\r\n", bytes)?;
            }
        }
    }
    Ok(says)
}

// What has to come: what is written, and the rows, where x stands for that text.
fn wanted(alloc: Global, written: &[u8], rows: &[u8], by: &[u8]) -> Result<Text, NoMemory> {
    let mut wanted = Text::of(alloc, written)?;
    wanted.push(b'=')?;
    for row in rows {
        if *row == b'x' {
            wanted.extend(by)?;
        } else {
            wanted.push(*row)?;
        }
    }
    Ok(wanted)
}

// Whether a delivery with what these hosts say and these calls that fail is told so.
fn goes(
    alloc: Global,
    speech: Speech,
    hosts: &[u8],
    says: Seq<Text>,
    failing: &[u8],
    wanted: &[u8],
) -> Result<bool, NoMemory> {
    let failing = calls(alloc, failing)?;
    let letter = letter_to(alloc, b"a b")?;
    let told = played(
        alloc,
        Telling::Letters,
        speech,
        &letter,
        hosts,
        says,
        failing,
    )?;
    Ok(told.bytes() == wanted)
}

// Whether a reply in a phase counts for its rows, in one piece and byte by byte, and at the first
// of three hosts too where the greeting doesn't leave it.
fn counts(
    alloc: Global,
    speech: Speech,
    row: &Row,
    form: &(u8, &[u8], &[u8]),
) -> Result<bool, NoMemory> {
    let wanted = wanted(alloc, row.3, row.4, form.2)?;
    let hosts: &[u8] = if row.1 > 0 || row.2 == 5 {
        b"one two three"
    } else {
        b"one"
    };
    let pieces = said(alloc, row.1, form.1, false)?;
    if !goes(alloc, speech, hosts, pieces, b"", wanted.bytes())? {
        return Ok(false);
    }
    let bytes = said(alloc, row.1, form.1, true)?;
    goes(alloc, speech, b"one", bytes, b"", wanted.bytes())
}

fn each_counts(alloc: Global, speech: Speech, row: &Row) -> bool {
    for form in &FORMS {
        if form.0 == row.2 && counts(alloc, speech, row, form) != Ok(true) {
            return false;
        }
    }
    true
}

// A reply of that phase that is cut behind so many bytes.
fn cut(alloc: Global, phase: u8, reply: &[u8]) -> Result<Seq<Text>, NoMemory> {
    let mut says = Seq::new(alloc);
    for at in 0..phase {
        say(&mut says, alloc, usual(at), false)?;
    }
    if !reply.is_empty() {
        say(&mut says, alloc, reply, false)?;
    }
    says.push(Text::new(alloc))?;
    Ok(says)
}

fn cut_counts(alloc: Global, speech: Speech, row: &Row) -> Result<bool, NoMemory> {
    let wanted = wanted(alloc, row.3, row.4, b"D(connection lost)")?;
    let reply = b"250-ok\r\n250 ok\r\n";
    for length in 0..reply.len() {
        let says = cut(alloc, row.1, &reply[..length])?;
        if !goes(alloc, speech, b"one", says, b"", wanted.bytes())? {
            return Ok(false);
        }
    }
    Ok(true)
}

// What is written where the last call before the close fails.
fn lost(alloc: Global, written: &[u8], keep: usize, rows: &[u8]) -> Result<Text, NoMemory> {
    let mut front = Text::of(alloc, &written[..keep.min(written.len())])?;
    front.extend(b"!-")?;
    wanted(alloc, front.bytes(), rows, b"D(device fault)")
}

// The call that reads the reply of a phase; but for the last phase the one before it writes.
fn read_of(phase: u8) -> u8 {
    match phase {
        0 => 1,
        1 => 3,
        2 => 5,
        3 => 7,
        4 => 9,
        5 => 11,
        6 => 13,
        _ => 14,
    }
}

// Whether a call that fails counts behind so many bytes of what is written.
fn call_counts(
    alloc: Global,
    speech: Speech,
    row: &Row,
    keep: usize,
    call: u8,
) -> Result<bool, NoMemory> {
    let wanted = lost(alloc, row.3, keep, row.4)?;
    let says = said(alloc, 9, b"", false)?;
    goes(alloc, speech, b"one", says, &[call], wanted.bytes())
}

// The read of each phase fails, and the write before it. Calls are counted from the dial on.
fn fault_counts(alloc: Global, speech: Speech, row: &Row) -> bool {
    let wrote = row.3.len().saturating_sub(1);
    let read = read_of(row.1);
    let (keep, write) = (wrote.saturating_sub(1), read.saturating_sub(1));
    call_counts(alloc, speech, row, wrote, read) == Ok(true)
        && (row.1 == 0 || row.1 == 7 || call_counts(alloc, speech, row, keep, write) == Ok(true))
}

// Whether each reply of a row counts, and where that is none in the grammar also one that is cut
// short and a call that fails.
fn holds(alloc: Global, speech: Speech, row: &Row) -> bool {
    each_counts(alloc, speech, row)
        && (row.2 != 0
            || cut_counts(alloc, speech, row) == Ok(true) && fault_counts(alloc, speech, row))
}

#[test]
fn replies_count_for_their_rows_and_none_are_cut_short_or_lost(rt: HostRuntime) {
    for (at, row) in ROWS.iter().enumerate() {
        for speech in &SPEECHES {
            assert!(rt;
                !is_of(row.0, *speech) || holds(rt.alloc(), *speech, row),
                "row {at}"
            );
        }
    }
}

/// How a host is left for the next: what it says before its line is gone, what is written, and what
/// the rows become where it is the last.
static LEFT: [(&[u8], &[u8], &[u8]); 4] = [
    (b"", b"!", b"D(device fault)"),
    (b"421 busy\r\n", b"+Q-", b"D(421 busy)"),
    (b"hello\r\n", b"+-", b"D(bad reply)"),
    (b"220-cut", b"+-", b"D(connection lost)"),
];

// The first so many of three hosts are left in that way.
fn left_so(alloc: Global, way: &(&[u8], &[u8], &[u8]), hosts: u8) -> Result<bool, NoMemory> {
    let mut says = Seq::new(alloc);
    let mut written = Text::new(alloc);
    for _host in 0..hosts {
        written.extend(way.1)?;
        if !way.0.is_empty() {
            say(&mut says, alloc, way.0, false)?;
        }
        if way.0.ends_with(b"cut") {
            says.push(Text::new(alloc))?;
        }
    }
    for at in 0..8u8 {
        say(&mut says, alloc, usual(at), false)?;
    }
    let mut rows: &[u8] = b"xx";
    if hosts < 3 {
        written.extend(b"+EMRRDTQ-")?;
        rows = b"SS";
    }
    let failing: &[u8] = if way.0.is_empty() { &[0, 1, 2] } else { &[] };
    let wanted = wanted(alloc, written.bytes(), rows, way.2)?;
    let first = (hosts as usize).min(failing.len());
    goes(
        alloc,
        Speech::Smtp,
        b"one two three",
        says,
        &failing[..first],
        wanted.bytes(),
    )
}

#[test]
fn hosts_are_left_for_the_next(rt: HostRuntime) {
    for hosts in 0..4u8 {
        for way in &LEFT {
            assert!(rt;
                left_so(rt.alloc(), way, hosts) == Ok(true),
                "{hosts} hosts"
            );
        }
    }
}

// A reply of so many lines of so many bytes.
fn long(alloc: Global, lines: u32, bytes: u32) -> Result<Text, NoMemory> {
    let mut reply = Text::new(alloc);
    for line in 0..lines {
        reply.extend(if line + 1 < lines { b"250-" } else { b"250 " })?;
        for _byte in 6..bytes {
            reply.push(b'a')?;
        }
        reply.extend(b"\r\n")?;
    }
    Ok(reply)
}

/// The lines of a reply, the bytes of each, and what is told.
static LONG: [(u32, u32, &[u8]); 3] = [
    (100, 2048, b"+EMRRDTQ-=SS"),
    (101, 6, b"+EMR-=D(bad reply)D(bad reply)"),
    (1, 2049, b"+EMR-=D(bad reply)D(bad reply)"),
];

fn long_counts(alloc: Global, row: &(u32, u32, &[u8])) -> Result<bool, NoMemory> {
    let reply = long(alloc, row.0, row.1)?;
    let says = said(alloc, 3, reply.bytes(), false)?;
    goes(alloc, Speech::Smtp, b"one", says, b"", row.2)
}

#[test]
fn a_reply_has_a_hundred_lines(rt: HostRuntime) {
    for (at, row) in LONG.iter().enumerate() {
        assert!(rt; long_counts(rt.alloc(), row) == Ok(true), "row {at}");
    }
}
