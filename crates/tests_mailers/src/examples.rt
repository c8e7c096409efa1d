use crate::dialogues::{Telling, calls, letter_to, played};
use mail_base::{NoMemory, Seq, Text};
use mailer_smtp::{Letter, Speech};
use std::alloc::Global;

type Example = (
    u8,
    &'static [u8],
    &'static [u8],
    &'static str,
    &'static [u8],
    &'static [u8],
);

/// A delivery: by SMTP (s) or LMTP (l); its hosts and users, parted by blanks; what the hosts say,
/// in pieces parted by bars, an empty one being an end; the calls that fail; and what happens: `+`
/// and a host that is dialled, `!` a call that fails, what is written, `-` a close, and behind `=`
/// the rows.
static EXAMPLES: [Example; 12] = [
    // SMTP delivery
    (
        b's',
        b"127.0.0.1",
        b"ann@far.example",
        "220 hi\r\n|250 hi\r\n|250 ok\r\n|250 ok\r\n|354 go\r\n|250 ok\r\n",
        b"",
        b"+127.0.0.1 EHLO mx.example\r\nMAIL FROM:<bob@c.example>\r\n\
          RCPT TO:<ann@far.example>\r\nDATA\r\n..x\r\ny\r\n.\r\nQUIT\r\n-=S",
    ),
    (
        b's',
        b"127.0.0.1",
        b"ann@far.example",
        "220 hi\r\n|250-hi\r\n250 8bitmime\r\n|250 ok\r\n|451 later\r\n",
        b"",
        b"+127.0.0.1 EHLO mx.example\r\nMAIL FROM:<bob@c.example> BODY=8BITMIME\r\n\
          RCPT TO:<ann@far.example>\r\nQUIT\r\n-=D(451 later)",
    ),
    // second host
    (
        b's',
        b"nil far.example",
        b"a",
        "220 hi\r\n|250 hi\r\n|250 ok\r\n|250 ok\r\n|354 go\r\n|250 ok\r\n",
        b"\0",
        b"!nil +far.example EHLO mx.example\r\nMAIL FROM:<bob@c.example>\r\nRCPT TO:<a>\r\n\
          DATA\r\n..x\r\ny\r\n.\r\nQUIT\r\n-=S",
    ),
    // QUIT write fails
    (
        b's',
        b"one",
        b"a",
        "220 hi\r\n|250 hi\r\n|250 ok\r\n|250 ok\r\n|354 go\r\n|250 ok\r\n",
        b"\x0c",
        b"+one EHLO mx.example\r\nMAIL FROM:<bob@c.example>\r\nRCPT TO:<a>\r\nDATA\r\n..x\r\n\
          y\r\n.\r\n!-=S",
    ),
    // a reply each
    (
        b'l',
        b"one",
        b"a b c",
        "220 hi\r\n|250 hi\r\n|250 ok\r\n|250 ok\r\n|550 no\r\n|250 ok\r\n|354 go\r\n|250 ok\r\n\
          452 later\r\n",
        b"",
        b"+one LHLO mx.example\r\nMAIL FROM:<bob@c.example>\r\nRCPT TO:<a>\r\nRCPT TO:<b>\r\n\
          RCPT TO:<c>\r\nDATA\r\n..x\r\ny\r\n.\r\nQUIT\r\n-=SF(5.0.0 550 no)D(452 later)",
    ),
    // closed after one reply
    (
        b'l',
        b"one",
        b"a b c",
        "220 hi\r\n|250 hi\r\n|250 ok\r\n|250 ok\r\n|550 no\r\n|250 ok\r\n|354 go\r\n|\
          250 ok\r\n||",
        b"",
        b"+one LHLO mx.example\r\nMAIL FROM:<bob@c.example>\r\nRCPT TO:<a>\r\nRCPT TO:<b>\r\n\
          RCPT TO:<c>\r\nDATA\r\n..x\r\ny\r\n.\r\n-=SF(5.0.0 550 no)D(connection lost)",
    ),
    // No recipient is accepted.
    (
        b's',
        b"one",
        b"a b",
        "220 hi\r\n|250 hi\r\n|250 ok\r\n|550 no\r\n|450 no\r\n",
        b"",
        b"+one EHLO mx.example\r\nMAIL FROM:<bob@c.example>\r\nRCPT TO:<a>\r\nRCPT TO:<b>\r\n\
          QUIT\r\n-=F(5.0.0 550 no)D(450 no)",
    ),
    // HELO after a 5xx, and no BODY behind it.
    (
        b's',
        b"one",
        b"a",
        "220 hi\r\n|500-what\r\n500 8BITMIME\r\n|250 8BITMIME\r\n|552 no\r\n",
        b"",
        b"+one EHLO mx.example\r\nHELO mx.example\r\nMAIL FROM:<bob@c.example>\r\nQUIT\r\n\
          -=F(5.0.0 552 no)",
    ),
    // A 2xx to DATA is no reply in the grammar.
    (
        b's',
        b"one",
        b"a",
        "220 hi\r\n|250 hi\r\n|250 ok\r\n|250 ok\r\n|250 ok\r\n",
        b"",
        b"+one EHLO mx.example\r\nMAIL FROM:<bob@c.example>\r\nRCPT TO:<a>\r\nDATA\r\n\
          -=D(bad reply)",
    ),
    // No host is known.
    (
        b's',
        b"",
        b"a b",
        "",
        b"",
        b"=F(5.1.2 no host known)F(5.1.2 no host known)",
    ),
    // There is no recipient.
    (b's', b"one", b"", "", b"", b"="),
    // All that is said comes at once.
    (
        b'l',
        b"one",
        b"a",
        "220 hi\r\n250 hi\r\n250 ok\r\n250 ok\r\n354 go\r\n250 ok\r\n",
        b"",
        b"+one LHLO mx.example\r\nMAIL FROM:<bob@c.example>\r\nRCPT TO:<a>\r\nDATA\r\n..x\r\n\
          y\r\n.\r\nQUIT\r\n-=S",
    ),
];

fn speech_of(letter: u8) -> Speech {
    if letter == b'l' {
        return Speech::Lmtp;
    }
    Speech::Smtp
}

fn pieces(alloc: Global, says: &str) -> Result<Seq<Text>, NoMemory> {
    let mut pieces = Seq::new(alloc);
    for piece in says.split('|') {
        pieces.push(Text::of(alloc, piece.as_bytes())?)?;
    }
    Ok(pieces)
}

fn goes(alloc: Global, row: &Example) -> Result<bool, NoMemory> {
    let says = pieces(alloc, row.3)?;
    let failing = calls(alloc, row.4)?;
    let letter = letter_to(alloc, row.2)?;
    let told = played(
        alloc,
        Telling::Whole,
        speech_of(row.0),
        &letter,
        row.1,
        says,
        failing,
    )?;
    Ok(told.bytes() == row.5)
}

#[test]
fn a_letter_is_handed_over(rt: HostRuntime) {
    for (at, row) in EXAMPLES.iter().enumerate() {
        assert!(rt; goes(rt.alloc(), row) == Ok(true), "row {at}");
    }
}

fn put(letter: &mut Letter, place: u8, text: Text) -> Result<(), NoMemory> {
    match place {
        0 => letter.host = text,
        1 => letter.sender = text,
        _ => letter.users.push(text)?,
    }
    Ok(())
}

/// A text with a line end as the host (0), the sender (1) or a second user (2), and what becomes of
/// it.
static ENDS: [(u8, &[u8], &[u8]); 6] = [
    (0, b"mx\rexample", b"=F(5.1.3 bad address)"),
    (0, b"mx\nQUIT", b"=F(5.1.3 bad address)"),
    (1, b"a>\r\nRCPT TO:<b", b"=F(5.1.3 bad address)"),
    (1, b"\r", b"=F(5.1.3 bad address)"),
    (2, b"b\r", b"+EMRDTQ-=SF(5.1.3 bad address)"),
    (2, b"b>\nDATA", b"+EMRDTQ-=SF(5.1.3 bad address)"),
];

static WELL: &str = "220 a\r\n250 a\r\n250 a\r\n250 a\r\n354 a\r\n250 a\r\n";

fn stays_out(alloc: Global, row: &(u8, &[u8], &[u8])) -> Result<bool, NoMemory> {
    let text = Text::of(alloc, row.1)?;
    let says = pieces(alloc, WELL)?;
    let mut letter = letter_to(alloc, b"a")?;
    put(&mut letter, row.0, text)?;
    let told = played(
        alloc,
        Telling::Letters,
        Speech::Smtp,
        &letter,
        b"one",
        says,
        Seq::new(alloc),
    )?;
    Ok(told.bytes() == row.2)
}

#[test]
fn a_line_end_never_gets_into_a_command(rt: HostRuntime) {
    for (at, row) in ENDS.iter().enumerate() {
        assert!(rt; stays_out(rt.alloc(), row) == Ok(true), "row {at}");
    }
}
