ghost use Rattle.std.specs.Prelude.{◌≤◌};
ghost use Rattle.mail_base.specs.Limits.{most_message};

use crate::texts::{add, add_number};
use mail_base::{Config, NoMemory, Precedence, Seq, Split, Text};
use mail_header::{Gathering, class_of, date_of, hops, split};
use std::alloc::Global;

/// A message's text, and its headers and body, as `shown` writes them.
type Row = (&'static [u8], &'static [u8]);

static ROWS: [Row; 24] = [
    (b"", b"{}"),
    (b"\r\n", b"{}"),
    (b"\r\n\r\nx\r\n", b"{\r\nx\r\n}"),
    (b"hi\r\n", b"{hi\r\n}"),
    (b"a: b\r\n", b"<a: b>{}6"),
    (b"a: b\r\n\r\nhi\r\n", b"<a: b>{hi\r\n}6"),
    (b"a: b\r\n\r\n\r\nhi\r\n", b"<a: b>{\r\nhi\r\n}6"),
    (b"a: b\r\nhi\r\n", b"<a: b>{hi\r\n}6"),
    (b"a:b\r\nc:\r\n\r\n", b"<a:b><c:>{}9"),
    (
        b"a: b\r\n c\r\n\td\r\ne: f\r\n\r\n",
        b"<a: b\r\n c\r\n\td><e: f>{}20",
    ),
    (b" a\r\na: b\r\n", b"{ a\r\na: b\r\n}"),
    (b": b\r\n", b"{: b\r\n}"),
    (b"a b: c\r\n", b"{a b: c\r\n}"),
    (b"a\x7f: c\r\n", b"{a\x7f: c\r\n}"),
    (b"a!~: c\r\n", b"<a!~: c>{}8"),
    (b"a: \xff\x00\r\n", b"<a: \xff\x00>{}7"),
    (b"\xc3: c\r\n", b"{\xc3: c\r\n}"),
    (b"a: b\rc\r\nd: e\r\n", b"{a: b\rc\r\nd: e\r\n}"),
    (b"a: b\nc: d\r\n", b"{a: b\nc: d\r\n}"),
    (b"a: b\r\n c\nd\r\n", b"<a: b>{ c\nd\r\n}6"),
    (b"a: b\r\n c\r\r\n", b"<a: b>{ c\r\r\n}6"),
    (b"a: b", b"{a: b}"),
    (b"a: b\r\nc: d", b"<a: b>{c: d}6"),
    (b"a: b\r\n\r\nno end", b"<a: b>{no end}6"),
];

fn show(text: &mut Text, split: &Split) -> Result<(), NoMemory> {
    for header in split.headers.items() {
        add(text, &[b"<", header.bytes(), b">"])?;
    }
    add(text, &[b"{", split.body.bytes(), b"}"])?;
    if split.block == 0 {
        return Ok(());
    }
    add_number(text, split.block.into())
}

fn splits_so(alloc: Global, row: &Row) -> Result<bool, NoMemory> {
    let message = Text::of(alloc, row.0)?;
    let split = split(&message)?;
    let mut text = Text::new(alloc);
    show(&mut text, &split)?;
    Ok(text.bytes() == row.1)
}

/// The lines of a text, gathered; a last one without its end isn't taken.
fn gather(alloc: Global, text: &[u8], limit: u64) -> Result<Gathering, NoMemory>
    requires { limit ≤ most_message }
{
    let mut gathering = Gathering::new(alloc);
    let mut start = 0;
    for end in 1..text.len() {
        if text[end - 1] == b'\r' && text[end] == b'\n' && start < end {
            gathering.add(&text[start..end - 1], limit)?;
            start = end + 1;
        }
    }
    Ok(gathering)
}

#[tactic(auto, unfolding(mail_base::specs::Limits::most_message))]
fn gathers_so(alloc: Global, row: &Row) -> Result<bool, NoMemory> {
    let gathering = gather(alloc, row.0, 1000)?;
    let mut text = Text::new(alloc);
    show(&mut text, &gathering.into_split())?;
    Ok(text.bytes() == row.1)
}

#[test]
fn texts_are_split_and_lines_gathered(rt: HostRuntime) {
    for (at, row) in ROWS.iter().enumerate() {
        assert!(rt; splits_so(rt.alloc(), row) == Ok(true), "row {at}");
        // Of the last three texts the last line has no end.
        assert!(rt;
            at > 20 || gathers_so(rt.alloc(), row) == Ok(true),
            "row {at} by lines"
        );
    }
}

// Whether of a text of 12 bytes so many headers and bytes of its body are kept.
fn is_kept(alloc: Global, most: u64, headers: usize, body: usize) -> Result<bool, NoMemory>
    requires { most ≤ most_message }
{
    let gathering = gather(alloc, b"a: b\r\n\r\nhi\r\n", most)?;
    let is_counted = gathering.size() == 12 && !gathering.is_large_block();
    let split = gathering.into_split();
    Ok(is_counted && split.headers.len() == headers && split.body.len() == body)
}

#[test]
#[tactic(auto, unfolding(mail_base::specs::Limits::most_message))]
fn limits_are_kept(rt: HostRuntime) {
    assert!(rt; is_kept(rt.alloc(), 12, 1, 4) == Ok(true));
    assert!(rt; is_kept(rt.alloc(), 11, 0, 0) == Ok(true));
}

/// What is told of headers: how many are `Received`, the class of their message, and its date,
/// where it was created at the beginning of 2026.
enum Told {
    Hops(u32),
    Class(i64),
    Date(&'static [u8]),
}

static TOLD: [(&[u8], Told); 20] = [
    (b"", Told::Hops(0)),
    (
        b"Received: a\r\nreceived:b\r\nRECEIVED: c\r\n",
        Told::Hops(3),
    ),
    (
        b"Received-SPF: a\r\nX-Received: b\r\nReceive: c\r\n",
        Told::Hops(0),
    ),
    (b"Subject: Received: a\r\n Received: b\r\n", Told::Hops(0)),
    (b"Received: a\r\n\tb\r\n\r\nReceived: c\r\n", Told::Hops(1)),
    (b"", Told::Class(0)),
    (b"Precedence: junk\r\n", Told::Class(-100)),
    (b"precedence:\t JuNK \r\n", Told::Class(-100)),
    (b"Precedence:\r\n junk\r\n", Told::Class(-100)),
    (b"Precedence: junk\r\n \r\n", Told::Class(-100)),
    (
        b"Precedence: bulk\r\nPrecedence: special\r\n",
        Told::Class(100),
    ),
    (
        b"Precedence: special\r\nPrecedence: junk\r\n",
        Told::Class(100),
    ),
    (b"Precedence: junk mail\r\n", Told::Class(0)),
    (b"X-Precedence: junk\r\n", Told::Class(0)),
    (b"", Told::Date(b"Thu, 1 Jan 2026 00:00:00 +0000")),
    (
        b"Date:  Fri, 2 Jan 2026 \r\n",
        Told::Date(b"Fri, 2 Jan 2026"),
    ),
    (b"date: a\r\n b\r\nDate: c\r\n", Told::Date(b"a")),
    (
        b"Date: \t\r\nDate: c\r\n",
        Told::Date(b"Thu, 1 Jan 2026 00:00:00 +0000"),
    ),
    (
        b"Date:\r\n later\r\n",
        Told::Date(b"Thu, 1 Jan 2026 00:00:00 +0000"),
    ),
    (
        b"X-Date: a\r\n",
        Told::Date(b"Thu, 1 Jan 2026 00:00:00 +0000"),
    ),
];

pub(crate) fn add_class(config: &mut Config, name: &[u8], class: i64) -> Result<(), NoMemory> {
    let name = Text::of(config.precedences.allocator(), name)?;
    config.precedences.push(Precedence { name, class })
}

static CLASSES: [(&[u8], i64); 4] = [
    (b"first-class", 0),
    (b"junk", -100),
    (b"JUNK", 5),
    (b"special", 100),
];

fn classes(alloc: Global) -> Result<Config, NoMemory> {
    let mut config = Config::new(alloc)?;
    for (name, class) in &CLASSES {
        add_class(&mut config, name, *class)?;
    }
    Ok(config)
}

fn is_date(headers: &Seq<Text>, wanted: &[u8]) -> Result<bool, NoMemory> {
    Ok(date_of(headers, 1_767_225_600)?.bytes() == wanted)
}

fn are_so(config: &Config, headers: &Seq<Text>, told: &Told) -> Result<bool, NoMemory> {
    match told {
        Told::Hops(count) => Ok(headers.len() <= 100 && hops(headers) == *count),
        Told::Class(class) => Ok(class_of(config, headers) == *class),
        Told::Date(date) => is_date(headers, date),
    }
}

fn is_told(config: &Config, row: &(&[u8], Told)) -> Result<bool, NoMemory> {
    let text = Text::of(config.headers.allocator(), row.0)?;
    are_so(config, &split(&text)?.headers, &row.1)
}

#[test]
fn hops_classes_and_dates_are_told(rt: HostRuntime) -> Result<(), NoMemory> {
    let config = classes(rt.alloc())?;
    for (at, row) in TOLD.iter().enumerate() {
        assert!(rt; is_told(&config, row) == Ok(true), "row {at}");
    }
    Ok(())
}
