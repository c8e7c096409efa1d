use crate::texts::add;
use mail_base::{Config, HeaderLine, Macros, Mailer, NoMemory, Seq, Split, Text};
use mail_header::{added, date_of, dated, outgoing, split};
use std::alloc::Global;

/// An H line: its flags, its name and its template.
pub(crate) type Line = (&'static [u8], &'static [u8], &'static [u8]);

static LINES: [Line; 10] = [
    (b"", b"Received", b"from $s"),
    (b"D", b"Date", b"$b"),
    (b"DM", b"Resent-Date", b"$b"),
    (b"F", b"From", b"$g"),
    (b"M", b"Message-Id", b"<$t.$i@$j>"),
    (b"P", b"Return-Path", b"<$g>"),
    (b"x", b"Full-Name", b"${x"),
    (b"y", b"X-Fold", b"a\n b\nc"),
    (b"", b"X-Always", b"$?z$z$|none$."),
    (b"", b"X-Empty", b"$z"),
];

static MACROS: [(&[u8], &[u8]); 4] = [
    (b"s", b"c.example"),
    (b"i", b"w000000000001"),
    (b"j", b"mx.example"),
    (b"g", b"bob@c.example"),
];

pub(crate) fn add_line(config: &mut Config, line: &Line) -> Result<(), NoMemory> {
    let alloc = config.headers.allocator();
    let flags = Text::of(alloc, line.0)?;
    let name = Text::of(alloc, line.1)?;
    let template = Text::of(alloc, line.2)?;
    config.headers.push(HeaderLine {
        flags,
        name,
        template,
    })
}

fn config_of(alloc: Global, lines: &[Line]) -> Result<Config, NoMemory> {
    let mut config = Config::new(alloc)?;
    for line in lines {
        add_line(&mut config, line)?;
    }
    Ok(config)
}

fn define(macros: &mut Macros, name: &[u8], value: &[u8]) -> Result<(), NoMemory> {
    let value = Text::of(macros.values().allocator(), value)?;
    macros.define(name, &value)
}

fn first_macros(alloc: Global) -> Result<Macros, NoMemory> {
    let mut macros = Macros::new(alloc);
    for row in &MACROS {
        define(&mut macros, row.0, row.1)?;
    }
    Ok(macros)
}

// The macros of a message at the beginning of 2026.
fn macros_of(alloc: Global) -> Result<Macros, NoMemory> {
    dated(alloc, first_macros(alloc)?, 1_767_225_600)
}

fn mailer_of(alloc: Global, path: &[u8], flags: &[u8], end: &[u8]) -> Result<Mailer, NoMemory> {
    let path = Text::of(alloc, path)?;
    let flags = Text::of(alloc, flags)?;
    let line_end = Text::of(alloc, end)?;
    Ok(Mailer {
        name: Text::new(alloc),
        path,
        flags,
        line_end,
        envelope_from: None,
        header_from: None,
        envelope_to: None,
        header_to: None,
        args: Seq::new(alloc),
        most: 0,
        group: None,
        batch: 1,
    })
}

fn show(text: &mut Text, headers: &Seq<Text>) -> Result<(), NoMemory> {
    for header in headers.items() {
        add(text, &[b"<", header.bytes(), b">"])?;
    }
    Ok(())
}

/// The mailer's flags, a header block, and the headers behind those of the block.
type Added = (&'static [u8], &'static [u8], &'static [u8]);

static ADDED: [Added; 14] = [
    (b"", b"", b"<X-Always: none><X-Empty:>"),
    (
        b"lsD",
        b"",
        b"<Date: Thu, 1 Jan 2026 00:00:00 +0000><X-Always: none><X-Empty:>",
    ),
    (
        b"F",
        b"",
        b"<From: bob@c.example><X-Always: none><X-Empty:>",
    ),
    (
        b"M",
        b"",
        b"<Message-Id: <202601010000.w000000000001@mx.example>><X-Always: none><X-Empty:>",
    ),
    (
        b"P",
        b"",
        b"<Return-Path: <bob@c.example>><X-Always: none><X-Empty:>",
    ),
    (b"x", b"", b"<Full-Name:><X-Always: none><X-Empty:>"),
    (b"y", b"", b"<X-Fold: a\n b c><X-Always: none><X-Empty:>"),
    (b"m", b"", b"<X-Always: none><X-Empty:>"),
    (b"D", b"DATE: x\r\nx-always: y\r\n", b"<X-Empty:>"),
    (
        b"F",
        b"From : x\r\n",
        b"<From: bob@c.example><X-Always: none><X-Empty:>",
    ),
    (
        b"D",
        b"resent-from: x\r\nDate: y\r\n",
        b"<Resent-Date: Thu, 1 Jan 2026 00:00:00 +0000><X-Always: none><X-Empty:>",
    ),
    (
        b"M",
        b"Resent-X: x\r\nmessage-id: y\r\n",
        b"<Resent-Date: Thu, 1 Jan 2026 00:00:00 +0000><X-Always: none><X-Empty:>",
    ),
    (
        b"D",
        b"Resent-Date: x\r\nDate: y\r\nX-Empty:\r\n",
        b"<X-Always: none>",
    ),
    (
        b"PM",
        b"Resent: x\r\nmessage-ID: y\r\nReturn-Path: z\r\n",
        b"<X-Always: none><X-Empty:>",
    ),
];

// Writes the headers with those that are added, and what is wanted of them.
fn show_added(
    config: &Config,
    macros: &Macros,
    row: &Added,
    text: &mut Text,
    wanted: &mut Text,
) -> Result<(), NoMemory> {
    let alloc = text.allocator();
    let mailer = mailer_of(alloc, b"/bin/mail", row.0, b"\n")?;
    let headers = split(&Text::of(alloc, row.1)?)?.headers;
    show(wanted, &headers)?;
    wanted.extend(row.2)?;
    show(text, &added(config, &mailer, macros, &headers)?)
}

fn adds_so(config: &Config, macros: &Macros, row: &Added) -> bool {
    let alloc = config.headers.allocator();
    let mut text = Text::new(alloc);
    let mut wanted = Text::new(alloc);
    show_added(config, macros, row, &mut text, &mut wanted).is_ok()
        && text.bytes() == wanted.bytes()
}

#[test]
fn headers_are_added(rt: HostRuntime) -> Result<(), NoMemory> {
    let config = config_of(rt.alloc(), &LINES)?;
    let macros = macros_of(rt.alloc())?;
    for (at, row) in ADDED.iter().enumerate() {
        assert!(rt; adds_so(&config, &macros, row), "row {at}");
    }
    Ok(())
}

/// The mailer's path, flags and line end, the macro g, a message, and what the mailer gets.
type Handed = (
    (&'static [u8], &'static [u8], &'static [u8]),
    &'static [u8],
    &'static [u8],
    &'static [u8],
);

static HANDED: [Handed; 19] = [
    // Line ends.
    (
        (b"/bin/mail", b"n", b"\n"),
        b"b@c",
        b"a: b\r\n\r\nhi\r\n",
        b"a: b\n\nhi\n",
    ),
    (
        (b"/bin/mail", b"n", b"\r\n"),
        b"b@c",
        b"a: b\r\n\r\nhi\r\n",
        b"a: b\r\n\r\nhi\r\n",
    ),
    (
        (b"[IPC]", b"m", b"\n"),
        b"b@c",
        b"a: b\r\n\r\nhi\r\n",
        b"a: b\r\n\r\nhi\r\n",
    ),
    (
        (b"[tcp]", b"", b"|"),
        b"b@c",
        b"a: b\r\n c\r\n",
        b"a: b\r\n c\r\n\r\n",
    ),
    (
        (b"/bin/mail", b"n", b"<E>"),
        b"b@c",
        b"a: b\r\n c\r\n\r\n\r\nhi\r\n",
        b"a: b<E> c<E><E><E>hi<E>",
    ),
    (
        (b"/bin/mail", b"n", b""),
        b"b@c",
        b"a: b\r\n\r\nhi\r\n",
        b"a: bhi",
    ),
    // No headers, no body, and both.
    ((b"/bin/mail", b"n", b"\n"), b"b@c", b"", b"\n"),
    (
        (b"/bin/mail", b"n", b"\n"),
        b"b@c",
        b"a: b\r\n",
        b"a: b\n\n",
    ),
    ((b"/bin/mail", b"n", b"\n"), b"b@c", b"hi\r\n", b"\nhi\n"),
    // A body's line ends at CR LF alone, and its last line may have no end.
    (
        (b"/bin/mail", b"n", b"\n"),
        b"b@c",
        b"\r\nno end",
        b"\nno end",
    ),
    (
        (b"[IPC]", b"", b"\n"),
        b"b@c",
        b"\r\na\r\nno end",
        b"\r\na\r\nno end",
    ),
    (
        (b"/bin/mail", b"n", b"|"),
        b"b@c",
        b"\r\na\nb\rc\r\r\nd\n\r\ne\r",
        b"|a\nb\rc\r|d\n|e\r",
    ),
    // Dots stay.
    (
        (b"[IPC]", b"", b"\n"),
        b"b@c",
        b"\r\n.\r\n..a\r\n",
        b"\r\n.\r\n..a\r\n",
    ),
    // The line `From `.
    (
        (b"/bin/mail", b"", b"\n"),
        b"b@c",
        b"a: b\r\n",
        b"From b@c Thu Jan  1 00:00:00 2026\na: b\n\n",
    ),
    (
        (b"/bin/mail", b"sN", b"\r\n"),
        b"",
        b"a: b\r\n",
        b"From MAILER-DAEMON Thu Jan  1 00:00:00 2026\r\na: b\r\n\r\n",
    ),
    (
        (b"/bin/mail", b"", b"\n"),
        b"b\r\nTo: c",
        b"",
        b"From b  To: c Thu Jan  1 00:00:00 2026\n\n",
    ),
    (
        (b"/bin/mail", b"", b"\n"),
        b"$j",
        b"",
        b"From mx.example Thu Jan  1 00:00:00 2026\n\n",
    ),
    (
        (b"/bin/mail", b"", b"\n"),
        b"${x",
        b"",
        b"From MAILER-DAEMON Thu Jan  1 00:00:00 2026\n\n",
    ),
    (
        (b"[IPC]", b"", b"\n"),
        b"b@c",
        b"From x\r\n",
        b"\r\nFrom x\r\n",
    ),
];

fn is_handed(alloc: Global, row: &Handed) -> Result<bool, NoMemory> {
    let (path, flags, end) = row.0;
    let mut macros = macros_of(alloc)?;
    define(&mut macros, b"g", row.1)?;
    let parts = split(&Text::of(alloc, row.2)?)?;
    let mailer = mailer_of(alloc, path, flags, end)?;
    is_outgoing(&mailer, &macros, &parts, row.3)
}

fn is_outgoing(
    mailer: &Mailer,
    macros: &Macros,
    parts: &Split,
    wanted: &[u8],
) -> Result<bool, NoMemory> {
    let text = outgoing(mailer, macros, &parts.headers, &parts.body)?;
    Ok(text.bytes() == wanted)
}

// Without the macros g and d the line `From ` is still one.
fn is_unnamed(alloc: Global) -> Result<bool, NoMemory> {
    let mailer = mailer_of(alloc, b"/bin/mail", b"", b"\n")?;
    let parts = split(&Text::new(alloc))?;
    is_outgoing(
        &mailer,
        &Macros::new(alloc),
        &parts,
        b"From MAILER-DAEMON \n\n",
    )
}

#[test]
fn mailers_get_their_text(rt: HostRuntime) {
    for (at, row) in HANDED.iter().enumerate() {
        assert!(rt; is_handed(rt.alloc(), row) == Ok(true), "row {at}");
    }
    assert!(rt; is_unnamed(rt.alloc()) == Ok(true));
}

/// The mailer's path and flags, and what it gets with the headers that are added: its first line
/// and what comes behind that, or nothing and all.
type Whole = (&'static [u8], &'static [u8], &'static [u8], &'static [u8]);

/// Of a message without headers and body: a header that an H line made keeps its line ends, which
/// become the mailer's.
static MADE: Whole = (
    b"[IPC]",
    b"y",
    b"",
    b"X-Fold: a\r\n b c\r\nX-Always: none\r\nX-Empty:\r\n\r\n",
);

/// The H lines, the macros, the mailers and the texts of the page OUTGOING in docs.
static PAGE_LINES: [Line; 5] = [
    (b"", b"Received", b"from $s by $j with $r id $i; $b"),
    (b"D", b"Date", b"$a"),
    (b"F", b"From", b"$g"),
    (b"M", b"Message-Id", b"<$t.$i@$j>"),
    (b"M", b"Resent-Message-Id", b"<$t.$i@$j>"),
];

static PAGE_MESSAGE: &[u8] = b"Received: from c.example by mx.example with ESMTP id w000000000001; \
    Thu, 1 Jan 2026 00:00:00 +0000\r\nSubject: hi\r\nTo: ann@mx.example\r\n\r\nhello\r\n.\r\n";

const PAGE_LOCAL: &[u8] = b"Received: from c.example by mx.example with ESMTP id w000000000001; \
    Thu, 1 Jan 2026 00:00:00 +0000\nSubject: hi\nTo: ann@mx.example\n\
    Date: Thu, 1 Jan 2026 00:00:00 +0000\nFrom: bob@c.example\n\
    Message-Id: <202601010000.w000000000001@mx.example>\n\nhello\n.\n";

const PAGE_FROM: &[u8] = b"From bob@c.example Thu Jan  1 00:00:10 2026\n";

const PAGE_SMTP: &[u8] = b"Received: from c.example by mx.example with ESMTP id w000000000001; \
    Thu, 1 Jan 2026 00:00:00 +0000\r\nSubject: hi\r\nTo: ann@mx.example\r\n\
    Date: Thu, 1 Jan 2026 00:00:00 +0000\r\nFrom: bob@c.example\r\n\
    Message-Id: <202601010000.w000000000001@mx.example>\r\n\r\nhello\r\n.\r\n";

static PAGE: [Whole; 3] = [
    (b"/bin/mail", b"lsDFMAw5n", b"", PAGE_LOCAL),
    (b"/bin/sh", b"lsDFM", PAGE_FROM, PAGE_LOCAL),
    (b"[IPC]", b"mDFMuX", b"", PAGE_SMTP),
];

/// The configuration, the macros and the message of which mailers get a text.
struct Ground {
    config: Config,
    macros: Macros,
    parts: Split,
}

// Written out, since a caller's proof goes through the parts of a derived drop at each way out.
impl Drop for Ground {
    fn drop(self) {
        let Ground {
            config: _,
            macros: _,
            parts: _,
        } = self;
    }
}

// The macros of a message at the beginning of 2026, ten seconds behind the moment of receipt.
fn page_macros(alloc: Global, headers: &Seq<Text>) -> Result<Macros, NoMemory> {
    let mut macros = first_macros(alloc)?;
    macros.define(b"a", &date_of(headers, 1_767_225_600)?)?;
    dated(alloc, macros, 1_767_225_610)
}

fn ground_of(alloc: Global, lines: &[Line], message: &[u8]) -> Result<Ground, NoMemory> {
    let config = config_of(alloc, lines)?;
    let parts = split(&Text::of(alloc, message)?)?;
    let macros = page_macros(alloc, &parts.headers)?;
    Ok(Ground {
        config,
        macros,
        parts,
    })
}

// What a mailer gets.
fn whole_text(ground: &Ground, path: &[u8], flags: &[u8]) -> Result<Text, NoMemory> {
    let alloc = ground.config.headers.allocator();
    let mailer = mailer_of(alloc, path, flags, b"\n")?;
    let headers = added(
        &ground.config,
        &mailer,
        &ground.macros,
        &ground.parts.headers,
    )?;
    outgoing(&mailer, &ground.macros, &headers, &ground.parts.body)
}

fn is_whole(ground: &Ground, row: &Whole) -> Result<bool, NoMemory> {
    let text = whole_text(ground, row.0, row.1)?;
    let bytes = text.bytes();
    Ok(
        bytes.len() == row.2.len() + row.3.len()
            && bytes.starts_with(row.2)
            && bytes.ends_with(row.3),
    )
}

#[test]
fn the_page_shows_what_mailers_get_and_made_headers_end_as_others(
    rt: HostRuntime,
) -> Result<(), NoMemory> {
    assert!(rt; is_whole(&ground_of(rt.alloc(), &LINES, b"")?, &MADE) == Ok(true));
    let page = ground_of(rt.alloc(), &PAGE_LINES, PAGE_MESSAGE)?;
    for (at, row) in PAGE.iter().enumerate() {
        assert!(rt; is_whole(&page, row) == Ok(true), "row {at}");
    }
    Ok(())
}
