use crate::outgoing::add_line;
use mail_base::{Config, NoMemory, Text};
use mail_header::received;
use std::alloc::Global;

/// The template of an H line, the value of the macro x, and the header that is made.
type Row = (&'static [u8], &'static [u8], &'static [u8]);

static ROWS: [Row; 12] = [
    (b"from $x", b"c", b"rECEIVED: from c"),
    (b"", b"c", b"rECEIVED:"),
    (b"$x", b"", b"rECEIVED:"),
    (b"from ${x", b"c", b"rECEIVED:"),
    (b"$?x a", b"c", b"rECEIVED:"),
    (b"a\n\tb", b"c", b"rECEIVED: a\n\tb"),
    (b"a\nb", b"c", b"rECEIVED: a b"),
    (b"$x\n b", b"c\r", b"rECEIVED: c\r\n b"),
    (b"$x", b"c\r\nd", b"rECEIVED: c  d"),
    (b"$x", b"c\r\n d", b"rECEIVED: c\r\n d"),
    (b"$x", b"c\rd\n", b"rECEIVED: c d "),
    (b"$x$x", b"\n", b"rECEIVED:   "),
];

fn set(config: &mut Config, value: &[u8]) -> Result<(), NoMemory> {
    let alloc = config.headers.allocator();
    let name = Text::of(alloc, b"x")?;
    let value = Text::of(alloc, value)?;
    config.macros.set(&name, &value)
}

fn add_lines(config: &mut Config, template: &'static [u8]) -> Result<(), NoMemory> {
    add_line(config, &(b"q", b"Subject", b"none"))?;
    add_line(config, &(b"q", b"rECEIVED", template))?;
    add_line(config, &(b"q", b"Received", b"second"))
}

fn is_made(alloc: Global, row: &Row) -> Result<bool, NoMemory> {
    let mut config = Config::new(alloc)?;
    add_lines(&mut config, row.0)?;
    set(&mut config, row.1)?;
    match received(&config, &config.macros)? {
        Some(header) => Ok(header.bytes() == row.2),
        None => Ok(false),
    }
}

fn is_made_of_nothing(alloc: Global) -> Result<bool, NoMemory> {
    let config = Config::new(alloc)?;
    Ok(received(&config, &config.macros)?.is_some())
}

#[test]
fn received_is_made(rt: HostRuntime) {
    assert!(rt; is_made_of_nothing(rt.alloc()) == Ok(false));
    for (at, row) in ROWS.iter().enumerate() {
        assert!(rt; is_made(rt.alloc(), row) == Ok(true), "row {at}");
    }
}
