// Groups of rows, rows that stay once, and parts: those that no session has.
use crate::drawn::{put_addresses, rows_of, word};
use crate::listed::add;
use crate::samples::config_of;
use mail_base::{Config, Cut, NoMemory, Seq, Text, words_of};
use map_tables::Maps;
use queue_plan::{distinct, group_of, parts};
use std::alloc::Global;
use std::test::Fail;

// The set answers by the address.
static SET: &[u8] = b"Qbulk, r=100\nQslow\nMsmtp, P=[IPC], F=mu, Q=bulk, A=TCP $h\n\
    Squeuegroup\nR<slow>\t$#slow\n";

/// An address, the name of a mailer, and the group.
type GroupRow = (&'static [u8], &'static [u8], &'static [u8]);

static GROUPS: [GroupRow; 5] = [
    (b"<slow>", b"smtp", b"slow"),
    (b"<u1@far.example>", b"SMTP", b"bulk"),
    // There is no such mailer.
    (b"<ann@mx.example>", b"other", b"mqueue"),
    // The address can't be cut into tokens.
    (b"<slow", b"smtp", b"bulk"),
    (b"", b"smtp", b"bulk"),
];

fn is_in_group(
    alloc: Global,
    config: &Config,
    maps: &Maps,
    row: &GroupRow,
) -> Result<bool, NoMemory> {
    let address = Text::of(alloc, row.0)?;
    let mailer = Text::of(alloc, row.1)?;
    let group = group_of(alloc, config, maps, &config.macros, &address, &mailer)?;
    Ok(group.bytes() == row.2)
}

#[test]
fn rows_have_their_groups(rt: HostRuntime) -> Result<(), Fail> {
    let config = config_of(rt.alloc(), SET)?;
    let maps = Maps::load(
        rt.alloc(),
        &config,
        &Seq::new(rt.alloc()),
        &Text::new(rt.alloc()),
    )?;
    for (at, row) in GROUPS.iter().enumerate() {
        assert!(rt;
            is_in_group(rt.alloc(), &config, &maps, row) == Ok(true),
            "row {at}"
        );
    }
    Ok(())
}

/// The lines of rows, and what is made of them.
type Row = (&'static [&'static [u8]], &'static [u8]);

static ONCE: [Row; 4] = [
    (&[], b""),
    (&[b"b <s> local h c", b"a <t> local h c"], b" b"),
    // Words don't run together.
    (&[b"a <s> local h u", b"c <s> local hu "], b" a c"),
    // A row that goes and one that is refused are never equal.
    (
        &[b"a <s> error x", b"a <s> local h u", b"a <s> error x"],
        b" a a",
    ),
];

fn are_kept(alloc: Global, row: &Row) -> Result<bool, NoMemory> {
    let rows = distinct(alloc, rows_of(alloc, row.0)?)?;
    let mut out = Text::new(alloc);
    put_addresses(&mut out, rows.items())?;
    Ok(out.bytes() == row.1)
}

#[test]
fn equal_rows_stay_once(rt: HostRuntime) {
    for (at, row) in ONCE.iter().enumerate() {
        assert!(rt; are_kept(rt.alloc(), row) == Ok(true), "row {at}");
    }
}

static CONFIG: &[u8] = b"Qtwo, r=2\nQone, r=1\nQany\n";

// Each line has its group as the sixth word.
static PARTS: [Row; 3] = [
    // A group that isn't there has no limit.
    (
        &[
            b"a <s> m h u none",
            b"b <s> m h v none",
            b"c <s> m h w none",
        ],
        b"<s> none: a b c\n",
    ),
    // Sender and group don't run together.
    (
        &[b"a <s> m h u any", b"b <s>a m h v ny"],
        b"<s> any: a\n<s>a ny: b\n",
    ),
    // Senders, groups and limits at once: a part that is full doesn't come behind others.
    (
        &[
            b"a <t> m h 1 two",
            b"b <s> m h 2 two",
            b"c <t> m h 3 one",
            b"d <t> m h 4 two",
            b"e <t> m h 5 two",
            b"f <t> m h 6 one",
        ],
        b"<t> two: a d\n<t> two: e\n<s> two: b\n<t> one: c\n<t> one: f\n",
    ),
];

fn groups_of(alloc: Global, lines: &[&[u8]]) -> Result<Seq<Text>, NoMemory> {
    let mut groups = Seq::new(alloc);
    for line in lines {
        let words = words_of(alloc, line)?;
        groups.push(Text::of(alloc, word(&words, 5))?)?;
    }
    Ok(groups)
}

fn put_part(out: &mut Text, cut: &Cut) -> Result<(), NoMemory> {
    add(out, &[cut.sender.bytes(), b" ", cut.group.bytes(), b":"])?;
    put_addresses(out, cut.rows.items())?;
    out.push(b'\n')
}

fn put_parts(out: &mut Text, cuts: &[Cut]) -> Result<(), NoMemory> {
    for cut in cuts {
        put_part(out, cut)?;
    }
    Ok(())
}

fn is_parted(alloc: Global, config: &Config, row: &Row) -> Result<bool, NoMemory> {
    let rows = rows_of(alloc, row.0)?;
    let groups = groups_of(alloc, row.0)?;
    if groups.len() != rows.len() {
        return Ok(false);
    }
    let cuts = parts(alloc, &rows, &groups, config)?;
    let mut out = Text::new(alloc);
    put_parts(&mut out, cuts.items())?;
    Ok(out.bytes() == row.1)
}

#[test]
fn rows_are_cut_into_parts(rt: HostRuntime) -> Result<(), Fail> {
    let config = config_of(rt.alloc(), CONFIG)?;
    for (at, row) in PARTS.iter().enumerate() {
        assert!(rt; is_parted(rt.alloc(), &config, row) == Ok(true), "row {at}");
    }
    Ok(())
}
