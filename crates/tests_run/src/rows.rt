// What an address comes to: its rows, or why it has none.
use crate::listed::{add, put_error, put_rows};
use crate::worlds::{World, files_of, world_of, world_with};
use alias_expand::{ExpandRefusal, expand};
use mail_base::{Draw, NoMemory, Seq, Text};
use std::alloc::Global;
use std::test::Fail;

// An address, its sender, and the rows that it comes to, each as its text, `=` where it stands for
// the address itself, its sender, and where it goes; or the refusal.
type Row = (&'static [u8], &'static [u8], &'static [u8]);

static ROWS: [Row; 3] = [
    (
        b"two",
        b"<s>",
        b"ann<olga>local//ann;bob@far<olga>smtp/far/bob;",
    ),
    (b"ann", b"<s>", b"ann=<s>local//ann;"),
    // No alias stands for it.
    (b"\\one", b"<s>", b"\\one=<s>local//one;"),
];

fn put_refusal(out: &mut Text, refusal: &ExpandRefusal) -> Result<(), NoMemory> {
    match refusal {
        ExpandRefusal::Refuses(error) => {
            out.extend(b"refused ")?;
            put_error(out, error)
        }
        ExpandRefusal::IncludeAbsent(name) => add(out, &[b"absent ", name.bytes()]),
        ExpandRefusal::TooDeep => out.extend(b"too deep"),
        ExpandRefusal::TooMany => out.extend(b"too many"),
        ExpandRefusal::NoOne => out.extend(b"no one"),
        ExpandRefusal::FilesFault => out.extend(b"a fault of files"),
        ExpandRefusal::NoMemory => Err(NoMemory),
    }
}

fn put_outcome(out: &mut Text, outcome: &Result<Seq<Draw>, ExpandRefusal>) -> Result<(), NoMemory> {
    match outcome {
        Ok(rows) => put_rows(out, rows),
        Err(refusal) => put_refusal(out, refusal),
    }
}

fn is_right(alloc: Global, world: &World, row: &Row) -> Result<bool, Fail> {
    let mut files = files_of(alloc, &[])?;
    let address = Text::of(alloc, row.0)?;
    let sender = Text::of(alloc, row.1)?;
    let outcome = expand(
        alloc,
        &world.aliases,
        &world.homes,
        &world.config,
        &world.maps,
        &world.config.macros,
        &mut files,
        &address,
        &sender,
    );
    let mut out = Text::new(alloc);
    put_outcome(&mut out, &outcome)?;
    Ok(out.bytes() == row.2)
}

#[test]
fn addresses_have_their_rows(rt: HostRuntime) -> Result<(), Fail> {
    let world = world_of(rt.alloc())?;
    for (at, row) in ROWS.iter().enumerate() {
        assert!(rt; is_right(rt.alloc(), &world, row)?, "row {at}");
    }
    Ok(())
}

// An alias of so many members, for each of which a file is read.
fn reading_so_often(alloc: Global, count: u32) -> Result<Text, NoMemory> {
    let mut text = Text::of(alloc, b"all: ann")?;
    for number in 0..count {
        add_words(&mut text, &format!(in alloc; ", r{number}")?)?;
    }
    for number in 0..count {
        add_words(
            &mut text,
            &format!(in alloc; "\nr{number}: :include:/empty")?,
        )?;
    }
    Ok(text)
}

fn add_words(text: &mut Text, words: &str) -> Result<(), NoMemory> {
    text.extend(words.as_bytes())
}

/// How many files are read for the members of an alias, and what it comes to.
static OFTEN: [(u32, &[u8]); 2] = [(20_000, b"ann<s>local//ann;"), (20_001, b"too many")];

fn is_read_so_often(alloc: Global, count: u32, told: &'static [u8]) -> Result<bool, Fail> {
    let world = world_with(alloc, &reading_so_often(alloc, count)?)?;
    is_right(alloc, &world, &(b"all", b"<s>", told))
}

#[test]
fn files_are_read_so_often_and_no_more(rt: HostRuntime) -> Result<(), Fail> {
    for row in &OFTEN {
        assert!(rt;
            is_read_so_often(rt.alloc(), row.0, row.1)?,
            "{} files",
            row.0
        );
    }
    Ok(())
}
