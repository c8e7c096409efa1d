// The rows of receivers of returned mail.
ghost use Rattle.std.specs.Prelude.{IfOk};
ghost use Rattle.mail_base.specs.Texts.{IsAddress};

use crate::listed::put_rows;
use crate::worlds::{World, crowded, files_of, world_of};
use mail_base::{Draw, Draws, JudgeFault, NoMemory, Seq, Text};
use mail_edge::MemFiles;
use mail_judge::{Grounds, Rules};
use std::alloc::Global;
use std::test::Fail;

// The files: those of all cases, a crowd, or those of which the first call fails.
enum Files {
    All,
    Crowd,
    Failing,
}

fn files_for(alloc: Global, files: &Files) -> Result<MemFiles, Fail> {
    match files {
        Files::All => files_of(alloc, &[]),
        Files::Crowd => crowded(alloc),
        Files::Failing => files_of(alloc, &[0]),
    }
}

// Files, a receiver, and its rows: each as its address, `=` where it stands for the receiver
// itself, its sender, and where it goes or why it goes nowhere.
type Row = (Files, &'static [u8], &'static [u8]);

static ROWS: [Row; 12] = [
    // A leaf, an alias of two members whose owner isn't their sender, and a file that is included.
    (Files::All, b"<ann>", b"<ann>=<>local//ann;"),
    (Files::All, b"ann", b"ann=<>local//ann;"),
    (
        Files::All,
        b"<two>",
        b"ann<>local//ann;bob@far<>smtp/far/bob;",
    ),
    (
        Files::All,
        b"<inc>",
        b"ann<>local//ann;joe<>local//joe;bob@far<>smtp/far/bob;",
    ),
    // The macro f is the configuration's own.
    (Files::All, b"<x@by>", b"<x@by>=<>smtp/fset/x;"),
    // No check set is asked.
    (Files::All, b"<no>", b"<no>=<>local//no;"),
    // No rows by aliases: a route that is an error, levels, a file that isn't there, a loop, and
    // more members than an address may come to.
    (Files::All, b"<ann@off>", b"<ann@off>=<>550 no;"),
    (Files::All, b"<a1>", b"<a1>=<>local//a1;"),
    (Files::All, b"<lost>", b"<lost>=<>local//lost;"),
    (Files::All, b"<loop>", b"<loop>=<>local//loop;"),
    (Files::Crowd, b"<crowd>", b"<crowd>=<>local//crowd;"),
    // A receiver whose alias names a file makes the call that fails.
    (Files::Failing, b"<inc>", b"a fault of files"),
];

// A receiver on one line.
fn receiver_of(alloc: Global, address: &[u8]) -> Result<Text, Fail>
    ensures { IfOk result (λ receiver. IsAddress receiver) }
{
    if address.is_empty() || address.contains(&b'\n') {
        return Err(Fail::from("no receiver"));
    }
    Ok(Text::of(alloc, address)?)
}

fn drawn(
    alloc: Global,
    world: &World,
    files: &mut MemFiles,
    address: &[u8],
) -> Result<Result<Seq<Draw>, JudgeFault>, Fail> {
    let receiver = receiver_of(alloc, address)?;
    let grounds = Grounds::new(&world.config, &world.maps, &world.aliases, &world.homes);
    let mut rules = Rules {
        grounds: &grounds,
        files,
    };
    Ok(rules.draw(alloc, &receiver))
}

fn put_outcome(out: &mut Text, outcome: &Result<Seq<Draw>, JudgeFault>) -> Result<(), NoMemory> {
    match outcome {
        Ok(rows) => put_rows(out, rows),
        Err(JudgeFault::FilesFault) => out.extend(b"a fault of files"),
        Err(JudgeFault::NoMemory) => Err(NoMemory),
    }
}

fn is_right(alloc: Global, world: &World, row: &Row) -> Result<bool, Fail> {
    let mut files = files_for(alloc, &row.0)?;
    let outcome = drawn(alloc, world, &mut files, row.1)?;
    let mut out = Text::new(alloc);
    put_outcome(&mut out, &outcome)?;
    Ok(out.bytes() == row.2)
}

#[test]
fn receivers_have_their_rows(rt: HostRuntime) -> Result<(), Fail> {
    let world = world_of(rt.alloc())?;
    for (at, row) in ROWS.iter().enumerate() {
        assert!(rt; is_right(rt.alloc(), &world, row)?, "row {at}");
    }
    Ok(())
}
