// The senders that mailers are given, and addresses behind the sets of a mailer.
use crate::route_rules::Line;
use crate::route_shown::put_cause;
use crate::route_world::world_of;
use crate::world::World;
use addr_route::{Rewritten, recipient_sets, rewrite, sender_for, sender_sets};
use mail_base::{Go, Mailer, NoMemory, Seq, Text};
use std::alloc::Global;
use std::test::Fail;

/// A mailer, an address, the sender that the mailer is given, and the address behind the mailer's
/// sets for senders and for recipients.
type Row = (
    &'static str,
    &'static str,
    &'static str,
    &'static str,
    &'static str,
);

// Each set adds its name.
static LINES: [Line; 8] = [
    (0, "3", "< $+ >", Go::Next, "$1"),
    (0, "3", "loop", Go::Again, "loop"),
    (0, "3", "$+", Go::Next, "$1 . 3"),
    (0, "1", "$+", Go::Next, "$1 . 1"),
    (0, "2", "$+", Go::Next, "$1 . 2"),
    (0, "4", "$+", Go::Next, "$1 . 4"),
    (0, "out", "$+", Go::Next, "$1 . out"),
    (0, "in", "$+", Go::Next, "$1 . in"),
];

static ROWS: [Row; 8] = [
    (
        "smtp",
        "<Bob@c>",
        "Bob@c.3.1.out.4",
        "Bob@c.3.1.out.4",
        "Bob@c.3.2.in.4",
    ),
    (
        "local",
        "<bob@c>",
        "bob@c.3.1.4",
        "bob@c.3.1.4",
        "bob@c.3.2.4",
    ),
    ("local", "bob", "bob.3.1.4", "bob.3.1.4", "bob.3.2.4"),
    ("local", "<>", "", "<>.3.1.4", "<>.3.2.4"),
    ("lost", "<bob@c>", "bob@c", " (NoRuleset)", " (NoRuleset)"),
    ("local", "<loop>", "loop", " (Loop)", " (Loop)"),
    ("local", "<bob", "<bob", " (BadAddress)", " (BadAddress)"),
    (
        "local",
        "<\"bob>",
        "\"bob",
        " (BadAddress)",
        " (BadAddress)",
    ),
];

fn put_rewritten(out: &mut Text, rewritten: &Rewritten) -> Result<(), NoMemory> {
    match rewritten {
        Rewritten::Gives(text) => out.extend(text.bytes()),
        Rewritten::Refuses(cause) => put_cause(out, cause.name()),
    }
}

fn put_behind(
    out: &mut Text,
    world: &World,
    sets: &Seq<Text>,
    address: &Text,
) -> Result<(), NoMemory> {
    let config = &world.config;
    let alloc = out.allocator();
    let rewritten = rewrite(alloc, config, &world.maps, &config.macros, sets, address)?;
    put_rewritten(out, &rewritten)
}

fn is_behind(
    world: &World,
    sets: &Seq<Text>,
    address: &Text,
    wanted: &str,
) -> Result<bool, NoMemory> {
    let mut out = Text::new(address.allocator());
    put_behind(&mut out, world, sets, address)?;
    Ok(out.bytes() == wanted.as_bytes())
}

fn is_sender(
    world: &World,
    mailer: &Mailer,
    address: &Text,
    wanted: &str,
) -> Result<bool, NoMemory> {
    let config = &world.config;
    let alloc = address.allocator();
    let given = sender_for(alloc, config, &world.maps, &config.macros, mailer, address)?;
    Ok(given.bytes() == wanted.as_bytes())
}

fn are_behind(world: &World, mailer: &Mailer, address: &Text, row: &Row) -> Result<bool, NoMemory> {
    let alloc = address.allocator();
    Ok(
        is_sender(world, mailer, address, row.2)?
            && is_behind(world, &sender_sets(alloc, mailer)?, address, row.3)?
            && is_behind(world, &recipient_sets(alloc, mailer)?, address, row.4)?,
    )
}

fn is_so(alloc: Global, world: &World, row: &Row) -> Result<bool, NoMemory> {
    let name = Text::of(alloc, row.0.as_bytes())?;
    match world.config.mailer(&name) {
        Some(mailer) => are_behind(world, mailer, &Text::of(alloc, row.1.as_bytes())?, row),
        None => Ok(false),
    }
}

#[test]
fn senders_and_recipients_go_through_their_sets(rt: HostRuntime) -> Result<(), Fail> {
    let world = world_of(rt.alloc(), &LINES, 0)?;
    for (at, row) in ROWS.iter().enumerate() {
        assert!(rt; is_so(rt.alloc(), &world, row)?, "row {at}");
    }
    Ok(())
}
