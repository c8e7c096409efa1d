// What check sets say of addresses that no session brings, and each cause.
use crate::route_rules::Line;
use crate::route_shown::put_error;
use crate::route_world::world_of;
use crate::world::World;
use addr_route::check;
use mail_base::{Go, NoMemory, RouteError, Text};
use std::alloc::Global;
use std::test::Fail;

/// A set, an address, and what the set says of it.
type Row = (&'static str, &'static str, &'static str);

static LINES: [Line; 3] = [
    (0, "check_mail", "< plain >", Go::Return, "x"),
    (
        0,
        "check_mail",
        "< error >",
        Go::Return,
        "$#error $@ 5.7.1 $: \"553 Access denied\"",
    ),
    (0, "3", "$*", Go::Return, "$#error $@ nouser"),
];

static ROWS: [Row; 7] = [
    ("none", "<x", "accepts"),
    ("0", "<x", "accepts"),
    ("empty", "<x", "553 5.1.3 Bad address (BadAddress)"),
    (
        "check_mail",
        "<error>",
        "553 5.7.1 Access denied (ErrorMailer)",
    ),
    ("check_mail", "plain", "accepts"),
    ("check_mail", "<\"x>", "553 5.1.3 Bad address (BadAddress)"),
    ("3", "<x>", "550 5.1.1 Refused (ErrorMailer)"),
];

fn put_answer(out: &mut Text, error: &Option<RouteError>) -> Result<(), NoMemory> {
    match error {
        Some(error) => put_error(out, error),
        None => out.extend(b"accepts"),
    }
}

fn put_check(out: &mut Text, world: &World, row: &Row) -> Result<(), NoMemory> {
    let alloc = out.allocator();
    let config = &world.config;
    let set = Text::of(alloc, row.0.as_bytes())?;
    let address = Text::of(alloc, row.1.as_bytes())?;
    let error = check(alloc, config, &world.maps, &config.macros, &set, &address)?;
    put_answer(out, &error)
}

fn says_so(alloc: Global, world: &World, row: &Row) -> Result<bool, NoMemory> {
    let mut out = Text::new(alloc);
    put_check(&mut out, world, row)?;
    Ok(out.bytes() == row.2.as_bytes())
}

#[test]
fn check_sets_refuse_or_accept(rt: HostRuntime) -> Result<(), Fail> {
    let world = world_of(rt.alloc(), &LINES, 0)?;
    for (at, row) in ROWS.iter().enumerate() {
        assert!(rt; says_so(rt.alloc(), &world, row)?, "row {at}");
    }
    Ok(())
}
