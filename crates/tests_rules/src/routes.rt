// Where addresses go that are leaves, and each cause of an error.
use crate::route_rules::Line;
use crate::route_shown::put_resolved;
use crate::route_world::world_of;
use crate::world::World;
use addr_route::route;
use mail_base::{Go, NoMemory, Text};
use std::alloc::Global;
use std::test::Fail;

/// A case, an address, whether it is a leaf, and where it goes.
type Row = (usize, &'static str, bool, &'static str);

// Writes where an address goes.
fn put_route(out: &mut Text, world: &World, address: &Text, leaf: bool) -> Result<(), NoMemory> {
    let config = &world.config;
    let alloc = out.allocator();
    let resolved = route(alloc, config, &world.maps, &config.macros, address, leaf)?;
    put_resolved(out, &resolved)
}

fn goes_to(world: &World, address: &Text, leaf: bool, wanted: &str) -> Result<bool, NoMemory> {
    let mut out = Text::new(address.allocator());
    put_route(&mut out, world, address, leaf)?;
    Ok(out.bytes() == wanted.as_bytes())
}

fn is_so(alloc: Global, world: &World, row: &Row) -> Result<bool, NoMemory> {
    goes_to(world, &Text::of(alloc, row.1.as_bytes())?, row.2, row.3)
}

static LINES: [Line; 22] = [
    // Sets 3, 0 and 4 of a small configuration.
    (0, "3", "$* < $+ > $*", Go::Again, "$2"),
    (0, "3", "$+ @ $+", Go::Next, "$1 < @ $2 >"),
    (0, "0", "$+ < @ mx . example >", Go::Again, "$#LOCAL $: $1"),
    (
        0,
        "0",
        "$+ < @ $+ >",
        Go::Again,
        "$#smtp $@ $2 $: $1 < @ $2 >",
    ),
    (0, "0", "$+", Go::Again, "$#local $: $1"),
    (0, "4", "$+ < @ $+ >", Go::Again, "$1 @ $2"),
    // What set 0 says amiss.
    (1, "0", "unknown", Go::Again, "$#no where $@ x $: y"),
    (1, "0", "files", Go::Again, "$#files $: y"),
    (1, "0", "nouser", Go::Again, "$#smtp $@ far"),
    (1, "0", "lost", Go::Again, "$#lost $@ h $: u"),
    (1, "0", "sign", Go::Again, "x $#local $: y"),
    (1, "0", "three", Go::Again, "three"),
    (
        1,
        "0",
        "gone",
        Go::Again,
        "$#error $@ nouser $: \"551 5.7.9 gone\"",
    ),
    // Set 5 is asked of a leaf whose mailer has the flag 5, with the tokens that set 0 gave.
    (2, "0", "far $+", Go::Again, "$#smtp $@ x $: $1"),
    (2, "0", "$+", Go::Again, "$#local $@ Here $: $1"),
    (2, "2", "$+", Go::Return, "two $1"),
    (2, "5", "ann", Go::Again, "$#Keep $@ There $: B $&h"),
    (2, "5", "bob", Go::Again, "bob"),
    (2, "5", "dan", Go::Again, "$#local"),
    (2, "5", "eve", Go::Again, "x $#local $: y"),
    (2, "5", "fay", Go::Again, "$#local $: ann"),
    (2, "5", "two $+", Go::Again, "$#Keep $: wrong"),
];

static ROWS: [Row; 21] = [
    (0, "<Ann@MX.example>", true, "local, , ann"),
    (
        0,
        "Ann@Far.Example",
        true,
        "smtp, far.example, Ann@Far.Example",
    ),
    (0, "\\ann", true, "local, , ann"),
    (0, "\\\\ann", true, "local, , ann"),
    (0, "\\/ann", true, "local, , /ann"),
    (0, "|", true, "prog, , "),
    // Each cause, which no line of address test mode tells.
    (0, "<ann@far", false, "553 5.1.3 Bad address (BadAddress)"),
    (
        1,
        "unknown",
        false,
        "554 5.3.5 Unknown mailer nowhere (UnknownMailer)",
    ),
    (
        1,
        "files",
        false,
        "550 5.2.4 File delivery not supported (FileMailer)",
    ),
    (1, "nouser", false, "553 5.1.1 User required (NoUser)"),
    (
        1,
        "lost",
        false,
        "451 4.3.5 Configuration error (NoRuleset)",
    ),
    (
        1,
        "sign",
        false,
        "554 5.3.5 Address does not resolve (NotResolved)",
    ),
    (1, "three", false, "451 4.3.5 Configuration error (Loop)"),
    (1, "gone", false, "551 5.7.9 gone (ErrorMailer)"),
    // Set 5 is asked of a leaf alone.
    (2, "ann", true, "Keep, There, twoBHere"),
    (2, "ann", false, "local, here, twoann"),
    (2, "far ann", true, "smtp, x, twoann"),
    (2, "bob", true, "451 4.3.5 Configuration error (Loop)"),
    (2, "dan", true, "553 5.1.1 User required (NoUser)"),
    (2, "eve", true, "local, here, twoeve"),
    (2, "fay", true, "local, , twoann"),
];

#[test]
fn addresses_go_where_the_rules_say(rt: HostRuntime) -> Result<(), Fail> {
    for case in 0..3 {
        let world = world_of(rt.alloc(), &LINES, case)?;
        for (at, row) in ROWS.iter().enumerate() {
            let is_so = row.0 != case || is_so(rt.alloc(), &world, row)?;
            assert!(rt; is_so, "row {at}");
        }
    }
    Ok(())
}

// An address of more than 2,000 tokens.
fn add_long(address: &mut Text) -> Result<(), NoMemory> {
    for _ in 0..2001 {
        address.extend(b"a ")?;
    }
    Ok(())
}

fn is_long_bad(alloc: Global) -> Result<bool, Fail> {
    let mut address = Text::new(alloc);
    add_long(&mut address)?;
    let world = world_of(alloc, &[], 0)?;
    Ok(goes_to(&world, &address, false, "553 5.1.3 Bad address (Long)")?)
}

#[test]
fn a_long_address_is_a_bad_one(rt: HostRuntime) -> Result<(), Fail> {
    assert!(rt; is_long_bad(rt.alloc())?);
    Ok(())
}
