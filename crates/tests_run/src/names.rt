// Aliases, homes and members of files: each call once, and names that no session gives.
use crate::listed::{outcome_of, show};
use alias_expand::{Aliases, Homes, members_of};
use mail_base::{NoMemory, Text};
use std::alloc::Global;

fn taken(aliases: &mut Aliases, alloc: Global, text: &[u8]) -> Result<Option<u32>, NoMemory> {
    let text = Text::of(alloc, text)?;
    Ok(outcome_of(aliases, &text))
}

fn is_shown(
    aliases: &Aliases,
    alloc: Global,
    name: &[u8],
    wanted: &[u8],
) -> Result<bool, NoMemory> {
    let name = Text::of(alloc, name)?;
    let mut out = Text::new(alloc);
    match aliases.members(&name) {
        Some(members) => show(members, &mut out)?,
        None => out.extend(b"none")?,
    }
    Ok(out.bytes() == wanted)
}

// Two files, of which the first is taken, what the second comes to, a name, and its members.
type Row = (
    &'static [u8],
    &'static [u8],
    u32,
    &'static [u8],
    &'static [u8],
);

static ROWS: [Row; 9] = [
    (b"", b"", 0, b"", b"none"),
    (b"a: b, :include:/l\n", b"", 0, b"A", b"<b>{/l}"),
    (b"a\\:b: c\n", b"", 0, b"a\\:b", b"<c>"),
    (b"a (b: c\n", b"", 0, b"a (b", b"<c>"),
    (b"a@b.c: d\n", b"", 0, b"a@b.c", b"<d>"),
    (b"\xc9: b\n", b"", 0, b"\xe9", b"none"),
    // The second is taken or refused whole.
    (b"a: b\n", b"a: c\nd: e\n", 0, b"a", b"<b>"),
    (b"a: b\n", b"c: d\ne f\n", 2, b"a", b"<b>"),
    (b"a: b\n", b"c: d\ne f\n", 2, b"c", b"none"),
];

fn holds(alloc: Global, row: &Row) -> Result<bool, NoMemory> {
    let mut aliases = Aliases::new(alloc);
    let first = taken(&mut aliases, alloc, row.0)?;
    let second = taken(&mut aliases, alloc, row.1)?;
    let are_taken = first == Some(0) && second == Some(row.2);
    Ok(are_taken && is_shown(&aliases, alloc, row.3, row.4)?)
}

#[test]
fn names_have_their_members_and_a_refused_file_changes_none(rt: HostRuntime) {
    for (at, row) in ROWS.iter().enumerate() {
        assert!(rt; holds(rt.alloc(), row) == Ok(true), "row {at}");
    }
}

fn has_home(alloc: Global, user: &[u8], wanted: Option<&[u8]>) -> Result<bool, NoMemory> {
    let homes = Homes::read(alloc, &Text::of(alloc, b"# homes\nann /home/ann x\n")?)?;
    match (homes.home(&Text::of(alloc, user)?), wanted) {
        (Some(home), Some(wanted)) => Ok(home.bytes() == wanted),
        (None, None) => Ok(true),
        _ => Ok(false),
    }
}

fn has_members(alloc: Global, text: &[u8], wanted: &[u8]) -> Result<bool, NoMemory> {
    let members = members_of(alloc, &Text::of(alloc, text)?)?;
    let mut out = Text::new(alloc);
    show(&members, &mut out)?;
    Ok(out.bytes() == wanted)
}

static LIST: &[u8] = b"# x\na, \"|x, y\"\n:include:/l\n";

#[test]
fn users_have_homes_and_files_members(rt: HostRuntime) {
    assert!(rt; has_home(rt.alloc(), b"ann", Some(b"/home/ann")) == Ok(true));
    assert!(rt; has_home(rt.alloc(), b"", None) == Ok(true));
    assert!(rt; has_members(rt.alloc(), LIST, b"<a><|x, y>{/l}") == Ok(true));
}
