use crate::copies::state;
use mail_base::{Id, Kind, NoMemory, Note, Status, Text, TryCopy};
use std::alloc::Global;
use std::test::Fail;

/// Names of files, with their kinds and ids, or `None` where they are the name of no id.
static NAMES: [(&[u8], Option<(Kind, u64)>); 15] = [
    (b"qfw000000000042", Some((Kind::Qf, 42))),
    (b"dfw999999999999", Some((Kind::Df, 999_999_999_999))),
    (b"tfw000000000003", Some((Kind::Tf, 3))),
    (b"sfw999999999999", Some((Kind::Sf, 999_999_999_999))),
    (b"dfw000000000000", Some((Kind::Df, 0))),
    (b"qfw123456789012", Some((Kind::Qf, 123_456_789_012))),
    (b"", None),
    (b"dfw00000000001", None),
    (b"dfw0000000000001", None),
    (b"xfw000000000001", None),
    (b"dgw000000000001", None),
    (b"df0000000000001", None),
    (b"dfw00000000000a", None),
    (b"dfw-00000000001", None),
    (b"DFw000000000001", None),
];

fn is_named(kind: Kind, number: u64, name: &Text) -> bool {
    if number > Id::MOST {
        return false;
    }
    let id = Id::new(number);
    id.name(kind).bytes() == name.bytes()
        && name.bytes().starts_with(kind.letters().as_slice())
        && Id::of(name) == Some((kind, id))
        && id.number() == number
}

fn tells(alloc: Global, name: &[u8], told: Option<(Kind, u64)>) -> Result<bool, NoMemory> {
    let name = Text::of(alloc, name)?;
    match told {
        Some((kind, number)) => Ok(is_named(kind, number, &name)),
        None => Ok(Id::of(&name).is_none()),
    }
}

#[test]
fn names_tell_their_ids(rt: HostRuntime) {
    for (at, (name, told)) in NAMES.iter().enumerate() {
        assert!(rt; tells(rt.alloc(), name, *told) == Ok(true), "row {at}");
    }
}

/// Texts, what they are as notes, if anything, and whether they are notes as they stand.
static NOTES: [(&[u8], Option<&[u8]>, bool); 8] = [
    (&[b'x'; 600], Some(&[b'x'; 512]), false),
    (&[b'x'; 513], Some(&[b'x'; 512]), false),
    (&[b'x'; 512], Some(&[b'x'; 512]), true),
    (b"two\r\nlines", Some(b"two  lines"), false),
    (b"two\nlines", Some(b"two lines"), false),
    (b"two\rlines", Some(b"two lines"), false),
    (b"exit 75", Some(b"exit 75"), true),
    (b"", None, false),
];

fn is_noted(text: &[u8], noted: Option<&[u8]>) -> Result<bool, NoMemory> {
    match Note::cut(text).copy()? {
        Some(note) => Ok(noted == Some(note.bytes()) && note.bytes().len() <= Note::MOST),
        None => Ok(noted.is_none()),
    }
}

/// Texts, and whether they are enhanced statuses.
static STATUSES: [(&[u8], bool); 13] = [
    (b"5.1.1", true),
    (b"4.123.999", true),
    (b"2.0.0", true),
    (b"", false),
    (b"5.1", false),
    (b"5..1", false),
    (b"5.1.", false),
    (b"55.1.1", false),
    (b"5.1.1234", false),
    (b"5.1.1.1", false),
    (b"x.1.1", false),
    (b"5.a.1", false),
    (b"5.1.1 ", false),
];

fn is_status(bytes: &[u8]) -> Result<bool, NoMemory> {
    match Status::of(bytes).copy()? {
        Some(status) => Ok(status.bytes() == bytes),
        None => Ok(false),
    }
}

#[test]
fn notes_are_cut_to_one_line_and_statuses_have_three_groups(rt: HostRuntime) {
    for (at, (text, noted, stands)) in NOTES.iter().enumerate() {
        let stands = Note::of(text).is_some() == *stands;
        assert!(rt; is_noted(text, *noted) == Ok(true) && stands, "note {at}");
    }
    for (at, (bytes, taken)) in STATUSES.iter().enumerate() {
        assert!(rt; is_status(bytes) == Ok(*taken), "status {at}");
    }
}

/// Whether something is still to be done in a state, and whether it is dead, by its place.
static STATES: [(u8, bool, bool); 6] = [
    (0, true, false),
    (1, true, false),
    (2, false, false),
    (3, true, false),
    (4, false, false),
    (5, false, true),
];

fn is_so(place: u8, is_open: bool, is_dead: bool) -> Result<bool, Fail> {
    let state = state(place)?;
    Ok(state.is_open() == is_open && state.is_dead() == is_dead)
}

#[test]
fn states_are_open_or_done(rt: HostRuntime) -> Result<(), Fail> {
    for (place, is_open, is_dead) in &STATES {
        assert!(rt; is_so(*place, *is_open, *is_dead)?, "state {place}");
    }
    Ok(())
}
