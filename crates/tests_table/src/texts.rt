//! The bytes of files after the commands of a scene.

use crate::runs::files_after;
use crate::samples::{
    BODY, BOUNCE, DEAD, DEFERRED, DOUBLE, HELLO, LATE, NULL_RETURNED, OLD, SENT, THREE,
    THREE_RETURNED, THREE_TRIED, WARNED, WARNING, YOUNG,
};
use crate::scenes::scene;
use crate::stops::front;
use mail_base::{Id, Kind, NoMemory, Seq, StoreFault, Text};
use spool_disk::{File, find};
use std::alloc::Global;

/// After so many commands of a scene: the directory, kind and id of a file, and which bytes it has,
/// or `-` where it isn't there.
type Row = (usize, usize, u8, u8, u64, u8);

static ROWS: &[Row] = &[
    (0, 1, b'q', b'q', 1, b'H'),
    (0, 1, b'q', b'd', 3, b'B'),
    (1, 1, b'b', b'd', 1, b'B'),
    (1, 1, b'b', b'd', 3, b'B'),
    (1, 1, b'q', b'd', 4, b'B'),
    (1, 1, b'b', b'q', 4, b'-'),
    (2, 1, b'q', b'q', 1, b'H'),
    (2, 2, b'q', b'q', 1, b'D'),
    (2, 2, b'q', b'd', 1, b'B'),
    (3, 2, b'q', b'q', 1, b'L'),
    (3, 3, b'q', b'q', 1, b'W'),
    (3, 3, b'b', b'q', 2, b'w'),
    (3, 3, b'b', b'd', 2, b'B'),
    (4, 1, b'q', b'q', 1, b'3'),
    (4, 2, b'q', b'q', 1, b'T'),
    (4, 3, b'q', b'q', 1, b'R'),
    (4, 3, b'b', b'q', 2, b'r'),
    (5, 3, b'q', b's', 1, b'N'),
    (5, 3, b'q', b'd', 1, b'-'),
    (5, 3, b'q', b'q', 2, b'2'),
    (5, 5, b'q', b's', 2, b'X'),
    (5, 5, b'q', b'd', 2, b'B'),
    (5, 5, b'q', b'q', 2, b'-'),
    (6, 3, b'q', b'q', 1, b'Y'),
    (6, 4, b'q', b'q', 1, b'O'),
    (7, 2, b'q', b's', 1, b'S'),
    (7, 2, b'q', b'q', 1, b'-'),
    (7, 2, b'q', b'd', 1, b'-'),
];

fn text_of(letter: u8) -> Option<&'static [u8]> {
    match letter {
        b'B' => Some(BODY),
        b'H' => Some(HELLO),
        b'D' => Some(DEFERRED),
        b'L' => Some(LATE),
        b'W' => Some(WARNED),
        b'w' => Some(WARNING),
        b'3' => Some(THREE),
        b'T' => Some(THREE_TRIED),
        b'R' => Some(THREE_RETURNED),
        b'r' => Some(BOUNCE),
        b'N' => Some(NULL_RETURNED),
        b'2' => Some(DOUBLE),
        b'X' => Some(DEAD),
        b'Y' => Some(YOUNG),
        b'O' => Some(OLD),
        b'S' => Some(SENT),
        _ => None,
    }
}

fn dir_of(letter: u8) -> &'static [u8] {
    match letter {
        b'b' => b"/q/bulk",
        _ => b"/q",
    }
}

fn kind_of(letter: u8) -> Kind {
    match letter {
        b'd' => Kind::Df,
        b's' => Kind::Sf,
        _ => Kind::Qf,
    }
}

fn is_so(alloc: Global, files: &Seq<File>, row: Row) -> Result<bool, NoMemory> {
    let (_, _, dir, kind, id, letter) = row;
    let dir = Text::of(alloc, dir_of(dir))?;
    let id = Id::new(id.min(999_999_999_999));
    let name = Text::of(alloc, id.name(kind_of(kind)).bytes())?;
    let bytes = find(files.items(), &dir, &name).map(|text| text.bytes());
    Ok(bytes == text_of(letter))
}

fn holds(alloc: Global, row: Row) -> Result<bool, StoreFault> {
    match files_after(alloc, front(scene(row.0), row.1))? {
        Some(files) => Ok(is_so(alloc, &files, row)?),
        None => Ok(false),
    }
}

#[test]
fn files_say_what_became_of_their_entries(rt: HostRuntime) {
    for (at, row) in ROWS.iter().enumerate() {
        assert_eq!(rt; holds(rt.alloc(), *row), Ok(true), "row {at}");
    }
}
