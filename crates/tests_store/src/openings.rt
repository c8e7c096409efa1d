//! Maps of files, each opened, opened again, and opened after a stop at each of its first changing
//! calls. They are counted from 0; the first has no file.

use mail_base::{Entry, Id, Kind, NoMemory, Seq, StoreFault, Stray, Text};
use spool_disk::{File, MemSpool, StopSpool};
use spool_store::{Opened, recover};
use std::alloc::Global;

/// A file of a map: the map, the directory, the kind, and the id. One of another name has the kind
/// `o`.
type Spot = (usize, u8, u8, u64);

/// The same, and which bytes it has.
type Held = (usize, u8, u8, u64, u8);

/// How many maps there are.
const MAPS: usize = 25;

static BODY: &[u8] = b"hello\r\n";
// An entry with an open row, and the same at revision 2.
static OPEN: &[u8] =
    b"V1\nv1\ngmqueue\nT1767225600\nK0\nN0\nP30022\nc0\nS<bob@c.example>\n$rESMTP\n$sc.example\n\
        ${client_addr}\nRPFD:<ann@mx.example>\neQ\nHSubject: hi\n.\n";

static SECOND: &[u8] =
    b"V1\nv2\ngmqueue\nT1767225600\nK0\nN0\nP30022\nc0\nS<bob@c.example>\n$rESMTP\n$sc.example\n\
        ${client_addr}\nRPFD:<ann@mx.example>\neQ\nHSubject: hi\n.\n";

/// The same without an open row.
pub(crate) static DONE: &[u8] =
    b"V1\nv2\ngmqueue\nT1767225600\nK0\nN1\nP30022\nc0\nS<bob@c.example>\n$rESMTP\n$sc.example\n\
        ${client_addr}\nRPFD:<ann@mx.example>\neS\nHSubject: hi\n.\n";

/// The same with a dead row.
pub(crate) static DEAD: &[u8] =
    b"V1\nv2\ngmqueue\nT1767225600\nK0\nN1\nP30022\nc0\nFbd\nS<>\n$rESMTP\n$sc.example\n\
        ${client_addr}\nRPFD:<ann@mx.example>\neD 5.1.1 no\nHSubject: hi\n.\n";
// Children of the entry 1 at revisions 1 and 2, and one of itself.
static CHILD: &[u8] =
    b"V1\nv1\npw000000000001 1\ngmqueue\nT1767225600\nK0\nN0\nP30022\nc0\nS<bob@c.example>\n\
        $rESMTP\n$sc.example\n${client_addr}\nRPFD:<ann@mx.example>\neQ\nHSubject: hi\n.\n";

static LATER_CHILD: &[u8] =
    b"V1\nv1\npw000000000001 2\ngmqueue\nT1767225600\nK0\nN0\nP30022\nc0\nS<bob@c.example>\n\
        $rESMTP\n$sc.example\n${client_addr}\nRPFD:<ann@mx.example>\neQ\nHSubject: hi\n.\n";

static GRANDCHILD: &[u8] =
    b"V1\nv1\npw000000000002 1\ngmqueue\nT1767225600\nK0\nN0\nP30022\nc0\nS<bob@c.example>\n\
        $rESMTP\n$sc.example\n${client_addr}\nRPFD:<ann@mx.example>\neQ\nHSubject: hi\n.\n";
// A control text without its last line.
static UNREAD: &[u8] =
    b"V1\nv1\ngmqueue\nT1767225600\nK0\nN0\nP30022\nc0\nS<bob@c.example>\n$rESMTP\n$sc.example\n\
        ${client_addr}\nRPFD:<ann@mx.example>\neQ\nHSubject: hi\n";

static HELD: &[Held] = &[
    // A draft.
    (1, b'q', b't', 3, b'O'),
    // A body.
    (2, b'q', b'd', 3, b'B'),
    // A control file alone.
    (3, b'q', b'q', 3, b'O'),
    // A finished one alone.
    (4, b'q', b's', 3, b'D'),
    // A draft and a body.
    (5, b'q', b't', 3, b'O'),
    (5, b'q', b'd', 3, b'B'),
    // An entry.
    (6, b'q', b'q', 1, b'O'),
    (6, b'q', b'd', 1, b'B'),
    // An entry, and a body of its id elsewhere, which stays.
    (7, b'q', b'q', 1, b'O'),
    (7, b'q', b'd', 1, b'B'),
    (7, b'r', b'd', 1, b'B'),
    // A body elsewhere alone.
    (8, b'q', b'q', 1, b'O'),
    (8, b'r', b'd', 1, b'B'),
    // An entry that is done.
    (9, b'q', b'q', 1, b'D'),
    (9, b'q', b'd', 1, b'B'),
    // One with a dead row.
    (10, b'q', b'q', 1, b'X'),
    (10, b'q', b'd', 1, b'B'),
    // A finished entry with a body.
    (11, b'q', b's', 1, b'D'),
    (11, b'q', b'd', 1, b'B'),
    // A finished entry with an open row.
    (12, b'q', b's', 1, b'O'),
    (12, b'q', b'd', 1, b'B'),
    // Two control files of an id.
    (13, b'q', b'q', 1, b'D'),
    (13, b'r', b's', 1, b'D'),
    (13, b'r', b'd', 1, b'B'),
    // A text that can't be read.
    (14, b'q', b'q', 9, b'U'),
    (14, b'q', b'd', 9, b'B'),
    // An empty one of the last id.
    (15, b'q', b's', 999_999_999_999, b'E'),
    // A child of no entry.
    (16, b'q', b'q', 2, b'C'),
    (16, b'q', b'd', 2, b'B'),
    // A child of an entry without its revision.
    (17, b'q', b'q', 1, b'O'),
    (17, b'q', b'd', 1, b'B'),
    (17, b'r', b'q', 2, b'L'),
    (17, b'r', b'd', 2, b'B'),
    // Of one with it.
    (18, b'q', b'q', 1, b'2'),
    (18, b'q', b'd', 1, b'B'),
    (18, b'r', b'q', 2, b'L'),
    (18, b'r', b'd', 2, b'B'),
    // Of a finished one.
    (19, b'q', b's', 1, b'D'),
    (19, b'q', b'q', 2, b'L'),
    (19, b'q', b'd', 2, b'B'),
    // Of a strange one.
    (20, b'q', b'q', 1, b'U'),
    (20, b'q', b'q', 2, b'C'),
    (20, b'q', b'd', 2, b'B'),
    // Of a dead one.
    (21, b'q', b'q', 2, b'C'),
    (21, b'q', b'd', 2, b'B'),
    (21, b'q', b'q', 3, b'G'),
    (21, b'q', b'd', 3, b'B'),
    // Of itself.
    (22, b'q', b'q', 1, b'C'),
    (22, b'q', b'd', 1, b'B'),
    // A finished one whose parent has no smaller id.
    (23, b'q', b's', 1, b'G'),
    (23, b'q', b'd', 1, b'B'),
    // Other names, and another directory.
    (24, b'q', b'o', 1, b'O'),
    (24, b'r', b'o', 2, b'B'),
    (24, b'x', b't', 7, b'O'),
];

static LEFT: &[Spot] = &[
    (3, b'q', b'q', 3),
    (4, b'q', b's', 3),
    (6, b'q', b'd', 1),
    (6, b'q', b'q', 1),
    (7, b'q', b'd', 1),
    (7, b'q', b'q', 1),
    (7, b'r', b'd', 1),
    (8, b'q', b'q', 1),
    (8, b'r', b'd', 1),
    (9, b'q', b's', 1),
    (10, b'q', b'd', 1),
    (10, b'q', b's', 1),
    (11, b'q', b's', 1),
    (12, b'q', b'd', 1),
    (12, b'q', b's', 1),
    (13, b'q', b'q', 1),
    (13, b'r', b'd', 1),
    (13, b'r', b's', 1),
    (14, b'q', b'd', 9),
    (14, b'q', b'q', 9),
    (15, b'q', b's', 999_999_999_999),
    (17, b'q', b'd', 1),
    (17, b'q', b'q', 1),
    (18, b'q', b'd', 1),
    (18, b'q', b'q', 1),
    (18, b'r', b'd', 2),
    (18, b'r', b'q', 2),
    (19, b'q', b'd', 2),
    (19, b'q', b'q', 2),
    (19, b'q', b's', 1),
    (20, b'q', b'd', 2),
    (20, b'q', b'q', 1),
    (20, b'q', b'q', 2),
    (22, b'q', b'd', 1),
    (22, b'q', b'q', 1),
    (23, b'q', b'd', 1),
    (23, b'q', b's', 1),
    (24, b'q', b'o', 1),
    (24, b'r', b'o', 2),
    (24, b'x', b't', 7),
];

static STRANGE: &[Spot] = &[
    (3, b'q', b'q', 3),
    (8, b'q', b'q', 1),
    (12, b'q', b's', 1),
    (13, b'q', b'q', 1),
    (13, b'r', b's', 1),
    (14, b'q', b'q', 9),
    (15, b'q', b's', 999_999_999_999),
    (20, b'q', b'q', 1),
    (20, b'q', b'q', 2),
    (22, b'q', b'q', 1),
    (23, b'q', b's', 1),
    (24, b'q', b'o', 1),
    (24, b'r', b'o', 2),
];

static ENTRIES: &[(usize, u64)] = &[
    (4, 3),
    (6, 1),
    (7, 1),
    (9, 1),
    (10, 1),
    (11, 1),
    (17, 1),
    (18, 1),
    (18, 2),
    (19, 1),
    (19, 2),
];

static NEXTS: &[u64] = &[
    1,
    4,
    4,
    4,
    4,
    4,
    2,
    2,
    2,
    2,
    2,
    2,
    2,
    2,
    10,
    1_000_000_000_000,
    3,
    3,
    3,
    3,
    3,
    4,
    2,
    3,
    1,
];

fn bytes_of(code: u8) -> &'static [u8] {
    match code {
        b'B' => BODY,
        b'O' => OPEN,
        b'2' => SECOND,
        b'D' => DONE,
        b'X' => DEAD,
        b'C' => CHILD,
        b'L' => LATER_CHILD,
        b'G' => GRANDCHILD,
        b'U' => UNREAD,
        _ => b"",
    }
}

fn name_of(alloc: Global, kind: u8, number: u64) -> Result<Text, NoMemory> {
    let id = Id::new(number.min(999_999_999_999));
    match kind {
        b't' => Text::of(alloc, id.name(Kind::Tf).bytes()),
        b'd' => Text::of(alloc, id.name(Kind::Df).bytes()),
        b'q' => Text::of(alloc, id.name(Kind::Qf).bytes()),
        b's' => Text::of(alloc, id.name(Kind::Sf).bytes()),
        _ => Text::of(alloc, other_name(number)),
    }
}

fn other_name(number: u64) -> &'static [u8] {
    match number {
        1 => b"qfw1",
        _ => b"notes",
    }
}

fn file_of(alloc: Global, held: &Held) -> Result<File, NoMemory> {
    let dir = Text::of(alloc, &[held.1])?;
    let name = name_of(alloc, held.2, held.3)?;
    Ok(File {
        dir,
        name,
        bytes: Text::of(alloc, bytes_of(held.4))?,
    })
}

fn map_of(alloc: Global, map: usize) -> Result<MemSpool, NoMemory> {
    let mut files = Seq::new(alloc);
    for held in HELD {
        if held.0 == map {
            files.push(file_of(alloc, held)?)?;
        }
    }
    MemSpool::of(alloc, files, Seq::new(alloc))
}

fn dirs(alloc: Global) -> Result<Seq<Text>, NoMemory> {
    let mut dirs = Seq::new(alloc);
    dirs.push(Text::of(alloc, b"q")?)?;
    dirs.push(Text::of(alloc, b"r")?)?;
    Ok(dirs)
}

fn are_entries(entries: &[Entry], map: usize) -> bool {
    let mut place = 0usize;
    for wanted in ENTRIES {
        if wanted.0 == map {
            if entries.get(place).map(|entry| entry.id.number()) != Some(wanted.1) {
                return false;
            }
            place = place.saturating_add(1);
        }
    }
    entries.len() == place
}

fn is_stray(alloc: Global, stray: Option<&Stray>, wanted: &Spot) -> Result<bool, NoMemory> {
    let name = name_of(alloc, wanted.2, wanted.3)?;
    match stray {
        Some(stray) => Ok(
            stray.dir.bytes() == [wanted.1].as_slice() && stray.name.bytes() == name.bytes(),
        ),
        None => Ok(false),
    }
}

fn are_strays(alloc: Global, strays: &[Stray], map: usize) -> Result<bool, NoMemory> {
    let mut place = 0usize;
    for wanted in STRANGE {
        if wanted.0 == map {
            if !is_stray(alloc, strays.get(place), wanted)? {
                return Ok(false);
            }
            place = place.saturating_add(1);
        }
    }
    Ok(strays.len() == place)
}

fn has_file(files: &[File], dir: u8, name: &Text) -> bool {
    for file in files {
        if file.dir.bytes() == [dir].as_slice() && file.name.bytes() == name.bytes() {
            return true;
        }
    }
    false
}

fn are_left(alloc: Global, files: &[File], map: usize) -> Result<bool, NoMemory> {
    let mut count = 0usize;
    for wanted in LEFT {
        if wanted.0 == map {
            let name = name_of(alloc, wanted.2, wanted.3)?;
            if !has_file(files, wanted.1, &name) {
                return Ok(false);
            }
            count = count.saturating_add(1);
        }
    }
    Ok(files.len() == count)
}

// Whether what was opened, and what is left, is what is said of the map.
fn is_as_said(alloc: Global, opened: &Opened, left: &[File], map: usize) -> Result<bool, NoMemory> {
    if !are_entries(opened.entries.items(), map) {
        return Ok(false);
    }
    if !are_strays(alloc, opened.strange.items(), map)? {
        return Ok(false);
    }
    are_left(alloc, left, map)
}

fn opened_as_said(
    alloc: Global,
    spool: &MemSpool,
    opened: &Opened,
    map: usize,
) -> Result<bool, NoMemory> {
    let left = spool.files()?;
    is_as_said(alloc, opened, left.items(), map)
}

fn opens_to(alloc: Global, spool: &mut MemSpool, map: usize) -> Result<bool, StoreFault> {
    let opened = recover(alloc, spool, &dirs(alloc)?)?;
    Ok(opened_as_said(alloc, spool, &opened, map)?)
}

fn opens_first(alloc: Global, spool: &mut MemSpool, map: usize) -> Result<bool, StoreFault> {
    let opened = recover(alloc, spool, &dirs(alloc)?)?;
    let is_next = NEXTS.get(map) == Some(&opened.next);
    Ok(opened_as_said(alloc, spool, &opened, map)? && is_next)
}

// Whether a map is opened as is said of it, and opened again so.
fn opens_twice(alloc: Global, map: usize) -> Result<bool, StoreFault> {
    let mut spool = map_of(alloc, map)?;
    if !opens_first(alloc, &mut spool, map)? {
        return Ok(false);
    }
    opens_to(alloc, &mut spool, map)
}

#[test]
fn a_map_is_opened_and_opened_again(rt: HostRuntime) {
    for map in 0..MAPS {
        assert_eq!(rt; opens_twice(rt.alloc(), map), Ok(true), "map {map}");
    }
}

fn stopped(alloc: Global, map: usize, passes: u64) -> Result<StopSpool, StoreFault> {
    let mut spool = StopSpool::new(map_of(alloc, map)?, passes);
    let dirs = dirs(alloc)?;
    let _opened = recover(alloc, &mut spool, &dirs).is_ok();
    Ok(spool)
}

// Whether each image of a stop after so many changing calls is opened as is said of the map.
fn all_open(alloc: Global, map: usize, passes: u64) -> Result<bool, StoreFault> {
    for mut image in stopped(alloc, map, passes)?.images()?.into_vec() {
        if !opens_to(alloc, &mut image, map)? {
            return Ok(false);
        }
    }
    Ok(true)
}

#[test]
fn each_image_of_a_stopped_opening_is_opened_alike(rt: HostRuntime) {
    for map in 0..MAPS {
        for passes in 0..5u64 {
            let open = all_open(rt.alloc(), map, passes);
            assert_eq!(rt; open, Ok(true), "map {map} after {passes}");
        }
    }
}
