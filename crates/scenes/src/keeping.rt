//! Whether a queue has kept its mail over a run in which something failed while mail was delivered.

use crate::came::{Came, id_of};
use crate::judging_files::line_of;
use crate::party::Party;
use crate::playing::Base;
use crate::running::Ran;
use mail_base::Seq;
use spool_disk::File;

/// Whether programs were to be started or peers to be dialled in a run.
pub(crate) fn delivers(ran: &Ran) -> bool {
    ran.came
        .items()
        .iter()
        .any(|came| came.party == Party::Begun)
}

/// The id of an entry that isn't kept: one that was in the queue before, or that was acknowledged,
/// or that is a part of such a message.
pub(crate) fn first_lost<'a>(
    base: &'a Base,
    came: &'a Seq<Came>,
    left: &Seq<File>,
) -> Option<&'a [u8]> {
    for file in base.start.items() {
        let Some(id) = control_id(file) else {
            continue;
        };
        if !is_kept(base, id, left) {
            return Some(id);
        }
    }
    for line in came.items() {
        let Some(id) = id_of(line) else {
            continue;
        };
        if !is_message_kept(base, id, left) {
            return Some(id);
        }
    }
    None
}

// Whether all parts of a message are kept.
fn is_message_kept(base: &Base, first: &[u8], left: &Seq<File>) -> bool {
    for file in base.left.items() {
        let Some(id) = control_id(file) else {
            continue;
        };
        if is_part_of(file.bytes.bytes(), first) && !is_kept(base, id, left) {
            return false;
        }
    }
    is_kept(base, first, left) && control_at(left, first).is_some()
}

// Whether a control text is of a part that came with the message of that id.
fn is_part_of(control: &[u8], first: &[u8]) -> bool {
    let mut rest = control;
    for _ in 0..3u32 {
        let (line, behind) = line_of(rest);
        if let Some(parent) = line.strip_prefix(b"pw".as_slice()) {
            return parent.strip_prefix(first) == Some(b" 1\n".as_slice());
        }
        rest = behind;
    }
    false
}

// The digits of the id of a control file.
fn control_id(file: &File) -> Option<&[u8]> {
    let name = file.name.bytes();
    match name.strip_prefix(b"qfw".as_slice()) {
        Some(id) => Some(id),
        None => name.strip_prefix(b"sfw".as_slice()),
    }
}

fn control_at<'a>(files: &'a Seq<File>, id: &[u8]) -> Option<&'a File> {
    files
        .items()
        .iter()
        .find(|file| control_id(file) == Some(id))
}

fn body_at<'a>(files: &'a Seq<File>, id: &[u8]) -> Option<&'a File> {
    files.items().iter().find(|file| file.name.bytes().strip_prefix(b"dfw".as_slice()) == Some(id))
}

/// Whether an entry of that id is there.
pub(crate) fn has_entry(files: &Seq<File>, id: &[u8]) -> bool {
    control_at(files, id).is_some()
}

// Whether an entry that a run has in the end stands as it does there, as it did before, or as a
// fault leaves it; and its body is there while a row of it may need that.
fn is_kept(base: &Base, id: &[u8], left: &Seq<File>) -> bool {
    let Some(wanted) = control_at(&base.left, id) else {
        return true;
    };
    let Some(came) = control_at(left, id) else {
        return false;
    };
    let before = match control_at(&base.start, id) {
        Some(file) => file.bytes.bytes(),
        None => b"",
    };
    are_rows_kept(wanted.bytes.bytes(), before, came.bytes.bytes())
        && (!is_open(came.bytes.bytes()) || is_body_kept(base, id, left))
}

fn is_body_kept(base: &Base, id: &[u8], left: &Seq<File>) -> bool {
    let Some(body) = body_at(left, id) else {
        return false;
    };
    let is_same = |other: Option<&File>| match other {
        Some(other) => other.bytes.bytes() == body.bytes.bytes(),
        None => true,
    };
    is_same(body_at(&base.start, id)) && is_same(body_at(&base.left, id))
}

// A row of a control text, and what stands behind it.
#[derive(Clone, Copy)]
struct Row<'a> {
    address: &'a [u8],
    state: &'a [u8],
    behind: &'a [u8],
}

// The first row.
fn row_of(control: &[u8]) -> Option<Row<'_>> {
    let mut rest = control;
    for _ in 0..control.len() {
        let (line, behind) = line_of(rest);
        if line.is_empty() {
            return None;
        }
        if line.starts_with(b"R") {
            let (state, behind) = line_of(behind);
            return Some(Row {
                address: line,
                state,
                behind,
            });
        }
        rest = behind;
    }
    None
}

fn are_rows_kept(wanted: &[u8], before: &[u8], came: &[u8]) -> bool {
    let mut wanted = wanted;
    let mut before = before;
    let mut rest = came;
    for _ in 0..came.len() {
        let (one, other) = (row_of(wanted), row_of(rest));
        let (Some(one), Some(other)) = (one, other) else {
            return one.is_none() && other.is_none();
        };
        let first = row_of(before);
        let state = match first {
            Some(row) => row.state,
            None => b"eQ\n",
        };
        if one.address != other.address || !may_be(one.state, state, other.state) {
            return false;
        }
        wanted = one.behind;
        rest = other.behind;
        before = match first {
            Some(row) => row.behind,
            None => b"",
        };
    }
    row_of(wanted).is_none()
}

// Whether a row may have this state that has another one else, and had one before: it stands as it
// does else or as before, it waits, or it is still to be returned.
fn may_be(wanted: &[u8], before: &[u8], came: &[u8]) -> bool {
    let returns = wanted.starts_with(b"eR");
    let is_returned = returns && came.starts_with(b"eR");
    let is_to_return = came.starts_with(b"eF") && (returns || wanted.starts_with(b"eD"));
    came == wanted || came == before || came.starts_with(b"eQ") || is_returned || is_to_return
}

// Whether a row is open, or dead.
fn is_open(control: &[u8]) -> bool {
    let mut rest = control;
    for _ in 0..control.len() {
        let Some(row) = row_of(rest) else {
            return false;
        };
        if !row.state.starts_with(b"eS") && !row.state.starts_with(b"eR") {
            return true;
        }
        rest = row.behind;
    }
    false
}
