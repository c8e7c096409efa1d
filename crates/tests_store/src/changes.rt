//! Changes of an entry that is there, each stopped after each number of changing calls and inside
//! each: every image is opened, and opened again.

ghost use Rattle.std.specs.Prelude.{◌≡◌, All, IfOk, IfSome};
ghost use Rattle.spool_disk.specs.Changes.{after_all};
ghost use Rattle.spool_store.specs.Keepers.{CanFinish, CanReplace, seen};
ghost use Rattle.spool_store.specs.Parcels.{IsReadyUnder};
ghost use Rattle.spool_store.specs.Stores.{Agrees, IsAtRest};
ghost use Rattle.spool_store.specs.Writes.{IsDraftable};
ghost use Rattle.tests_store.specs.Nexts.{HasOpen, IsNext, next_draft};
ghost use Rattle.tests_store.specs.Samples.{sample_dirs};

use crate::openings::{DEAD, DONE};
use crate::stops::{BODY, CONTROL, commit_drafts, dir, dirs, drafted, two_children, whole_files};
use mail_base::{Draft, Id, Kind, NoMemory, Seq, StoreFault, Text, TryCopy};
use spool_disk::{File, MemSpool, Spool, StopSpool};
use spool_store::{Held, Parcel, Queue, Room};
use std::alloc::Global;

/// What is done to an entry.
#[derive(Clone, Copy, PartialEq, Eq)]
enum Change {
    /// It gets its next control.
    Replace,
    /// It gets it with two new children.
    Branch,
    /// It is committed with its row done, and finished.
    Finish,
    /// It is committed with a dead row, and finished.
    Bury,
    /// It is finished where it is finished already.
    FinishAgain,
}

/// What an opened spool shows: how many entries, the first one's revision and whether it is
/// finished, and how many files.
#[derive(Clone, Copy, PartialEq, Eq)]
struct Look {
    entries: usize,
    revision: u64,
    finished: bool,
    files: usize,
}

/// A change: how many changing calls come before the one that is tried, how many it takes, and what
/// an opened spool shows before it and after it.
struct Row {
    change: Change,
    first: u64,
    calls: u64,
    before: Look,
    after: Look,
}

const QUEUED: Look = Look {
    entries: 1,
    revision: 1,
    finished: false,
    files: 2,
};

const FINISHED: Look = Look {
    entries: 1,
    revision: 2,
    finished: true,
    files: 1,
};

const BURIED: Look = Look {
    entries: 1,
    revision: 2,
    finished: true,
    files: 2,
};

static ROWS: &[Row] = &[
    Row {
        change: Change::Replace,
        first: 0,
        calls: 2,
        before: QUEUED,
        after: Look {
            entries: 1,
            revision: 2,
            finished: false,
            files: 2,
        },
    },
    Row {
        change: Change::Branch,
        first: 0,
        calls: 8,
        before: QUEUED,
        after: Look {
            entries: 3,
            revision: 2,
            finished: false,
            files: 6,
        },
    },
    // Opening goes on with what was begun, so that both are finished ones.
    Row {
        change: Change::Finish,
        first: 3,
        calls: 2,
        before: FINISHED,
        after: FINISHED,
    },
    Row {
        change: Change::Bury,
        first: 3,
        calls: 1,
        before: BURIED,
        after: BURIED,
    },
    Row {
        change: Change::FinishAgain,
        first: 0,
        calls: 0,
        before: FINISHED,
        after: FINISHED,
    },
];

// A file of the entry 1.
fn file_of(alloc: Global, kind: Kind, bytes: &[u8]) -> Result<File, NoMemory> {
    let dir = dir(alloc)?;
    let name = Text::of(alloc, Id::new(1).name(kind).bytes())?;
    Ok(File {
        dir,
        name,
        bytes: Text::of(alloc, bytes)?,
    })
}

fn queued_files(alloc: Global) -> Result<Seq<File>, NoMemory> {
    let mut files = Seq::new(alloc);
    files.push(file_of(alloc, Kind::Qf, CONTROL)?)?;
    files.push(file_of(alloc, Kind::Df, BODY)?)?;
    Ok(files)
}

fn finished_files(alloc: Global) -> Result<Seq<File>, NoMemory> {
    let mut files = Seq::new(alloc);
    files.push(file_of(alloc, Kind::Sf, DONE)?)?;
    Ok(files)
}

// The files that a change begins with.
fn files_of(alloc: Global, change: Change) -> Result<Seq<File>, NoMemory> {
    match change {
        Change::Replace | Change::Branch => queued_files(alloc),
        Change::Finish | Change::Bury => Ok(Seq::new(alloc)),
        Change::FinishAgain => finished_files(alloc),
    }
}

// A spool of them that passes so many changing calls.
fn begun(alloc: Global, change: Change, passes: u64) -> Result<StopSpool, NoMemory> {
    let spool = MemSpool::of(alloc, files_of(alloc, change)?, Seq::new(alloc))?;
    Ok(StopSpool::new(spool, passes))
}

fn opened(alloc: Global, spool: &mut StopSpool) -> Result<Queue, StoreFault>
    ensures dirs { IfOk result (λ q. (seen q).dirs ≡ sample_dirs) }
    ensures agrees { IfOk result
        (λ q. Agrees (seen q) (after_all spool.new.spool.past spool.new.spool.start)) }
{
    let dirs = dirs(alloc)?;
    Queue::open(alloc, spool, &dirs)
}

// The id of the first entry, if a row of it is open.
fn open_id(queue: &Queue) -> Option<Id>
    ensures { IfSome result (HasOpen (seen queue.now).entries) }
{
    let held = queue.entries().first()?;
    if held.entry.finished() {
        return None;
    }
    Some(held.entry.id)
}

// The id of the first entry, if every row of it is done.
fn done_id(queue: &Queue) -> Option<Id>
    ensures { IfSome result (CanFinish (seen queue.now).entries) }
{
    let held = queue.entries().first()?;
    if held.entry.finished() {
        return Some(held.entry.id);
    }
    None
}

// Room with the next control of an entry.
fn next_room(queue: &Queue, id: Id) -> Result<Room, NoMemory>
    requires entry { HasOpen (seen queue.now).entries id }
    ensures { IfOk result (λ r. CanReplace (seen queue.now).entries r.id r.control r.paper) }
{
    let _held = queue.entries();
    let mut room = queue.reserve(&id)?;
    room.control.revision = room.control.revision.saturating_add(1);
    Ok(room)
}

// Replaces the control of the first entry.
fn replace_first<D: Spool>(spool: &mut D, queue: &mut Queue) -> Result<(), StoreFault>
    requires agrees { IsAtRest (seen queue.old) (D.seen spool.old) }
{
    let Some(id) = open_id(queue) else {
        return Ok(());
    };
    let room = next_room(queue, id)?;
    match queue.replace(spool, room) {
        Ok(()) => Ok(()),
        Err(_fault) => Err(StoreFault::SpoolFault),
    }
}

// A draft of an entry's next control.
fn draft_of(held: &Held) -> Result<Draft, NoMemory>
    ensures { IfOk result (λ d. d ≡ next_draft held.now) }
{
    let dir = held.entry.dir.copy()?;
    let mut control = held.entry.control.copy()?;
    control.revision = control.revision.saturating_add(1);
    Ok(Draft {
        id: Some(held.entry.id),
        dir,
        control,
    })
}

// The same of the first entry, if a row of it is open.
fn first_draft(queue: &Queue) -> Result<Option<Draft>, NoMemory>
    ensures { IfOk result (λ o. IfSome o (IsNext (seen queue.now).entries)) }
{
    let Some(held) = queue.entries().first() else {
        return Ok(None);
    };
    if held.entry.finished() {
        return Ok(None);
    }
    Ok(Some(draft_of(held)?))
}

// Makes the next control of an entry ready with new children.
#[tactic(auto, using(crate::proofs::NextLemmas::can_prepare_under))]
fn ready_under(
    queue: &mut Queue,
    children: &Seq<Draft>,
    parent: &Draft,
    body: Text,
) -> Result<Parcel, StoreFault>
    requires dirs { (seen queue.old).dirs ≡ sample_dirs }
    requires children { All (IsDraftable sample_dirs) children.now }
    requires parent { IsNext (seen queue.old).entries parent.now }
    ensures ready { IfOk result (IsReadyUnder (seen queue.new)) }
    ensures same { seen queue.new ≡ record (seen queue.old) { room = (seen queue.new).room } }
{
    let _held = queue.entries();
    queue.prepare_under(children, parent, body)
}

// Commits two children under the first entry.
#[tactic(auto, using(crate::proofs::SampleLemmas::room_agrees))]
fn branch_first<D: Spool>(alloc: Global, spool: &mut D, queue: &mut Queue) -> Result<(), StoreFault>
    requires agrees { IsAtRest (seen queue.old) (D.seen spool.old) }
    requires dirs { (seen queue.old).dirs ≡ sample_dirs }
{
    let body = Text::of(alloc, BODY)?;
    let children = two_children(alloc)?;
    let Some(parent) = first_draft(queue)? else {
        return Ok(());
    };
    let parcel = ready_under(queue, &children, &parent, body)?;
    match queue.commit_under(spool, parcel) {
        Ok(_id) => Ok(()),
        Err(_fault) => Err(StoreFault::SpoolFault),
    }
}

// Finishes the first entry.
fn finish_first<D: Spool>(spool: &mut D, queue: &mut Queue) -> Result<(), StoreFault>
    requires agrees { IsAtRest (seen queue.old) (D.seen spool.old) }
{
    let Some(id) = done_id(queue) else {
        return Ok(());
    };
    match queue.finish(spool, &id) {
        Ok(()) => Ok(()),
        Err(_fault) => Err(StoreFault::SpoolFault),
    }
}

// Commits an entry of that control text, and finishes it.
fn commit_and_finish<D: Spool>(
    alloc: Global,
    spool: &mut D,
    queue: &mut Queue,
    text: &[u8],
) -> Result<(), StoreFault>
    requires agrees { IsAtRest (seen queue.old) (D.seen spool.old) }
    requires dirs { (seen queue.old).dirs ≡ sample_dirs }
{
    let Some(parent) = drafted(alloc, text)? else {
        return Ok(());
    };
    let children = Seq::new(alloc);
    commit_drafts(spool, queue, &children, &parent)?;
    finish_first(spool, queue)
}

fn changed<D: Spool>(
    alloc: Global,
    change: Change,
    spool: &mut D,
    queue: &mut Queue,
) -> Result<(), StoreFault>
    requires agrees { IsAtRest (seen queue.old) (D.seen spool.old) }
    requires dirs { (seen queue.old).dirs ≡ sample_dirs }
{
    match change {
        Change::Replace => replace_first(spool, queue),
        Change::Branch => branch_first(alloc, spool, queue),
        Change::Finish => commit_and_finish(alloc, spool, queue, DONE),
        Change::Bury => commit_and_finish(alloc, spool, queue, DEAD),
        Change::FinishAgain => finish_first(spool, queue),
    }
}

// What a store and so many files show, if no file is left alone.
fn shown(queue: &Queue, files: usize) -> Option<Look> {
    let held = queue.entries().first()?;
    if !queue.strange().is_empty() {
        return None;
    }
    Some(Look {
        entries: queue.entries().len(),
        revision: held.entry.control.revision,
        finished: held.finished,
        files,
    })
}

// What an image shows once it is opened, if its bodies are whole.
fn shows(alloc: Global, image: &mut MemSpool) -> Result<Option<Look>, StoreFault> {
    let queue = Queue::open(alloc, image, &dirs(alloc)?)?;
    match whole_files(image)? {
        Some(files) => Ok(shown(&queue, files)),
        None => Ok(None),
    }
}

// The same of an image that is opened, and opened again.
fn shows_twice(alloc: Global, image: &mut MemSpool) -> Result<Option<Look>, StoreFault> {
    let first = shows(alloc, image)?;
    if shows(alloc, image)? == first {
        return Ok(first);
    }
    Ok(None)
}

// Whether each image shows what is after the change, or what is before it where it wasn't told.
fn all_right(
    alloc: Global,
    row: &Row,
    spool: &StopSpool,
    is_told: bool,
) -> Result<bool, StoreFault> {
    for mut image in spool.images()?.into_vec() {
        let found = shows_twice(alloc, &mut image)?;
        if found != Some(row.after) && (is_told || found != Some(row.before)) {
            return Ok(false);
        }
    }
    Ok(true)
}

// Whether a change is told that is stopped after so many of its calls, if each image of the stop is
// right.
fn stopped(alloc: Global, row: &Row, passes: u64) -> Result<Option<bool>, StoreFault> {
    let mut spool = begun(alloc, row.change, row.first.saturating_add(passes))?;
    let mut queue = opened(alloc, &mut spool)?;
    let is_told = changed(alloc, row.change, &mut spool, &mut queue).is_ok();
    if all_right(alloc, row, &spool, is_told)? {
        return Ok(Some(is_told));
    }
    Ok(None)
}

#[test]
fn a_stopped_change_leaves_the_entry_before_or_after(rt: HostRuntime) {
    for (at, row) in ROWS.iter().enumerate() {
        for passes in 0..=row.calls {
            let told = stopped(rt.alloc(), row, passes);
            let is_told = passes == row.calls;
            assert_eq!(rt; told, Ok(Some(is_told)), "row {at} after {passes}");
        }
    }
}

// How many calls a change takes behind the opening.
fn calls(alloc: Global, change: Change) -> Result<u64, StoreFault> {
    let mut spool = begun(alloc, change, 99)?;
    let mut queue = opened(alloc, &mut spool)?;
    let opening = spool.spool.calls();
    changed(alloc, change, &mut spool, &mut queue)?;
    Ok(spool.spool.calls().saturating_sub(opening))
}

#[test]
fn a_change_takes_no_other_calls(rt: HostRuntime) {
    for (at, row) in ROWS.iter().enumerate() {
        let wanted = row.first.saturating_add(row.calls);
        assert_eq!(rt; calls(rt.alloc(), row.change), Ok(wanted), "row {at}");
    }
}
