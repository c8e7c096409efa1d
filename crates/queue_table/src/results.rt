//! What an attempt makes of the rows of an entry, in their places.

ghost use Rattle.std.specs.Prelude.{◌≡◌, IsTrue};
ghost use Rattle.mail_base.specs.Notes.{IsNote, is_status};
ghost use Rattle.qf_format.specs.Valid.{AreRows, IsState};
ghost use Rattle.queue_table.specs.Results.{aged, restated, state_after, with_results};

use mail_base::{Note, Result1, Row, State, Status};

// The status of a row that fails for age.
fn aged() -> Status
    ensures { result ≡ aged }
{
    match Status::of(b"4.4.7") {
        Some(status) => status,
        None => unreachable!(),
    }
}

fn same_note(note: &Note) -> Note
    ensures is { result ≡ note.now }
    ensures form { IsNote note.now }
{
    Note::of(note.bytes()).unwrap()
}

fn same_status(status: &Status) -> Status
    ensures is { result ≡ status.now }
    ensures form { IsTrue (is_status status.now) }
{
    Status::of(status.bytes()).unwrap()
}

// What an attempt makes of a row: one that is deferred fails where its entry is too old.
fn state_after(old: bool, outcome: &Result1) -> State
    ensures is { result ≡ state_after old outcome.now }
    ensures form { IsState result }
{
    match outcome {
        Result1::Sent => State::Sent,
        Result1::Deferred(note) => {
            if old {
                return State::Failed(aged(), same_note(note));
            }
            State::Queued(Some(same_note(note)))
        }
        Result1::Failed(status, note) => State::Failed(same_status(status), same_note(note)),
    }
}

// The row at a place gets another state.
fn restate(rows: &mut Vec<Row>, place: usize, state: State)
    ensures is { rows.new.items ≡ restated place state rows.old.items }
    ensures form { IsState state → AreRows rows.old.items → AreRows rows.new.items }
{
    if place < rows.len() {
        rows[place].state = state;
    }
}

// Each row at one of these places gets what its result makes of it.
pub(crate) fn put_results(rows: &mut Vec<Row>, old: bool, places: &[u32], outcomes: &[Result1])
    ensures is { rows.new.items ≡ with_results old places.now outcomes.now rows.old.items }
    ensures form { AreRows rows.old.items → AreRows rows.new.items }
{
    let mut left = places;
    let mut more = outcomes;
    'places: while let Some((place, behind)) = left.split_first() {
        let Some((outcome, after)) = more.split_first() else {
            return;
        };
        restate(rows, *place as usize, state_after(old, outcome));
        left = behind;
        more = after;
    }
}
