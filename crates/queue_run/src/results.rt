ghost use Rattle.std.specs.Prelude.{◌≡◌, ◌++◌, ◌∷◌, [], ℕ, List, IfOk, IsTrue, OnOk, codes, length};
ghost use Rattle.mail_base.specs.Notes.{IsNote, is_status};
ghost use Rattle.mail_base.specs.declared.outcome.Result1.TheVariants.{Deferred as WasDeferred, Failed as HasFailed};
ghost use Rattle.mailer_pipe.specs.Ends.{ended_with};
ghost use Rattle.queue_run.specs.Results as spec;

use mail_base::{NoMemory, Note, Outcomes, Result1, RouteError, Seq, Status, TryCopy};
use mailer_pipe::end;
use std::alloc::Global;

// What a device that failed makes of a row. It takes no memory.
pub(crate) fn device_fault() -> Result1
    ensures { result ≡ spec.device_fault }
{
    match Note::of(b"device fault") {
        Some(note) => Result1::Deferred(note),
        None => unreachable!(),
    }
}

// What a program whose arguments have no place for users makes of a row.
pub(crate) fn no_user() -> Result1
    ensures { result ≡ spec.no_user }
{
    deferred(b"no user in arguments")
}

// The same of a mailer that isn't there.
pub(crate) fn no_mailer() -> Result1
    ensures { result ≡ spec.no_mailer }
{
    failed(b"5.3.5", b"unknown mailer")
}

// The same where none of the hosts is known.
pub(crate) fn no_host() -> Result1
    ensures { result ≡ spec.no_host }
{
    failed(b"5.1.2", b"no host known")
}

// The same of a text that is longer than the mailer takes.
pub(crate) fn too_large() -> Result1
    ensures { result ≡ spec.too_large }
{
    failed(b"5.3.4", b"message too large")
}

fn deferred(note: &[u8]) -> Result1
    requires { IsNote note.now }
    ensures { result ≡ WasDeferred note.now }
{
    match Note::of(note) {
        Some(note) => Result1::Deferred(note),
        None => unreachable!(),
    }
}

fn failed(status: &[u8], note: &[u8]) -> Result1
    requires status { IsTrue (is_status status.now) }
    requires note { IsNote note.now }
    ensures { result ≡ HasFailed status.now note.now }
{
    match (Status::of(status), Note::of(note)) {
        (Some(status), Some(note)) => Result1::Failed(status, note),
        _ => unreachable!(),
    }
}

// What the error of a route makes of its row.
pub(crate) fn refused_by(error: &RouteError) -> Result<Result1, NoMemory>
    ensures { IfOk result (λ one. one ≡ spec.refused_by error.now) }
{
    let note = note_of(error.text.bytes());
    if error.code >= 400 && error.code < 500 {
        return Ok(Result1::Deferred(note));
    }
    Ok(Result1::Failed(error.status.copy()?, note))
}

// A text as a note.
fn note_of(text: &[u8]) -> Note
    ensures { result ≡ spec.note_of text.now }
{
    match Note::cut(text) {
        Some(note) => note,
        None => refused(),
    }
}

fn refused() -> Note
    ensures { result ≡ codes "Refused" }
{
    match Note::of(b"Refused") {
        Some(note) => note,
        None => unreachable!(),
    }
}

// One result for each row of a batch.
pub(crate) fn alike(alloc: Global, one: &Result1, places: &[u32]) -> Result<Outcomes, NoMemory>
    ensures { IfOk result (λ outcomes. outcomes.results ≡ spec.alike one.now places.now) }
{
    let mut results = Seq::new(alloc);
    for place in places {
        push_for(&mut results, *place, one)?;
    }
    Ok(Outcomes { results })
}

// The result of the row at a place, behind those of others.
fn push_for(results: &mut Seq<Result1>, _place: u32, one: &Result1) -> Result<(), NoMemory>
    ensures { OnOk result (results.new ≡ results.old ++ spec.alike one.now (_place ∷ [])) }
{
    let one = one.copy()?;
    results.push(one)
}

// Each row gets what a program's exit says. It takes no memory.
pub(crate) fn fill_ended(outcomes: &mut Outcomes, status: i32)
    ensures { (places : List ℕ) → length outcomes.old.results ≡ length places
        → outcomes.new.results ≡ spec.alike (ended_with status) places }
{
    for place in 0..outcomes.results.len() {
        outcomes.results.set(place, end(status));
    }
}

// Each row gets what a failed device says. It takes no memory.
pub(crate) fn fill_lost(outcomes: &mut Outcomes)
    ensures { (places : List ℕ) → length outcomes.old.results ≡ length places
        → outcomes.new.results ≡ spec.alike spec.device_fault places }
{
    for place in 0..outcomes.results.len() {
        outcomes.results.set(place, device_fault());
    }
}
