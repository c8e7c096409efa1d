ghost use Rattle.std.specs.Prelude.{[], None, Some, IfSome};
ghost use Rattle.mail_base.specs.Notes.{IsNote};
ghost use Rattle.qf_format.specs.inner.Reading.{Spells};
ghost use Rattle.qf_format.specs.inner.Parts.{queued_text};
ghost use Rattle.qf_format.specs.Spelling.{cause, state_text};
ghost use Rattle.qf_format.specs.Valid.{IsCause, IsState};

use crate::field::{after_tag, split_end};
use crate::number::id_of;
use bstr::ByteSlice;
use mail_base::{Note, State, Status};

/// What became of a row, from its line behind the tag.
pub(crate) fn state_of(bytes: &[u8]) -> Option<State>
    ensures { Spells state_text IsState bytes.now result }
{
    if let Some(rest) = after_tag(b"Q", bytes) {
        return Some(State::Queued(queued_of(rest)?));
    }
    if let Some(rest) = after_tag(b"S", bytes) {
        return if rest.is_empty() {
            Some(State::Sent)
        } else {
            None
        };
    }
    if let Some(rest) = after_tag(b"F", bytes) {
        let (status, note) = cause_of(rest)?;
        return Some(State::Failed(status, note));
    }
    if let Some(rest) = after_tag(b"R ", bytes) {
        return Some(State::Returned(id_of(rest)?));
    }
    let (status, note) = cause_of(after_tag(b"D", bytes)?)?;
    Some(State::Dead(status, note))
}

// The note of the last attempt, if there is one.
fn queued_of(bytes: &[u8]) -> Option<Option<Note>>
    ensures { Spells queued_text (λ n. IfSome n IsNote) bytes.now result }
{
    if bytes.is_empty() {
        return Some(None);
    }
    Some(Some(Note::of(after_tag(b" ", bytes)?)?))
}

// A status and a note.
fn cause_of(bytes: &[u8]) -> Option<(Status, Note)>
    ensures { Spells (λ p. cause p.0 p.1) (λ p. IsCause p.0 p.1) bytes.now result }
{
    let rest = after_tag(b" ", bytes)?;
    let at = rest.find_byte(b' ')?;
    let (status, note) = split_end(rest, at);
    Some((Status::of(status)?, Note::of(note)?))
}
