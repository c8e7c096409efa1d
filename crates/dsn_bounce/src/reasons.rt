//! The lines that tell of an entry's rows.

ghost use Rattle.std.specs.Prelude.{◌≡◌, ◌++◌, Some, None, OnOk, codes};
ghost use Rattle.dsn_bounce.specs.Rows as spec;

use crate::topic::Topic;
use mail_base::{NoMemory, Note, Row, State, Status, Text};

/// Adds a line.
pub(crate) fn push_line(text: &mut Text, content: &[u8]) -> Result<(), NoMemory>
    ensures { OnOk result (text.new ≡ text.old ++ spec.line content.now) }
{
    text.extend(content)?;
    text.extend(b"\r\n")
}

/// Adds what is told of the rows.
pub(crate) fn push_rows(text: &mut Text, topic: Topic, rows: &[Row]) -> Result<(), NoMemory>
    ensures { OnOk result (text.new ≡ text.old ++ spec.told_rows topic rows.now) }
{
    for row in rows {
        push_row(text, topic, row)?;
    }
    Ok(())
}

fn push_row(text: &mut Text, topic: Topic, row: &Row) -> Result<(), NoMemory>
    ensures { OnOk result (text.new ≡ text.old ++ spec.told_of topic row.now) }
{
    match (topic, &row.state) {
        (Topic::Bounce, State::Failed(status, note)) => push_failed(text, row, status, note),
        (Topic::Warning, State::Queued(note)) => push_queued(text, row, note),
        _ => Ok(()),
    }
}

fn push_failed(text: &mut Text, row: &Row, status: &Status, note: &Note) -> Result<(), NoMemory>
    ensures { OnOk result (text.new
        ≡ text.old ++ spec.failed_lines row.now.address status.now note.now) }
{
    push_line(text, row.address.bytes())?;
    text.extend(reason_words())?;
    push_cause(text, status, note)
}

#[tactic(auto, unfolding(crate::specs::Rows::reason_words))]
fn reason_words() -> &'static [u8]
    ensures { result.now ≡ spec.reason_words }
{
    b"    (reason: "
}

fn push_cause(text: &mut Text, status: &Status, note: &Note) -> Result<(), NoMemory>
    ensures { OnOk result (text.new
        ≡ text.old ++ (status.now ++ (codes " " ++ (note.now ++ spec.line (codes ")"))))) }
{
    text.extend(status.bytes())?;
    text.extend(b" ")?;
    push_end(text, note)
}

fn push_end(text: &mut Text, note: &Note) -> Result<(), NoMemory>
    ensures { OnOk result (text.new ≡ text.old ++ (note.now ++ spec.line (codes ")"))) }
{
    text.extend(note.bytes())?;
    push_line(text, b")")
}

fn push_queued(text: &mut Text, row: &Row, note: &Option<Note>) -> Result<(), NoMemory>
    ensures { OnOk result (text.new ≡ text.old ++ spec.queued_lines row.now.address note.now) }
{
    match note {
        None => push_untried(text, row),
        Some(note) => push_noted(text, row, note),
    }
}

fn push_untried(text: &mut Text, row: &Row) -> Result<(), NoMemory>
    ensures { OnOk result (text.new ≡ text.old ++ spec.queued_lines row.now.address None) }
{
    text.extend(row.address.bytes())?;
    push_line(text, b" (not yet tried)")
}

fn push_noted(text: &mut Text, row: &Row, note: &Note) -> Result<(), NoMemory>
    ensures { OnOk result (text.new
        ≡ text.old ++ spec.queued_lines row.now.address (Some note.now)) }
{
    push_line(text, row.address.bytes())?;
    text.extend(reason_words())?;
    push_end(text, note)
}
