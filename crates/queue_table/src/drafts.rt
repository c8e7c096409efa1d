ghost use Rattle.std.specs.Prelude.{◌≡◌, IfOk, map};
ghost use Rattle.qf_format.specs.Valid.{IsValid};
ghost use Rattle.queue_table.specs.Calls.{AreValid};
ghost use Rattle.queue_table.specs.Commands.{draft_of, drafts_of, new_control, new_row};
ghost use Rattle.queue_table.specs.Results.{with_warning};
ghost use Rattle.queue_table.specs.inner.Planning.{control_by, given_by, row_by};

use crate::Terms;
use mail_base::{Control, Cut, Draft, Draw, Id, Message, NoMemory, Row, Seq, State, TryCopy};
use std::alloc::Global;

// The rows of a part, of which nothing became yet.
fn rows_of(alloc: Global, draws: &[Draw]) -> Result<Seq<Row>, NoMemory>
    ensures { IfOk result (λ rows. rows ≡ map new_row draws.now) }
{
    let mut rows = Seq::new(alloc);
    for draw in draws {
        rows.push(Row {
            address: draw.address.copy()?,
            primary: draw.primary,
            state: State::Queued(None),
        })?;
    }
    Ok(rows)
}

// The first control of a part of a message.
fn control_of(terms: &Terms, message: &Message, moment: u64, cut: &Cut) -> Result<Control, NoMemory>
    requires valid { IsValid (new_control terms.now message.now moment cut.now) }
    ensures { IfOk result (λ c. c ≡ new_control terms.now message.now moment cut.now) }
{
    let count = cut.rows.len() as u32;
    Ok(Control {
        group: cut.group.copy()?,
        sender: cut.sender.copy()?,
        kept: message.kept.copy()?,
        rows: rows_of(cut.rows.allocator(), cut.rows.items())?,
        headers: message.headers.copy()?,
        priority: terms
            .factors
            .priority(message.size, message.class, count, 0),
        revision: 1,
        parent: None,
        created: moment,
        last_try: 0,
        tries: 0,
        class: message.class,
        marks: message.marks,
        eight: message.eight,
    })
}

/// The draft of the entry that a part of a message becomes.
pub(crate) fn draft_of(
    terms: &Terms,
    message: &Message,
    moment: u64,
    cut: &Cut,
) -> Result<Draft, NoMemory>
    requires valid { IsValid (new_control terms.now message.now moment cut.now) }
    ensures { IfOk result (λ d. d ≡ draft_of terms.now message.now moment cut.now) }
{
    Ok(Draft {
        dir: terms.dir(&cut.group)?,
        control: control_of(terms, message, moment, cut)?,
        id: None,
    })
}

/// The drafts of parts of a message, in their order.
pub(crate) fn drafts_of(
    terms: &Terms,
    message: &Message,
    moment: u64,
    cuts: &[Cut],
) -> Result<Seq<Draft>, NoMemory>
    requires valid { AreValid terms.now message.now moment cuts.now }
    ensures { IfOk result (λ ds. ds ≡ drafts_of terms.now message.now moment cuts.now) }
{
    let mut drafts = Seq::new(message.headers.allocator());
    for cut in cuts {
        let draft = draft_of(terms, message, moment, cut)?;
        drafts.push(draft)?;
    }
    Ok(drafts)
}

// What a row's state becomes where its entry is given back: a failed one is returned by a bounce,
// or without one is dead.
fn state_back(state: &State, bounce: Option<Id>) -> Result<State, NoMemory>
    ensures { IfOk result (λ s. s ≡ given_by bounce state.now) }
{
    match state {
        State::Queued(note) => Ok(State::Queued(note.copy()?)),
        State::Sent => Ok(State::Sent),
        State::Failed(status, note) => match bounce {
            Some(id) => Ok(State::Returned(id)),
            None => Ok(State::Dead(status.copy()?, note.copy()?)),
        },
        State::Returned(id) => Ok(State::Returned(*id)),
        State::Dead(status, note) => Ok(State::Dead(status.copy()?, note.copy()?)),
    }
}

fn rows_back(alloc: Global, rows: &[Row], bounce: Option<Id>) -> Result<Seq<Row>, NoMemory>
    ensures { IfOk result (λ back. back ≡ map (row_by bounce) rows.now) }
{
    let mut back = Seq::new(alloc);
    for row in rows {
        back.push(Row {
            address: row.address.copy()?,
            state: state_back(&row.state, bounce)?,
            primary: row.primary,
        })?;
    }
    Ok(back)
}

/// The next control of an entry whose failed rows are returned by a bounce, or without one are
/// dead.
pub(crate) fn control_back(control: &Control, bounce: Option<Id>) -> Result<Control, NoMemory>
    ensures { IfOk result (λ c. c ≡ control_by bounce control.now) }
{
    let rows = rows_back(control.rows.allocator(), control.rows.items(), bounce)?;
    let mut back = control.copy()?;
    back.revision = control.revision.saturating_add(1);
    back.rows = rows;
    Ok(back)
}

/// The next control of an entry of which a warning was sent.
pub(crate) fn control_warned(control: &Control) -> Result<Control, NoMemory>
    ensures { IfOk result (λ c. c ≡ with_warning control.now) }
{
    let mut warned = control.copy()?;
    warned.revision = control.revision.saturating_add(1);
    warned.marks.warned = true;
    Ok(warned)
}
