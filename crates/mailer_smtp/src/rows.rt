ghost use Rattle.std.specs.Prelude.{◌≡◌, ◌≤◌, ◌+◌, ◌++◌, [], map, length, vec_capacity, IsTrue};
ghost use Rattle.std.specs.List.{list_any};
ghost use Rattle.mail_base.specs.Notes.{IsNote, is_status};
ghost use Rattle.mail_base.specs.declared.outcome.Result1.TheVariants.{Failed as FailedRow};
ghost use Rattle.mailer_smtp.specs.Plans.{is_sent, is_whole, is_yes, result_of, row_of, settled, unsaid_row};

use crate::Verdict;
use mail_base::{Note, Result1, Status, Text};

pub(crate) fn is_whole(reply: &Verdict) -> bool
    ensures { result ≡ is_whole reply.now }
{
    !matches!(reply, Verdict::Broken(_))
}

pub(crate) fn is_yes(reply: &Verdict) -> bool
    ensures { result ≡ is_yes reply.now }
{
    matches!(reply, Verdict::Yes(_))
}

pub(crate) fn is_sent(row: &Result1) -> bool
    ensures { result ≡ is_sent row.now }
{
    matches!(row, Result1::Sent)
}

pub(crate) fn any_sent(rows: &[Result1]) -> bool
    ensures { result ≡ list_any is_sent rows.now }
{
    rows.iter().any(|row| is_sent(row))
}

/// What a row becomes by a reply.
pub(crate) fn result_of(reply: &Verdict) -> Result1
    ensures { result ≡ result_of reply.now }
{
    match reply {
        Verdict::Yes(_) => Result1::Sent,
        Verdict::Later(note) => Result1::Deferred(same(note)),
        Verdict::No(note) => failed(b"5.0.0", note.bytes()),
        Verdict::Broken(note) => Result1::Deferred(same(note)),
    }
}

/// A row that failed.
pub(crate) fn failed(status: &[u8], note: &[u8]) -> Result1
    requires status { IsTrue (is_status status.now) }
    requires note { IsNote note.now }
    ensures { result ≡ FailedRow status.now note.now }
{
    match Status::of(status) {
        Some(status) => match Note::of(note) {
            Some(note) => Result1::Failed(status, note),
            None => unreachable!(),
        },
        None => unreachable!(),
    }
}

/// A row whose address can't stand in a command.
pub(crate) fn unsaid() -> Result1
    ensures { result ≡ unsaid_row }
{
    failed(b"5.1.3", b"bad address")
}

// What a row becomes that may be asked for or not.
fn row_of(row: Result1, rcpt: &Option<Text>) -> Result1
    ensures { result ≡ row_of row rcpt.now }
{
    match rcpt {
        Some(_) => row,
        None => unsaid(),
    }
}

/// A copy of a note, which takes no memory.
pub(crate) fn same(note: &Note) -> Note
    ensures { result ≡ note.now }
{
    match Note::of(note.bytes()) {
        Some(note) => note,
        None => unreachable!(),
    }
}

/// Gives the accepted rows what came last.
pub(crate) fn settle(rows: &mut [Result1], last: &Verdict)
    ensures { rows.new ≡ map (settled last.now) rows.old }
{
    for row in rows.iter_mut() {
        if is_sent(row) {
            *row = result_of(last);
        }
    }
}

/// Gives each of those that are left what came last. There is room for them.
pub(crate) fn fill(rows: &mut Vec<Result1>, last: &Verdict, left: &[Option<Text>])
    requires { length rows.old.items + length left.now ≤ vec_capacity rows.old }
    ensures items { rows.new.items ≡ rows.old.items ++ map (row_of (result_of last.now)) left.now }
    ensures capacity { vec_capacity rows.new ≡ vec_capacity rows.old }
{
    for rcpt in left {
        rows.push_reserved(row_of(result_of(last), rcpt));
    }
}

/// Gives each of them this failure. There is room for them.
pub(crate) fn fail_all(rows: &mut Vec<Result1>, status: &[u8], note: &[u8], left: &[Option<Text>])
    requires status { IsTrue (is_status status.now) }
    requires note { IsNote note.now }
    requires room { length left.now ≤ vec_capacity rows.old }
    ensures items { rows.new.items ≡ map (row_of (FailedRow status.now note.now)) left.now }
{
    rows.clear();
    for rcpt in left {
        rows.push_reserved(row_of(failed(status, note), rcpt));
    }
}

/// Gives each of these users the failure of an address that can't be said. There is room for them.
pub(crate) fn refuse_all(rows: &mut Vec<Result1>, users: &[Text])
    requires none { rows.old.items ≡ [] }
    requires room { length users.now ≤ vec_capacity rows.old }
    ensures items { rows.new.items ≡ map (λ _. unsaid_row) users.now }
{
    for _user in users {
        rows.push_reserved(unsaid());
    }
}

/// Ends a dialogue by a reply, and says whether it is whole.
pub(crate) fn over(rows: &mut Vec<Result1>, last: &Verdict, left: &[Option<Text>]) -> bool
    requires { length rows.old.items + length left.now ≤ vec_capacity rows.old }
    ensures whole { result ≡ is_whole last.now }
    ensures items { rows.new.items ≡ map (settled last.now) rows.old.items
        ++ map (row_of (result_of last.now)) left.now }
    ensures capacity { vec_capacity rows.new ≡ vec_capacity rows.old }
{
    settle(rows, last);
    fill(rows, last, left);
    is_whole(last)
}

/// Leaves the rows for the next host, and says whether the reply is whole.
pub(crate) fn pass(rows: &mut Vec<Result1>, last: &Verdict, left: &[Option<Text>]) -> bool
    requires none { rows.old.items ≡ [] }
    requires room { length left.now ≤ vec_capacity rows.old }
    ensures whole { result ≡ is_whole last.now }
    ensures items { rows.new.items ≡ map (row_of (result_of last.now)) left.now }
    ensures capacity { vec_capacity rows.new ≡ vec_capacity rows.old }
{
    fill(rows, last, left);
    is_whole(last)
}
