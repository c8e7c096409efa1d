ghost use Rattle.std.specs.Prelude.{◌≡◌, ◌+◌, ◌++◌, [], nat_lt, All, Err, IfOk, List, OnOk, false, length};
ghost use Rattle.mail_base.specs.Drawing.{AreRows};
ghost use Rattle.mail_base.specs.Limits.{most_rows, recipient_limit};
ghost use Rattle.mail_base.specs.Texts.{IsAddress, IsBracketed};
ghost use Rattle.cf_macros.specs.SessionMacros.{session_macros as session_macros_of};
ghost use Rattle.mail_edge.specs.Asking.{Asks};
ghost use Rattle.alias_expand.specs.Rows.{is_files_fault};
ghost use Rattle.mail_base.specs.declared.draw.Draw.{Draw as TheDraw};
ghost use Rattle.submit_run.specs.Parties.{kept as kept_of};
ghost use Rattle.submit_run.specs.Rows as spec;
ghost use Rattle.submit_run.specs.inner.Steps.{AreGathered, Gathers, RefusesBy, Tells, has_files_fault};

use crate::SubmitEnd;
use crate::message::kept;
use alias_expand::ExpandRefusal;
use cf_macros::session_macros;
use mail_base::{Cause, Draw, JudgeFault, MOST_ROWS, Macros, NoMemory, RouteError, Seq, Text};
use mail_edge::Files;
use mail_judge::{Grounds, error_of, error_with, too_many};
use std::alloc::Global;
use std::mem;

/// The rows of all recipients of a message with this sender, in their order, or the first recipient
/// that is refused.
pub(crate) fn rows_of<F: Files>(
    alloc: Global,
    grounds: &Grounds,
    files: &mut F,
    recipients: &[Text],
    sender: &Text,
) -> Result<Seq<Draw>, SubmitEnd>
    requires recipients { All IsAddress recipients.now }
    requires sender { IsBracketed sender.now }
    ensures draws { Tells (spec.Draws grounds.now (F.seen files.old).map sender.now 0 []
        recipients.now) result }
    ensures form { IfOk result (AreGathered (length recipients.now)) }
    ensures asks { Asks (F.seen files.old) (F.seen files.new) (has_files_fault result) }
{
    let kept = kept(alloc)?;
    let macros = session_macros(alloc, grounds.config(), &kept, sender)?;
    draw_all(alloc, grounds, &macros, files, recipients, sender)
}

fn draw_all<F: Files>(
    alloc: Global,
    grounds: &Grounds,
    macros: &Macros,
    files: &mut F,
    recipients: &[Text],
    sender: &Text,
) -> Result<Seq<Draw>, SubmitEnd>
    requires macros { macros.now ≡ session_macros_of grounds.now.config kept_of sender.now }
    requires recipients { All IsAddress recipients.now }
    requires sender { IsBracketed sender.now }
    ensures draws { Tells (spec.Draws grounds.now (F.seen files.old).map sender.now 0 []
        recipients.now) result }
    ensures form { IfOk result (AreGathered (length recipients.now)) }
    ensures asks { Asks (F.seen files.old) (F.seen files.new) (has_files_fault result) }
{
    let mut rows = Seq::new(alloc);
    'recipients: for (place, recipient) in recipients.iter().enumerate() {
        draw_one(
            alloc,
            grounds,
            macros,
            files,
            place as u64,
            recipient,
            sender,
            &mut rows,
        )?;
    }
    Ok(rows)
}

// Adds the rows of the recipient of this place.
fn draw_one<F: Files>(
    alloc: Global,
    grounds: &Grounds,
    macros: &Macros,
    files: &mut F,
    place: u64,
    recipient: &Text,
    sender: &Text,
    rows: &mut Seq<Draw>,
) -> Result<(), SubmitEnd>
    requires macros { macros.now ≡ session_macros_of grounds.now.config kept_of sender.now }
    requires recipient { IsAddress recipient.now }
    requires sender { IsBracketed sender.now }
    ensures draws { Gathers place (spec.DrawsOne grounds.now (F.seen files.old).map
        sender.now place rows.old recipient.now) result rows.new }
    ensures form { AreGathered place rows.old → OnOk result (AreGathered (place + 1) rows.new) }
    ensures asks { Asks (F.seen files.old) (F.seen files.new) (has_files_fault result) }
{
    if is_program(recipient.bytes()) {
        return Err(SubmitEnd::BadRecipient(place, no_program(alloc)?));
    }
    match grounds.expand(alloc, macros, files, recipient, sender) {
        Ok(more) => {
            let limit = grounds.config().options.recipient_limit();
            add(alloc, limit, place, rows, more)
        }
        Err(refusal) => refused(alloc, place, refusal),
    }
}

// The end that a recipient brings whose aliases give no rows.
fn refused(alloc: Global, place: u64, refusal: ExpandRefusal) -> Result<(), SubmitEnd>
    ensures says { RefusesBy place refusal result }
    ensures fault { has_files_fault result ≡ is_files_fault {T = List TheDraw} (Err refusal) }
{
    match error_of(alloc, refusal) {
        Ok(error) => Err(SubmitEnd::BadRecipient(place, error)),
        Err(JudgeFault::FilesFault) => Err(SubmitEnd::FilesFault),
        Err(JudgeFault::NoMemory) => Err(SubmitEnd::NoMemory),
    }
}

// Adds the rows of a recipient, unless it or they are too many.
fn add(
    alloc: Global,
    limit: u64,
    place: u64,
    rows: &mut Seq<Draw>,
    more: Seq<Draw>,
) -> Result<(), SubmitEnd>
    ensures adds { Gathers place (λ drawn. drawn ≡ spec.joined limit place rows.old more) result
        rows.new }
    ensures form { AreGathered place rows.old → AreRows more
        → OnOk result (AreGathered (place + 1) rows.new) }
    ensures calm { has_files_fault result ≡ false }
{
    if place >= limit || are_too_many(rows.len(), more.len()) {
        return Err(SubmitEnd::BadRecipient(place, too_many(alloc)?));
    }
    append(rows, more)?;
    Ok(())
}

#[tactic(auto, unfolding(mail_base::specs::Limits::most_rows))]
fn are_too_many(rows: usize, more: usize) -> bool
    ensures { result ≡ nat_lt most_rows (rows + more) }
{
    rows.saturating_add(more) > MOST_ROWS
}

fn append(rows: &mut Seq<Draw>, more: Seq<Draw>) -> Result<(), NoMemory>
    ensures ok { OnOk result (rows.new ≡ rows.old ++ more) }
{
    let mut all = mem::replace(rows, Seq::new(rows.allocator())).into_vec();
    let mut more = more.into_vec();
    let done = all.append(&mut more);
    *rows = Seq::from_vec(all);
    Ok(done?)
}

fn is_program(recipient: &[u8]) -> bool
    ensures { result ≡ spec.is_program recipient.now }
{
    match recipient.first() {
        Some(first) => *first == b'|',
        None => false,
    }
}

fn no_program(alloc: Global) -> Result<RouteError, NoMemory>
    ensures { IfOk result (λ error. error ≡ spec.no_program) }
{
    error_with(
        alloc,
        550,
        b"5.2.4",
        b"File delivery not supported",
        Cause::FileMailer,
    )
}
