ghost use Rattle.std.specs.Prelude.{◌≡◌, ◌≤◌, length, IfOk, None};
ghost use Rattle.mail_edge.specs.Asking.{Asks};
ghost use Rattle.submit_run.specs.Messages as spec;
ghost use Rattle.mail_submit.specs.Said.{AreSaid};
ghost use Rattle.submit_run.specs.inner.Steps.{IsSound, Tells, has_files_fault};
ghost use Rattle.submit_run.specs.inner.Storing.{IsFit};

use crate::SubmitEnd;
use crate::drawing::rows_of;
use crate::message::message_with;
use crate::parties::{recipients_of, sender_of};
use mail_base::{Config, MOST_HEADERS, Message, Text};
use mail_edge::Files;
use mail_judge::Grounds;
use mail_submit::{Submission, SubmitWords, submitted};
use smtp_receive::has_looped;
use std::alloc::Global;

/// The message that a text is which is handed over under these words, or why it isn't taken.
pub(crate) fn handed_over<F: Files>(
    alloc: Global,
    words: &SubmitWords,
    grounds: &Grounds,
    files: &mut F,
    text: &Text,
) -> Result<Message, SubmitEnd>
    requires words { AreSaid words.now }
    ensures comes { Tells (spec.IsHandedOver grounds.now (F.seen files.old).map words.now
        text.now) result }
    ensures form { IfOk result IsFit }
    ensures asks { Asks (F.seen files.old) (F.seen files.new) (has_files_fault result) }
{
    let submission = submitted(text, words.from_headers)?;
    come(alloc, words, grounds, files, submission)
}

// The message that a submission is, or why it isn't taken.
fn come<F: Files>(
    alloc: Global,
    words: &SubmitWords,
    grounds: &Grounds,
    files: &mut F,
    submission: Submission,
) -> Result<Message, SubmitEnd>
    requires words { AreSaid words.now }
    requires sound { IsSound submission }
    ensures comes { Tells (spec.Comes grounds.now (F.seen files.old).map words.now
        submission) result }
    ensures form { IfOk result IsFit }
    ensures asks { Asks (F.seen files.old) (F.seen files.new) (has_files_fault result) }
{
    match code_of(grounds.config(), &submission) {
        Some(code) => Err(SubmitEnd::MessageRefused(code)),
        None => drawn(alloc, words, grounds, files, submission),
    }
}

// The message that a submission is which isn't refused as a whole, with the rows of its recipients.
fn drawn<F: Files>(
    alloc: Global,
    words: &SubmitWords,
    grounds: &Grounds,
    files: &mut F,
    submission: Submission,
) -> Result<Message, SubmitEnd>
    requires words { AreSaid words.now }
    requires sound { IsSound submission }
    requires passed { spec.code_of grounds.now.config submission ≡ None }
    ensures comes { Tells (spec.Comes grounds.now (F.seen files.old).map words.now
        submission) result }
    ensures form { IfOk result IsFit }
    ensures asks { Asks (F.seen files.old) (F.seen files.new) (has_files_fault result) }
{
    let recipients = recipients_of(alloc, words, submission.recipients.items())?;
    if recipients.is_empty() {
        return Err(SubmitEnd::NoRecipient);
    }
    let sender = sender_of(alloc, words, &submission.first_from)?;
    let rows = rows_of(alloc, grounds, files, recipients.items(), &sender)?;
    let message = message_with(alloc, grounds.config(), submission, sender, rows)?;
    Ok(message)
}

// The code with which a submission is refused whatever its recipients are.
#[tactic(auto, unfolding(mail_base::specs::Limits::most_headers))]
fn code_of(config: &Config, submission: &Submission) -> Option<u16>
    requires { length submission.now.headers ≤ submission.now.block }
    ensures { result ≡ spec.code_of config.now submission.now }
{
    if submission.block > MOST_HEADERS {
        return Some(552);
    }
    if has_looped(&submission.headers, config.options.max_hop_count) {
        return Some(554);
    }
    None
}
