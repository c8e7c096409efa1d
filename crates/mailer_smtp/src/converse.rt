ghost use Rattle.std.specs.Prelude.{◌≡◌, ◌≤◌, ◌<◌, ◌+◌, ◌∷◌, [], List, ℕ, Option, false, drop, if◌then◌else◌, length, vec_capacity, IsTrue, IsNone, IsSome, IfSome};
ghost use Rattle.link_edge.specs.Dials.{IsSoundAt};
ghost use Rattle.mailer_smtp.specs.Plans.{Over, asks, each, texted, answered, receivers, mailing, heloed, greeted, talk, is_whole};
ghost use Rattle.mailer_smtp.specs.inner.Steps.{Went};
ghost use Rattle.mailer_smtp.specs.inner.Ways.{after_rcpt, after_rcpts};
ghost use Rattle.mailer_smtp.specs.declared.kit.Kit.{Kit as KitValue};
ghost use Rattle.mailer_smtp.specs.declared.kit.Speech.{Speech as SpeechValue};
ghost use Rattle.mailer_smtp.specs.declared.kit.Speech.TheVariants.{Smtp};
ghost use Rattle.mailer_smtp.specs.declared.verdict.Wants.TheVariants.{Done};

use crate::hear::{ask, broken, hear, say};
use crate::inbox::Inbox;
use crate::rows::{any_sent, is_sent, is_whole, is_yes, over, pass, result_of, settle, unsaid};
use crate::{Kit, Speech, Verdict, Wants};
use link_edge::Dialer;
use mail_base::{Result1, Text};

/// How a dialogue ended.
#[derive(Clone, Copy)]
pub(crate) struct End {
    /// QUIT is to be written.
    pub(crate) quits: bool,
    /// The host is left for the next.
    pub(crate) leaves: bool,
}

/// A whole dialogue on a line that was just dialled. There is room for the rows.
pub(crate) fn converse<N: Dialer>(
    dialer: &mut N,
    line: u64,
    inbox: &mut Inbox,
    speech: Speech,
    kit: &Kit,
    rows: &mut Vec<Result1>,
) -> End
    requires sound { IsSoundAt (N.seen dialer.old) line }
    requires none { rows.old.items ≡ [] }
    requires room { length kit.now.rcpts ≤ vec_capacity rows.old }
    ensures went { Went line (N.seen dialer.old) (N.seen dialer.new) (talk speech kit.now)
        inbox.old (Over result.quits result.leaves rows.new.items) inbox.new }
    ensures sound { IsTrue result.quits → IsSoundAt (N.seen dialer.new) line }
    ensures capacity { vec_capacity rows.new ≡ vec_capacity rows.old }
{
    let greeting = hear(dialer, line, inbox, Wants::Done);
    match greeting {
        Verdict::Yes(_) => End {
            quits: greet(dialer, line, inbox, speech, kit, rows),
            leaves: false,
        },
        Verdict::No(_) => End {
            quits: over(rows, &greeting, kit.rcpts.items()),
            leaves: false,
        },
        Verdict::Later(_) => End {
            quits: pass(rows, &greeting, kit.rcpts.items()),
            leaves: true,
        },
        Verdict::Broken(_) => End {
            quits: pass(rows, &greeting, kit.rcpts.items()),
            leaves: true,
        },
    }
}

// From EHLO or LHLO on. The answer is whether QUIT is to be written.
fn greet<N: Dialer>(
    dialer: &mut N,
    line: u64,
    inbox: &mut Inbox,
    speech: Speech,
    kit: &Kit,
    rows: &mut Vec<Result1>,
) -> bool
    requires sound { IsSoundAt (N.seen dialer.old) line }
    requires none { rows.old.items ≡ [] }
    requires room { length kit.now.rcpts ≤ vec_capacity rows.old }
    ensures went { Went line (N.seen dialer.old) (N.seen dialer.new)
        (asks kit.now.hello Done (greeted speech kit.now)) inbox.old
        (Over result false rows.new.items) inbox.new }
    ensures sound { IsTrue result → IsSoundAt (N.seen dialer.new) line }
    ensures capacity { vec_capacity rows.new ≡ vec_capacity rows.old }
{
    let reply = ask(dialer, line, inbox, &kit.hello, Wants::Done);
    match reply {
        Verdict::Yes(eight) => send_mail(dialer, line, inbox, speech, kit, eight, rows),
        Verdict::No(_) => match speech {
            Speech::Smtp => greet_again(dialer, line, inbox, kit, rows),
            Speech::Lmtp => over(rows, &reply, kit.rcpts.items()),
        },
        Verdict::Later(_) => over(rows, &reply, kit.rcpts.items()), // no HELO
        Verdict::Broken(_) => over(rows, &reply, kit.rcpts.items()),
    }
}

// From HELO on.
fn greet_again<N: Dialer>(
    dialer: &mut N,
    line: u64,
    inbox: &mut Inbox,
    kit: &Kit,
    rows: &mut Vec<Result1>,
) -> bool
    requires sound { IsSoundAt (N.seen dialer.old) line }
    requires none { rows.old.items ≡ [] }
    requires room { length kit.now.rcpts ≤ vec_capacity rows.old }
    ensures went { Went line (N.seen dialer.old) (N.seen dialer.new)
        (asks kit.now.again Done (heloed kit.now)) inbox.old
        (Over result false rows.new.items) inbox.new }
    ensures sound { IsTrue result → IsSoundAt (N.seen dialer.new) line }
    ensures capacity { vec_capacity rows.new ≡ vec_capacity rows.old }
{
    let reply = ask(dialer, line, inbox, &kit.again, Wants::Done);
    match reply {
        Verdict::Yes(_) => send_mail(dialer, line, inbox, Speech::Smtp, kit, false, rows),
        Verdict::Later(_) => over(rows, &reply, kit.rcpts.items()),
        Verdict::No(_) => over(rows, &reply, kit.rcpts.items()),
        Verdict::Broken(_) => over(rows, &reply, kit.rcpts.items()),
    }
}

// From MAIL on.
fn send_mail<N: Dialer>(
    dialer: &mut N,
    line: u64,
    inbox: &mut Inbox,
    speech: Speech,
    kit: &Kit,
    eight: bool,
    rows: &mut Vec<Result1>,
) -> bool
    requires sound { IsSoundAt (N.seen dialer.old) line }
    requires none { rows.old.items ≡ [] }
    requires room { length kit.now.rcpts ≤ vec_capacity rows.old }
    ensures went { Went line (N.seen dialer.old) (N.seen dialer.new) (mailing speech kit.now eight)
        inbox.old (Over result false rows.new.items) inbox.new }
    ensures sound { IsTrue result → IsSoundAt (N.seen dialer.new) line }
    ensures capacity { vec_capacity rows.new ≡ vec_capacity rows.old }
{
    let reply = ask(dialer, line, inbox, mail_text(kit, eight), Wants::Done);
    if !is_yes(&reply) {
        return over(rows, &reply, kit.rcpts.items());
    }
    match send_rcpts(dialer, line, inbox, kit.rcpts.items(), rows) {
        None => send_data(dialer, line, inbox, speech, kit, rows),
        Some(reply) => {
            let at = rows.len();
            over(rows, &reply, &kit.rcpts.items()[at..])
        }
    }
}

fn mail_text(kit: &Kit, eight: bool) -> &Text
    ensures { result.now ≡ (if eight then kit.now.mail_eight else kit.now.mail) }
{
    if eight {
        return &kit.mail_eight;
    }
    &kit.mail
}

// Settles each recipient, as long as there is a whole reply. The answer is the one that is none.
fn send_rcpts<N: Dialer>(
    dialer: &mut N,
    line: u64,
    inbox: &mut Inbox,
    rcpts: &[Option<Text>],
    rows: &mut Vec<Result1>,
) -> Option<Verdict>
    requires sound { IsSoundAt (N.seen dialer.old) line }
    requires none { rows.old.items ≡ [] }
    requires room { length rcpts.now ≤ vec_capacity rows.old }
    ensures went { (speech : SpeechValue) (kit : KitValue) → Went line (N.seen dialer.old)
        (N.seen dialer.new) (receivers speech kit [] rcpts.now) inbox.old
        (after_rcpts speech kit rows.new.items (drop (length rows.new.items) rcpts.now) result)
        inbox.new }
    ensures sound { IsNone result → IsSoundAt (N.seen dialer.new) line }
    ensures broken { IfSome result (λ reply. is_whole reply ≡ false) }
    ensures fewer { length rows.new.items ≤ length rcpts.now }
    ensures capacity { vec_capacity rows.new ≡ vec_capacity rows.old }
{
    for rcpt in rcpts {
        match send_rcpt(dialer, line, inbox, rcpt, rows) {
            None => {}
            Some(reply) => return Some(reply),
        }
    }
    None
}

// Settles one recipient. The answer is a reply that isn't whole.
fn send_rcpt<N: Dialer>(
    dialer: &mut N,
    line: u64,
    inbox: &mut Inbox,
    rcpt: &Option<Text>,
    rows: &mut Vec<Result1>,
) -> Option<Verdict>
    requires sound { IsSoundAt (N.seen dialer.old) line }
    requires room { length rows.old.items < vec_capacity rows.old }
    ensures went { (speech : SpeechValue) (kit : KitValue) (left : List (Option (List ℕ)))
        → Went line (N.seen dialer.old) (N.seen dialer.new)
        (receivers speech kit rows.old.items (rcpt.now ∷ left)) inbox.old
        (after_rcpt speech kit rows.new.items rcpt.now left result) inbox.new }
    ensures sound { IsNone result → IsSoundAt (N.seen dialer.new) line }
    ensures broken { IfSome result (λ reply. is_whole reply ≡ false) }
    ensures more { IsNone result → length rows.new.items ≡ length rows.old.items + 1 }
    ensures kept { IsSome result → rows.new.items ≡ rows.old.items }
    ensures capacity { vec_capacity rows.new ≡ vec_capacity rows.old }
{
    match rcpt {
        None => {
            rows.push_reserved(unsaid());
            None
        }
        Some(text) => {
            let reply = ask(dialer, line, inbox, text, Wants::Done);
            if !is_whole(&reply) {
                return Some(reply);
            }
            rows.push_reserved(result_of(&reply));
            None
        }
    }
}

// From DATA on, where a row was accepted.
fn send_data<N: Dialer>(
    dialer: &mut N,
    line: u64,
    inbox: &mut Inbox,
    speech: Speech,
    kit: &Kit,
    rows: &mut Vec<Result1>,
) -> bool
    requires sound { IsSoundAt (N.seen dialer.old) line }
    requires room { length rows.old.items ≤ vec_capacity rows.old }
    ensures went { Went line (N.seen dialer.old) (N.seen dialer.new)
        (answered speech kit.now rows.old.items) inbox.old (Over result false rows.new.items)
        inbox.new }
    ensures sound { IsTrue result → IsSoundAt (N.seen dialer.new) line }
    ensures capacity { vec_capacity rows.new ≡ vec_capacity rows.old }
{
    if !any_sent(rows) {
        return true;
    }
    let reply = ask(dialer, line, inbox, &kit.start, Wants::Go);
    if !is_yes(&reply) {
        return over(rows, &reply, &[]);
    }
    send_text(dialer, line, inbox, speech, kit, rows)
}

// The text and what is said to it.
fn send_text<N: Dialer>(
    dialer: &mut N,
    line: u64,
    inbox: &mut Inbox,
    speech: Speech,
    kit: &Kit,
    rows: &mut Vec<Result1>,
) -> bool
    requires sound { IsSoundAt (N.seen dialer.old) line }
    requires room { length rows.old.items ≤ vec_capacity rows.old }
    ensures went { Went line (N.seen dialer.old) (N.seen dialer.new)
        (texted speech kit.now rows.old.items) inbox.old (Over result false rows.new.items)
        inbox.new }
    ensures sound { IsTrue result → IsSoundAt (N.seen dialer.new) line }
    ensures capacity { vec_capacity rows.new ≡ vec_capacity rows.old }
{
    match speech {
        Speech::Smtp => {
            let reply = ask(dialer, line, inbox, &kit.text, Wants::Done);
            over(rows, &reply, &[])
        }
        Speech::Lmtp => {
            if !say(dialer, line, &kit.text) {
                return over(rows, &broken(b"device fault"), &[]);
            }
            hear_each(dialer, line, inbox, rows)
        }
    }
}

// A reply for each accepted row.
fn hear_each<N: Dialer>(dialer: &mut N, line: u64, inbox: &mut Inbox, rows: &mut [Result1]) -> bool
    requires sound { IsSoundAt (N.seen dialer.old) line }
    ensures went { Went line (N.seen dialer.old) (N.seen dialer.new) (each [] rows.old) inbox.old
        (Over result false rows.new) inbox.new }
    ensures sound { IsTrue result → IsSoundAt (N.seen dialer.new) line }
{
    for i in 0..rows.len() {
        if is_sent(&rows[i]) {
            let reply = hear(dialer, line, inbox, Wants::Done);
            if !is_whole(&reply) {
                settle(&mut rows[i..], &reply);
                return false;
            }
            rows[i] = result_of(&reply);
        }
    }
    true
}
