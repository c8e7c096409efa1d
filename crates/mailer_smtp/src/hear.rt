ghost use Rattle.std.specs.Prelude.{◌≡◌, ◌<◌, ◌+◌, ◌/◌, ◌%◌, ◌∷◌, List, ℕ, true, take, IsTrue, if◌then◌else◌};
ghost use Rattle.mail_base.specs.Notes.{IsNote};
ghost use Rattle.link_edge.specs.Dials.{IsSoundAt};
ghost use Rattle.mailer_smtp.specs.Plans.{Plan, Hears, Says, asks, is_wanted, is_whole, verdict_of};
ghost use Rattle.mailer_smtp.specs.Texts.{note_of};
ghost use Rattle.mailer_smtp.specs.inner.Steps.{Went};
ghost use Rattle.mailer_smtp.specs.inner.Looks.{IsLook};
ghost use Rattle.mailer_smtp.specs.declared.verdict.Verdict.{Verdict as VerdictValue};
ghost use Rattle.mailer_smtp.specs.declared.verdict.Verdict.TheVariants.{Broken};

use crate::inbox::Inbox;
use crate::{Verdict, Wants};
use arrayvec::ArrayVec;
use link_edge::Dialer;
use mail_base::{Note, Text, first_bytes};
use smtp_lines::{Seen, reply};

// The most bytes of a text that a note has room for, behind the code and a blank.
const MOST_NOTED: usize = 508;

/// What is seen at the front of the bytes at hand.
#[derive(Drop)]
pub(crate) enum Look {
    /// A whole reply: what it is to what was asked, and its length.
    Said(Verdict, usize),
    Part,
    Bad,
}

/// Reads the reply that is next on a line.
pub(crate) fn hear<N: Dialer>(dialer: &mut N, line: u64, inbox: &mut Inbox, wants: Wants) -> Verdict
    requires sound { IsSoundAt (N.seen dialer.old) line }
    ensures went { (go : VerdictValue → Plan)
        → Went line (N.seen dialer.old) (N.seen dialer.new) (Hears wants go) inbox.old (go result)
        inbox.new }
    ensures sound { is_whole result ≡ true → IsSoundAt (N.seen dialer.new) line }
{
    loop {
        match seen_of(inbox.bytes(), wants) {
            Look::Said(verdict, length) => {
                inbox.drop_front(length);
                return verdict;
            }
            Look::Bad => return broken(b"bad reply"),
            Look::Part => {}
        }
        match inbox.read(dialer, line) {
            Ok(0) => return broken(b"connection lost"),
            Ok(_count) => {}
            Err(_fault) => return broken(b"device fault"),
        }
    }
}

/// Writes a text to a line, and says whether all of it was written.
pub(crate) fn say<N: Dialer>(dialer: &mut N, line: u64, text: &Text) -> bool
    requires sound { IsSoundAt (N.seen dialer.old) line }
    ensures went { (lost next : Plan) (bytes : List ℕ)
        → Went line (N.seen dialer.old) (N.seen dialer.new) (Says text.now lost next) bytes
        (if result then next else lost) bytes }
    ensures sound { IsTrue result → IsSoundAt (N.seen dialer.new) line }
{
    match dialer.write(line, text) {
        Ok(()) => true,
        Err(_fault) => false,
    }
}

/// Writes a text, and reads the reply to it.
pub(crate) fn ask<N: Dialer>(
    dialer: &mut N,
    line: u64,
    inbox: &mut Inbox,
    text: &Text,
    wants: Wants,
) -> Verdict
    requires sound { IsSoundAt (N.seen dialer.old) line }
    ensures went { (go : VerdictValue → Plan)
        → Went line (N.seen dialer.old) (N.seen dialer.new) (asks text.now wants go) inbox.old
        (go result) inbox.new }
    ensures sound { is_whole result ≡ true → IsSoundAt (N.seen dialer.new) line }
{
    if !say(dialer, line, text) {
        return broken(b"device fault");
    }
    hear(dialer, line, inbox, wants)
}

// What is seen of a reply at the front of bytes.
fn seen_of(bytes: &[u8], wants: Wants) -> Look
    ensures { IsLook wants bytes.now result }
{
    match reply(bytes) {
        Seen::Whole {
            code,
            text,
            eight,
            length,
        } => Look::Said(judged(wants, code, text, eight), length),
        Seen::Part => Look::Part,
        Seen::Bad => Look::Bad,
    }
}

fn judged(wants: Wants, code: u16, text: &[u8], eight: bool) -> Verdict
    ensures { result ≡ verdict_of wants code text.now eight }
{
    if is_wanted(wants, code) {
        return Verdict::Yes(eight);
    }
    if code / 100 == 4 {
        return Verdict::Later(note(code, text));
    }
    if code / 100 == 5 {
        return Verdict::No(note(code, text));
    }
    broken(b"bad reply")
}

fn is_wanted(wants: Wants, code: u16) -> bool
    ensures { result ≡ is_wanted wants code }
{
    match wants {
        Wants::Done => code / 100 == 2,
        Wants::Go => code == 354,
    }
}

// The note of a reply.
fn note(code: u16, text: &[u8]) -> Note
    requires { code < 1000 }
    ensures { result ≡ note_of code text.now }
{
    let line = said(code, text);
    match Note::cut(line.as_slice()) {
        Some(note) => note,
        None => unreachable!(),
    }
}

// The first bytes of a reply's line, with a blank behind the code.
fn said(code: u16, text: &[u8]) -> ArrayVec<u8, 512>
    requires { code < 1000 }
    ensures { result.items ≡ take 512 ((48 + code / 100) ∷ (48 + code / 10 % 10)
        ∷ (48 + code % 10) ∷ 32 ∷ text.now) }
{
    let mut line = ArrayVec::new();
    line.push(b'0' + (code / 100) as u8);
    line.push(b'0' + (code / 10 % 10) as u8);
    line.push(b'0' + (code % 10) as u8);
    line.push(b' ');
    for byte in first_bytes(text, MOST_NOTED) {
        line.push(*byte);
    }
    line
}

/// A verdict that is no reply, with that note.
pub(crate) fn broken(note: &[u8]) -> Verdict
    requires { IsNote note.now }
    ensures { result ≡ Broken note.now }
{
    match Note::of(note) {
        Some(note) => Verdict::Broken(note),
        None => unreachable!(),
    }
}
