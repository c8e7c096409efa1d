ghost use Rattle.std.specs.Prelude.{◌≡◌, ◌+◌, ◌<◌, ◌≤◌, ◌^◌, drop, length};
ghost use Rattle.cf_macros.specs.inner.Insides.{IsPast, IsBehind, IsMark, ends_behind};

use crate::construct::{Kind, first_piece};
use crate::scope::Scope;

/// The sign at which a conditional goes on, where its first part isn't given.
#[derive(Clone, Copy)]
pub(crate) enum Mark {
    /// The other part begins at this place.
    OtherPart(usize),
    /// There is no other part, and the conditional ends before this place.
    Behind(usize),
    /// Nothing closes the conditional.
    NoMark,
}

/// The text from a place on.
pub(crate) fn rest(text: &[u8], place: usize) -> &[u8]
    requires { place ≤ length text.now }
    ensures { result.now ≡ drop place text.now }
{
    &text[place..]
}

fn ends_behind(kind: Kind, ends: usize) -> usize
    requires { ends + 1 < 2 ^ 64 }
    ensures { result ≡ ends_behind kind ends }
{
    match kind {
        Kind::Test => ends + 1,
        Kind::End => ends.saturating_sub(1),
        _ => ends,
    }
}

/// The place behind the first `$.` that is free from a place on, or `None` where there is none.
pub(crate) fn behind_end(scope: Scope, text: &[u8], from: usize) -> Option<usize>
    requires { from ≤ length text.now }
    ensures { IsPast scope text.now 1 from result }
{
    let mut place = from;
    let mut ends = 1;
    'constructs: while place < text.len() {
        let found = first_piece(scope, rest(text, place));
        if let Kind::Unclosed = found.kind {
            return None;
        }
        place += found.width;
        ends = ends_behind(found.kind, ends);
        if ends == 0 {
            return Some(place);
        }
    }
    None
}

fn behind(scope: Scope, text: &[u8], kind: Kind, next: usize) -> Option<usize>
    requires { next ≤ length text.now }
    ensures { IsBehind scope text.now kind next result }
{
    match kind {
        Kind::Test => behind_end(scope, text, next),
        _ => Some(next),
    }
}

/// The sign behind which a conditional goes on from a place on, where its first part isn't given.
pub(crate) fn find_mark(scope: Scope, text: &[u8], from: usize) -> Mark
    requires { from ≤ length text.now }
    ensures { IsMark scope text.now from result }
{
    let mut place = from;
    'constructs: while place < text.len() {
        let found = first_piece(scope, rest(text, place));
        let next = place + found.width;
        match found.kind {
            Kind::Unclosed => return Mark::NoMark,
            Kind::Else => return Mark::OtherPart(next),
            Kind::End => return Mark::Behind(next),
            _ => {}
        }
        let Some(passed) = behind(scope, text, found.kind, next) else {
            return Mark::NoMark;
        };
        place = passed;
    }
    Mark::NoMark
}
