ghost use Rattle.std.specs.Prelude.{◌≡◌, ◌≤◌, find, length};
ghost use Rattle.std.specs.List.{count_by, list_any, prefix_len};
ghost use Rattle.std.specs.Option.{option_copied};
ghost use Rattle.mail_header.specs.Places as spec;

use crate::part::{Part, is_comment, is_gap, is_left, is_right};
use crate::span::Span;

/// The place of the address in a member of a header's value, if it has one.
pub(crate) fn place_of(member: &[Part]) -> Option<Span>
    ensures { result ≡ spec.place_of member.now }
{
    match pairs(member) {
        0 => bare_place(stripped(member)),
        1 => place_between(member),
        _ => None,
    }
}

/// How many pairs of angles a member has.
fn pairs(member: &[Part]) -> usize
    ensures { result ≡ count_by spec.is_left member.now }
{
    member.iter().filter(|part| is_left(part)).count()
}

/// What stands between the first `<` and the first `>`.
fn place_between(member: &[Part]) -> Option<Span>
    ensures { result ≡ spec.place_by 1 member.now }
{
    span_between(first_left(member), first_right(member))
}

fn first_left(member: &[Part]) -> Option<&Part>
    ensures { option_copied result ≡ find spec.is_left member.now }
{
    member.iter().find(|part| is_left(part))
}

fn first_right(member: &[Part]) -> Option<&Part>
    ensures { option_copied result ≡ find spec.is_right member.now }
{
    member.iter().find(|part| is_right(part))
}

fn span_between(left: Option<&Part>, right: Option<&Part>) -> Option<Span>
    ensures { result ≡ spec.span_between (option_copied left.entry) (option_copied right.entry) }
{
    match left {
        Some(left) => match right {
            Some(right) => span_from(left.end, right.start),
            None => None,
        },
        None => None,
    }
}

/// All of a member without angles, where no comment stands in it.
fn bare_place(parts: &[Part]) -> Option<Span>
    ensures { result ≡ spec.bare_place parts.now }
{
    if has_comment(parts) {
        return None;
    }
    span_over(parts.first(), parts.last())
}

fn has_comment(parts: &[Part]) -> bool
    ensures { result ≡ list_any spec.is_comment parts.now }
{
    parts.iter().any(is_comment)
}

fn span_over(first: Option<&Part>, last: Option<&Part>) -> Option<Span>
    ensures { result ≡ spec.span_over (option_copied first.entry) (option_copied last.entry) }
{
    match first {
        Some(first) => match last {
            Some(last) => span_from(first.start, last.end),
            None => None,
        },
        None => None,
    }
}

fn span_from(start: usize, end: usize) -> Option<Span>
    ensures { result ≡ spec.span_from start end }
{
    if start < end {
        let length = end - start;
        return Some(Span { start, length });
    }
    None
}

/// A member without the comments and the white space at both ends.
fn stripped(member: &[Part]) -> &[Part]
    ensures { result.now ≡ spec.stripped member.now }
{
    let rest = &member[gaps(member)..];
    let mut end = rest.len();
    'parts: while end > 0 && is_gap(&rest[end - 1]) {
        end -= 1;
    }
    &rest[..end]
}

/// How many of its first parts are comments and white space.
fn gaps(member: &[Part]) -> usize
    ensures length { result ≡ prefix_len spec.is_gap member.now }
    ensures within { result ≤ length member.now }
{
    for (index, part) in member.iter().enumerate() {
        if !is_gap(part) {
            return index;
        }
    }
    member.len()
}
