ghost use Rattle.std.specs.Prelude.{◌≡◌, ◌+◌, ◌<◌, ◌^◌, All, IfOk, codes, filter_map, length, true};
ghost use Rattle.std.specs.List.{list_any, slice_split};
ghost use Rattle.addr_tokens.specs.Pieces.{plain};
ghost use Rattle.addr_tokens.specs.Spans.{spans_or_fault};
ghost use Rattle.mail_header.specs.Places as spec;
ghost use Rattle.mail_header.specs.Places.{AreApart};

use crate::fields::value_of;
use crate::member::place_of;
use crate::part::{Part, is_comma, is_group, is_op};
use crate::span::Span;
use addr_tokens::{PieceKind, PieceSpan, ScanFault, pieces, spans_computed};
use mail_base::{NoMemory, Seq, Text};
use std::alloc::Global;

/// Where addresses stand in a header (RFC 5322, sections 3.4 and 4.4). Its value is parted at the
/// commas outside of quotes, comments and angles. A member has its place between its angles, where
/// it has one pair; with more it has none. Without angles it is what is left without the comments
/// and the white space at both ends, where no comment stands in that. There are no places where a
/// quote, a comment or an angle isn't closed, and where a colon or a semicolon stands outside of
/// them, as in a group. What is said of a header's form is no condition: any text may be given.
pub fn places(header: &Text) -> Result<Seq<Span>, NoMemory>
    ensures places { IfOk result (λ places. places ≡ spec.places_of header.now) }
    ensures apart { IfOk result (λ places. AreApart 0 places (length header.now)) }
{
    let value = value_of(header.bytes());
    places_behind(header.allocator(), value, header.len() - value.len())
}

/// The same of a value before which so many bytes of its header stand.
fn places_behind(alloc: Global, value: &[u8], before: usize) -> Result<Seq<Span>, NoMemory>
    requires { before + length value.now < 2 ^ 64 }
    ensures places { IfOk result (λ places. places
        ≡ spec.places_read before (spans_or_fault (plain (codes ":")) true value.now)) }
    ensures apart { IfOk result (λ places. AreApart 0 places (before + length value.now)) }
{
    // A law: the pieces of a text are those that the definition computes.
    spans_computed();
    match pieces(alloc, value, b":", true) {
        Ok(pieces) => {
            let parts = parts_of(alloc, pieces.items(), before)?;
            places_in(alloc, parts.items())
        }
        Err(ScanFault::NoMemory) => Err(NoMemory),
        Err(_) => Ok(Seq::new(alloc)),
    }
}

/// The pieces of a value before which so many bytes of its header stand.
fn parts_of(alloc: Global, pieces: &[PieceSpan], before: usize) -> Result<Seq<Part>, NoMemory>
    requires { All (λ piece. before + (piece.start + piece.length) < 2 ^ 64) pieces.now }
    ensures { IfOk result (λ parts. parts ≡ spec.parts_of before 0 pieces.now) }
{
    let mut parts = Seq::new(alloc);
    let mut depth = 0usize;
    for (index, piece) in pieces.iter().enumerate() {
        let kind = piece.kind;
        let start = before + piece.start;
        let end = before + (piece.start + piece.length);
        parts.push(Part {
            kind,
            depth,
            start,
            end,
        })?;
        depth = depth_after(depth, kind);
    }
    Ok(parts)
}

fn depth_after(depth: usize, kind: PieceKind) -> usize
    requires { depth + 1 < 2 ^ 64 }
    ensures { result ≡ spec.depth_after depth kind }
{
    if is_op(b'<', kind) {
        return depth + 1;
    }
    if is_op(b'>', kind) {
        return depth.saturating_sub(1);
    }
    depth
}

fn places_in(alloc: Global, parts: &[Part]) -> Result<Seq<Span>, NoMemory>
    ensures { IfOk result (λ places. places ≡ spec.places_in parts.now) }
{
    if has_group(parts) {
        return Ok(Seq::new(alloc));
    }
    Ok(Seq::from_vec(member_places(alloc, parts)?))
}

fn has_group(parts: &[Part]) -> bool
    ensures { result ≡ list_any spec.is_group parts.now }
{
    parts.iter().any(is_group)
}

fn member_places(alloc: Global, parts: &[Part]) -> Result<Vec<Span>, NoMemory>
    ensures { IfOk result (λ places. places.items
        ≡ filter_map spec.place_of (slice_split spec.is_comma parts.now)) }
{
    let places = parts
        .split(|part| is_comma(part))
        .filter_map(|member| place_of(member))
        .collect(alloc)?;
    Ok(places)
}
