ghost use Rattle.std.specs.Prelude.{◌≡◌, ◌+◌, ◌^◌, ◌<◌, ◌≤◌, ℕ, List, Bool, length, drop, reverse, slice_index, IfOk, IfErr};
ghost use Rattle.addr_tokens.specs.Pieces.{Alphabet, plain};
ghost use Rattle.addr_tokens.specs.Reader.{first_of};
ghost use Rattle.addr_tokens.specs.Spans as spec;
ghost use Rattle.addr_tokens.specs.Spans.{AreSpans, ExplainsUncut};
ghost use Rattle.addr_tokens.specs.inner.Spanning.{SpansAt, SpansGo};
ghost use Rattle.addr_tokens.specs.inner.Tables.{IsTable};
ghost use Rattle.addr_tokens.specs.inner.Views.{piece_of, size_of, front_read};

use crate::ScanFault;
use crate::ending::word_length;
use crate::front::{Front, marked_of};
use crate::gathering::Angles;
use crate::lexeme::Dollars;
use crate::span::{PieceKind, PieceSpan};
use crate::table::{Table, is_marked};
use mail_base::{Seq, is_white};
use std::alloc::Global;

/// The pieces of a text with their places, in order and without a gap, white space and comments
/// among them (RFC 5322, section 3.2). The operators are the bytes of `operators` and always `<`,
/// `>`, `,` and `;`; a dollar sign is a byte as others. Where `angles` says so, each `<` needs its
/// `>`. There may be more than 2,000, so that `Long` is never answered.
pub fn pieces(
    alloc: Global,
    text: &[u8],
    operators: &[u8],
    angles: bool,
) -> Result<Seq<PieceSpan>, ScanFault>
    ensures spans { IfOk result (λ spans. AreSpans (plain operators.now) angles text.now spans) }
    ensures fault { IfErr result (λ fault.
        ExplainsUncut (plain operators.now) angles text.now fault) }
{
    let table = Table::of(operators, Dollars::Bytes);
    let mut open = Angles::new(alloc, angles);
    let mut spans = Seq::new(alloc);
    let mut place = 0usize;
    'pieces: while place < text.len() {
        let rest = &text[place..];
        place += add_first(&table, rest, place, &mut open, &mut spans)?;
    }
    open.end()?;
    Ok(spans)
}

/// Adds the piece that the rest of a text begins with, before which so many bytes stand. Answers
/// how many bytes it has.
fn add_first(
    table: &Table,
    rest: &[u8],
    place: usize,
    unclosed: &mut Angles,
    spans: &mut Seq<PieceSpan>,
) -> Result<usize, ScanFault>
    requires some { 0 < length rest.now }
    requires place { place + length rest.now < 2 ^ 64 }
    ensures some { IfOk result (λ size. 0 < size) }
    ensures goes { (alphabet : Alphabet) (angles : Bool) (text : List ℕ)
        → IsTable alphabet table.now.listed table.now.dollars
        → rest.now ≡ drop place text → place < length text
        → SpansAt alphabet angles text unclosed.old.checked place
        (reverse unclosed.old.places.items) spans.old
        → SpansGo alphabet angles text unclosed.new.checked place
        (reverse unclosed.new.places.items) spans.new result }
{
    let front = first_front(table, rest, place as u64)?;
    unclosed.note(front, place as u64)?;
    let length = front.size();
    let kind = kind_of(front);
    let start = place;
    spans.push(PieceSpan {
        kind,
        start,
        length,
    })?;
    Ok(length)
}

/// The first piece of a text before which so many bytes stand.
fn first_front(table: &Table, text: &[u8], place: u64) -> Result<Front, ScanFault>
    requires some { 0 < length text.now }
    requires place { place + length text.now < 2 ^ 64 }
    ensures some { IfOk result (λ front. 0 < size_of front) }
    ensures within { IfOk result (λ front. size_of front ≤ length text.now) }
    ensures read { (alphabet : Alphabet) → IsTable alphabet table.now.listed table.now.dollars
        → first_of alphabet place (slice_index text.now 0) (drop 1 text.now)
        ≡ front_read text.now result }
{
    let byte = text[0];
    if table.is_lone(byte) {
        let size = word_length(table, &text[1..]) + 1;
        return Ok(Front::Run(size));
    }
    if is_white(byte) {
        return Ok(Front::White);
    }
    if !is_marked(byte) {
        return Ok(Front::Operator(byte));
    }
    marked_of(table, text, place)
}

fn kind_of(front: Front) -> PieceKind
    ensures { (text : List ℕ) → result ≡ spec.kind_of (piece_of front text) }
{
    match front {
        Front::White => PieceKind::White,
        Front::Comment(_) => PieceKind::Comment,
        Front::Quotation(_) => PieceKind::Quotation,
        Front::Operator(byte) => PieceKind::Operator(byte),
        Front::Dollar(_) | Front::Run(_) => PieceKind::Run,
    }
}
