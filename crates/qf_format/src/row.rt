ghost use Rattle.std.specs.Prelude.{◌++◌, ◌<◌, Bool, List, ℕ, codes};
ghost use Rattle.std.specs.List.{flat_map};
ghost use Rattle.mail_base.specs.Texts.{IsAddress};
ghost use Rattle.qf_format.specs.inner.Reading.{Reads, Anything};
ghost use Rattle.qf_format.specs.inner.Parts.{NotAt, EachRow, address_line};
ghost use Rattle.qf_format.specs.Spelling.{line, row_lines, state_text};
ghost use Rattle.qf_format.specs.Valid.{AreRows, IsRow, IsState};

use crate::field::{after_tag, field, first_byte, text_field};
use crate::state::state_of;
use crate::stop::Stop;
use mail_base::{MOST_ROWS, Row, Seq, State, Text};
use std::alloc::Global;

/// The rows at the front, and what comes after them.
pub(crate) fn rows_of(alloc: Global, bytes: &[u8]) -> Result<(Seq<Row>, &[u8]), Stop>
    ensures { Reads (λ r. r.0) (λ r. r.1.now) (flat_map row_lines) AreRows
        (NotAt 82) bytes.now result }
{
    let (rows, rest) = all_rows(alloc, bytes)?;
    if rows.is_empty() {
        return Err(Stop::Outside);
    }
    if rows.len() > MOST_ROWS {
        return Err(Stop::Outside);
    }
    Ok((rows, rest))
}

fn all_rows(alloc: Global, bytes: &[u8]) -> Result<(Seq<Row>, &[u8]), Stop>
    ensures { Reads (λ r. r.0) (λ r. r.1.now) (flat_map row_lines) EachRow
        (NotAt 82) bytes.now result }
{
    let mut rows = Seq::new(alloc);
    let mut rest = bytes;
    'rows: while first_byte(rest) == b'R' {
        let (row, after) = row_of(alloc, rest)?;
        rows.push(row)?;
        rest = after;
    }
    Ok((rows, rest))
}

fn row_of(alloc: Global, bytes: &[u8]) -> Result<(Row, &[u8]), Stop>
    ensures { Reads (λ r. r.0) (λ r. r.1.now) row_lines IsRow Anything bytes.now result }
{
    let ((primary, address), rest) = address_of(alloc, bytes)?;
    let (state, rest) = state_line(rest)?;
    Ok((
        Row {
            address,
            primary,
            state,
        },
        rest,
    ))
}

// The address, and whether it is primary.
fn address_of(alloc: Global, bytes: &[u8]) -> Result<((bool, Text), &[u8]), Stop>
    ensures { Reads {X = Bool × List ℕ} (λ r. r.0) (λ r. r.1.now) (λ p. address_line p.0 p.1)
        (λ p. IsAddress p.1) Anything bytes.now result }
{
    if after_tag(b"RPFD:", bytes).is_some() {
        let (address, rest) = address_behind(alloc, b"RPFD:", bytes)?;
        return Ok(((true, address), rest));
    }
    let (address, rest) = address_behind(alloc, b"RFD:", bytes)?;
    Ok(((false, address), rest))
}

fn address_behind<'a>(alloc: Global, tag: &[u8], bytes: &'a [u8]) -> Result<(Text, &'a [u8]), Stop>
    ensures { Reads (λ r. r.0) (λ r. r.1.now) (λ text. line (tag.now ++ text)) IsAddress
        Anything bytes.now result }
{
    let (address, rest) = text_field(alloc, tag, bytes)?;
    if address.is_empty() {
        return Err(Stop::Outside);
    }
    Ok((address, rest))
}

fn state_line(bytes: &[u8]) -> Result<(State, &[u8]), Stop>
    ensures { Reads (λ r. r.0) (λ r. r.1.now) (λ s. line (codes "e" ++ state_text s)) IsState
        Anything bytes.now result }
{
    let (text, rest) = field(b"e", bytes)?;
    match state_of(text) {
        Some(state) => Ok((state, rest)),
        None => Err(Stop::Outside),
    }
}
