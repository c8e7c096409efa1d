ghost use Rattle.cf_reader.specs.Sides as spec;
ghost use Rattle.cf_reader.specs.inner.Making.{Makes, parts_behind, fallback_from};

use crate::fault::{Fault, LineStop};
use crate::pieces::pieces_of;
use crate::signs::{is_dollar, length_before};
use addr_tokens::Lexeme;
use mail_base::{Lookup, Piece, Query, Seq, Step, Text, Token};
use std::alloc::Global;

/// The lookup of what stands between two brackets.
pub(crate) fn bracketed(
    alloc: Global,
    opening: &Lexeme,
    inside: &[Lexeme],
    closing: &Lexeme,
) -> Result<Step, LineStop>
    ensures { Makes result (spec.bracketed opening.now inside.now closing.now) }
{
    if is_dollar(b'[', opening) && is_dollar(b']', closing) {
        return lookup_of(alloc, b"host", inside);
    }
    if is_dollar(b'(', opening) && is_dollar(b')', closing) {
        return named_lookup(alloc, inside);
    }
    Err(LineStop::Refused(Fault::BadPattern))
}

fn named_lookup(alloc: Global, inside: &[Lexeme]) -> Result<Step, LineStop>
    ensures { Makes result (spec.named_lookup inside.now) }
{
    match inside.split_first() {
        Some((Lexeme::Token(Token::Word(name)), fields)) => lookup_of(alloc, name.bytes(), fields),
        Some((Lexeme::Token(Token::Quoted(name)), fields)) => {
            lookup_of(alloc, name.bytes(), fields)
        }
        Some((Lexeme::Token(Token::Op(byte)), fields)) => lookup_of(alloc, &[*byte], fields),
        _ => Err(LineStop::Refused(Fault::BadPattern)),
    }
}

// The lookup in the map of this name.
fn lookup_of(alloc: Global, name: &[u8], fields: &[Lexeme]) -> Result<Step, LineStop>
    ensures { Makes result (spec.lookup_of name.now fields.now) }
{
    let end = length_before(b':', fields);
    let front = &fields[..end];
    let size = length_before(b'@', front);
    let args = args_of(alloc, &front[size..])?;
    let fallback = fallback_of(alloc, &fields[end..])?;
    let key = pieces_of(alloc, &front[..size])?;
    let query = Query {
        name: Text::of(alloc, name)?,
        key,
        args,
        fallback,
    };
    Ok(Step::Lookup(Lookup::of(alloc, query)?))
}

// The arguments, each of them behind a `$@`.
fn args_of(alloc: Global, fields: &[Lexeme]) -> Result<Seq<Seq<Piece>>, LineStop>
    ensures { Makes result (spec.each spec.pieces_of (parts_behind fields.now)) }
{
    let mut args = Seq::new(alloc);
    let mut place = 0;
    'arguments: while place < fields.len() {
        let rest = &fields[place + 1..];
        let size = length_before(b'@', rest);
        args.push(pieces_of(alloc, &rest[..size])?)?;
        place += size + 1;
    }
    Ok(args)
}

// The fallback, from its `$:` on.
fn fallback_of(alloc: Global, lexemes: &[Lexeme]) -> Result<Option<Seq<Piece>>, LineStop>
    ensures { Makes result (fallback_from lexemes.now) }
{
    match lexemes.split_first() {
        Some((_, behind)) => Ok(Some(pieces_of(alloc, behind)?)),
        None => Ok(None),
    }
}
