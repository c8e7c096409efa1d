ghost use Rattle.std.specs.Prelude.{◌≡◌};
ghost use Rattle.mail_base.specs.Notes.{is_digit};
ghost use Rattle.cf_reader.specs.Sides as spec;
ghost use Rattle.cf_reader.specs.inner.Making.{Makes};

use crate::fault::{Fault, LineStop};
use crate::signs::mark_of;
use addr_tokens::Lexeme;
use mail_base::{Piece, Seq, Token, TryCopy};
use std::alloc::Global;

/// Pieces, each written as one lexeme.
pub(crate) fn pieces_of(alloc: Global, lexemes: &[Lexeme]) -> Result<Seq<Piece>, LineStop>
    ensures { Makes result (spec.pieces_of lexemes.now) }
{
    let mut pieces = Seq::new(alloc);
    for lexeme in lexemes {
        pieces.push(piece_of(lexeme)?)?;
    }
    Ok(pieces)
}

/// A token, `$n`, `$&x` or a sign.
pub(crate) fn piece_of(lexeme: &Lexeme) -> Result<Piece, LineStop>
    ensures { Makes result (spec.piece_of lexeme.now) }
{
    match lexeme {
        Lexeme::Token(token) => Ok(Piece::Give(token.copy()?)),
        Lexeme::Dollar(byte) => sign_piece(*byte),
        Lexeme::Named(b'&', name) => Ok(Piece::Late(name.copy()?)),
        Lexeme::Named(_, _) => Err(LineStop::Refused(Fault::BadPattern)),
    }
}

fn sign_piece(byte: u8) -> Result<Piece, LineStop>
    ensures { Makes result (spec.sign_piece byte) }
{
    if is_digit(byte) {
        return Ok(Piece::Cut(byte.saturating_sub(b'0')));
    }
    match mark_of(byte) {
        Some(mark) => Ok(Piece::Give(Token::Sign(mark))),
        None => Err(LineStop::Refused(Fault::BadPattern)),
    }
}

pub(crate) fn is_digit(byte: u8) -> bool
    ensures { result ≡ is_digit byte }
{
    b'0' <= byte && byte <= b'9'
}
