ghost use Rattle.std.specs.Prelude.{◌≡◌, ◌≤◌, length, not, Some, None, if◌then◌else◌};
ghost use Rattle.std.specs.List.{prefix_len};
ghost use Rattle.addr_tokens.specs.Pieces as pieces;
ghost use Rattle.cf_reader.specs.Sides as spec;
ghost use Rattle.cf_reader.specs.inner.Making as inner;

use addr_tokens::Lexeme;
use mail_base::Mark;

/// The sign that a dollar sign with this byte is, if it is one.
pub(crate) fn mark_of(byte: u8) -> Option<Mark>
    ensures { result ≡ (if pieces.is_mark byte then Some (pieces.mark_of byte) else None) }
{
    match byte {
        b'|' => Some(Mark::Alt),
        b'#' => Some(Mark::Mailer),
        b'@' => Some(Mark::Host),
        b':' => Some(Mark::User),
        b'.' => Some(Mark::End),
        _ => None,
    }
}

/// Whether a lexeme is a dollar sign with this byte.
pub(crate) fn is_dollar(byte: u8, lexeme: &Lexeme) -> bool
    ensures { result ≡ spec.is_dollar byte lexeme.now }
{
    match lexeme {
        Lexeme::Dollar(other) => *other == byte,
        _ => false,
    }
}

/// How many lexemes stand before the first dollar sign with this byte.
pub(crate) fn length_before(byte: u8, lexemes: &[Lexeme]) -> usize
    ensures length { result ≡ prefix_len (λ lexeme. not (spec.is_dollar byte lexeme)) lexemes.now }
    ensures within { result ≤ length lexemes.now }
{
    for (index, lexeme) in lexemes.iter().enumerate() {
        if is_dollar(byte, lexeme) {
            return index;
        }
    }
    lexemes.len()
}

/// Whether a lexeme opens a lookup.
pub(crate) fn is_opening(lexeme: &Lexeme) -> bool
    ensures { result ≡ spec.is_opening lexeme.now }
{
    is_dollar(b'[', lexeme) || is_dollar(b'(', lexeme)
}

/// Whether a lexeme opens or closes a lookup.
pub(crate) fn is_bracket(lexeme: &Lexeme) -> bool
    ensures { result ≡ inner.is_bracket lexeme.now }
{
    is_opening(lexeme) || is_dollar(b']', lexeme) || is_dollar(b')', lexeme)
}

/// How many lexemes stand before the first bracket.
pub(crate) fn length_to_bracket(lexemes: &[Lexeme]) -> usize
    ensures length { result ≡ prefix_len (λ lexeme. not (inner.is_bracket lexeme)) lexemes.now }
    ensures within { result ≤ length lexemes.now }
{
    for (index, lexeme) in lexemes.iter().enumerate() {
        if is_bracket(lexeme) {
            return index;
        }
    }
    lexemes.len()
}
