ghost use Rattle.std.specs.Prelude.{◌≡◌};
ghost use Rattle.cf_macros.specs.Names as spec;

use bstr::ByteSlice;

/// The name of a macro or a class that a text begins with, one byte or a word in braces, and what is
/// behind it. The name of an empty text is empty, and an open brace that nothing closes is a name
/// itself.
#[tactic(auto, using(crate::proofs::PositionLemmas::position_found, crate::proofs::PositionLemmas::position_none, crate::proofs::PositionLemmas::behind_place))]
pub fn split_name(text: &[u8]) -> (&[u8], &[u8])
    ensures { (result.0.now, result.1.now) ≡ spec.split_name text.now }
{
    let Some((first, rest)) = text.split_first() else {
        return (&[], &[]);
    };
    if *first != b'{' {
        return (&text[..1], rest);
    }
    match rest.find_byte(b'}') {
        Some(size) => (&rest[..size], &rest[size + 1..]),
        None => (&text[..1], rest),
    }
}
