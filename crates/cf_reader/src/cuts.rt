ghost use Rattle.std.specs.Prelude.{◌≡◌, option_map};
ghost use Rattle.cf_reader.specs.Cuts as spec;

use bstr::ByteSlice;

/// What stands before the first such byte and what stands behind it, where there is one.
#[tactic(auto, using(cf_macros::proofs::PositionLemmas::position_found, cf_macros::proofs::PositionLemmas::position_none, cf_macros::proofs::PositionLemmas::behind_place))]
pub(crate) fn cut_at(text: &[u8], byte: u8) -> Option<(&[u8], &[u8])>
    ensures { option_map (λ cut. (cut.0.now, cut.1.now)) result ≡ spec.cut_at byte text.now }
{
    match text.find_byte(byte) {
        Some(place) => Some((&text[..place], &text[place + 1..])),
        None => None,
    }
}
