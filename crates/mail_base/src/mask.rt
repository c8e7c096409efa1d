ghost use Rattle.std.specs.Prelude.{◌≡◌, ◌<◌, ◌^◌, ◌∷◌, List, Some, IfSome};
ghost use Rattle.mail_base.specs.declared.rule.Item.{Item as TheItem};
ghost use Rattle.mail_base.specs.Texts.{text_place};
ghost use Rattle.mail_base.specs.Masks as spec;
ghost use Rattle.mail_base.specs.Masks.{edge, pair_places, wanted_from, with_places};

use crate::{Item, Token};

/// What stands for an end of a list as a neighbour.
const EDGE: u32 = 40;

/// What a list of tokens has, as bits of a word: each token has one of 64 places, without ASCII
/// case, and so have each two that stand side by side, and the ends of the list. What a left side
/// wants are bits of each list that it matches.
pub fn mask_of(tokens: &[Token]) -> u64
    ensures { result ≡ spec.mask_of tokens.now }
{
    let mut mask = 0;
    let mut before = EDGE;
    for token in tokens {
        let place = token.place();
        mask = with_place(with_place(mask, pair_place(before, place)), place);
        before = place;
    }
    with_place(mask, pair_place(before, EDGE))
}

/// The bits that items want, none of which is a `$&x`.
pub(crate) fn wanted_mask(items: &[Item]) -> u64
    ensures { result ≡ with_places 0 (wanted_from (Some edge) items.now) }
{
    let mut mask = 0;
    let mut before = Some(EDGE);
    for item in items {
        (mask, before) = with_item(mask, before, item);
    }
    with_pair(mask, before, EDGE)
}

// The bits of an item besides, and the place that stands before the next, where that is known.
fn with_item(mask: u64, before: Option<u32>, item: &Item) -> (u64, Option<u32>)
    requires { IfSome before (λ place. place < 64) }
    ensures adds { (items : List TheItem)
        → with_places mask (wanted_from before (item.now ∷ items))
        ≡ with_places result.0 (wanted_from result.1 items) }
    ensures within { IfSome result.1 (λ place. place < 64) }
{
    match item {
        Item::Exact(token) => {
            let place = token.place();
            let mask = with_pair(mask, before, place);
            (with_place(mask, place), Some(place))
        }
        Item::Empty => (mask, before),
        _ => (mask, None),
    }
}

// The bit of two neighbours besides, where the first is known.
fn with_pair(mask: u64, before: Option<u32>, place: u32) -> u64
    requires first { IfSome before (λ before. before < 64) }
    requires second { place < 64 }
    ensures { result ≡ with_places mask (pair_places before place) }
{
    match before {
        Some(before) => with_place(mask, pair_place(before, place)),
        None => mask,
    }
}

fn pair_place(before: u32, place: u32) -> u32
    requires first { before < 64 }
    requires second { place < 64 }
    ensures value { result ≡ spec.pair_place before place }
    ensures within { result < 64 }
{
    (before * 7 + place + 41) % 64
}

/// The mask with the bit of a place besides.
pub(crate) fn with_place(mask: u64, place: u32) -> u64
    requires { place < 64 }
    ensures { result ≡ spec.with_place mask place }
{
    mask | 1 << place
}

/// The place of a text, without ASCII case.
pub(crate) fn text_place(text: &[u8]) -> u32
    ensures value { result ≡ text_place text.now }
    ensures within { result < 64 }
{
    match text.split_first() {
        Some((first, rest)) => {
            ((usize::from(first.to_ascii_lowercase()) + rest.len()) % 64) as u32
        }
        None => 0,
    }
}
