ghost use Rattle.std.specs.Prelude.{◌≡◌, ◌+◌, ◌≤◌, ◌<◌, ◌^◌, List, ℕ, IfSome, IfNone, length, count_by};
ghost use Rattle.mail_base.specs.Metas.{is_late, is_meta};
ghost use Rattle.rule_match.specs.Choices.{Fits, Chosen};
ghost use Rattle.rule_match.specs.Kept.{IsChoice, kept_cuts};
ghost use Rattle.rule_match.specs.Wants.{wants};

use crate::cuts::{Cut, Cuts};
use crate::meeting::{is_binding, is_met, lists_after, parted};
use arrayvec::ArrayVec;
use mail_base::{Classes, Item, Pattern, Seq, Token};

/// What [`find`](crate::find) answers, by trying the lengths of every item in order. It shows what
/// is meant and is for tests: its time grows with each `$*`, `$+` and `$=x` by a factor of the
/// tokens, and it recurses once per item.
pub fn find_by_trial(
    pattern: &Pattern,
    tokens: &Seq<Token>,
    classes: &Classes,
    late: &Seq<Seq<Token>>,
) -> Option<Cuts>
    requires { length late.now ≡ count_by is_late pattern.now }
    ensures some { IfSome result
        (λ cuts. IsChoice classes.now late.now pattern.now tokens.now cuts) }
    ensures none { IfNone result
        ((lengths : List ℕ)
        → Fits (wants classes.now late.now pattern.now) tokens.now lengths → ⊥) }
{
    let kept = least(classes, late.items(), pattern.items(), tokens.items(), 0)?;
    Some(Cuts::of(kept))
}

/// The cuts that are kept of the match of these items with the tokens from a place on.
pub(crate) fn least(
    classes: &Classes,
    late: &[Seq<Token>],
    items: &[Item],
    left: &[Token],
    start: usize,
) -> Option<ArrayVec<Cut, 20>>
    requires few { count_by is_meta items.now ≤ 20 }
    requires place { start + length left.now < 2 ^ 64 }
    ensures some { IfSome result
        (λ kept. (lengths : List ℕ) × Chosen (wants classes.now late.now items.now) left.now lengths
        × (kept.items ≡ kept_cuts items.now start lengths)) }
    ensures none { IfNone result
        ((lengths : List ℕ) → Fits (wants classes.now late.now items.now) left.now lengths → ⊥) }
    ensures room { IfSome result (λ kept. length kept.items ≤ count_by is_meta items.now) }
{
    let Some((item, after)) = items.split_first() else {
        return if left.is_empty() {
            Some(ArrayVec::new())
        } else {
            None
        };
    };
    let others = lists_after(item, late);
    for length in 0..left.len() + 1 {
        let (piece, rest) = parted(left, length);
        if is_met(classes, late, item, piece) {
            if let Some(mut kept) = least(classes, others, after, rest, start + length) {
                if item.is_meta() {
                    let binds = is_binding(item);
                    kept.insert(
                        0,
                        Cut {
                            start,
                            length,
                            binds,
                        },
                    );
                }
                return Some(kept);
            }
        }
    }
    None
}
