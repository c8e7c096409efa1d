ghost use Rattle.std.specs.Prelude.{◌≡◌, ◌+◌, ◌≤◌, ◌∷◌, List, ℕ, drop, count_by, true, false, IfSome, IfNone};
ghost use Rattle.mail_base.specs.Metas.{is_meta};
ghost use Rattle.mail_base.specs.declared.classes.Classes.{Classes as TheClasses};
ghost use Rattle.mail_base.specs.declared.rule.Item.{Item as TheItem};
ghost use Rattle.mail_base.specs.declared.token.Token.{Token as TheToken};
ghost use Rattle.rule_match.specs.Choices.{Fits};
ghost use Rattle.rule_match.specs.Kept.{IsChoice};
ghost use Rattle.rule_match.specs.Wants.{want, wants, lists_after};
ghost use Rattle.rule_match.specs.inner.Steps.{IsNext};

use crate::cuts::{Cut, Cuts};
use crate::meeting::{is_binding, lists_after, parted};
use mail_base::{Classes, Item, Seq, Token};

/// How it is found what an item takes in the match that is taken.
pub(crate) trait Lengths {
    /// Where it is found: for items with their lists, and the tokens that are left behind so many.
    ghost serves: { Self → TheClasses → List (List TheToken) → List TheItem → List TheToken → ℕ
        → Type 0 };

    /// What the first item takes of the tokens that are left, in the match that is taken, if there
    /// is any. The items after it have the other lists.
    fn next(
        &mut self,
        classes: &Classes,
        late: &[Seq<Token>],
        item: &Item,
        others: &[Seq<Token>],
        after: &[Item],
        left: &[Token],
        start: usize,
    ) -> Option<usize>
        requires serves { serves self.old classes.now late.now (item.now ∷ after.now) left.now
            start }
        requires lists { others.now ≡ lists_after item.now late.now }
        ensures some { IfSome result (λ n.
            IsNext (want classes.now late.now item.now) (wants classes.now others.now after.now)
            left.now n
            × serves self.new classes.now others.now after.now (drop n left.now) (start + n)) }
        ensures none { IfNone result ((n : ℕ) (later : List ℕ)
            → Fits (want classes.now late.now item.now ∷ wants classes.now others.now after.now)
            left.now (n ∷ later) → ⊥) };
}

/// Whether there is a match, whose cuts are those of the one that is taken, item by item.
pub(crate) fn found_by<L: Lengths>(
    lengths: &mut L,
    classes: &Classes,
    late: &[Seq<Token>],
    pattern: &[Item],
    tokens: &[Token],
    cuts: &mut Cuts,
) -> bool
    requires few { count_by is_meta pattern.now ≤ 20 }
    requires serves { L.serves lengths.old classes.now late.now pattern.now tokens.now 0 }
    ensures some { result ≡ true
        → IsChoice classes.now late.now pattern.now tokens.now cuts.new }
    ensures none { result ≡ false → (lengths : List ℕ)
        → Fits (wants classes.now late.now pattern.now) tokens.now lengths → ⊥ }
{
    cuts.clear();
    let mut lists = late;
    let mut items = pattern;
    let mut left = tokens;
    let mut start = 0;
    while let Some((item, after)) = items.split_first() {
        let others = lists_after(item, lists);
        let Some(length) = lengths.next(classes, lists, item, others, after, left, start) else {
            return false;
        };
        if item.is_meta() {
            let binds = is_binding(item);
            cuts.push(Cut {
                start,
                length,
                binds,
            });
        }
        start += length;
        left = parted(left, length).1;
        lists = others;
        items = after;
    }
    left.is_empty()
}
