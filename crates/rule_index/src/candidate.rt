ghost use Rattle.std.specs.Prelude.{◌≡◌, ◌≤◌, ℕ, IfSome, IfNone, nat_le, slice_get, false};
ghost use Rattle.std.specs.List.{find};
ghost use Rattle.std.specs.Option.{option_copied};
ghost use Rattle.mail_base.specs.declared.rule.Rule.{Rule};
ghost use Rattle.mail_base.specs.Candidates.{is_candidate, IsNext};
ghost use Rattle.rule_index.specs.inner.Firsts.{earlier, is_from, IsAscending};

use mail_base::{Numbered, Rule, RuleSet, Seq, Token};

/// The least candidate for tokens from a number on, with its number, or `None` where there is none.
/// Rules count from 0. It takes no memory, and looks at one bucket for each token.
pub fn next<'a>(set: &'a RuleSet, from: u32, tokens: &Seq<Token>) -> Option<(u32, &'a Rule)>
    ensures some { IfSome result
        (λ found. IsNext set.now.rules from tokens.now found.0 found.1.now) }
    ensures none { IfNone result
        ((k : ℕ) (rule : Rule) → from ≤ k → slice_get set.now.rules k ≡ Some rule
        → is_candidate tokens.now rule ≡ false) }
{
    let mut least = first_from(set.free(), from);
    for token in tokens.items() {
        least = earlier(least, first_from(set.anchored(token), from));
    }
    match least {
        Some(one) => Some((one.number, &one.rule)),
        None => None,
    }
}

/// The first of a bucket's rules from a number on.
fn first_from(bucket: &[Numbered], from: u32) -> Option<&Numbered>
    requires { IsAscending bucket.now }
    ensures { option_copied result ≡ find (is_from from) bucket.now }
{
    let mut low = 0;
    let mut high = bucket.len();
    'halving: while low < high {
        let middle = low + (high - low) / 2;
        if bucket[middle].number < from {
            low = middle + 1;
        } else {
            high = middle;
        }
    }
    one_at(bucket, low)
}

fn one_at(bucket: &[Numbered], place: usize) -> Option<&Numbered>
    ensures { option_copied result ≡ slice_get bucket.now place }
{
    bucket.get(place)
}

/// The one of the lesser number.
fn earlier<'a>(one: Option<&'a Numbered>, other: Option<&'a Numbered>) -> Option<&'a Numbered>
    ensures { option_copied result ≡ earlier (option_copied one.entry) (option_copied other.entry) }
{
    match (one, other) {
        (Some(mine), Some(another)) => {
            if another.number < mine.number {
                Some(another)
            } else {
                Some(mine)
            }
        }
        (Some(mine), None) => Some(mine),
        (None, another) => another,
    }
}
