ghost use Rattle.std.specs.Prelude.{◌≡◌, ◌≤◌, ℕ, IfNone, IfSome, Some, slice_get};
ghost use Rattle.mail_base.specs.Masks.{mask_of};
ghost use Rattle.mail_base.specs.declared.rule.Rule.{Rule as TheRule};
ghost use Rattle.ruleset_run.specs.inner.Looks.{CannotMatch, IsAhead};

use mail_base::{Rule, RuleSet, Seq, Token};
use rule_index::next;

/// Rulesets of at most so many rules are gone through rule by rule, whatever the tokens are.
const FEW_RULES: u32 = 64;

/// The index of more rules is asked where there are so many of them for each token.
const RULES_A_TOKEN: u32 = 16;

/// The first rule from a number on that may match the tokens, which have this mask, with its number,
/// or `None` where there is none. Rules count from 0.
pub fn next_rule<'a>(
    set: &'a RuleSet,
    from: u32,
    tokens: &Seq<Token>,
    mask: u64,
) -> Option<(u32, &'a Rule)>
    requires { mask ≡ mask_of tokens.now }
    ensures some { IfSome result
        (λ found. IsAhead set.now.rules from tokens.now found.0 found.1.now) }
    ensures none { IfNone result
        ((k : ℕ) (rule : TheRule) → from ≤ k → slice_get set.now.rules k ≡ Some rule
        → CannotMatch tokens.now rule) }
{
    if is_by_anchor(set, tokens) {
        return next_by_anchor(set, from, tokens, mask);
    }
    let number = set.next_covered(from, mask)?;
    let rule = set.rule(number)?;
    Some((number, rule))
}

/// Whether the index is asked: the rules are many, and the tokens few beside them. The index is
/// asked for each token, whenever a rule is sought; either way the same rule is found.
fn is_by_anchor(set: &RuleSet, tokens: &Seq<Token>) -> bool {
    let rules = set.count();
    rules > FEW_RULES && (rules / RULES_A_TOKEN) as usize >= tokens.len()
}

/// The same by the anchors of the rules.
fn next_by_anchor<'a>(
    set: &'a RuleSet,
    from: u32,
    tokens: &Seq<Token>,
    mask: u64,
) -> Option<(u32, &'a Rule)>
    requires { mask ≡ mask_of tokens.now }
    ensures some { IfSome result
        (λ found. IsAhead set.now.rules from tokens.now found.0 found.1.now) }
    ensures none { IfNone result
        ((k : ℕ) (rule : TheRule) → from ≤ k → slice_get set.now.rules k ≡ Some rule
        → CannotMatch tokens.now rule) }
{
    // Only its range is used: a set has fewer than 2^32 rules, so `number + 1` is within its type.
    let _count = set.count();
    let mut at = from;
    'rules: while let Some((number, rule)) = next(set, at, tokens) {
        if set.is_covered(number, mask) {
            return Some((number, rule));
        }
        at = number + 1;
    }
    None
}
