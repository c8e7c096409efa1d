ghost use Rattle.std.specs.Prelude.{◌≡◌, List, ℕ, false};
ghost use Rattle.std.specs.List.{list_any};
ghost use Rattle.mail_base.specs.declared.classes.Classes.{Classes};
ghost use Rattle.mail_base.specs.declared.token.Token.{Token};
ghost use Rattle.mail_base.specs.declared.rule.Rule.{Rule};
ghost use Rattle.mail_base.specs.Metas.{is_late};
ghost use Rattle.mail_base.specs.Candidates.{is_candidate};
ghost use Rattle.rule_match.specs.Choices.{Fits};
ghost use Rattle.rule_match.specs.Wants.{wants};
ghost use Rattle.ruleset_run.specs.Runs.{Outcome, RunsSet};
ghost use Rattle.ruleset_run.specs.Sets.{Rewrites};
ghost use Rattle.ruleset_run.specs.Sites.{Macros, Site};
ghost use Rattle.ruleset_run.specs.declared.rewritten.Rewritten.{Rewritten};

use rule_match::each_choice;

/// A run has one outcome.
pub fn one_outcome()
    ensures { (site : Site) (macros : Macros) (name : List ℕ) (tokens : List Token)
        (one another : Outcome)
        → RunsSet site macros name tokens one
        → RunsSet site macros name tokens another → one ≡ another }
{}

/// A run has an outcome.
pub fn each_run_ends()
    ensures { (site : Site) (macros : Macros) (name : List ℕ) (tokens : List Token)
        → (outcome : Outcome) × RunsSet site macros name tokens outcome }
{
    // A law: a match is taken, or none fits.
    each_choice();
}

/// A rule that is no candidate for tokens has no `$&x` on its left side, and no match with them,
/// whatever the classes are.
pub fn candidates_lose_no_match()
    ensures { (rule : Rule) (tokens : List Token) → is_candidate tokens rule ≡ false
        → (list_any is_late rule.left ≡ false)
        × ((classes : Classes) (late : List (List Token)) (lengths : List ℕ)
        → Fits (wants classes late rule.left) tokens lengths → ⊥) }
{}

/// Rulesets make a text of an address, or refuse it, whatever their names are.
pub fn some_rewriting()
    ensures { (site : Site) (macros : Macros) (sets : List (List ℕ)) (address : List ℕ)
        → (rewritten : Rewritten) × Rewrites site macros sets address rewritten }
{
    each_run_ends();
}

/// Rulesets make one text of an address, or refuse it for one cause.
pub fn one_rewriting()
    ensures { (site : Site) (macros : Macros) (sets : List (List ℕ)) (address : List ℕ)
        (one another : Rewritten)
        → Rewrites site macros sets address one
        → Rewrites site macros sets address another → one ≡ another }
{
    one_outcome();
}
