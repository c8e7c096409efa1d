ghost use Rattle.std.specs.Prelude.{◌≡◌, ◌⊎◌, List, ℕ, false};
ghost use Rattle.std.specs.List.{list_any};
ghost use Rattle.mail_base.specs.Masks.{covers, mask_of, wanted_mask};
ghost use Rattle.mail_base.specs.Metas.{is_late};
ghost use Rattle.mail_base.specs.declared.classes.Classes.{Classes};
ghost use Rattle.mail_base.specs.declared.token.Token.{Token};
ghost use Rattle.mail_base.specs.declared.rule.Item.{Item};
ghost use Rattle.rule_match.specs.Choices.{Chosen, Fits};
ghost use Rattle.rule_match.specs.Kept.{kept_cuts, lengths_of};
ghost use Rattle.rule_match.specs.Wants.{Want, wants};

/// At most one match is the one that is taken.
pub fn one_choice()
    ensures { (items : List Want) (tokens : List Token) (one another : List ℕ)
        → Chosen items tokens one → Chosen items tokens another → one ≡ another }
{}

/// A match is taken, or none fits.
pub fn each_choice()
    ensures { (items : List Want) (tokens : List Token)
        → ((lengths : List ℕ) × Chosen items tokens lengths)
        ⊎ ((lengths : List ℕ) → Fits items tokens lengths → ⊥) }
{}

/// The cuts that are kept of a match tell it whole: the others have length one.
pub fn put_in()
    ensures { (classes : Classes) (late : List (List Token)) (items : List Item)
        (tokens : List Token) (lengths : List ℕ)
        → Fits (wants classes late items) tokens lengths
        → lengths_of items (kept_cuts items 0 lengths) ≡ lengths }
{}

/// A left side that wants a bit which the mask of tokens lacks has no `$&x`, and no match with
/// them, whatever the classes are.
pub fn no_fit_uncovered()
    ensures { (items : List Item) (tokens : List Token)
        → covers (mask_of tokens) (wanted_mask items) ≡ false
        → (list_any is_late items ≡ false)
        × ((classes : Classes) (late : List (List Token)) (lengths : List ℕ)
        → Fits (wants classes late items) tokens lengths → ⊥) }
{}
