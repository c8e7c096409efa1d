ghost use Rattle.std.specs.Prelude.{◌≡◌, true};
ghost use Rattle.mail_base.specs.Masks.{place_of};
ghost use Rattle.mail_base.specs.Tokens.{same_token};
ghost use Rattle.mail_base.specs.declared.token.Token.{Token};

/// Tokens that are the same have one place in a mask.
pub fn one_place()
    ensures { (one another : Token) → same_token one another ≡ true
        → place_of one ≡ place_of another }
{}
