ghost use Rattle.std.specs.Prelude.{◌≡◌, List, ℕ};
ghost use Rattle.mail_base.specs.declared.message.Split.{Split};
ghost use Rattle.mail_header.specs.Headers.{IsSplit};

/// A message's text is split in one way at most.
pub fn one_split()
    ensures { (message : List ℕ) (one other : Split)
        → IsSplit message one → IsSplit message other → one ≡ other }
{}
