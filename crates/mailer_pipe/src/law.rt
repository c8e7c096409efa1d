ghost use Rattle.std.specs.Prelude.{◌≡◌, ◌≤◌, ℕ, List, codes, length};
ghost use Rattle.cf_macros.specs.Expansion.{expanded};
ghost use Rattle.mailer_pipe.specs.Arguments.{with_user};

/// A user reaches the program whole, whatever its bytes: `$u` gives it where u was set to it.
pub fn users_stay_whole()
    ensures { (macros : List (List ℕ × List ℕ)) (user : List ℕ) → length user ≤ 1_048_576
        → expanded (codes "$u") (with_user user macros) ≡ user }
{}
