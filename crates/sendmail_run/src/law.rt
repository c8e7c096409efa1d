ghost use Rattle.std.specs.Prelude.{◌≡◌, List, ℕ};
ghost use Rattle.sendmail_run.specs.Printing.{Basis, Prints};

/// Lines have one printed text at most.
pub fn one_text()
    ensures { (basis : Basis) (lines : List (List ℕ)) (one another : List ℕ)
        → Prints basis lines one → Prints basis lines another → one ≡ another }
{
    // The law of addr_test, over what a run reads.
    addr_test::one_text();
}

/// Lines have a printed text.
pub fn some_text()
    ensures { (basis : Basis) (lines : List (List ℕ)) → (text : List ℕ) × Prints basis lines text }
{
    // The law of addr_test, over what a run reads.
    addr_test::some_text();
}
