ghost use Rattle.std.specs.Prelude.{◌≡◌, ℕ, List};
ghost use Rattle.mail_base.specs.declared.config.Config.{Config};
ghost use Rattle.map_tables.specs.Answers.{Loaded};
ghost use Rattle.addr_test.specs.declared.answers.Reply.{Reply};
ghost use Rattle.addr_test.specs.Answers.{Answers};
ghost use Rattle.addr_test.specs.Printing.{Printed};

use addr_route::{one_rewriting, one_route, some_rewriting, some_route};
use ruleset_run::{each_run_ends, one_outcome};

/// Each line has an answer, whatever the configuration and the maps are.
pub fn some_answer()
    ensures { (maps : Loaded) (config : Config) (line : List ℕ)
        → (reply : Reply) × (after : Config) × Answers maps config line reply after }
{
    // Laws: a run, a route and a rewriting have an outcome.
    each_run_ends();
    some_route();
    some_rewriting();
}

/// A line has one answer alone, and leaves one configuration.
pub fn one_answer()
    ensures reply { (maps : Loaded) (config : Config) (line : List ℕ) (one another : Reply)
        (after later : Config)
        → Answers maps config line one after
        → Answers maps config line another later → one ≡ another }
    ensures config { (maps : Loaded) (config : Config) (line : List ℕ) (one another : Reply)
        (after later : Config)
        → Answers maps config line one after
        → Answers maps config line another later → after ≡ later }
{
    // Laws: they have one outcome alone.
    one_outcome();
    one_route();
    one_rewriting();
}

/// Lines have a printed text.
pub fn some_text()
    ensures { (maps : Loaded) (config : Config) (lines : List (List ℕ))
        → (text : List ℕ) × (last : Config) × Printed maps config lines text last }
{
    // The law above, line by line.
    some_answer();
}

/// Lines have one printed text alone, and leave one configuration.
pub fn one_text()
    ensures text { (maps : Loaded) (config : Config) (lines : List (List ℕ)) (one another : List ℕ)
        (last later : Config)
        → Printed maps config lines one last
        → Printed maps config lines another later → one ≡ another }
    ensures config { (maps : Loaded) (config : Config) (lines : List (List ℕ))
        (one another : List ℕ) (last later : Config)
        → Printed maps config lines one last
        → Printed maps config lines another later → last ≡ later }
{
    // The law above, line by line.
    one_answer();
}
