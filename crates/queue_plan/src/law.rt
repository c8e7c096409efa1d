ghost use Rattle.std.specs.Prelude.{◌≡◌, ◌<◌, ℕ, All, List, filter, flat_map, length, zip};
ghost use Rattle.std.specs.List.{find};
ghost use Rattle.mail_base.specs.Catalogs.{value_at};
ghost use Rattle.mail_base.specs.declared.config.Config.{Config};
ghost use Rattle.mail_base.specs.declared.draw.Draw.{Draw};
ghost use Rattle.map_tables.specs.Answers.{Loaded};
ghost use Rattle.ruleset_run.specs.Sites.{Macros};
ghost use Rattle.queue_plan.specs.declared.heading.Heading.{Heading as TheHeading};
ghost use Rattle.queue_plan.specs.Groups.{Groups};
ghost use Rattle.queue_plan.specs.Parts.{IsWithin, is_under, limit_of, parts_of, rows_of};
ghost use Rattle.queue_plan.specs.Rows.{AreApart, distinct, same_row};

use ruleset_run::{each_run_ends, one_outcome};

/// A row has one queue group.
pub fn one_group()
    ensures { (config : Config) (maps : Loaded) (macros : Macros) (address mailer : List ℕ)
        (one other : List ℕ) → Groups config maps macros address mailer one
        → Groups config maps macros address mailer other → one ≡ other }
{
    // A law: a run has one outcome.
    one_outcome();
}

/// A row has a queue group, whatever the configuration, the maps and the macros are.
pub fn some_group()
    ensures { (config : Config) (maps : Loaded) (macros : Macros) (address mailer : List ℕ)
        → (name : List ℕ) × Groups config maps macros address mailer name }
{
    // A law: a run has an outcome.
    each_run_ends();
}

/// Rows stay once: the first row that is equal to one is the same as before, so that no row is lost
/// and none is new, and no two of those that stay are equal.
pub fn rows_stay_once()
    ensures first { (rows : List Draw) (row : Draw)
        → find (same_row row) (distinct rows) ≡ find (same_row row) rows }
    ensures apart { (rows : List Draw) → AreApart same_row (distinct rows) }
{}

/// Each row is in one part: those of a sender and a group are in its parts, each once and in their
/// order, and no part has more than the limit of its group, or none.
pub fn rows_have_parts()
    ensures rows { (config : Config) (rows : List Draw) (groups : List (List ℕ))
        (heading : TheHeading)
        → flat_map (λ cut. cut.rows) (filter (is_under heading) (parts_of config rows groups))
        ≡ rows_of heading (zip rows groups) }
    ensures limit { (config : Config) (rows : List Draw) (groups : List (List ℕ))
        → All (λ cut.
        IsWithin (limit_of (value_at cut.group config.groups)) (length cut.rows))
        (parts_of config rows groups) }
    ensures filled { (config : Config) (rows : List Draw) (groups : List (List ℕ))
        → All (λ cut. 0 < length cut.rows) (parts_of config rows groups) }
{}
