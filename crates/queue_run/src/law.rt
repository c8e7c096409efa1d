//! Laws on steps, over every choice that a step may make.

ghost use Rattle.std.specs.Prelude.{◌≡◌, ◌≤◌, ◌++◌, ◌∷◌, [], All, List, ℕ, ℤ, length};
ghost use Rattle.std.specs.List.{flat_map};
ghost use Rattle.mail_base.specs.declared.config.Config.{Config};
ghost use Rattle.mail_base.specs.declared.mailer.Mailer.{Mailer};
ghost use Rattle.link_edge.specs.declared.peer.Peer.{Peer};
ghost use Rattle.mailer_pipe.specs.Ends.{ended_with};
ghost use Rattle.spawn_edge.specs.declared.event.Poll.TheVariants.{Over};
ghost use Rattle.spool_store.specs.Entries.{Table};
ghost use Rattle.queue_run.specs.declared.batch.Batch.{Batch};
ghost use Rattle.queue_run.specs.Deeds.{Asks, Deed, IsOf, Polls, Talk, Talks as Delivers, asked_in};
ghost use Rattle.queue_run.specs.Holders.{Attempt, Holder};
ghost use Rattle.queue_run.specs.Kinds.{Kind, Talks, Waits};
ghost use Rattle.queue_run.specs.Results.{alike};
ghost use Rattle.queue_run.specs.Steps.{Luck, acted, record_of};

/// A step asks the table for one command at most.
pub fn a_step_asks_at_most_one_command()
    ensures { (config : Config) (moment : ℕ) (table : Table) (h : Holder) (kind : Kind)
        (luck : Luck) → length (flat_map asked_in (acted config moment table h kind luck).deeds) ≤ 1 }
{}

/// Each deed of a step is of its holder's entry.
pub fn deeds_are_of_the_holder()
    ensures { (config : Config) (moment : ℕ) (table : Table) (h : Holder) (kind : Kind)
        (luck : Luck) → All (IsOf h.id) (acted config moment table h kind luck).deeds }
{}

/// An end that a poll reads is recorded in the same step, as the results of the whole batch, and
/// so is a delivery.
pub fn an_end_is_recorded_at_once()
    ensures polled { (config : Config) (moment : ℕ) (table : Table) (h : Holder) (r : Attempt)
        (luck : Luck) (id child : ℕ) (status : ℤ) (more : List Deed)
        → (acted config moment table h (Waits r) luck).deeds ≡ Polls id child (Over status) ∷ more
        → more ≡ Asks (record_of config moment h.id r.places (alike (ended_with status) r.places))
        ∷ [] }
    ensures talked { (config : Config) (moment : ℕ) (table : Table) (h : Holder) (batch : Batch)
        (mailer : Mailer) (peers : List Peer) (luck : Luck) (id : ℕ) (places : List ℕ)
        (talk : Talk) (more : List Deed)
        → (acted config moment table h (Talks batch mailer peers) luck).deeds
        ≡ Delivers id places talk ∷ more
        → more ≡ Asks (record_of config moment h.id batch.places talk.results) ∷ [] }
{}
