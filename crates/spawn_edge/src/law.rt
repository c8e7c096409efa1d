ghost use Rattle.std.specs.Prelude.{◌≡◌, ◌≢◌, ◌++◌, ◌∷◌, [], List, ℕ, true, false};
ghost use Rattle.spawn_edge.specs.declared.event.Poll.{Poll as PollValue};
ghost use Rattle.spawn_edge.specs.declared.event.SpawnEvent.{SpawnEvent as Event};
ghost use Rattle.spawn_edge.specs.declared.event.SpawnEvent.TheVariants.{Began, Polled};
ghost use Rattle.spawn_edge.specs.declared.event.Start.{Start as StartValue};
ghost use Rattle.spawn_edge.specs.Children.{AllFollow, NumbersOnce, ends, is_running, running_after, running_in};

/// Which children run in a history with more events. No number is given to two children; a child
/// that was just started runs, one that was found to be over or was lost doesn't, and one that runs
/// goes on doing so until a poll of it says otherwise.
pub fn children_follow_events()
    ensures once { (history events : List Event) → NumbersOnce history
        → AllFollow history events → NumbersOnce (history ++ events) }
    ensures running { (history : List Event) (event : Event)
        → running_in (history ++ event ∷ []) ≡ running_after (running_in history) event }
    ensures begun { (history : List Event) (start : StartValue) (child missed : ℕ)
        → is_running child (history ++ Began start child missed ∷ []) ≡ true }
    ensures kept { (history : List Event) (event : Event) (child : ℕ) → ends child event ≡ false
        → is_running child history ≡ true → is_running child (history ++ event ∷ []) ≡ true }
    ensures over { (history : List Event) (event : Event) (child : ℕ) → ends child event ≡ true
        → is_running child (history ++ event ∷ []) ≡ false }
{}
