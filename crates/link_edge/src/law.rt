ghost use Rattle.std.specs.Prelude.{◌≡◌, ◌++◌, ◌∷◌, [], List, ℕ, Bool, true};
ghost use Rattle.link_edge.specs.declared.event.Event.TheVariants.{Opens};
ghost use Rattle.link_edge.specs.declared.event.FloorEvent.{FloorEvent};
ghost use Rattle.link_edge.specs.declared.event.FloorEvent.TheVariants.{HungUp, Took};
ghost use Rattle.link_edge.specs.Sessions.{AllFollow, Follows, NumbersOnce, is_open, is_sound, open_after, open_in, send_event, sound_after, sound_in};

/// No session number is used twice in what a floor tells: each event that its calls tell follows
/// what is told before, and such events keep the numbers apart.
pub fn numbers_are_used_once()
    ensures once { (history events : List FloorEvent) → NumbersOnce history
        → AllFollow history events → NumbersOnce (history ++ events) }
    ensures send { (history : List FloorEvent) (session : ℕ) (bytes : List ℕ) (whole : Bool)
        → is_sound session history ≡ true → Follows history (send_event session bytes whole) }
    ensures hang_up { (history : List FloorEvent) (session : ℕ) → is_open session history ≡ true
        → Follows history (HungUp session) }
    ensures join { (history some more : List FloorEvent) → AllFollow history some
        → AllFollow (history ++ some) more → AllFollow history (some ++ more) }
{}

/// The sessions of a history with one event more. A session that was just opened is sound, and a
/// sound one is open.
pub fn sessions_follow_events()
    ensures live { (history : List FloorEvent) (event : FloorEvent)
        → open_in (history ++ event ∷ []) ≡ open_after (open_in history) event }
    ensures sound { (history : List FloorEvent) (event : FloorEvent)
        → sound_in (history ++ event ∷ []) ≡ sound_after (sound_in history) event }
    ensures opened { (history : List FloorEvent) (session : ℕ) (peer : List ℕ)
        → is_sound session (history ++ Took (Opens session peer) ∷ []) ≡ true }
    ensures within { (history : List FloorEvent) (session : ℕ) → is_sound session history ≡ true
        → is_open session history ≡ true }
{}
