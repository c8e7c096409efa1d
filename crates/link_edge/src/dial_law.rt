ghost use Rattle.std.specs.Prelude.{◌≡◌, ◌++◌, ◌∷◌, [], List, ℕ, true, false};
ghost use Rattle.link_edge.specs.declared.dial_event.DialEvent.{DialEvent};
ghost use Rattle.link_edge.specs.declared.dial_event.DialEvent.TheVariants.{Dialled};
ghost use Rattle.link_edge.specs.declared.peer.Peer.{Peer as PeerValue};
ghost use Rattle.link_edge.specs.Lines.{AllFollow, NumbersOnce, is_open, is_sound, open_after, open_in, sound_after, sound_in, spoils};

/// Which lines are open in a history with more events. No number is given to two lines; a line that
/// was just dialled is sound, and goes on so until a read or a write of it fails or it is closed;
/// and a sound one is open.
pub fn lines_follow_events()
    ensures once { (history events : List DialEvent) → NumbersOnce history
        → AllFollow history events → NumbersOnce (history ++ events) }
    ensures live { (history : List DialEvent) (event : DialEvent)
        → open_in (history ++ event ∷ []) ≡ open_after (open_in history) event }
    ensures sound { (history : List DialEvent) (event : DialEvent)
        → sound_in (history ++ event ∷ []) ≡ sound_after (sound_in history) event }
    ensures dialled { (history : List DialEvent) (peer : PeerValue) (line missed : ℕ)
        → is_sound line (history ++ Dialled peer line missed ∷ []) ≡ true }
    ensures kept { (history : List DialEvent) (event : DialEvent) (line : ℕ)
        → spoils line event ≡ false → is_sound line history ≡ true
        → is_sound line (history ++ event ∷ []) ≡ true }
    ensures within { (history : List DialEvent) (line : ℕ) → is_sound line history ≡ true
        → is_open line history ≡ true }
{}
