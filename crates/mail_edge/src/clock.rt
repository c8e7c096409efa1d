ghost use Rattle.std.specs.Prelude.{◌≡◌, ◌<◌, ◌+◌, ◌-◌, ◌^◌, [], ◌∷◌};
ghost use Rattle.mail_base.specs.Histories.{Gains};
ghost use Rattle.mail_edge.specs.Seen.{ClockSeen};

/// A clock. It counts its readings, and may tell them; whether it does never changes.
pub trait Clock {
    /// All that is seen of it.
    ghost seen: { Self → ClockSeen };

    /// The moment, in seconds since 1970. It can't fail and takes no memory. A reading is told as
    /// it was given; what one counts as that is too late for a date is for the reader to say.
    fn now(&mut self) -> u64
        requires { (seen self.old).readings < 2 ^ 64 - 1 }
        ensures told { Gains (seen self.old).told (seen self.new).told (result ∷ []) }
        ensures counted { (seen self.new).readings ≡ (seen self.old).readings + 1 };
}
