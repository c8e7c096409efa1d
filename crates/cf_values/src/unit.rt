ghost use Rattle.std.specs.Prelude.{◌≡◌, ◌≢◌, IfSome, IfNone};
ghost use Rattle.cf_values.specs.Times.{letter, unit_of, IsLetter, last_unit, seconds};

/// The unit of a number in a time.
#[derive(Clone, Copy)]
pub(crate) enum TimeUnit {
    Week,
    Day,
    Hour,
    Minute,
    Second,
}

impl TimeUnit {
    /// The unit with this letter: `w`, `d`, `h`, `m` or `s`, and no other.
    pub(crate) fn of(byte: u8) -> Option<TimeUnit>
        ensures value { result ≡ unit_of byte }
        ensures some { IfSome result (λ unit. byte ≡ letter unit) }
        ensures none { IfNone result ((unit : TimeUnit) → byte ≢ letter unit) }
    {
        match byte {
            b'w' => Some(TimeUnit::Week),
            b'd' => Some(TimeUnit::Day),
            b'h' => Some(TimeUnit::Hour),
            b'm' => Some(TimeUnit::Minute),
            b's' => Some(TimeUnit::Second),
            _ => None,
        }
    }

    /// The unit with this letter, which is one.
    pub(crate) fn told(letter: u8) -> TimeUnit
        requires { IsLetter letter }
        ensures { result ≡ last_unit letter }
    {
        let Some(unit) = TimeUnit::of(letter) else {
            unreachable!()
        };
        unit
    }

    /// How many seconds the unit has.
    pub(crate) fn seconds(self) -> u32
        ensures { result ≡ seconds self }
    {
        match self {
            TimeUnit::Week => 604_800,
            TimeUnit::Day => 86_400,
            TimeUnit::Hour => 3_600,
            TimeUnit::Minute => 60,
            TimeUnit::Second => 1,
        }
    }
}
