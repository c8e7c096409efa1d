ghost use Rattle.std.specs.Prelude.{◌≡◌, ◌+◌, ◌*◌, ℕ, List, [], ◌∷◌, ◌++◌, MatchOption};
ghost use Rattle.cf_values.specs.Refusals.{Begins};
ghost use Rattle.cf_values.specs.Times.{IsTime, seconds, total};
ghost use Rattle.cf_values.specs.inner.Stages.{Stands, capped};

use crate::digit::{digit_of, with_digit};
use crate::unit::TimeUnit;

/// What stands for every number above 2^60.
const ABOVE: u128 = (1 << 60) + 1;

/// What is kept of a time while its text is read. Each number above 2^60 counts as 2^60 + 1.
#[derive(Clone, Copy)]
pub(crate) struct UnderWay {
    /// The seconds of the numbers that have their letter.
    seconds: u128,
    /// The number whose letter hasn't come.
    count: Option<u128>,
}

impl UnderWay {
    pub(crate) fn new() -> UnderWay
        ensures { Stands result [] }
    {
        UnderWay {
            seconds: 0,
            count: None,
        }
    }

    /// What is kept with one byte more, or `None` where no time goes on with it.
    pub(crate) fn with(self, byte: u8) -> Option<UnderWay>
        ensures { (front : List ℕ) → Stands self front
            → MatchOption result ((unit : TimeUnit) → ¬ Begins (IsTime unit) (front ++ byte ∷ []))
            (λ next. Stands next (front ++ byte ∷ [])) }
    {
        if let Some(digit) = digit_of(byte) {
            let count = with_digit(self.count.unwrap_or(0), digit, ABOVE);
            return Some(UnderWay {
                seconds: self.seconds,
                count: Some(count),
            });
        }
        let unit = TimeUnit::of(byte)?;
        let count = self.count?;
        Some(UnderWay {
            seconds: plus(self.seconds, count, unit),
            count: None,
        })
    }

    /// The seconds of the whole time, where a number without a letter has this unit.
    pub(crate) fn total(self, unit: TimeUnit) -> u128
        ensures { (front : List ℕ) (stands : Stands self front)
            → result ≡ capped (total unit stands.time) }
    {
        plus(self.seconds, self.count.unwrap_or(0), unit)
    }
}

// The seconds with so many units more.
fn plus(sum: u128, count: u128, unit: TimeUnit) -> u128
    ensures { result ≡ capped (sum + count * seconds unit) }
{
    ABOVE.min(sum.saturating_add(count.saturating_mul(unit.seconds() as u128)))
}
