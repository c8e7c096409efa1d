ghost use Rattle.std.specs.Prelude.{◌≡◌};
ghost use Rattle.mail_made.specs.Moments as spec;

/// The beginning of the year 3000.
const LAST_MOMENT: u64 = 32_503_680_000;

/// The moment that a reading of the clock counts as, in seconds from the beginning of 1970: at most
/// 32,503,680,000, which is the beginning of the year 3000.
#[tactic(auto, unfolding(crate::specs::Moments::last_moment))]
pub fn moment_of(reading: u64) -> u64
    ensures { result ≡ spec.moment_of reading }
{
    reading.min(LAST_MOMENT)
}
