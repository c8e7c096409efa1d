//! The values of options, mailers and groups: times, numbers and flags. What each text means, and
//! at which place another is refused, is said in `specs/`.
#![tactic(auto)]

mod bad;
mod digit;
mod flag;
mod law;
mod numeral;
mod timespan;
mod under_way;
mod unit;

pub use bad::Bad;
pub use flag::flags;
pub use law::{computed_values, one_meaning};
pub use numeral::number;
pub use timespan::time;
