ghost use Rattle.std.specs.Prelude.{◌≡◌, ◌≤◌, IfOk, IfSome};
ghost use Rattle.cf_values.specs.Times.{IsLetter};
ghost use Rattle.cf_reader.specs.Values as spec;

use cf_values::{number, time};
use mail_base::{NoMemory, Text};
use std::alloc::Global;

// The greatest number of an option.
const MOST_OPTION: u64 = 999_999_999;

/// The number that the value of an option is, if it is one.
#[tactic(auto, unfolding(crate::specs::Values::most_option))]
pub(crate) fn option_number(value: &Text) -> Option<u64>
    ensures { result ≡ spec.number_in spec.most_option value.now }
{
    number_in(value, MOST_OPTION)
}

/// The number that the value of a field is, if it is one.
#[tactic(auto, unfolding(crate::specs::Values::most_number))]
pub(crate) fn field_number(value: &Text) -> Option<u64>
    ensures { result ≡ spec.number_in spec.most_number value.now }
{
    number_in(value, u64::MAX)
}

/// A value, if it isn't empty.
pub(crate) fn if_some(alloc: Global, value: &[u8]) -> Result<Option<Text>, NoMemory>
    ensures { IfOk result (λ some. some ≡ spec.if_some value.now) }
{
    if value.is_empty() {
        return Ok(None);
    }
    Ok(Some(Text::of(alloc, value)?))
}

/// The number of a field's value, or 0.
pub(crate) fn number_of(value: &Text) -> u64
    ensures { result ≡ spec.number_of value.now }
{
    field_number(value).unwrap_or(0)
}

/// The number that a text is, if it is one of at most so much.
pub(crate) fn number_in(text: &Text, most: u64) -> Option<u64>
    ensures value { result ≡ spec.number_in most text.now }
    ensures within { IfSome result (λ number. number ≤ most) }
{
    match number(text, most) {
        Ok(number) => Some(number),
        Err(_) => None,
    }
}

/// The seconds that a text is, where a last number without a letter has this unit, if they are at
/// most 2^60.
pub(crate) fn time_in(text: &Text, unit: u8) -> Option<u64>
    requires { IsLetter unit }
    ensures { result ≡ spec.time_in unit text.now }
{
    match time(text, unit) {
        Ok(seconds) => Some(seconds),
        Err(_) => None,
    }
}
