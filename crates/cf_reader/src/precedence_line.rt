ghost use Rattle.std.specs.Prelude.{◌≡◌, IfOk, option_map, pos};
ghost use Rattle.cf_reader.specs.inner.Readings.{Reads};
ghost use Rattle.cf_reader.specs.Values.{number_in};
ghost use Rattle.cf_reader.specs.PrecedenceLines as spec;

use crate::fault::{Fault, LineStop};
use crate::fields::split_at;
use crate::values::number_in;
use mail_base::{NoMemory, Precedence, Text};
use std::alloc::Global;

// The greatest number of a precedence, and below zero the least.
const MOST_CLASS: u64 = 1_000_000;

/// The precedence of a P line, by what follows the letter.
pub(crate) fn precedence_line(alloc: Global, text: &[u8]) -> Result<Precedence, LineStop>
    ensures { Reads result (spec.fault_of_precedence text.now) (spec.precedence_of text.now) }
{
    let (name, value) = split_at(text, b'=');
    match class_value(alloc, value)? {
        Some(class) => Ok(Precedence {
            name: Text::of(alloc, name)?,
            class,
        }),
        None => Err(LineStop::Refused(Fault::BadOption)),
    }
}

// The number of a precedence, or `None` where it isn't one.
fn class_value(alloc: Global, value: &[u8]) -> Result<Option<i64>, NoMemory>
    ensures { IfOk result (λ class. class ≡ spec.class_value value.now) }
{
    let Some((sign, digits)) = value.split_first() else {
        return Ok(None);
    };
    if *sign == b'-' {
        return Ok(below_zero(&Text::of(alloc, digits)?));
    }
    Ok(from_zero(&Text::of(alloc, value)?))
}

fn below_zero(digits: &Text) -> Option<i64>
    ensures { result ≡ option_map spec.below_zero (number_in 1_000_000 digits.now) }
{
    match number_in(digits, MOST_CLASS) {
        Some(number) => Some(-(number as i64)),
        None => None,
    }
}

fn from_zero(digits: &Text) -> Option<i64>
    ensures { result ≡ option_map pos (number_in 1_000_000 digits.now) }
{
    match number_in(digits, MOST_CLASS) {
        Some(number) => Some(number as i64),
        None => None,
    }
}
