use crate::Bad;
use mail_base::{NoMemory, Text};

/// The number of decimal digits, one at least, below 2^64.
pub fn number_of(digits: &[u8]) -> Option<u64> {
    if digits.is_empty() {
        return None;
    }
    let mut number = 0u64;
    for digit in digits {
        if !digit.is_ascii_digit() {
            return None;
        }
        number = number.checked_mul(10)?.checked_add(u64::from(*digit & 15))?;
    }
    Some(number)
}

/// The number that has to stand there.
pub(crate) fn given_number(digits: &[u8]) -> Result<u64, Bad> {
    number_of(digits).ok_or(Bad::Number)
}

/// The seconds of a number with a unit behind it: `s`, `m`, `h`, `d` or `w`.
pub fn seconds_of(time: &[u8]) -> Option<u64> {
    let (unit, digits) = time.split_last()?;
    let seconds = match *unit {
        b's' => 1,
        b'm' => 60,
        b'h' => 3_600,
        b'd' => 86_400,
        b'w' => 604_800,
        _ => return None,
    };
    number_of(digits)?.checked_mul(seconds)
}

/// Adds a number in decimal digits.
pub fn put_number(text: &mut Text, number: u64) -> Result<(), NoMemory> {
    put_digits(text, number, 1)
}

/// Adds a number with twelve digits at least, as ids have them.
pub fn put_padded(text: &mut Text, number: u64) -> Result<(), NoMemory> {
    put_digits(text, number, 12)
}

fn put_digits(text: &mut Text, number: u64, least: u32) -> Result<(), NoMemory> {
    let mut power = 10_000_000_000_000_000_000u64;
    let mut began = false;
    for place in 0..20u32 {
        let digit = number.checked_div(power).unwrap_or(0) % 10;
        began = began || digit > 0 || place.saturating_add(least) >= 20;
        if began {
            text.push(b'0' + digit as u8)?;
        }
        power /= 10;
    }
    Ok(())
}
