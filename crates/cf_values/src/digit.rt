ghost use Rattle.std.specs.Prelude.{◌≡◌, ◌+◌, ◌*◌, ◌≤◌, min, IfSome, IfNone};
ghost use Rattle.cf_values.specs.Numbers.{IsDigit};

/// The number of a digit.
pub(crate) fn digit_of(byte: u8) -> Option<u8>
    ensures some { IfSome result (λ digit. (byte ≡ 48 + digit) × (digit ≤ 9)) }
    ensures none { IfNone result (¬ IsDigit byte) }
{
    match byte {
        b'0'..=b'9' => Some(byte - b'0'),
        _ => None,
    }
}

/// A number with one digit more, where each number from `cap` on counts as `cap`.
pub(crate) fn with_digit(number: u128, digit: u8, cap: u128) -> u128
    ensures { result ≡ min cap (number * 10 + digit) }
{
    cap.min(number.saturating_mul(10).saturating_add(digit as u128))
}
