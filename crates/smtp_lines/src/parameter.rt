ghost use Rattle.std.specs.Prelude.{◌≡◌};
ghost use Rattle.smtp_lines.specs.Reading as reading;

use crate::digits::{are_digits, value_of};
use crate::path::word_end;

/// The most digits of a size (RFC 1870, section 3).
const MOST_DIGITS: usize = 20;

/// What a parameter of MAIL gives.
#[derive(Clone, Copy)]
pub(crate) enum Given {
    /// The size of the message in bytes, as it is declared.
    Size(u128),
    /// Whether the body has bytes above 127.
    Body(bool),
}

/// What the parameters of MAIL give, of each kind the last.
#[derive(Clone, Copy)]
pub(crate) struct Parameters {
    pub(crate) size: Option<u128>,
    pub(crate) body: Option<bool>,
}

/// The parameters that a text has between blanks, or `None` where a word is none.
pub(crate) fn parameters_of(text: &[u8]) -> Option<Parameters>
    ensures { result ≡ reading.parameters_of text.now }
{
    let mut given = Parameters {
        size: None,
        body: None,
    };
    let mut place = 0;
    while place < text.len() {
        let rest = &text[place..];
        let end = word_end(rest);
        if end > 0 {
            given = with_given(given, given_by(&rest[..end]))?;
        }
        place += end + 1;
    }
    Some(given)
}

fn with_given(earlier: Parameters, given: Option<Given>) -> Option<Parameters>
    ensures { result ≡ reading.with_given earlier given }
{
    match given {
        None => None,
        Some(Given::Size(size)) => Some(Parameters {
            size: Some(size),
            ..earlier
        }),
        Some(Given::Body(eight)) => Some(Parameters {
            body: Some(eight),
            ..earlier
        }),
    }
}

fn given_by(word: &[u8]) -> Option<Given>
    ensures { result ≡ reading.given_by word.now }
{
    if word.eq_ignore_ascii_case(b"BODY=7BIT") {
        return Some(Given::Body(false));
    }
    if word.eq_ignore_ascii_case(b"BODY=8BITMIME") {
        return Some(Given::Body(true));
    }
    if word.len() < 5 {
        return None;
    }
    let (key, digits) = word.split_at(5);
    if key.eq_ignore_ascii_case(b"SIZE=") {
        let size = size_of(digits)?;
        return Some(Given::Size(size));
    }
    None
}

fn size_of(digits: &[u8]) -> Option<u128>
    ensures { result ≡ reading.size_of digits.now }
{
    if digits.is_empty() {
        return None;
    }
    if digits.len() > MOST_DIGITS || !are_digits(digits) {
        return None;
    }
    Some(value_of(digits))
}
