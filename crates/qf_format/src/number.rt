ghost use Rattle.std.specs.Prelude.{◌≡◌, ◌↔◌, IsTrue, ◌⊎◌, ◌-◌, ◌<◌, ◌≤◌, ◌^◌, ℕ, Some, MatchOption, FitsSigned, negsuc};
ghost use Rattle.std.specs.Int.{w64, w128};
ghost use Rattle.std.specs.Fmt.{decimal, signed_decimal};
ghost use Rattle.mail_base.specs.Limits.{IsId};
ghost use Rattle.mail_base.specs.Names.{digits, id_text};
ghost use Rattle.qf_format.specs.inner.Reading.{Spells};
ghost use Rattle.qf_format.specs.inner.Parts.{IsPlain, IsSmall};
ghost use Rattle.qf_format.specs.Valid.{IsRevision};

use crate::field::{after_tag, first_byte};
use mail_base::{Id, Kind};

// The number that the bytes are the decimal text of.
fn number_of(bytes: &[u8]) -> Option<u128>
    ensures { Spells decimal (λ n. n < 2 ^ 128) bytes.now result }
{
    if !is_plain(bytes) {
        return None;
    }
    match std::str::from_utf8(bytes) {
        Ok(text) => text.parse::<u128>().ok(),
        Err(_) => None,
    }
}

// Whether neither a plus nor a zero before other digits stands first.
fn is_plain(bytes: &[u8]) -> bool
    ensures { IsTrue result ↔ IsPlain bytes.now }
{
    let first = first_byte(bytes);
    first != b'+' && (first != b'0' || bytes.len() <= 1)
}

/// The same of a number below 2^64.
pub(crate) fn small_of(bytes: &[u8]) -> Option<u64>
    ensures { Spells decimal IsSmall bytes.now result }
{
    u64::try_from(number_of(bytes)?).ok()
}

pub(crate) fn revision_of(bytes: &[u8]) -> Option<u64>
    ensures { Spells decimal IsRevision bytes.now result }
{
    let number = small_of(bytes)?;
    if number == 0 {
        return None;
    }
    Some(number)
}

/// The number that the bytes are the decimal text of, perhaps below 0.
pub(crate) fn priority_of(bytes: &[u8]) -> Option<i128>
    ensures { Spells signed_decimal (FitsSigned w128) bytes.now result }
{
    match after_tag(b"-", bytes) {
        None => i128::try_from(number_of(bytes)?).ok(),
        Some(digits) => negative(number_of(digits)?),
    }
}

// The number below 0 of that magnitude.
fn negative(magnitude: u128) -> Option<i128>
    ensures { MatchOption result ((magnitude ≡ 0) ⊎ (2 ^ 127 < magnitude))
        (λ z. (0 < magnitude) × (magnitude ≤ 2 ^ 127) × (z ≡ negsuc (magnitude - 1))) }
{
    if magnitude == 0 || magnitude > 1 << 127 {
        return None;
    }
    Some(-1 - (magnitude - 1) as i128)
}

pub(crate) fn class_of(bytes: &[u8]) -> Option<i64>
    ensures { Spells signed_decimal (FitsSigned w64) bytes.now result }
{
    i64::try_from(priority_of(bytes)?).ok()
}

/// The id that the bytes name.
pub(crate) fn id_of(bytes: &[u8]) -> Option<Id>
    ensures { Spells id_text IsId bytes.now result }
{
    let number = id_number(after_tag(b"w", bytes)?)?;
    if number > Id::MOST {
        return None;
    }
    let id = Id::new(number);
    if is_named(id, bytes) { Some(id) } else { None }
}

// The number that an id's twelve digits write. Other bytes may give any number.
fn id_number(text: &[u8]) -> Option<u64>
    ensures { (n : ℕ) → IsId n → text.now ≡ digits 12 n → result ≡ Some n }
{
    match std::str::from_utf8(text) {
        Ok(digits) => digits.parse::<u64>().ok(),
        Err(_) => None,
    }
}

fn is_named(id: Id, bytes: &[u8]) -> bool
    ensures { IsTrue result ↔ (bytes.now ≡ id_text id) }
{
    bytes == &id.name(Kind::Qf).bytes()[2..]
}
