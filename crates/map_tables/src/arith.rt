ghost use Rattle.std.specs.Prelude.{◌≡◌, ◌+ℤ◌, ◌-ℤ◌, ◌*ℤ◌, Some, IfOk, bit_and, bit_or, int_div, int_rem, slice_get};
ghost use Rattle.std.specs.Fmt.{signed_decimal};
ghost use Rattle.map_tables.specs.Arithmetic.{applied, by_bits, calculated, divided, fitting, integer, number_by, operator_of, read_number, result_text, truth_by, truth_text};

use crate::lines::begins_with;
use mail_base::{NoMemory, Seq, Text};
use std::alloc::Global;

/// What the operator that the key names gives of the first two arguments, if it gives anything.
pub(crate) fn calculated(key: &Text, args: &Seq<Text>) -> Result<Option<Text>, NoMemory>
    ensures { IfOk result (λ text. text ≡ calculated key.now args.now) }
{
    applied(
        key.allocator(),
        operator_of(key.bytes()),
        read_number(args, 0),
        read_number(args, 1),
    )
}

fn operator_of(key: &[u8]) -> Option<u8>
    ensures { result ≡ operator_of key.now }
{
    if key.len() == 1 { Some(key[0]) } else { None }
}

fn read_number(args: &Seq<Text>, place: usize) -> Option<i64>
    ensures { result ≡ read_number (slice_get args.now place) }
{
    match args.get(place) {
        Some(text) => integer(text.bytes()),
        None => None,
    }
}

fn applied(
    alloc: Global,
    operator: Option<u8>,
    left: Option<i64>,
    right: Option<i64>,
) -> Result<Option<Text>, NoMemory>
    ensures { IfOk result (λ text. text ≡ applied operator left right) }
{
    match (operator, left, right) {
        (Some(operator), Some(left), Some(right)) => {
            let number = number_by(operator, left, right);
            result_text(alloc, number, truth_by(operator, left, right))
        }
        (Some(_), Some(_), None) => Ok(None),
        (Some(_), None, _) => Ok(None),
        (None, _, _) => Ok(None),
    }
}

fn result_text(
    alloc: Global,
    number: Option<i64>,
    truth: Option<bool>,
) -> Result<Option<Text>, NoMemory>
    ensures { IfOk result (λ text. text ≡ result_text number truth) }
{
    match (number, truth) {
        (Some(number), _) => Ok(Some(number_text(alloc, number)?)),
        (None, Some(truth)) => Ok(Some(Text::of(alloc, truth_text(truth))?)),
        (None, None) => Ok(None),
    }
}

fn number_text(alloc: Global, number: i64) -> Result<Text, NoMemory>
    ensures { IfOk result (λ text. text ≡ signed_decimal number) }
{
    let text = format!(in alloc; "{number}")?;
    Text::of(alloc, text.as_bytes())
}

fn truth_text(truth: bool) -> &'static [u8]
    ensures { result.now ≡ truth_text truth }
{
    if truth { b"TRUE" } else { b"FALSE" }
}

// The number that an operator makes of two.
fn number_by(operator: u8, left: i64, right: i64) -> Option<i64>
    ensures { result ≡ number_by operator left right }
{
    match operator {
        b'+' => sum(left, right),
        b'-' => difference(left, right),
        b'*' => product(left, right),
        b'/' => quotient(left, right),
        b'%' => remainder(left, right),
        b'&' => Some(both_bits(left, right)),
        b'|' => Some(either_bits(left, right)),
        _ => None,
    }
}

#[tactic(auto, using(crate::proofs::ArithmeticLemmas::fits_by))]
fn sum(left: i64, right: i64) -> Option<i64>
    ensures { result ≡ fitting (left +ℤ right) }
{
    left.checked_add(right)
}

#[tactic(auto, using(crate::proofs::ArithmeticLemmas::fits_by))]
fn difference(left: i64, right: i64) -> Option<i64>
    ensures { result ≡ fitting (left -ℤ right) }
{
    left.checked_sub(right)
}

#[tactic(auto, using(crate::proofs::ArithmeticLemmas::fits_by))]
fn product(left: i64, right: i64) -> Option<i64>
    ensures { result ≡ fitting (left *ℤ right) }
{
    left.checked_mul(right)
}

// What division towards 0 gives; nothing by 0.
fn quotient(left: i64, right: i64) -> Option<i64>
    ensures { result ≡ divided right (fitting (int_div left right)) }
{
    if right == 0 {
        return None;
    }
    left.checked_div(right)
}

// What a division towards 0 leaves; nothing by 0.
fn remainder(left: i64, right: i64) -> Option<i64>
    ensures { result ≡ divided right (Some (int_rem left right)) }
{
    if right == 0 {
        return None;
    }
    Some(left.wrapping_rem(right))
}

fn both_bits(left: i64, right: i64) -> i64
    ensures { result ≡ by_bits bit_and left right }
{
    left & right
}

fn either_bits(left: i64, right: i64) -> i64
    ensures { result ≡ by_bits bit_or left right }
{
    left | right
}

fn truth_by(operator: u8, left: i64, right: i64) -> Option<bool>
    ensures { result ≡ truth_by operator left right }
{
    match operator {
        b'l' => Some(left < right),
        b'=' => Some(left == right),
        _ => None,
    }
}

// The number of 64 bits that a text writes.
fn integer(text: &[u8]) -> Option<i64>
    ensures { result ≡ integer text.now }
{
    if begins_with(text, b'+') {
        return None;
    }
    match std::str::from_utf8(text) {
        Ok(text) => text.parse::<i64>().ok(),
        Err(_) => None,
    }
}
