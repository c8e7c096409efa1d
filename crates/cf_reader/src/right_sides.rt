ghost use Rattle.std.specs.Prelude.{◌≡◌, ◌∷◌};
ghost use Rattle.std.specs.List.{list_any};
ghost use Rattle.cf_reader.specs.Sides as spec;
ghost use Rattle.cf_reader.specs.inner.Making.{Makes, IsFirst, steps_in};

use crate::fault::{Fault, LineStop};
use crate::lookups::bracketed;
use crate::pieces::{is_digit, piece_of};
use crate::signs::{is_dollar, is_opening, length_to_bracket};
use addr_tokens::Lexeme;
use mail_base::{Go, Seq, Step, Template};
use std::alloc::Global;

/// The template of a right side.
pub(crate) fn template_of(alloc: Global, lexemes: &[Lexeme]) -> Result<Template, LineStop>
    ensures { Makes result (spec.template_of lexemes.now) }
{
    let (go, body) = split_prefix(lexemes);
    let mut steps = steps_of(alloc, body)?;
    if ends_in_call(steps.items()) {
        return Err(LineStop::Refused(Fault::BadPattern));
    }
    steps.shrink();
    Ok(Template { go, steps })
}

// The prefix of a right side, and what stands behind it.
fn split_prefix(lexemes: &[Lexeme]) -> (Go, &[Lexeme])
    ensures go { result.0 ≡ spec.go_of lexemes.now }
    ensures body { result.1.now ≡ spec.body_of lexemes.now }
{
    let Some((first, body)) = lexemes.split_first() else {
        return (Go::Again, lexemes);
    };
    if is_dollar(b'@', first) {
        return (Go::Return, body);
    }
    if is_dollar(b':', first) {
        return (Go::Next, body);
    }
    (Go::Again, lexemes)
}

fn ends_in_call(steps: &[Step]) -> bool
    ensures { result ≡ spec.ends_in_call steps.now }
{
    match steps.last() {
        Some(Step::Call) => true,
        _ => false,
    }
}

fn steps_of(alloc: Global, body: &[Lexeme]) -> Result<Seq<Step>, LineStop>
    ensures { Makes result (steps_in body.now) }
{
    let mut steps = Seq::new(alloc);
    let mut place = 0;
    'steps: while place < body.len() {
        let (step, size) = first_step(alloc, &body[place], &body[place + 1..])?;
        steps.push(step)?;
        place += size;
    }
    Ok(steps)
}

// The first step of lexemes, the first of which is given apart, and how many of them it takes.
fn first_step(alloc: Global, first: &Lexeme, after: &[Lexeme]) -> Result<(Step, usize), LineStop>
    ensures { IsFirst result (first.now ∷ after.now) }
{
    if !is_opening(first) {
        return Ok((step_of(first)?, 1));
    }
    let size = length_to_bracket(after);
    match after.get(size) {
        Some(closing) => Ok((bracketed(alloc, first, &after[..size], closing)?, size + 2)),
        None => Err(LineStop::Refused(Fault::BadPattern)),
    }
}

// A lexeme outside of lookups.
fn step_of(lexeme: &Lexeme) -> Result<Step, LineStop>
    ensures { Makes result (spec.step_of lexeme.now) }
{
    if is_dollar(b'>', lexeme) {
        return Ok(Step::Call);
    }
    Ok(Step::Plain(piece_of(lexeme)?))
}

/// Whether a right side has `$0`, or a number above that of the items that bind.
pub(crate) fn refers_badly(lexemes: &[Lexeme], most: usize) -> bool
    ensures { result ≡ list_any (spec.is_bad_reference most) lexemes.now }
{
    for lexeme in lexemes {
        if is_bad_reference(most, lexeme) {
            return true;
        }
    }
    false
}

fn is_bad_reference(most: usize, lexeme: &Lexeme) -> bool
    ensures { result ≡ spec.is_bad_reference most lexeme.now }
{
    match lexeme {
        Lexeme::Dollar(byte) => {
            is_digit(*byte) && (*byte == b'0' || most < usize::from(byte.saturating_sub(b'0')))
        }
        _ => false,
    }
}
