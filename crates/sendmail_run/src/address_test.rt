ghost use Rattle.std.specs.Prelude.{◌≡◌, ◌<◌, ◌≤◌, ◌^◌, ◌++◌, ◌∷◌, List, [], ℕ, false, MatchOption, length, take, IfOk, OnOk, OnErr, IfSome, ◌↔◌};
ghost use Rattle.mail_base.specs.Histories.{Gains, HasCause};
ghost use Rattle.mail_edge.specs.Moves.{Loses, GainsPart};
ghost use Rattle.mail_edge.specs.Seen.{SourceSeen};
ghost use Rattle.sendmail_run.specs.Devices.{Streams, streams};
ghost use Rattle.sendmail_run.specs.Outcomes.{of_test};
ghost use Rattle.sendmail_run.specs.Printing.{basis};
ghost use Rattle.sendmail_run.specs.Rises.{RisesOnlyAt};
ghost use Rattle.sendmail_run.specs.inner.Taking.{Answered, At, RisesOnlyIn, Stands, Went, has_end};
ghost use Rattle.sendmail_run.specs.Testing.{Tests};
ghost use Rattle.sendmail_run.specs.declared.outcome.Outcome.TheVariants.{ReadFault, WriteFault};

use crate::buffer::zeros;
use crate::input::Partial;
use crate::warning::warnings_of;
use addr_test::Reply;
use mail_base::{Config, Failed, NoMemory, Seq, Text};
use mail_edge::{Sink, Source};
use map_tables::Maps;
use memchr::memchr;
use std::alloc::Global;

/// The most bytes that are taken of the input.
pub const MOST_INPUT: u64 = 1 << 32;

/// The most bytes that are taken at once. What they are answered with is gathered, and written by
/// one call.
const INPUT_PIECE: usize = 2_048;

/// How address test mode ends.
#[derive(Clone, Copy)]
pub enum TestEnd {
    /// The input came to its end, or to the line `/quit`.
    Done,
    /// The input could not be read.
    ReadFault,
    /// The output could not be written.
    WriteFault,
    /// The input has 2^32 bytes or more.
    InputLarge,
    NoMemory,
}

/// Gives the warnings of the configuration on the output, and then answers each line of input, up
/// to the end of the input or the line `/quit`. A line may change the configuration for those
/// behind it.
pub fn address_test<I: Source, O: Sink>(
    alloc: Global,
    config: &mut Config,
    maps: &Maps,
    input: &mut I,
    output: &mut O,
) -> TestEnd
    ensures tests { Tests (basis config.old maps.now)
        (streams (I.seen input.old) (O.seen output.old))
        (streams (I.seen input.new) (O.seen output.new)) result }
    ensures input { (I.seen input.old).faults ≤ (I.seen input.new).faults }
    ensures output { (O.seen output.old).faults ≤ (O.seen output.new).faults }
    ensures read { RisesOnlyAt ReadFault (of_test result) (I.seen input.old).faults
        (I.seen input.new).faults }
    ensures written { RisesOnlyAt WriteFault (of_test result) (O.seen output.old).faults
        (O.seen output.new).faults }
{
    let Ok(mut buffer) = zeros(alloc, INPUT_PIECE) else {
        return TestEnd::NoMemory;
    };
    answer_all(alloc, config, maps, input, output, &mut buffer)
}

// Gives the warnings and answers each line, taking as many bytes at once as the buffer holds.
fn answer_all<I: Source, O: Sink>(
    alloc: Global,
    config: &mut Config,
    maps: &Maps,
    input: &mut I,
    output: &mut O,
    buffer: &mut [u8],
) -> TestEnd
    requires buffer { 0 < length buffer.old }
    ensures tests { Tests (basis config.old maps.now)
        (streams (I.seen input.old) (O.seen output.old))
        (streams (I.seen input.new) (O.seen output.new)) result }
    ensures input { (I.seen input.old).faults ≤ (I.seen input.new).faults }
    ensures output { (O.seen output.old).faults ≤ (O.seen output.new).faults }
    ensures read { RisesOnlyAt ReadFault (of_test result) (I.seen input.old).faults
        (I.seen input.new).faults }
    ensures written { RisesOnlyAt WriteFault (of_test result) (O.seen output.old).faults
        (O.seen output.new).faults }
{
    let Ok(warnings) = warnings_of(alloc, config) else {
        return TestEnd::NoMemory;
    };
    let Ok(()) = give(output, &warnings) else {
        return TestEnd::WriteFault;
    };
    let mut partial = Partial::new(alloc);
    let mut total: u64 = 0;
    while total < MOST_INPUT {
        let count = match take_most(input, buffer, MOST_INPUT - total) {
            Ok(count) => count,
            Err(_) => return TestEnd::ReadFault,
        };
        if count == 0 {
            return end(alloc, config, maps, &partial, output);
        }
        total += count as u64;
        match answer_piece(alloc, config, maps, &mut partial, &buffer[..count], output) {
            Step::On => {}
            Step::Ended(how) => return how,
        }
    }
    TestEnd::InputLarge
}

// Takes bytes of the input, as many as the buffer holds and at most so many.
fn take_most<I: Source>(input: &mut I, buffer: &mut [u8], most: u64) -> Result<usize, Failed>
    requires buffer { 0 < length buffer.old }
    requires most { 0 < most }
    ensures bound { IfOk result (λ count. count ≤ length buffer.new) }
    ensures most { IfOk result (λ count. count ≤ most) }
    ensures taken { IfOk result
        (λ count. Loses (I.seen input.old).left (I.seen input.new).left (take count buffer.new)) }
    ensures end { IfOk result
        (λ count. IfSome (I.seen input.old).left (λ bytes. (count ≡ 0) ↔ (bytes ≡ []))) }
    ensures kept { OnErr result ((I.seen input.new).left ≡ (I.seen input.old).left) }
    ensures cause { HasCause (I.seen input.old).faults (I.seen input.new).faults result }
    ensures calm { OnOk result ((I.seen input.new).faults ≡ (I.seen input.old).faults) }
{
    let room = (buffer.len() as u64).min(most) as usize;
    input.take(&mut buffer[..room])
}

// How a piece of the input leaves the run.
enum Step {
    On,
    Ended(TestEnd),
}

// Answers the lines that a piece of the input ends.
fn answer_piece<O: Sink>(
    alloc: Global,
    config: &mut Config,
    maps: &Maps,
    partial: &mut Partial,
    bytes: &[u8],
    output: &mut O,
) -> Step
    ensures went { (start : Config) (before : Streams) (input : SourceSeen) (taken : List ℕ)
        → At (basis start maps.now) config.old before (streams input (O.seen output.old))
        (taken ++ bytes.now) taken partial.old
        → Went (basis start maps.now) config.new before (streams input (O.seen output.new))
        (taken ++ bytes.now) partial.new result }
    ensures later { (O.seen output.old).faults ≤ (O.seen output.new).faults }
    ensures rises { RisesOnlyIn result (O.seen output.old).faults (O.seen output.new).faults }
{
    let Ok(answers) = answer_lines(alloc, config, maps, partial, bytes) else {
        return Step::Ended(TestEnd::NoMemory);
    };
    match give(output, &answers.text) {
        Ok(()) => {
            if answers.is_quit {
                Step::Ended(TestEnd::Done)
            } else {
                Step::On
            }
        }
        Err(_) => Step::Ended(TestEnd::WriteFault),
    }
}

fn give<O: Sink>(output: &mut O, text: &Text) -> Result<(), Failed>
    ensures written { OnOk result
        (Gains (O.seen output.old).written (O.seen output.new).written text.now) }
    ensures part { OnErr result
        (GainsPart (O.seen output.old).written (O.seen output.new).written text.now) }
    ensures cause { HasCause (O.seen output.old).faults (O.seen output.new).faults result }
    ensures calm { OnOk result ((O.seen output.new).faults ≡ (O.seen output.old).faults) }
{
    if text.is_empty() {
        return Ok(());
    }
    output.give(text.bytes())
}

// The answers to the lines that a piece ends, up to the line `/quit` where that is among them.
#[derive(Drop)]
struct Answers {
    text: Text,
    is_quit: bool,
}

// Answers the lines that are ended, and keeps what came of the next.
fn answer_lines(
    alloc: Global,
    config: &mut Config,
    maps: &Maps,
    partial: &mut Partial,
    bytes: &[u8],
) -> Result<Answers, NoMemory>
    ensures { IfOk result
        (λ answers. (start : Config) (taken text : List ℕ)
        → Stands (basis start maps.now) config.old taken partial.old text
        → Answered (basis start maps.now) config.new (taken ++ bytes.now) partial.new
        (text ++ answers.text) answers.is_quit) }
{
    let mut text = Text::new(alloc);
    let mut rest = bytes;
    while let Some(parts) = split_end(rest) {
        partial.take(parts.0)?;
        let reply = partial.answer(alloc, config, maps)?;
        let said = match reply {
            Reply::Lines(said) => said,
            Reply::Quit => {
                return Ok(Answers {
                    text,
                    is_quit: true,
                });
            }
        };
        text.extend(said.bytes())?;
        partial.clear();
        rest = parts.1;
    }
    partial.take(rest)?;
    Ok(Answers {
        text,
        is_quit: false,
    })
}

// What stands before the first LF, and what stands after it.
fn split_end(text: &[u8]) -> Option<(&[u8], &[u8])>
    ensures { MatchOption result (has_end text.now ≡ false)
        (λ parts. (has_end parts.0.now ≡ false)
        × (text.now ≡ (parts.0.now ++ 10 ∷ []) ++ parts.1.now)) }
{
    match memchr(b'\n', text) {
        Some(end) => Some((&text[..end], &text[end + 1..])),
        None => None,
    }
}

// Answers the last line, which the input's end ends.
fn end<O: Sink>(
    alloc: Global,
    config: &mut Config,
    maps: &Maps,
    partial: &Partial,
    output: &mut O,
) -> TestEnd
    ensures tests { (start : Config) (before : Streams) (input : SourceSeen) (taken : List ℕ)
        → IfSome input.left (λ left. left ≡ []) → length taken < 2 ^ 32
        → At (basis start maps.now) config.old before (streams input (O.seen output.old)) taken
        taken partial.now
        → Tests (basis start maps.now) before (streams input (O.seen output.new)) result }
    ensures later { (O.seen output.old).faults ≤ (O.seen output.new).faults }
    ensures rises { RisesOnlyAt WriteFault (of_test result) (O.seen output.old).faults
        (O.seen output.new).faults }
{
    let Ok(reply) = partial.answer_last(alloc, config, maps) else {
        return TestEnd::NoMemory;
    };
    let text = match reply {
        Reply::Lines(text) => text,
        Reply::Quit => return TestEnd::Done,
    };
    match give(output, &text) {
        Ok(()) => TestEnd::Done,
        Err(_) => TestEnd::WriteFault,
    }
}
