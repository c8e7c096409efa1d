ghost use Rattle.std.specs.Prelude.{◌≡◌, ◌<◌, ◌≤◌, ◌^◌, List, ℕ, Bool, IfOk, false, length};
ghost use Rattle.mail_submit.specs.Inputs.{Holds};
ghost use Rattle.submit_run.specs.inner.Reading.{ComesTo, Reads, is_read_fault};
ghost use Rattle.submit_run.specs.declared.reading.ReadEnd.TheVariants.{NoMemory as Memory};

use mail_base::{NoMemory, Text};
use mail_edge::Source;
use mail_submit::{Input, InputFault};
use std::alloc::Global;

/// The most bytes that are taken at once.
const INPUT_PIECE: usize = 8_192;

/// Why the input is no message.
#[derive(Clone, Copy)]
pub(crate) enum ReadEnd {
    /// It has more bytes than a message may have.
    TooLarge,
    /// It can't be read.
    ReadFault,
    NoMemory,
}

impl From<NoMemory> for ReadEnd {
    ghost from_gives = { λ _ e. e ≡ Memory };

    fn from(_error: NoMemory) -> ReadEnd {
        ReadEnd::NoMemory
    }
}

/// The text of the message that the input is, which may have so many bytes: the input is read to
/// its end, or to the line `.` where that ends it.
pub(crate) fn text_of_input<I: Source>(
    alloc: Global,
    dot: bool,
    most: u64,
    input: &mut I,
) -> Result<Text, ReadEnd>
    requires most { most < 2 ^ 62 }
    ensures reads { Reads dot most (I.seen input.old) (I.seen input.new) result }
    ensures later { (I.seen input.old).faults ≤ (I.seen input.new).faults }
    ensures calm { is_read_fault result ≡ false
        → (I.seen input.new).faults ≡ (I.seen input.old).faults }
{
    let mut buffer = zeros(alloc)?;
    read_all(alloc, dot, most, input, &mut buffer)
}

// So many bytes as are taken at once, each of them zero.
fn zeros(alloc: Global) -> Result<Vec<u8>, NoMemory>
    ensures { IfOk result (λ zeros. 0 < length zeros.items) }
{
    Ok(vec![in alloc; 0u8; INPUT_PIECE]?)
}

// Takes as many bytes at once as the buffer holds. What isn't ended keeps each byte, so that too
// many bytes are too large before they are counted so.
fn read_all<I: Source>(
    alloc: Global,
    dot: bool,
    most: u64,
    input: &mut I,
    buffer: &mut [u8],
) -> Result<Text, ReadEnd>
    requires most { most < 2 ^ 62 }
    requires buffer { 0 < length buffer.old }
    ensures reads { Reads dot most (I.seen input.old) (I.seen input.new) result }
    ensures later { (I.seen input.old).faults ≤ (I.seen input.new).faults }
    ensures calm { is_read_fault result ≡ false
        → (I.seen input.new).faults ≡ (I.seen input.old).faults }
{
    let mut lines = Input::new(alloc, dot);
    let mut total: u64 = 0;
    'pieces: while total < most + 3 {
        let Ok(count) = input.take(buffer) else {
            return Err(ReadEnd::ReadFault);
        };
        if count == 0 {
            return whole(&mut lines, most);
        }
        let ended = match lines.feed(&buffer[..count], most) {
            Ok(ended) => ended,
            Err(InputFault::TooLarge) => return Err(ReadEnd::TooLarge),
            Err(InputFault::NoMemory) => return Err(ReadEnd::NoMemory),
        };
        if ended {
            return whole(&mut lines, most);
        }
        total += count as u64;
    }
    Err(ReadEnd::TooLarge)
}

// The text of the message at the end of input.
fn whole(lines: &mut Input, most: u64) -> Result<Text, ReadEnd>
    ensures { (dot : Bool) (bytes : List ℕ) → Holds lines.old dot bytes
        → ComesTo dot most bytes result }
{
    match lines.end(most) {
        Ok(text) => Ok(text),
        Err(InputFault::TooLarge) => Err(ReadEnd::TooLarge),
        Err(InputFault::NoMemory) => Err(ReadEnd::NoMemory),
    }
}
