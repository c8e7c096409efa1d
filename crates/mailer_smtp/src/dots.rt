ghost use Rattle.std.specs.Prelude.{◌≡◌, IfOk};
ghost use Rattle.mailer_smtp.specs.Texts.{dotted, dotted_from, ends_from, is_line_start, is_return, place_after};

use mail_base::{NoMemory, Text};
use std::alloc::Global;

/// Where in a line of a message one stands.
#[derive(Clone, Copy)]
pub(crate) enum LinePlace {
    /// At the start of a line.
    LineStart,
    /// Behind a CR.
    Return,
    Inside,
}

/// The message as it is written, with its end (RFC 5321, sections 4.1.1.4 and 4.5.2). It goes over
/// the message once, and takes room for as many dots as it may have to add.
pub(crate) fn stuffed(alloc: Global, message: &[u8]) -> Result<Text, NoMemory>
    ensures { IfOk result (λ text. text ≡ dotted message.now) }
{
    let mut text = Text::from_vec(Vec::with_capacity(alloc, room_for(message))?);
    let mut place = LinePlace::LineStart;
    for byte in message {
        if is_line_start(place) && *byte == b'.' {
            text.push(b'.')?;
        }
        text.push(*byte)?;
        place = place_after(place, *byte);
    }
    text.extend(end_of(place))?;
    text.extend(b".\r\n")?;
    Ok(text)
}

// Bytes for a message with a dot more in each line: a line that begins with one has three bytes.
fn room_for(message: &[u8]) -> usize {
    let length = message.len();
    length.saturating_add(length / 3).saturating_add(6)
}

fn place_after(place: LinePlace, byte: u8) -> LinePlace
    ensures { result ≡ place_after place byte }
{
    if byte == b'\r' {
        return LinePlace::Return;
    }
    if is_return(place) && byte == b'\n' {
        return LinePlace::LineStart;
    }
    LinePlace::Inside
}

// The end that the last line lacks.
fn end_of(place: LinePlace) -> &'static [u8]
    ensures { result.now ≡ ends_from place }
{
    match place {
        LinePlace::LineStart => b"",
        LinePlace::Return => b"\r\n",
        LinePlace::Inside => b"\r\n",
    }
}

fn is_line_start(place: LinePlace) -> bool
    ensures { result ≡ is_line_start place }
{
    match place {
        LinePlace::LineStart => true,
        LinePlace::Return => false,
        LinePlace::Inside => false,
    }
}

fn is_return(place: LinePlace) -> bool
    ensures { result ≡ is_return place }
{
    match place {
        LinePlace::LineStart => false,
        LinePlace::Return => true,
        LinePlace::Inside => false,
    }
}
