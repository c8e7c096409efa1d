ghost use Rattle.std.specs.Prelude.{◌≡◌};
ghost use Rattle.smtp_lines.specs.Stream.{asks, is_data, verb_of, mode_after, command_line, without_cr, ends_in_cr, message_line, without_dot};

use bstr::ByteSlice;
use mail_base::{MOST_COMMAND, MOST_MESSAGE, Text};

/// The bytes that stand of a line of a message: one more than a message may have.
pub(crate) const MOST_DATA: usize = MOST_MESSAGE as usize + 1;

/// How the bytes of a stream are read.
#[derive(Clone, Copy)]
pub enum Mode {
    /// As commands, which end at LF.
    Commands,
    /// As a message, whose lines end at CR LF.
    Message,
}

/// A line of a stream, without its end.
#[derive(Drop)]
pub enum Line {
    /// A command, without the one CR that may stand before its LF.
    Command(Text),
    /// A command of more than [`MOST_COMMAND`] bytes with its end.
    TooLong,
    /// A line of a message, without its first dot. Of one that is then longer than a message may
    /// be, one byte more than [`MOST_MESSAGE`] stands.
    Data(Text),
    /// The line of one dot, which ends a message.
    DataEnd,
}

impl Line {
    /// Whether this is a command with the verb DATA.
    pub fn asks(&self) -> bool
        ensures { result ≡ asks self.now }
    {
        match self {
            Line::Command(text) => is_data(text.bytes()),
            _ => false,
        }
    }
}

fn is_data(command: &[u8]) -> bool
    ensures { result ≡ is_data command.now }
{
    verb_of(command).eq_ignore_ascii_case(b"DATA")
}

fn verb_of(command: &[u8]) -> &[u8]
    ensures { result.now ≡ verb_of command.now }
{
    match command.find_byteset(b" \t") {
        Some(end) => &command[..end],
        None => command,
    }
}

/// How the stream is read after a line that doesn't ask for a message.
pub(crate) fn mode_after(line: &Line) -> Mode
    ensures { result ≡ mode_after line.now }
{
    match line {
        Line::Data(_) => Mode::Message,
        _ => Mode::Commands,
    }
}

/// The command line of the bytes before its LF.
#[tactic(auto, unfolding(mail_base::specs::Limits::most_command))]
pub(crate) fn command_line(mut content: Vec<u8>) -> Line
    ensures { result ≡ command_line content.items }
{
    if content.len() + 1 > MOST_COMMAND {
        return Line::TooLong;
    }
    drop_cr(&mut content);
    Line::Command(Text::from_vec(content))
}

fn drop_cr(content: &mut Vec<u8>)
    ensures { content.new.items ≡ without_cr content.old.items }
{
    if ends_in_cr(content) {
        content.truncate(content.len() - 1);
    }
}

pub(crate) fn ends_in_cr(bytes: &[u8]) -> bool
    ensures { result ≡ ends_in_cr bytes.now }
{
    !bytes.is_empty() && bytes[bytes.len() - 1] == b'\r'
}

/// The line of a message of the bytes before its CR LF.
#[tactic(auto, unfolding(mail_base::specs::Limits::most_message))]
pub(crate) fn message_line(mut content: Vec<u8>) -> Line
    ensures { result ≡ message_line content.items }
{
    if content.as_slice() == b".".as_slice() {
        return Line::DataEnd;
    }
    drop_dot(&mut content);
    content.truncate(MOST_DATA);
    Line::Data(Text::from_vec(content))
}

fn drop_dot(content: &mut Vec<u8>)
    ensures { content.new.items ≡ without_dot content.old.items }
{
    if !content.is_empty() && content[0] == b'.' {
        let _dot = content.remove(0);
    }
}
