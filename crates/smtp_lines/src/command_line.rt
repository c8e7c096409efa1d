ghost use Rattle.std.specs.Prelude.{◌≡◌, Some};
ghost use Rattle.std.specs.List.{list_any};
ghost use Rattle.smtp_lines.specs.Commands.{IsRead, as_read, as_order, is_bad_byte};
ghost use Rattle.smtp_lines.specs.Paths.{is_parted};
ghost use Rattle.smtp_lines.specs.Reading as reading;
ghost use Rattle.smtp_lines.specs.inner.Borrowed.{as_parts};

use crate::parameter::parameters_of;
use crate::path::{Parts, is_long, path_parts, without_route, word_end};
use mail_base::{Command, LineFault, Verb, is_blank, trimmed, without_blanks};

/// The command that a line without its end is, or the first fault that it has (RFC 5321, section
/// 4.1.1).
///
/// Verbs, keywords and parameters have any case, and blanks are dropped at both ends of an
/// argument. It takes no memory.
pub fn command(line: &[u8]) -> Result<Command<'_>, LineFault>
    ensures { IsRead line.now (as_read result) }
{
    read_command(line)
}

fn read_command(line: &[u8]) -> Result<Command<'_>, LineFault>
    ensures { as_read result ≡ reading.order_of line.now }
{
    if has_bad_byte(line) {
        return Err(LineFault::BadByte);
    }
    let end = word_end(line);
    let argument = trimmed(&line[end..]);
    match verb_named(&line[..end]) {
        None => Err(LineFault::Unknown),
        Some(verb) => of_verb(verb, argument),
    }
}

fn has_bad_byte(line: &[u8]) -> bool
    ensures { result ≡ list_any is_bad_byte line.now }
{
    line.iter().any(|byte| is_bad_byte(*byte))
}

fn is_bad_byte(byte: u8) -> bool
    ensures { result ≡ is_bad_byte byte }
{
    (byte < 32 && byte != b'\t') || byte == 127
}

fn verb_named(word: &[u8]) -> Option<Verb>
    ensures { result ≡ reading.verb_named word.now }
{
    if word.eq_ignore_ascii_case(b"HELO") {
        return Some(Verb::Helo);
    }
    if word.eq_ignore_ascii_case(b"EHLO") {
        return Some(Verb::Ehlo);
    }
    if word.eq_ignore_ascii_case(b"MAIL") {
        return Some(Verb::Mail);
    }
    if word.eq_ignore_ascii_case(b"RCPT") {
        return Some(Verb::Rcpt);
    }
    if word.eq_ignore_ascii_case(b"DATA") {
        return Some(Verb::Data);
    }
    if word.eq_ignore_ascii_case(b"RSET") {
        return Some(Verb::Rset);
    }
    if word.eq_ignore_ascii_case(b"NOOP") {
        return Some(Verb::Noop);
    }
    if word.eq_ignore_ascii_case(b"QUIT") {
        return Some(Verb::Quit);
    }
    if word.eq_ignore_ascii_case(b"VRFY") {
        return Some(Verb::Vrfy);
    }
    if word.eq_ignore_ascii_case(b"EXPN") {
        return Some(Verb::Expn);
    }
    if word.eq_ignore_ascii_case(b"HELP") {
        return Some(Verb::Help);
    }
    None
}

fn of_verb(verb: Verb, argument: &[u8]) -> Result<Command<'_>, LineFault>
    ensures { as_read result ≡ reading.order_by (Some verb) argument.now }
{
    match verb {
        Verb::Helo => needed(argument, Command::Helo(argument)),
        Verb::Ehlo => needed(argument, Command::Ehlo(argument)),
        Verb::Mail => sender(argument),
        Verb::Rcpt => recipient(argument),
        Verb::Data => alone(argument, Command::Data),
        Verb::Rset => alone(argument, Command::Rset),
        Verb::Noop => Ok(Command::Noop),
        Verb::Quit => alone(argument, Command::Quit),
        Verb::Vrfy => needed(argument, Command::Vrfy),
        Verb::Expn => Ok(Command::Expn),
        Verb::Help => Ok(Command::Help),
    }
}

/// A command that needs an argument.
fn needed<'a>(argument: &[u8], command: Command<'a>) -> Result<Command<'a>, LineFault>
    ensures { as_read result ≡ reading.needed (as_order command.entry) argument.now }
{
    if argument.is_empty() {
        return Err(LineFault::ArgumentNeeded);
    }
    Ok(command)
}

/// A command that has no argument.
fn alone<'a>(argument: &[u8], command: Command<'a>) -> Result<Command<'a>, LineFault>
    ensures { as_read result ≡ reading.alone (as_order command.entry) argument.now }
{
    if argument.is_empty() {
        return Ok(command);
    }
    Err(LineFault::NoArgument)
}

fn sender(argument: &[u8]) -> Result<Command<'_>, LineFault>
    ensures { as_read result ≡ reading.order_by (Some Verb.Mail) argument.now }
{
    let parts = path_after(Verb::Mail, b"FROM:", argument)?;
    let path = parts.front;
    match parameters_of(parts.back) {
        Some(given) => Ok(Command::Mail {
            path,
            size: given.size,
            eight: given.body.unwrap_or(false),
        }),
        None => Err(LineFault::Parameter(Verb::Mail)),
    }
}

fn recipient(argument: &[u8]) -> Result<Command<'_>, LineFault>
    ensures { as_read result ≡ reading.order_by (Some Verb.Rcpt) argument.now }
{
    let parts = path_after(Verb::Rcpt, b"TO:", argument)?;
    let path = parts.front;
    if parts.back.is_empty() {
        return Ok(Command::Rcpt { path });
    }
    Err(LineFault::Parameter(Verb::Rcpt))
}

/// The path after a keyword, without its route, and what is after it.
fn path_after<'a>(verb: Verb, keyword: &[u8], argument: &'a [u8]) -> Result<Parts<'a>, LineFault>
    ensures { as_parts result ≡ reading.path_after verb keyword.now argument.now }
{
    if argument.len() < keyword.len() {
        return Err(LineFault::Syntax(verb));
    }
    let (word, rest) = argument.split_at(keyword.len());
    if !word.eq_ignore_ascii_case(keyword) {
        return Err(LineFault::Syntax(verb));
    }
    checked(verb, without_blanks(rest))
}

fn checked(verb: Verb, text: &[u8]) -> Result<Parts<'_>, LineFault>
    ensures { as_parts result ≡ reading.checked verb (reading.path_parts text.now) }
{
    let Some(parts) = path_parts(text) else {
        return Err(LineFault::Syntax(verb));
    };
    if !is_parted(parts.back) {
        return Err(LineFault::Syntax(verb));
    }
    let front = without_route(parts.front);
    if is_long(front) {
        return Err(LineFault::PathTooLong(verb));
    }
    let back = parts.back;
    Ok(Parts { front, back })
}

fn is_parted(text: &[u8]) -> bool
    ensures { result ≡ is_parted text.now }
{
    text.is_empty() || is_blank(text[0])
}
