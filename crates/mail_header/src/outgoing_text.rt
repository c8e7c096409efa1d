ghost use Rattle.std.specs.Prelude.{◌≡◌, ◌++◌, ◌∷◌, IfOk, IfNone, IfSome, OnOk, map};
ghost use Rattle.std.specs.List.{flat_map};
ghost use Rattle.mail_base.specs.Notes.{blanked as blank_for};
ghost use Rattle.mail_header.specs.Outgoing as spec;
ghost use Rattle.mail_header.specs.inner.Ends.{EndsLine, StaysWhole, ended_line};

use crate::adding::has_flag;
use crate::fields::ends_in_return;
use crate::grown::push_both;
use bstr::ByteSlice;
use cf_macros::expanded;
use mail_base::{Macros, Mailer, NoMemory, Seq, Text, blanked, split_line};

/// The text that a mailer is handed, in one pass: a line `From ` where it is a program without the
/// flag n, the headers, an empty line and the body. Each line ends as the mailer wants it, by its
/// E, or by CR LF for a network mailer; what has no CR LF at the end of the body gets none. Lines
/// of a header end at LF, with or without a CR before it, those of the body at CR LF alone. No
/// header is added ([`added`] does that), and dots at the fronts of lines stay as they are
/// (Sendmail Installation and Operation Guide, "M: Define Mailer").
///
/// The line `From ` has the value of the macro g, or `MAILER-DAEMON` where that is empty, and of
/// d.
///
/// [`added`]: crate::added
pub fn outgoing(
    mailer: &Mailer,
    macros: &Macros,
    headers: &Seq<Text>,
    body: &Text,
) -> Result<Text, NoMemory>
    ensures { IfOk result
        (λ text. text ≡ spec.outgoing_of mailer.now macros.now headers.now body.now) }
{
    let end = end_for(mailer);
    let mut text = Vec::new(body.allocator());
    push_from(&mut text, mailer, macros)?;
    push_headers(&mut text, headers.items(), end)?;
    text.extend_from_slice(end)?;
    text.reserve(body.len())?;
    push_body(&mut text, body.bytes(), end)?;
    Ok(Text::from_vec(text))
}

/// Whether a mailer is spoken to over a connection, and is no program: its path is `[IPC]` or
/// `[TCP]`, without case.
pub fn is_network(mailer: &Mailer) -> bool
    ensures { result ≡ spec.is_network mailer.now }
{
    mailer.path.bytes().eq_ignore_ascii_case(b"[IPC]")
        || mailer.path.bytes().eq_ignore_ascii_case(b"[TCP]")
}

fn end_for(mailer: &Mailer) -> &[u8]
    ensures { result.now ≡ spec.end_for mailer.now }
{
    if is_network(mailer) {
        return b"\r\n";
    }
    mailer.line_end.bytes()
}

fn wants_from(mailer: &Mailer) -> bool
    ensures { result ≡ spec.wants_from mailer.now }
{
    !(is_network(mailer) || has_flag(mailer, b'n'))
}

// Adds the line `From `, if the mailer gets one.
fn push_from(text: &mut Vec<u8>, mailer: &Mailer, macros: &Macros) -> Result<(), NoMemory>
    ensures { OnOk result
        (text.new.items ≡ text.old.items ++ spec.from_line mailer.now macros.now) }
{
    if !wants_from(mailer) {
        return Ok(());
    }
    let line = from_text(macros)?;
    push_both(text, line.bytes(), end_for(mailer))
}

fn from_text(macros: &Macros) -> Result<Text, NoMemory>
    ensures { IfOk result (λ text. text ≡ spec.from_text macros.now) }
{
    let alloc = macros.values().allocator();
    let sender = expanded(alloc, &Text::of(alloc, b"$g")?, macros)?;
    let date = expanded(alloc, &Text::of(alloc, b"$d")?, macros)?;
    let mut text = Text::of(alloc, b"From ")?;
    text.extend(sender_or_daemon(&sender))?;
    text.push(b' ')?;
    text.extend(date.bytes())?;
    one_line(&text)
}

fn sender_or_daemon(sender: &Text) -> &[u8]
    ensures { result.now ≡ spec.sender_or_daemon sender.now }
{
    if sender.is_empty() {
        return b"MAILER-DAEMON";
    }
    sender.bytes()
}

// A text in which CR and LF are blanks.
fn one_line(text: &Text) -> Result<Text, NoMemory>
    ensures { IfOk result (λ line. line ≡ map blank_for text.now) }
{
    let bytes = text
        .bytes()
        .iter()
        .map(|byte| blanked(*byte))
        .collect(text.allocator())?;
    Ok(Text::from_vec(bytes))
}

fn push_headers(text: &mut Vec<u8>, headers: &[Text], end: &[u8]) -> Result<(), NoMemory>
    ensures { OnOk result (text.new.items
        ≡ text.old.items ++ flat_map (spec.header_text end.now) headers.now) }
{
    for header in headers {
        push_header(text, header.bytes(), end)?;
    }
    Ok(())
}

fn push_header(text: &mut Vec<u8>, header: &[u8], end: &[u8]) -> Result<(), NoMemory>
    ensures { OnOk result
        (text.new.items ≡ text.old.items ++ spec.header_text end.now header.now) }
{
    let mut rest = header;
    'lines: while !rest.is_empty() {
        let (line, behind) = split_line(rest);
        push_both(text, line, end)?;
        rest = behind;
    }
    Ok(())
}

fn push_body(text: &mut Vec<u8>, body: &[u8], end: &[u8]) -> Result<(), NoMemory>
    ensures { OnOk result (text.new.items ≡ text.old.items ++ spec.with_ends end.now body.now) }
{
    let mut place = 0;
    'lines: while let Some(feed) = first_feed(&body[place..]) {
        push_line(text, &body[place..place + feed], end)?;
        place += feed + 1;
    }
    text.extend_from_slice(&body[place..])?;
    Ok(())
}

// Where the first line ends.
fn first_feed(body: &[u8]) -> Option<usize>
    ensures some { IfSome result (EndsLine body.now) }
    ensures none { IfNone result (StaysWhole body.now) }
{
    body.find_byte(b'\n')
}

// Adds a line that an LF ends, which isn't part of it.
fn push_line(text: &mut Vec<u8>, line: &[u8], end: &[u8]) -> Result<(), NoMemory>
    ensures { OnOk result (text.new.items ≡ text.old.items ++ ended_line end.now line.now) }
{
    if ends_in_return(line) {
        return push_both(text, &line[..line.len() - 1], end);
    }
    push_both(text, line, b"\n")
}
