ghost use Rattle.std.specs.Prelude.{◌≡◌, IfOk};
ghost use Rattle.command_line.specs.MailWords.{is_dashed, is_one_line, is_sender, names_someone, no_mail};
ghost use Rattle.command_line.specs.inner.Words.{Adds, is_mail, with_address, with_headers, with_mail, with_no_dot, with_sender, with_text};

use crate::fault::WordFault;
use addr_tokens::{cut, default_operators};
use mail_base::{NoMemory, Seq, Text};
use mail_submit::SubmitWords;
use std::alloc::Global;

/// Nothing is said of mail that is handed over.
pub(crate) fn no_mail(alloc: Global) -> SubmitWords
    ensures { result ≡ no_mail }
{
    SubmitWords {
        from_headers: false,
        dot: true,
        sender: None,
        addresses: Seq::new(alloc),
    }
}

/// Whether anything is said of mail.
pub(crate) fn is_mail(mail: &SubmitWords) -> bool
    ensures { result ≡ is_mail mail.now }
{
    mail.from_headers || !mail.dot || mail.sender.is_some() || !mail.addresses.is_empty()
}

/// Whether mail goes to someone.
pub(crate) fn names_someone(mail: &SubmitWords) -> bool
    ensures { result ≡ names_someone mail.now }
{
    mail.from_headers || !mail.addresses.is_empty()
}

/// Takes an option of mail in one word, unless it is none or the second of its kind.
pub(crate) fn take_mail(
    mail: &mut SubmitWords,
    alloc: Global,
    word: &[u8],
    place: u32,
) -> Result<(), WordFault>
    ensures { Adds result (with_mail mail.old word.now) mail.new place }
{
    match word {
        b"-t" => take_headers(mail, place),
        b"-i" => take_no_dot(mail, place),
        b"-oi" => take_no_dot(mail, place),
        _ => match word.strip_prefix(b"-f") {
            Some(text) => take_sender(mail, alloc, text, place),
            None => Err(WordFault::At(place)),
        },
    }
}

fn take_headers(mail: &mut SubmitWords, place: u32) -> Result<(), WordFault>
    ensures { Adds result (with_headers mail.old) mail.new place }
{
    if mail.from_headers {
        return Err(WordFault::At(place));
    }
    mail.from_headers = true;
    Ok(())
}

fn take_no_dot(mail: &mut SubmitWords, place: u32) -> Result<(), WordFault>
    ensures { Adds result (with_no_dot mail.old) mail.new place }
{
    if !mail.dot {
        return Err(WordFault::At(place));
    }
    mail.dot = false;
    Ok(())
}

// Takes the text of a `-f`, unless it is the second.
fn take_sender(
    mail: &mut SubmitWords,
    alloc: Global,
    text: &[u8],
    place: u32,
) -> Result<(), WordFault>
    ensures { Adds result (with_sender mail.old text.now) mail.new place }
{
    if mail.sender.is_some() {
        return Err(WordFault::At(place));
    }
    take_text(mail, alloc, text, place)
}

/// Takes the text of a `-f`, or refuses it at this place.
pub(crate) fn take_text(
    mail: &mut SubmitWords,
    alloc: Global,
    text: &[u8],
    place: u32,
) -> Result<(), WordFault>
    ensures { Adds result (with_text mail.old text.now) mail.new place }
{
    if !is_sender(alloc, text)? {
        return Err(WordFault::At(place));
    }
    mail.sender = Some(Text::of(alloc, text)?);
    Ok(())
}

/// Takes a word that is an address, unless it isn't one line.
pub(crate) fn take_address(
    mail: &mut SubmitWords,
    alloc: Global,
    word: &[u8],
    place: u32,
) -> Result<(), WordFault>
    ensures { Adds result (with_address mail.old word.now) mail.new place }
{
    if !is_one_line(word) {
        return Err(WordFault::At(place));
    }
    mail.addresses.push(Text::of(alloc, word)?)?;
    Ok(())
}

/// Whether a word begins with `-`.
pub(crate) fn is_dashed(word: &[u8]) -> bool
    ensures { result ≡ is_dashed word.now }
{
    match word.first() {
        Some(first) => *first == b'-',
        None => false,
    }
}

// Whether a text isn't empty, and holds no LF.
fn is_one_line(text: &[u8]) -> bool
    ensures { result ≡ is_one_line text.now }
{
    !text.is_empty() && !text.contains(&b'\n')
}

// Whether a `-f` takes a text.
fn is_sender(alloc: Global, text: &[u8]) -> Result<bool, NoMemory>
    ensures { IfOk result (λ is. is ≡ is_sender text.now) }
{
    if !is_one_line(text) {
        return Ok(false);
    }
    let path = Text::of(alloc, text)?;
    let operators = Text::of(alloc, default_operators())?;
    Ok(cut(alloc, &path, &operators, true)?.is_some())
}
