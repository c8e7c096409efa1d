//! Items of the words that begin lines.

use crate::number::{given_number, seconds_of};
use crate::text::{add_text, first_word, parted, put_word};
use crate::{Bad, Device, Item, Play, Word, number_of};
use bstr::ByteSlice;
use mail_base::Text;
use std::alloc::Global;

/// What a line that begins with a word is.
#[derive(Clone, Copy)]
pub(crate) enum Form {
    Scene,
    Like,
    Then,
    Play,
    Files,
    No,
    /// An item, with this beside its word.
    Item(Word, Beside),
}

/// What stands beside the word of an item.
#[derive(Clone, Copy)]
pub(crate) enum Beside {
    Nothing,
    /// The second of two words.
    Second(&'static str),
    /// A text, which may be empty.
    Text,
    Name,
    Number,
    Words,
    Clock,
    Fail,
    Stop,
    Rest,
    Child,
    Replies,
    Status,
    Lines,
    Count,
    Calls,
}

// What each word begins.
static FORMS: [(&str, Form); 41] = [
    ("scene", Form::Scene),
    ("like", Form::Like),
    ("then", Form::Then),
    ("play", Form::Play),
    ("files", Form::Files),
    ("no", Form::No),
    ("words", Form::Item(Word::Words, Beside::Words)),
    ("config", Form::Item(Word::Config, Beside::Text)),
    ("front", Form::Item(Word::Front, Beside::Nothing)),
    ("behind", Form::Item(Word::Behind, Beside::Nothing)),
    ("file", Form::Item(Word::File, Beside::Name)),
    ("held", Form::Item(Word::Held, Beside::Name)),
    ("clock", Form::Item(Word::Clock, Beside::Clock)),
    ("fail", Form::Item(Word::Fail, Beside::Fail)),
    ("stop", Form::Item(Word::Stop, Beside::Stop)),
    ("session", Form::Item(Word::Session, Beside::Text)),
    ("in", Form::Item(Word::In, Beside::Number)),
    ("piece", Form::Item(Word::Piece, Beside::Nothing)),
    ("close", Form::Item(Word::Close, Beside::Nothing)),
    ("rest", Form::Item(Word::Rest, Beside::Rest)),
    ("hung", Form::Item(Word::HungUp, Beside::Second("up"))),
    ("..", Form::Item(Word::Any, Beside::Nothing)),
    ("replies", Form::Item(Word::Replies, Beside::Replies)),
    ("child", Form::Item(Word::Child, Beside::Child)),
    ("runs", Form::Item(Word::Runs, Beside::Number)),
    ("exit", Form::Item(Word::Exit, Beside::Number)),
    ("lost", Form::Item(Word::Lost, Beside::Nothing)),
    (
        "not",
        Form::Item(Word::NotStarted, Beside::Second("started")),
    ),
    ("peer", Form::Item(Word::Peer, Beside::Text)),
    ("refused", Form::Item(Word::Refused, Beside::Nothing)),
    ("broken", Form::Item(Word::Broken, Beside::Nothing)),
    ("status", Form::Item(Word::Status, Beside::Status)),
    ("queue", Form::Item(Word::Queue, Beside::Name)),
    ("stays", Form::Item(Word::Stays, Beside::Name)),
    ("there", Form::Item(Word::There, Beside::Name)),
    ("absent", Form::Item(Word::Absent, Beside::Name)),
    ("lines", Form::Item(Word::Lines, Beside::Lines)),
    ("count", Form::Item(Word::Count, Beside::Count)),
    (
        "nothing",
        Form::Item(Word::NothingElse, Beside::Second("else")),
    ),
    ("calls", Form::Item(Word::Calls, Beside::Calls)),
    ("begins", Form::Item(Word::Begins, Beside::Name)),
];

/// What a word begins.
pub(crate) fn form_of(word: &[u8]) -> Result<Form, Bad> {
    for (name, form) in FORMS.iter() {
        if name.as_bytes() == word {
            return Ok(*form);
        }
    }
    Err(Bad::Unknown)
}

/// The text that is written.
pub(crate) fn text_of(alloc: Global, written: &[u8]) -> Result<Text, Bad> {
    let mut text = Text::new(alloc);
    add_text(&mut text, written)?;
    Ok(text)
}

/// Fills an item with what stands beside its word.
pub(crate) fn fill(item: &mut Item, beside: Beside, rest: &[u8]) -> Result<(), Bad> {
    match beside {
        Beside::Nothing => only(rest, b""),
        Beside::Second(word) => only(rest, word.as_bytes()),
        Beside::Text => add_text(&mut item.name, rest),
        Beside::Name => name(item, rest),
        Beside::Number => number(item, rest),
        Beside::Words => words(item, rest),
        Beside::Clock => clock(item, rest),
        Beside::Fail => fail(item, rest),
        Beside::Stop => stop(item, rest),
        Beside::Rest => rests(item, rest),
        Beside::Child => child(item, rest),
        Beside::Replies => replies(item, rest),
        Beside::Status => status(item, rest),
        Beside::Lines => lettered(item, rest),
        Beside::Count => count(item, rest),
        Beside::Calls => calls(item, rest),
    }
}

fn only(rest: &[u8], wanted: &[u8]) -> Result<(), Bad> {
    if rest == wanted {
        Ok(())
    } else {
        Err(Bad::Name)
    }
}

fn name(item: &mut Item, rest: &[u8]) -> Result<(), Bad> {
    if rest.is_empty() {
        return Err(Bad::Name);
    }
    add_text(&mut item.name, rest)
}

fn number(item: &mut Item, digits: &[u8]) -> Result<(), Bad> {
    item.number = given_number(digits)?;
    Ok(())
}

// Words, each of which a NUL ends.
fn words(item: &mut Item, rest: &[u8]) -> Result<(), Bad> {
    if rest.is_empty() {
        return Ok(());
    }
    for word in rest.split(is_space) {
        add_text(&mut item.name, word)?;
        item.name.push(0)?;
    }
    Ok(())
}

fn is_space(byte: &u8) -> bool {
    *byte == b' '
}

// A program and its words, parted by blanks; a blank in a word is written as a code.
fn child(item: &mut Item, rest: &[u8]) -> Result<(), Bad> {
    if rest.is_empty() {
        return Ok(());
    }
    for word in rest.split(is_space) {
        add_child_word(&mut item.name, word)?;
    }
    Ok(())
}

fn add_child_word(words: &mut Text, written: &[u8]) -> Result<(), Bad> {
    let word = text_of(words.allocator(), written)?;
    put_word(words, word.bytes())?;
    Ok(())
}

// A first reading and a step; or, with `later` beside it, a time from the clock before.
fn clock(item: &mut Item, rest: &[u8]) -> Result<(), Bad> {
    let (start, step) = parted(rest, b' ').unwrap_or((rest, b"0"));
    if step == b"later".as_slice() {
        item.number = seconds_of(start).ok_or(Bad::Number)?;
        item.beside.extend(step)?;
        return Ok(());
    }
    item.number = given_number(start)?;
    item.seconds = given_number(step)?;
    Ok(())
}

// A call of the queue, and beside it what is left of what it does.
fn stop(item: &mut Item, rest: &[u8]) -> Result<(), Bad> {
    let (number, left) = first_word(rest);
    if !is_left(left) {
        return Err(Bad::Name);
    }
    item.number = given_number(number)?;
    item.beside.extend(left)?;
    Ok(())
}

static LEFT: [&str; 4] = ["", "empty", "half", "done"];

fn is_left(word: &[u8]) -> bool {
    for name in LEFT.iter() {
        if name.as_bytes() == word {
            return true;
        }
    }
    false
}

// So many turns, or one for which a time goes by.
fn rests(item: &mut Item, rest: &[u8]) -> Result<(), Bad> {
    item.number = 1;
    if rest.is_empty() {
        return Ok(());
    }
    match number_of(rest) {
        Some(number) => item.number = number,
        None => item.seconds = seconds_of(rest).ok_or(Bad::Number)?,
    }
    Ok(())
}

// A device, and beside it the numbers of its calls, which blanks part.
fn fail(item: &mut Item, rest: &[u8]) -> Result<(), Bad> {
    let (device, numbers) = first_word(rest);
    name_device(item, device)?;
    if !numbers.is_empty() && !numbers.split(is_space).all(is_number) {
        return Err(Bad::Number);
    }
    item.beside.extend(numbers)?;
    Ok(())
}

fn name_device(item: &mut Item, name: &[u8]) -> Result<(), Bad> {
    let device = Device::of(name).ok_or(Bad::Name)?;
    item.name.extend(device.name().as_bytes())?;
    Ok(())
}

fn is_number(digits: &[u8]) -> bool {
    number_of(digits).is_some()
}

// `replies`, `replies any`, `replies first N`, and each with the number of a session in front.
fn replies(item: &mut Item, rest: &[u8]) -> Result<(), Bad> {
    let (first, behind) = first_word(rest);
    match number_of(first) {
        Some(session) => {
            item.session = session;
            replies_of(item, behind)
        }
        None => replies_of(item, rest),
    }
}

fn replies_of(item: &mut Item, rest: &[u8]) -> Result<(), Bad> {
    if rest.is_empty() {
        return Ok(());
    }
    if rest == b"any".as_slice() {
        item.word = Word::RepliesAny;
        return Ok(());
    }
    item.word = Word::RepliesFirst;
    number(
        item,
        rest.strip_prefix(b"first ".as_slice()).ok_or(Bad::Name)?,
    )
}

// A status, and beside it the line of standard error, where that is to be compared.
fn status(item: &mut Item, rest: &[u8]) -> Result<(), Bad> {
    let (number, told) = first_word(rest);
    item.number = given_number(number)?;
    add_text(&mut item.name, told)
}

// A file, and beside it letters.
fn lettered(item: &mut Item, rest: &[u8]) -> Result<(), Bad> {
    let (letters, name) = parted(rest, b' ').ok_or(Bad::Name)?;
    add_text(&mut item.name, name)?;
    add_text(&mut item.beside, letters)
}

fn count(item: &mut Item, rest: &[u8]) -> Result<(), Bad> {
    let (front, digits) = rest.rsplit_once_str(b" ").ok_or(Bad::Number)?;
    lettered(item, front)?;
    number(item, digits)
}

fn calls(item: &mut Item, rest: &[u8]) -> Result<(), Bad> {
    let (device, digits) = parted(rest, b' ').ok_or(Bad::Number)?;
    name_device(item, device)?;
    number(item, digits)
}

static PLAYS: [(&str, Play); 3] = [
    ("cut", Play::Cut),
    ("stream", Play::Stream),
    ("failing", Play::Failing),
];

/// The play of a line.
pub(crate) fn play_of(rest: &[u8]) -> Result<Play, Bad> {
    let (word, behind) = first_word(rest);
    if word == b"stopped".as_slice() {
        return stopped(behind);
    }
    if word == b"random".as_slice() {
        return random(behind);
    }
    for (name, play) in PLAYS.iter() {
        if behind.is_empty() && name.as_bytes() == word {
            return Ok(*play);
        }
    }
    Err(Bad::Name)
}

// Nothing, or how many calls there are, and behind it how many of them change what is there.
fn stopped(words: &[u8]) -> Result<Play, Bad> {
    if words.is_empty() {
        return Ok(Play::Stopped(None, None));
    }
    let Some((calls, changes)) = parted(words, b' ') else {
        return Ok(Play::Stopped(Some(given_number(words)?), None));
    };
    let calls = given_number(calls)?;
    Ok(Play::Stopped(Some(calls), Some(given_number(changes)?)))
}

fn random(words: &[u8]) -> Result<Play, Bad> {
    let (seed, times) = parted(words, b' ').ok_or(Bad::Number)?;
    let seed = given_number(seed)?;
    Ok(Play::Random(seed, given_number(times)?))
}
