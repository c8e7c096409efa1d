// The words of the command line.
use crate::MOST_WORDS;
use mail_base::{NoMemory, Seq, Text};
use sendmail_run::{Outcome, WordFault, words};
use std::alloc::Global;
use std::env;
use std::io::ErrorKind;

/// The most bytes of a word that Linux hands to a program, with the NUL behind it.
const LONGEST: usize = 131_072;

/// What is asked for.
#[derive(Drop)]
pub enum Asked {
    Run(Seq<Text>),
    Help,
    Version,
}

/// What the words after the program's name ask for.
pub fn read_words(rt: &HostRuntime) -> Result<Asked, Outcome> {
    let arguments = match env::args(rt) {
        Ok(arguments) => arguments,
        Err(error) if error.kind() == ErrorKind::OutOfMemory => return Err(Outcome::NoMemory),
        Err(_) => return read_front(rt),
    };
    let mut words = Seq::new(rt.alloc());
    for argument in arguments.skip(1) {
        match Text::of(rt.alloc(), argument.as_bytes()) {
            Ok(word) => {
                if words.push(word).is_err() {
                    return Err(Outcome::NoMemory);
                }
            }
            Err(NoMemory) => return Err(Outcome::NoMemory),
        }
    }
    Ok(request_of(words))
}

/// How many words stand after the program's name.
pub fn word_count() -> usize {
    os::arg_count().saturating_sub(1)
}

fn request_of(words: Seq<Text>) -> Asked {
    match words.items() {
        [word, ..] if word.bytes() == b"--help".as_slice() => Asked::Help,
        [word, ..] if word.bytes() == b"--version".as_slice() => Asked::Version,
        _ => Asked::Run(words),
    }
}

// What words ask for of which one isn't text. A run is refused at the first word that is wrong.
fn read_front(rt: &HostRuntime) -> Result<Asked, Outcome> {
    let Ok(front) = front(rt) else {
        return Err(Outcome::NoMemory);
    };
    match request_of(front) {
        Asked::Run(front) => Err(refusal(rt.alloc(), &front)),
        other => Ok(other),
    }
}

// The words before the first that isn't text. Its room stands in a frame of its own: each run would
// have so much stack in memory else.
#[inline(never)]
fn front(rt: &HostRuntime) -> Result<Seq<Text>, NoMemory> {
    let mut word = [0u8; LONGEST];
    let mut front = Seq::new(rt.alloc());
    for index in 1..os::arg_count() {
        let length = os::arg(index, &mut word).min(word.len());
        if str::from_utf8(&word[..length]).is_err() {
            return Ok(front);
        }
        front.push(Text::of(rt.alloc(), &word[..length])?)?;
    }
    Ok(front)
}

// How a run ends whose words are right up to one that isn't text, or are refused before it.
fn refusal(alloc: Global, front: &Seq<Text>) -> Outcome {
    if front.len() > MOST_WORDS {
        return Outcome::Usage(u32::MAX);
    }
    let place = front.len() as u32;
    match words(alloc, front) {
        Err(WordFault::At(earlier)) => Outcome::Usage(earlier.min(place)),
        Err(WordFault::NoMemory) => Outcome::NoMemory,
        Ok(_) => Outcome::Usage(place),
    }
}
