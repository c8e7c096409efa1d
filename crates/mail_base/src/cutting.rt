ghost use Rattle.std.specs.Prelude.{◌≡◌, ◌≤◌, ◌<◌, ◌∷◌, ◌++◌, length, map, min, take, IfOk, OnOk};
ghost use Rattle.std.specs.Str.Lines.{lines, strip_carriage_return};
ghost use Rattle.mail_base.specs.Texts.{without_quotes};
ghost use Rattle.mail_base.specs.Words.{words_of};

use crate::{NoMemory, Seq, Text, is_white};
use bstr::ByteSlice;
use std::alloc::Global;

/// The first line of a text that isn't empty, and what stands after it. A line ends at an LF, before
/// which one CR may stand, or where the text ends.
pub fn split_line(text: &[u8]) -> (&[u8], &[u8])
    requires { 0 < length text.now }
    ensures lines { lines text.now ≡ result.0.now ∷ lines result.1.now }
    ensures shorter { length result.1.now < length text.now }
{
    match text.find_byte(b'\n') {
        Some(end) => (without_return(&text[..end]), &text[end + 1..]),
        None => (text, &[]),
    }
}

/// A line before an LF, without the one CR that may stand at its end.
pub fn without_return(line: &[u8]) -> &[u8]
    ensures { result.now ≡ strip_carriage_return line.now }
{
    if !line.is_empty() && line[line.len() - 1] == b'\r' {
        &line[..line.len() - 1]
    } else {
        line
    }
}

/// The first bytes of a text, at most so many.
#[tactic(auto, using(std::proofs::lemmas::List::take_all))]
pub fn first_bytes(bytes: &[u8], most: usize) -> &[u8]
    ensures bytes { result.now ≡ take most bytes.now }
    ensures short { length result.now ≤ most }
{
    if bytes.len() > most {
        &bytes[..most]
    } else {
        bytes
    }
}

/// The words of a text, which stand between white space.
pub fn words(alloc: Global, text: &[u8]) -> Result<Vec<&[u8]>, NoMemory>
    ensures { IfOk result (λ words. map (λ word. word.now) words.items ≡ words_of text.now) }
{
    let words = text
        .split(|byte| is_white(*byte))
        .filter(|word| !word.is_empty())
        .collect(alloc)?;
    Ok(words)
}

/// The words of a text, each as a text of its own.
pub fn words_of(alloc: Global, text: &[u8]) -> Result<Seq<Text>, NoMemory>
    ensures { IfOk result (λ words. words ≡ words_of text.now) }
{
    let slices = words(alloc, text)?;
    texts_of(alloc, slices.as_slice())
}

/// Adds the words of a text at the end.
pub fn push_words(alloc: Global, text: &[u8], to: &mut Seq<Text>) -> Result<(), NoMemory>
    ensures { OnOk result (to.new ≡ to.old ++ words_of text.now) }
{
    let slices = words(alloc, text)?;
    push_texts(alloc, slices.as_slice(), to)?;
    Ok(())
}

/// The texts of these slices.
pub fn texts_of(alloc: Global, slices: &[&[u8]]) -> Result<Seq<Text>, NoMemory>
    ensures { IfOk result (λ texts. texts ≡ map (λ slice. slice.now) slices.now) }
{
    let mut texts = Seq::new(alloc);
    push_texts(alloc, slices, &mut texts)?;
    Ok(texts)
}

// Adds the texts of these slices at the end.
fn push_texts(alloc: Global, slices: &[&[u8]], texts: &mut Seq<Text>) -> Result<(), NoMemory>
    ensures { OnOk result (texts.new ≡ texts.old ++ map (λ slice. slice.now) slices.now) }
{
    for slice in slices {
        texts.push(Text::of(alloc, slice)?)?;
    }
    Ok(())
}

/// The text without its double quotes.
pub fn without_quotes(alloc: Global, text: &[u8]) -> Result<Text, NoMemory>
    ensures { IfOk result (λ bare. bare ≡ without_quotes text.now) }
{
    let bytes = text
        .iter()
        .copied()
        .filter(|byte| *byte != b'"')
        .collect(alloc)?;
    Ok(Text::from_vec(bytes))
}

/// Copies the front of one slice to the front of another, as much as both hold, and says how many
/// bytes that are.
pub fn copy_front(from: &[u8], to: &mut [u8]) -> usize
    ensures count { result ≡ min (length from.now) (length to.old) }
    ensures front { take result to.new ≡ take result from.now }
{
    let count = from.len().min(to.len());
    to[..count].copy_from_slice(&from[..count]);
    count
}
