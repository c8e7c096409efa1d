ghost use Rattle.std.specs.Prelude.{◌≡◌, ◌∷◌, ◌++◌, [], IfOk, OnOk, filter, unwrap_or, codes};
ghost use Rattle.submit_run.specs.Parties as spec;

use mail_base::{NoMemory, Seq, Text, TryCopy, without_angles};
use mail_submit::{SubmitWords, bracketed};
use std::alloc::Global;

/// Who gets a message whose headers name these addresses.
pub(crate) fn recipients_of(
    alloc: Global,
    words: &SubmitWords,
    found: &[Text],
) -> Result<Seq<Text>, NoMemory>
    ensures { IfOk result (λ all. all ≡ spec.recipients_of words.now found.now) }
{
    if words.from_headers {
        return kept(alloc, words.addresses.items(), found);
    }
    words.addresses.copy()
}

// The addresses that headers name without those of words.
fn kept(alloc: Global, words: &[Text], found: &[Text]) -> Result<Seq<Text>, NoMemory>
    ensures { IfOk result (λ all. all ≡ filter (spec.is_kept words.now) found.now) }
{
    let mut all = Seq::new(alloc);
    for address in found {
        keep(&mut all, words, address)?;
    }
    Ok(all)
}

// Adds an address, unless it is that of a word.
fn keep(all: &mut Seq<Text>, words: &[Text], address: &Text) -> Result<(), NoMemory>
    ensures { OnOk result
        (all.new ≡ all.old ++ filter (spec.is_kept words.now) (address.now ∷ [])) }
{
    if is_kept(words, address) {
        return all.push(address.copy()?);
    }
    Ok(())
}

fn is_kept(words: &[Text], address: &Text) -> bool
    ensures { result ≡ spec.is_kept words.now address.now }
{
    !address.bytes().is_empty() && !is_left_out(words, address)
}

// Whether an address is that of a word.
fn is_left_out(words: &[Text], address: &Text) -> bool
    ensures { result ≡ spec.is_left_out words.now address.now }
{
    words.iter().any(|word| is_of(word, address))
}

fn is_of(word: &Text, address: &Text) -> bool
    ensures { result ≡ spec.is_of word.now address.now }
{
    address
        .bytes()
        .eq_ignore_ascii_case(without_angles(word.bytes()))
}

/// The sender of a message whose header `From` names this address first, if it does.
pub(crate) fn sender_of(
    alloc: Global,
    words: &SubmitWords,
    first_from: &Option<Text>,
) -> Result<Text, NoMemory>
    ensures { IfOk result (λ sender. sender ≡ spec.sender_of words.now first_from.now) }
{
    bracketed(alloc, sender_text(words, first_from))
}

// The sender as it was given, with a pair of angles or without.
fn sender_text<'a>(words: &'a SubmitWords, first_from: &'a Option<Text>) -> &'a [u8]
    ensures { result.now
        ≡ unwrap_or words.now.sender (unwrap_or first_from.now (codes "postmaster")) }
{
    match &words.sender {
        Some(sender) => sender.bytes(),
        None => text_or(first_from, b"postmaster"),
    }
}

fn text_or<'a>(text: &'a Option<Text>, other: &'a [u8]) -> &'a [u8]
    ensures { result.now ≡ unwrap_or text.now other.now }
{
    match text {
        Some(text) => text.bytes(),
        None => other,
    }
}
