ghost use Rattle.std.specs.Prelude.{◌≡◌, ◌<◌, ◌∷◌, [], length, position, set, get_or, IfOk, OnOk};
ghost use Rattle.mail_base.specs.Rulesets.{Ruled};
ghost use Rattle.cf_reader.specs.SetLines as spec;
ghost use Rattle.cf_reader.specs.SetLines.{has_one, named, with_names, begun, with_rule_of};
ghost use Rattle.cf_reader.specs.inner.Places.{earlier};

use crate::cuts::cut_at;
use mail_base::{
    Book, Buckets, NoMemory, Rule, RuleSet, Seq, Text, TryCopy, stripped, without_quotes,
};
use std::alloc::Global;

/// The names on an S line, by what follows the letter.
pub(crate) fn set_names(alloc: Global, text: &[u8]) -> Result<Seq<Text>, NoMemory>
    ensures { IfOk result (λ names. names ≡ spec.set_names text.now) }
{
    match cut_at(text, b'=') {
        Some((name, number)) => two_names(alloc, name, number),
        None => one_name(alloc, text),
    }
}

fn one_name(alloc: Global, text: &[u8]) -> Result<Seq<Text>, NoMemory>
    ensures { IfOk result (λ names. names ≡ spec.set_name text.now ∷ []) }
{
    let mut names = Seq::new(alloc);
    names.push(set_name(alloc, text)?)?;
    Ok(names)
}

fn two_names(alloc: Global, name: &[u8], number: &[u8]) -> Result<Seq<Text>, NoMemory>
    ensures { IfOk result
        (λ names. names ≡ spec.set_name name.now ∷ spec.set_name number.now ∷ []) }
{
    let mut names = one_name(alloc, name)?;
    names.push(set_name(alloc, number)?)?;
    Ok(names)
}

fn set_name(alloc: Global, text: &[u8]) -> Result<Text, NoMemory>
    ensures { IfOk result (λ name. name ≡ spec.set_name text.now) }
{
    without_quotes(alloc, stripped(text))
}

/// Begins the ruleset of these names, or goes on with it.
pub(crate) fn begin(alloc: Global, names: &[Text], book: &mut Book) -> Result<(), NoMemory>
    ensures { OnOk result (book.new ≡ begun names.now book.old) }
{
    match first_place(names, book) {
        Some(place) => name_set(names, place, book),
        None => {
            let place = book.sets().len();
            book.push(RuleSet::of(Seq::new(alloc), Buckets::new(alloc)))?;
            name_set(names, place, book)
        }
    }
}

/// Adds a rule to the ruleset of these names.
pub(crate) fn add_rule(
    alloc: Global,
    names: &[Text],
    rule: Rule,
    book: &mut Book,
) -> Result<(), NoMemory>
    ensures { OnOk result (book.new ≡ with_rule_of names.now rule book.old) }
{
    begin(alloc, names, book)?;
    match first_place(names, book) {
        Some(place) => book.push_rule(place, rule),
        None => Ok(()),
    }
}

// The place of the first ruleset that has one of the names.
fn first_place(names: &[Text], book: &Book) -> Option<usize>
    ensures { result ≡ position (has_one names.now) book.now }
{
    let mut first = None;
    for name in names {
        first = earlier(first, book.place_of(name));
    }
    first
}

fn earlier(one: Option<usize>, other: Option<usize>) -> Option<usize>
    ensures { result ≡ earlier one other }
{
    match (one, other) {
        (Some(one), Some(other)) => Some(one.min(other)),
        (Some(one), None) => Some(one),
        (None, other) => other,
    }
}

// Gives the ruleset at a place the names that it lacks.
fn name_set(names: &[Text], place: usize, book: &mut Book) -> Result<(), NoMemory>
    requires { place < length book.old }
    ensures { OnOk result
        ((d : Ruled) → book.new
        ≡ set book.old place (with_names names.now (get_or book.old place d))) }
{
    for name in names {
        name_once(name, place, book)?;
    }
    Ok(())
}

fn name_once(name: &Text, place: usize, book: &mut Book) -> Result<(), NoMemory>
    requires { place < length book.old }
    ensures { OnOk result
        ((d : Ruled) → book.new ≡ set book.old place (named (get_or book.old place d) name.now)) }
{
    if book.sets()[place].is_named(name) {
        return Ok(());
    }
    book.push_name(place, name.copy()?)
}
