// What a book finds by a name, and what is added at a place of it.
use crate::configs::rule;
use mail_base::{Book, Buckets, NoMemory, RuleSet, Text, TryCopy, texts_of};
use std::alloc::Global;
use std::test::Fail;

/// A book of rulesets of these names, of which the third has a second name, `late`.
pub(crate) fn book_of(alloc: Global, names: &[&[u8]]) -> Result<Book, NoMemory> {
    let mut book = Book::new(alloc);
    for name in names {
        book.push(RuleSet::of(texts_of(alloc, &[name])?, Buckets::new(alloc)))?;
    }
    if book.sets().len() > 2 {
        book.push_name(2, Text::of(alloc, b"late")?)?;
    }
    Ok(book)
}

type Row = (&'static [&'static [u8]], &'static [u8], Option<usize>);

/// Names of a book, a name, and where the first ruleset of that name stands.
static PLACES: [Row; 9] = [
    (&[], b"one", None),
    (&[b"one"], b"ONE", Some(0)),
    (&[b"one", b"Two", b"three"], b"two", Some(1)),
    (&[b"one", b"two", b"three"], b"LATE", Some(2)),
    (&[b"one", b"late", b"three"], b"late", Some(1)),
    (&[b"one", b"ONE", b"three"], b"one", Some(0)),
    (&[b"one", b"two", b"three"], b"four", None),
    (&[b"one", b"two", b"three"], b"", None),
    // The hashes of these two are one.
    (&[b"c$", b"ab"], b"AB", Some(1)),
];

/// Whether a book and its copy find the name at that place, and have the ruleset that stands
/// there.
fn finds(alloc: Global, row: &Row) -> Result<bool, NoMemory> {
    let name = Text::of(alloc, row.1)?;
    let book = book_of(alloc, row.0)?;
    let copied = book.copy()?;
    Ok(
        book.place_of(&name) == row.2
            && book.get(&name).is_some() == row.2.is_some()
            && copied.place_of(&name) == row.2
            && copied.sets().len() == book.sets().len(),
    )
}

fn has_one_rule(sets: &[RuleSet]) -> bool {
    match sets {
        [one, two] => one.count() == 0 && two.count() == 1,
        _ => false,
    }
}

fn grows(alloc: Global) -> Result<bool, Fail> {
    let mut book = book_of(alloc, &[b"one", b"two"])?;
    if book.sets().len() > 1 {
        book.push_rule(1, rule(alloc)?)?;
    }
    Ok(has_one_rule(book.sets()))
}

#[test]
fn rulesets_are_found_by_their_names_and_rules_go_to_theirs(rt: HostRuntime) -> Result<(), Fail> {
    for (at, row) in PLACES.iter().enumerate() {
        assert!(rt; finds(rt.alloc(), row) == Ok(true), "row {at}");
    }
    assert!(rt; grows(rt.alloc())?);
    Ok(())
}
