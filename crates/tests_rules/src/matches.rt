// Which match a left side takes, and what its items take in it.
use self::Wanted::{Covers, Gives, Takes};
use crate::signs::{are_signs, pattern_of, repeated, tokens_of};
use mail_base::{Classes, Item, Member, NoMemory, Pattern, Seq, Text, Token, mask_of};
use rule_match::{Cuts, find, find_by_trial, lists_wanted};
use std::alloc::Global;
use std::test::Fail;

// Where the part of each item begins, and how long it is.
type Pairs = &'static [(usize, usize)];

fn are_pairs(cuts: &Cuts, pairs: Pairs) -> bool {
    for (cut, pair) in cuts.cuts().iter().zip(pairs) {
        if cut.start != pair.0 || cut.length != pair.1 {
            return false;
        }
    }
    cuts.cuts().len() == pairs.len()
}

fn is_wanted(found: &Option<Cuts>, wanted: Option<Pairs>) -> bool {
    match (found, wanted) {
        (Some(cuts), Some(pairs)) => are_pairs(cuts, pairs),
        (None, None) => true,
        _ => false,
    }
}

// Whether the tokens have all that the left side wants of them.
fn is_covered(pattern: &Pattern, tokens: &Seq<Token>) -> bool {
    let wanted = pattern.wanted_mask();
    wanted & mask_of(tokens.items()) == wanted
}

// Whether the search and the trial of all lengths both take these cuts, or both none, where no
// class and no macro counts. What matches has all that is wanted of it.
fn takes(pattern: &Pattern, tokens: &Seq<Token>, wanted: Option<Pairs>) -> bool {
    let classes = Classes::new(tokens.allocator());
    let late = Seq::new(tokens.allocator());
    lists_wanted(pattern) == late.len()
        && (wanted.is_none() || is_covered(pattern, tokens))
        && is_wanted(&find(pattern, tokens, &classes, &late), wanted)
        && is_wanted(&find_by_trial(pattern, tokens, &classes, &late), wanted)
}

fn gives(pattern: &Pattern, tokens: &Seq<Token>, number: u8, wanted: &str) -> bool {
    let classes = Classes::new(tokens.allocator());
    let late = Seq::new(tokens.allocator());
    if lists_wanted(pattern) != late.len() {
        return false;
    }
    match find(pattern, tokens, &classes, &late) {
        Some(cuts) => are_signs(cuts.piece(tokens, number), wanted),
        None => false,
    }
}

// What is wanted of a left side and tokens: a match or none; whether these have all that it wants;
// or what `$n` stands for in their match.
enum Wanted {
    Takes(Option<Pairs>),
    Covers(bool),
    Gives(u8, &'static str),
}

// A left side, tokens, and what is wanted of them.
type Row = (&'static str, &'static str, Wanted);

static ROWS: [Row; 22] = [
    // The least match.
    ("*.*", "a.b.c", Takes(Some(&[(0, 1), (2, 3)]))),
    ("*ab*b", "aabab", Takes(Some(&[(0, 1), (3, 1)]))),
    ("q", "\"", Takes(None)),
    ("*.b", "a.c", Takes(None)),
    ("", "", Takes(Some(&[]))),
    ("", "a", Takes(None)),
    // A left side wants its own tokens, each two of them that stand side by side, and its ends, or
    // nothing where it has a `$&x`.
    ("*a*b", "ab", Covers(true)),
    ("*a*b", "Acb", Covers(true)),
    ("*a*b", "ba", Covers(false)),
    ("*a*a", "a", Covers(true)),
    ("*.a*.", "a..", Covers(false)),
    ("a", "\"", Covers(false)),
    ("*@<", "<@", Covers(false)),
    ("*<@*", "a<@b", Covers(true)),
    ("<@*", "a<@b", Covers(false)),
    ("-", "", Covers(true)),
    ("b&a", "", Covers(true)),
    ("*b*", "", Covers(false)),
    // Nothing stands for a `$n` that isn't there.
    ("-.#*", "a.#bc", Gives(1, "a")),
    ("-.#*", "a.#bc", Gives(2, "bc")),
    ("-.#*", "a.#bc", Gives(3, "")),
    ("-.#*", "a.#bc", Gives(0, "")),
];

fn does(pattern: &Pattern, tokens: &Seq<Token>, wanted: &Wanted) -> bool {
    match wanted {
        Takes(pairs) => takes(pattern, tokens, *pairs),
        Covers(are_covered) => is_covered(pattern, tokens) == *are_covered,
        Gives(number, signs) => gives(pattern, tokens, *number, signs),
    }
}

fn is_so(alloc: Global, row: &Row) -> Result<bool, Fail> {
    let pattern = pattern_of(alloc, row.0)?;
    Ok(does(&pattern, &tokens_of(alloc, row.1)?, &row.2))
}

#[test]
fn takes_the_least_match_wants_tokens_and_gives_pieces(rt: HostRuntime) -> Result<(), Fail> {
    for (at, row) in ROWS.iter().enumerate() {
        assert!(rt; is_so(rt.alloc(), row)?, "row {at}");
    }
    Ok(())
}

fn word_of(alloc: Global, letter: u8) -> Result<Member, NoMemory> {
    Ok(Member {
        text: Text::of(alloc, &[letter])?,
        tokens: Some(repeated(alloc, letter, 1)?),
    })
}

// The class c has the word a.
fn classes_of(alloc: Global) -> Result<Classes, NoMemory> {
    let mut members = Seq::new(alloc);
    members.push(word_of(alloc, b'a')?)?;
    let mut classes = Classes::new(alloc);
    classes.extend(&Text::of(alloc, b"c")?, members)?;
    Ok(classes)
}

// A class, and whatever comes behind it.
fn class_first(alloc: Global) -> Result<Pattern, Fail> {
    let mut items = Seq::new(alloc);
    items.push(Item::InClass(Text::of(alloc, b"c")?))?;
    items.push(Item::Any)?;
    Ok(Pattern::of(items).ok_or("a side with too many items")?)
}

fn taken_of_many(alloc: Global) -> Result<bool, Fail> {
    let pattern = class_first(alloc)?;
    let tokens = repeated(alloc, b'a', 2100)?;
    let late = Seq::new(alloc);
    Ok(
        lists_wanted(&pattern) == late.len()
            && is_wanted(
                &find(&pattern, &tokens, &classes_of(alloc)?, &late),
                Some(&[(0, 1), (1, 2099)]),
            ),
    )
}

// More tokens than a row of bits has places, and than a list of a run has.
#[test]
fn takes_a_phrase_of_many_tokens(rt: HostRuntime) -> Result<(), Fail> {
    assert!(rt; taken_of_many(rt.alloc())?);
    Ok(())
}
