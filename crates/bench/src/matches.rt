//! Searches for the matches of left sides, of the kind `common` (300 rules of three items over six
//! tokens) or `class` (the same with a class in each), or of twenty classes over so many tokens, of
//! which they take 60 at most, and counts those that match.

use anyhow::{Result, bail};
use mail_base::{Classes, Item, Member, NoMemory, Pattern, Seq, Text, Token, Word};
use rule_match::{find, lists_wanted};
use std::alloc::Global;

const RULES: u32 = 300;

pub(crate) fn found(alloc: Global, kind: &str, rounds: u32) -> Result<u64> {
    match kind {
        "common" => of_rules(alloc, false, rounds),
        "class" => of_rules(alloc, true, rounds),
        tokens => of_classes(alloc, tokens.parse()?, rounds),
    }
}

/// Of the rules over six tokens.
fn of_rules(alloc: Global, with_class: bool, rounds: u32) -> Result<u64> {
    let tokens = six(alloc)?;
    let rules = rules(alloc, with_class)?;
    Ok(match_often(&rules, &tokens, rounds)?)
}

/// Of twenty classes over so many tokens.
fn of_classes(alloc: Global, tokens: u32, rounds: u32) -> Result<u64> {
    let tokens = many(alloc, tokens)?;
    let rules = twenty(alloc)?;
    Ok(match_often(&rules, &tokens, rounds)?)
}

fn word(alloc: Global, letter: u8) -> Result<Token, NoMemory> {
    Ok(Token::Word(Word::of(alloc, &[letter, b'o', b'r', b'd'])?))
}

/// Six tokens, as of an address.
fn six(alloc: Global) -> Result<Seq<Token>, NoMemory> {
    let mut tokens = Seq::new(alloc);
    for sign in b"a.b@cd" {
        let token = match *sign {
            b'.' | b'@' => Token::Op(*sign),
            letter => word(alloc, letter)?,
        };
        tokens.push(token)?;
    }
    Ok(tokens)
}

fn many(alloc: Global, count: u32) -> Result<Seq<Token>, NoMemory> {
    let mut tokens = Seq::new(alloc);
    for _ in 0..count {
        tokens.push(word(alloc, b'a')?)?;
    }
    Ok(tokens)
}

fn class(alloc: Global) -> Result<Item, NoMemory> {
    Ok(Item::InClass(Text::of(alloc, b"w")?))
}

/// A word that isn't among the tokens.
fn absent(alloc: Global, place: u32) -> Result<Item, NoMemory> {
    Ok(Item::Exact(word(alloc, b'f' + (place % 20) as u8)?))
}

/// A class, or a word that isn't among the tokens.
fn last_of(alloc: Global, place: u32, classes: bool) -> Result<Item, NoMemory> {
    if classes {
        class(alloc)
    } else {
        absent(alloc, place)
    }
}

/// What a rule of one of four forms begins with.
fn first_of(alloc: Global, place: u32) -> Result<Item, NoMemory> {
    match place % 4 {
        1 => Ok(Item::More),
        2 => absent(alloc, place),
        _ => Ok(Item::Any),
    }
}

/// The left side of a rule of one of four forms, by its first item and its item of a word.
fn ordered(place: u32, first: Item, last: Item) -> [Item; 3] {
    match place % 4 {
        0 => [first, Item::Exact(Token::Op(b'@')), last],
        1 => [first, Item::Exact(Token::Op(b'<')), last],
        2 => [first, Item::Any, last],
        _ => [first, last, Item::Any],
    }
}

fn left_of(alloc: Global, place: u32, classes: bool) -> Result<[Item; 3], NoMemory> {
    let first = first_of(alloc, place)?;
    let last = last_of(alloc, place, classes)?;
    Ok(ordered(place, first, last))
}

fn rule_of(alloc: Global, place: u32, classes: bool) -> Result<Pattern> {
    let items = Vec::from_array(alloc, left_of(alloc, place, classes)?)?;
    pattern_of(Seq::from_vec(items))
}

fn pattern_of(items: Seq<Item>) -> Result<Pattern> {
    match Pattern::of(items) {
        Some(pattern) => Ok(pattern),
        None => bail!("many signs"),
    }
}

fn rules(alloc: Global, classes: bool) -> Result<Seq<Pattern>> {
    let mut rules = Seq::new(alloc);
    for place in 0..RULES {
        rules.push(rule_of(alloc, place, classes)?)?;
    }
    Ok(rules)
}

fn twenty(alloc: Global) -> Result<Seq<Pattern>> {
    let mut items = Seq::new(alloc);
    for _ in 0..20 {
        items.push(class(alloc)?)?;
    }
    let mut rules = Seq::new(alloc);
    rules.push(pattern_of(items)?)?;
    Ok(rules)
}

/// A phrase of so many words.
fn phrase(alloc: Global, count: u8) -> Result<Member, NoMemory> {
    Ok(Member {
        text: Text::of(alloc, &[count])?,
        tokens: Some(many(alloc, u32::from(count))?),
    })
}

/// A class of the phrases of one, two and three words.
fn classes(alloc: Global) -> Result<Classes, NoMemory> {
    let mut members = Seq::new(alloc);
    for count in 1..4u8 {
        members.push(phrase(alloc, count)?)?;
    }
    let mut classes = Classes::new(alloc);
    classes.extend(&Text::of(alloc, b"w")?, members)?;
    Ok(classes)
}

/// How many of the rules match the tokens, the last time of so many.
fn match_often(rules: &Seq<Pattern>, tokens: &Seq<Token>, rounds: u32) -> Result<u64, NoMemory> {
    let classes = classes(tokens.allocator())?;
    let mut count = 0;
    for _ in 0..rounds {
        count = match_all(rules, tokens, &classes);
    }
    Ok(count)
}

fn match_all(rules: &Seq<Pattern>, tokens: &Seq<Token>, classes: &Classes) -> u64 {
    let late = Seq::new(tokens.allocator());
    let mut count = 0u64;
    for rule in rules.items() {
        if lists_wanted(rule) == late.len() && find(rule, tokens, classes, &late).is_some() {
            count = count.saturating_add(1);
        }
    }
    count
}
