//! Makes a ruleset of so many rules of different anchors, and counts them.

use crate::names::numbered;
use anyhow::{Result, bail};
use mail_base::{
    Go, Item, NoMemory, Pattern, Piece, Rule, RuleSet, Seq, Step, Template, Text, Token, Word,
};
use rule_index::build;
use std::alloc::Global;

pub(crate) fn made(alloc: Global, rules: u32, rounds: u32) -> Result<u64> {
    let mut count = 0;
    for _ in 0..rounds {
        count = set_of(alloc, rules)?.count() as u64;
    }
    Ok(count)
}

fn word(alloc: Global, number: u32) -> Result<Token, NoMemory> {
    let name = numbered(alloc, "w", number, "")?;
    Ok(Token::Word(Word::of(alloc, name.bytes())?))
}

/// The left side of a rule: its word, and then anything.
fn left_of(alloc: Global, number: u32) -> Result<Seq<Item>, NoMemory> {
    let mut items = Seq::new(alloc);
    items.push(Item::Exact(word(alloc, number)?))?;
    items.push(Item::Any)?;
    Ok(items)
}

fn steps(alloc: Global) -> Result<Seq<Step>, NoMemory> {
    let mut steps = Seq::new(alloc);
    steps.push(Step::Plain(Piece::Cut(1)))?;
    Ok(steps)
}

fn rule_of(alloc: Global, number: u32) -> Result<Rule> {
    let steps = steps(alloc)?;
    let Some(left) = Pattern::of(left_of(alloc, number)?) else {
        bail!("many signs");
    };
    let right = Template {
        go: Go::Next,
        steps,
    };
    Ok(Rule { left, right })
}

fn rules_of(alloc: Global, rules: u32) -> Result<Seq<Rule>> {
    let mut list = Seq::new(alloc);
    for number in 0..rules {
        list.push(rule_of(alloc, number)?)?;
    }
    Ok(list)
}

fn names(alloc: Global) -> Result<Seq<Text>, NoMemory> {
    let mut names = Seq::new(alloc);
    names.push(Text::of(alloc, b"1")?)?;
    Ok(names)
}

fn set_of(alloc: Global, rules: u32) -> Result<RuleSet> {
    let list = rules_of(alloc, rules)?;
    let names = names(alloc)?;
    Ok(RuleSet::of(names, build(&list)?))
}
