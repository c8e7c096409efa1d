// Rules and rulesets, written by signs.
use crate::signs::{add_right, pattern_of};
use mail_base::{Go, NoMemory, Rule, RuleSet, Seq, Template, Text};
use rule_index::build;
use std::alloc::Global;
use std::test::Fail;

/// A rule as its left side, what comes after it, and its right side.
pub type Line = (&'static str, Go, &'static str);

pub fn rule_of(alloc: Global, line: &Line) -> Result<Rule, Fail> {
    let left = pattern_of(alloc, line.0)?;
    let mut steps = Seq::new(alloc);
    add_right(&mut steps, line.2)?;
    Ok(Rule {
        left,
        right: Template { go: line.1, steps },
    })
}

pub fn add_lines(rules: &mut Seq<Rule>, lines: &[Line]) -> Result<(), Fail> {
    let alloc = rules.allocator();
    for line in lines {
        rules.push(rule_of(alloc, line)?)?;
    }
    Ok(())
}

fn names_of(alloc: Global, name: &str) -> Result<Seq<Text>, NoMemory> {
    let mut names = Seq::new(alloc);
    names.push(Text::of(alloc, name.as_bytes())?)?;
    Ok(names)
}

/// A set of one name.
pub fn set_of(name: &str, rules: &Seq<Rule>) -> Result<RuleSet, NoMemory> {
    let names = names_of(rules.allocator(), name)?;
    Ok(RuleSet::of(names, build(rules)?))
}
