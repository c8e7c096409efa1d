// Which rule comes next for a list of tokens, and what a ruleset keeps.
use self::Step::{Copies, Counts, Grows, Next, Walks};
use crate::sets::{Line, add_lines, rule_of, set_of};
use crate::signs::tokens_of;
use mail_base::{Go, RuleSet, Seq, Token, TryCopy};
use rule_index::next;
use std::alloc::Global;
use std::test::Fail;

// Rules by number. Their anchors are the words a, b and A and, where no word stands, the first
// token; `*` has none, and one with a `$&x` has none either.
const RULES: &[Line] = &[
    ("a*", Go::Next, ""),
    ("*", Go::Next, ""),
    (".b", Go::Next, ""),
    ("A.", Go::Next, ""),
    ("&a", Go::Next, ""),
    (".-", Go::Next, ""),
    ("\"", Go::Next, ""),
];

fn set(alloc: Global) -> Result<RuleSet, Fail> {
    let mut rules = Seq::new(alloc);
    add_lines(&mut rules, RULES)?;
    Ok(set_of("1", &rules)?)
}

fn number_of(set: &RuleSet, from: u32, tokens: &Seq<Token>) -> Option<u32> {
    match next(set, from, tokens) {
        Some((number, _)) => Some(number),
        None => None,
    }
}

fn is_candidate(set: &RuleSet, number: u32, tokens: &Seq<Token>) -> bool {
    match set.rule(number) {
        None => false,
        Some(rule) => match rule.left.anchor() {
            None => true,
            Some(anchor) => tokens.items().contains(anchor),
        },
    }
}

// The next candidate, by a walk over all rules.
fn walked(set: &RuleSet, from: u32, tokens: &Seq<Token>) -> Option<u32> {
    for number in from..set.count() {
        if is_candidate(set, number, tokens) {
            return Some(number);
        }
    }
    None
}

fn walks_so(set: &RuleSet, tokens: &Seq<Token>) -> bool {
    for from in 0..9 {
        if number_of(set, from, tokens) != walked(set, from, tokens) {
            return false;
        }
    }
    true
}

// How many items the left side of a rule has; 99 where it isn't there.
fn width(set: &RuleSet, number: u32) -> usize {
    match set.rule(number) {
        Some(rule) => rule.left.items().len(),
        None => 99,
    }
}

static WIDTHS: [(u32, usize); 6] = [(0, 2), (1, 1), (2, 2), (5, 2), (6, 1), (7, 99)];

fn has_widths(set: &RuleSet) -> bool {
    for row in &WIDTHS {
        if width(set, row.0) != row.1 {
            return false;
        }
    }
    set.count() == 7 && set.names().len() == 1
}

// What a set is asked, and what comes of it.
enum Step {
    // The first number that is looked at, the tokens, and the number of the next candidate.
    Next(u32, &'static str, Option<u32>),
    // A walk over all rules comes to the same ones for these tokens, from each number.
    Walks(&'static str),
    // A copy has the rules and the name.
    Copies,
    // It gets a rule with this left side.
    Grows(&'static str),
    // So many rules stand in it.
    Counts(u32),
}

static STEPS: [Step; 35] = [
    Next(0, "a", Some(0)),
    Next(0, "A", Some(0)),
    Next(0, "x.a", Some(0)),
    Next(0, "x", Some(1)),
    Next(0, "", Some(1)),
    Next(1, "a", Some(1)),
    Next(2, "a", Some(3)),
    Next(2, "b", Some(2)),
    Next(2, "ba", Some(2)),
    Next(2, ".", Some(4)),
    Next(2, "", Some(4)),
    Next(5, ".", Some(5)),
    Next(5, "a.", Some(5)),
    Next(5, "a", None),
    Next(5, "q", None),
    Next(5, "\"", Some(6)),
    Next(6, ".", None),
    Next(7, "a.b\"", None),
    Next(u32::MAX, "a", None),
    Walks(""),
    Walks("a"),
    Walks("B"),
    Walks("."),
    Walks("\""),
    Walks("ab"),
    Walks("q."),
    Walks("A.b\""),
    Walks("@"),
    Copies,
    Grows("B"),
    Grows("+"),
    Counts(9),
    Next(5, "b", Some(7)),
    Next(5, "x", Some(8)),
    Next(8, "b", Some(8)),
];

fn is_next(
    alloc: Global,
    set: &RuleSet,
    from: u32,
    signs: &str,
    wanted: Option<u32>,
) -> Result<bool, Fail> {
    Ok(number_of(set, from, &tokens_of(alloc, signs)?) == wanted)
}

fn grows(alloc: Global, set: &mut RuleSet, left: &'static str) -> Result<bool, Fail> {
    set.push(rule_of(alloc, &(left, Go::Next, ""))?)?;
    Ok(true)
}

fn does(alloc: Global, set: &mut RuleSet, step: &Step) -> Result<bool, Fail> {
    match step {
        Next(from, signs, wanted) => is_next(alloc, set, *from, signs, *wanted),
        Walks(signs) => Ok(walks_so(set, &tokens_of(alloc, signs)?)),
        Copies => Ok(has_widths(&set.copy()?)),
        Grows(left) => grows(alloc, set, left),
        Counts(rules) => Ok(set.count() == *rules),
    }
}

#[test]
fn a_set_gives_the_next_candidate_and_keeps_its_rules(rt: HostRuntime) -> Result<(), Fail> {
    let mut set = set(rt.alloc())?;
    for (at, step) in STEPS.iter().enumerate() {
        assert!(rt; does(rt.alloc(), &mut set, step)?, "step {at}");
    }
    Ok(())
}
