ghost use Rattle.std.specs.Prelude.{◌≡◌, ◌≤◌, ◌<◌, ◌++◌, [], ℕ, None, Some, IfErr, IfOk, OnOk, false, true};
ghost use Rattle.std.specs.List.{find};
ghost use Rattle.mail_base.specs.Masks.{mask_of};
ghost use Rattle.mail_base.specs.Rulesets.{is_named};
ghost use Rattle.mail_base.specs.declared.rule.Item.TheVariants.{Late};
ghost use Rattle.rule_match.specs.Kept.{IsChoice};
ghost use Rattle.ruleset_run.specs.Cutting.{is_cut_item, is_cut_left, item_lists, left_lists};
ghost use Rattle.ruleset_run.specs.Runs.{Ends, Gives, Outcome, Replaced, Runs, RunsAt, RunsSet, SetRuns, Takes, name_of, rest_of};
ghost use Rattle.ruleset_run.specs.Sites.{Macros as TheMacros, Site, site_of};
ghost use Rattle.ruleset_run.specs.inner.Filler.{Stand, parts_of};
ghost use Rattle.ruleset_run.specs.inner.Looks.{LeftFault, LimitFault, MatchFound, times_at};
ghost use Rattle.ruleset_run.specs.inner.Values.{lates};

use crate::RunFault;
use crate::book::is_standard;
use crate::calls::{call_name, first_and_rest, joined};
use crate::filler::{Match, fill, is_cut, is_resolved};
use crate::looking::next_rule;
use crate::parts::{MOST_TOKENS, Parts};
use crate::values::Values;
use mail_base::{
    Classes, Config, Go, Item, Macros, Rule, RuleSet, Seq, Text, Token, TryCopy, mask_of,
};
use map_tables::Maps;
use rule_match::{Cuts, find_into};
use std::alloc::Global;

/// The most successive applications of one rule.
const MOST_TIMES: u32 = 100;

/// The most applications of a run.
const MOST_WORK: u32 = 10_000;

/// The most calls that may be nested in each other.
const MOST_CALLS: u32 = 50;

/// What a run ends with.
#[derive(Drop)]
pub struct Ran {
    pub tokens: Seq<Token>,
    /// The number of applications, those in calls too.
    pub work: u32,
}

/// Runs the ruleset of a name over tokens (Sendmail Operation Guide, R and S: rewriting rules).
///
/// A rule whose left side wants a bit that the mask of the tokens lacks is passed by without a
/// search; of more than 64 rules, with 16 and more for each token, one whose anchor isn't among the
/// tokens costs nothing. An application makes one new list, which its calls take over. What a `$&x`
/// stands for is cut once, until a look-up changes a macro. Macros are copied when that happens for
/// the first time.
///
/// The faults of one application come in this order: `Loop`, `Work`, a `$&x` of the right side that
/// can't be cut, its look-ups from the left to the right, `Long`, its calls from the right to the
/// left, each with `Long` behind it.
pub fn run(
    alloc: Global,
    config: &Config,
    maps: &Maps,
    macros: &Macros,
    set: &Text,
    tokens: &Seq<Token>,
) -> Result<Ran, RunFault>
    ensures run { Gives result
        (RunsSet (site_of config.now maps.now) macros.now set.now tokens.now) }
    ensures only { (outcome : Outcome)
        → RunsSet (site_of config.now maps.now) macros.now set.now tokens.now outcome
        → Gives result (λ given. given ≡ outcome) }
{
    let mut values = Values::new(alloc, &config.options.operator_chars, macros);
    let tokens = tokens.copy()?;
    let start = Ran { tokens, work: 0 };
    run_set(config, maps, &mut values, set, start, MOST_CALLS)
}

/// Runs the ruleset of a name, where so many calls may be nested in it.
#[cycle(runs)]
fn run_set(
    config: &Config,
    maps: &Maps,
    values: &mut Values,
    name: &Text,
    start: Ran,
    left: u32,
) -> Result<Ran, RunFault>
    requires operators { values.old.operators ≡ config.now.options.operator_chars }
    requires settled { values.old.after ≡ values.old.macros }
    requires work { start.work ≤ 10000 }
    ensures run { Ends values.new.macros result
        (SetRuns (site_of config.now maps.now) (RunsAt (site_of config.now maps.now) left)
        (Some name.now) start.tokens start.work values.old.macros) }
    ensures operators { values.new.operators ≡ values.old.operators }
    ensures settled { OnOk result (values.new.after ≡ values.new.macros) }
    ensures work { IfOk result (λ ran. (start.work ≤ ran.work) × (ran.work ≤ 10000)) }
{
    match config.book.get(name) {
        Some(set) => run_rules(config, maps, values, set, start, left),
        None => run_absent(name, start),
    }
}

/// Runs a ruleset that isn't there: one from 0 to 5 is empty.
fn run_absent(name: &Text, start: Ran) -> Result<Ran, RunFault>
    ensures run { (site : Site) (left : ℕ) (macros : TheMacros)
        → find (is_named name.now) site.book ≡ None
        → Ends macros result
        (SetRuns site (RunsAt site left) (Some name.now) start.tokens start.work macros) }
    ensures work { IfOk result (λ ran. ran.work ≡ start.work) }
{
    if is_standard(name) {
        return Ok(start);
    }
    Err(RunFault::NoRuleset(name.copy()?))
}

/// Runs the rules of a ruleset, where so many calls may be nested in them.
#[cycle(runs)]
fn run_rules(
    config: &Config,
    maps: &Maps,
    values: &mut Values,
    set: &RuleSet,
    start: Ran,
    left: u32,
) -> Result<Ran, RunFault>
    requires operators { values.old.operators ≡ config.now.options.operator_chars }
    requires settled { values.old.after ≡ values.old.macros }
    requires work { start.work ≤ 10000 }
    ensures run { Ends values.new.macros result
        (Runs (site_of config.now maps.now) (RunsAt (site_of config.now maps.now) left)
        set.now.rules 0 start.tokens start.work values.old.macros) }
    ensures operators { values.new.operators ≡ values.old.operators }
    ensures settled { OnOk result (values.new.after ≡ values.new.macros) }
    ensures work { IfOk result (λ ran. (start.work ≤ ran.work) × (ran.work ≤ 10000)) }
{
    // Only its range is used: a set has fewer than 2^32 rules, so that `number + 1` is within its
    // type.
    let _count = set.count();
    let mut from: u32 = 0;
    let mut times: u32 = 0;
    let mut now = start;
    let none = Seq::new(values.allocator());
    let mut cuts = Cuts::new();
    let mut mask = mask_of(now.tokens.items());
    while let Some((number, rule)) = next_rule(set, from, &now.tokens, mask) {
        times = times_at(number, from, times);
        let classes = &config.classes;
        let is_match = match_of(values, rule, &now.tokens, mask, classes, &none, &mut cuts)?;
        if !is_match {
            from = number + 1;
            times = 0;
            continue;
        }
        check_limits(times, now.work)?;
        now = apply(config, maps, values, rule, &cuts, &now, left)?;
        if is_resolved(&now.tokens) {
            return Ok(now);
        }
        match rule.right.go {
            Go::Return => return Ok(now),
            Go::Again => {
                from = number;
                times += 1;
            }
            Go::Next => {
                from = number + 1;
                times = 0;
            }
        }
        mask = mask_of(now.tokens.items());
    }
    Ok(now)
}

/// How often the rule that comes next was applied in succession: another one than before, never.
fn times_at(number: u32, from: u32, times: u32) -> u32
    ensures { result ≡ times_at number from times }
{
    if number == from { times } else { 0 }
}

/// Whether a rule has a match, with the cuts of the one that it takes, or `BadScan` where a `$&x` of
/// its left side can't be cut. It is handed no lists, for a left side without a `$&x`.
#[inline(always)]
fn match_of(
    values: &mut Values,
    rule: &Rule,
    tokens: &Seq<Token>,
    mask: u64,
    classes: &Classes,
    no_lists: &Seq<Seq<Token>>,
    cuts: &mut Cuts,
) -> Result<bool, RunFault>
    requires mask { mask ≡ mask_of tokens.now }
    requires none { no_lists.now ≡ [] }
    ensures found { IfOk result
        (MatchFound (is_cut_left (lates values.old) rule.now.left) classes.now
        (left_lists (lates values.old) rule.now.left) rule.now.left tokens.now cuts.new) }
    ensures refused { IfErr result (LeftFault (is_cut_left (lates values.old) rule.now.left)) }
    ensures same { values.new ≡ values.old }
{
    if rule.left.has_late() {
        return match_late(values, rule, tokens, mask, classes, cuts);
    }
    Ok(find_into(&rule.left, tokens, mask, classes, no_lists, cuts))
}

/// The same of any rule, with lists of its own.
fn match_late(
    values: &mut Values,
    rule: &Rule,
    tokens: &Seq<Token>,
    mask: u64,
    classes: &Classes,
    cuts: &mut Cuts,
) -> Result<bool, RunFault>
    requires { mask ≡ mask_of tokens.now }
    ensures found { IfOk result
        (MatchFound (is_cut_left (lates values.old) rule.now.left) classes.now
        (left_lists (lates values.old) rule.now.left) rule.now.left tokens.now cuts.new) }
    ensures refused { IfErr result (LeftFault (is_cut_left (lates values.old) rule.now.left)) }
    ensures same { values.new ≡ values.old }
{
    let late = lists_of(values, rule.left.items())?;
    Ok(find_into(&rule.left, tokens, mask, classes, &late, cuts))
}

/// The tokens of each `$&x` of a left side, in order, or `BadScan` where one can't be cut.
fn lists_of(values: &mut Values, items: &[Item]) -> Result<Seq<Seq<Token>>, RunFault>
    ensures lists { IfOk result
        (λ lists. (is_cut_left (lates values.old) items.now ≡ true)
        × (lists ≡ left_lists (lates values.old) items.now)) }
    ensures refused { IfErr result (LeftFault (is_cut_left (lates values.old) items.now)) }
    ensures same { values.new ≡ values.old }
{
    let mut lists = Seq::new(values.allocator());
    for item in items {
        if let Item::Late(name) = item {
            push_list(values, name, &mut lists)?;
        }
    }
    Ok(lists)
}

/// Adds the tokens of a `$&x`.
fn push_list(values: &mut Values, name: &Text, lists: &mut Seq<Seq<Token>>) -> Result<(), RunFault>
    ensures lists { OnOk result
        ((is_cut_item (lates values.old) (Late name.now) ≡ true)
        × (lists.new ≡ lists.old ++ item_lists (lates values.old) (Late name.now))) }
    ensures refused { IfErr result (LeftFault (is_cut_item (lates values.old) (Late name.now))) }
    ensures same { values.new ≡ values.old }
{
    match values.late(name)? {
        Some(tokens) => Ok(lists.push(tokens)?),
        None => Err(RunFault::BadScan),
    }
}

/// Whether a rule may be applied once more.
fn check_limits(times: u32, work: u32) -> Result<(), RunFault>
    ensures within { OnOk result ((times < 100) × (work < 10000)) }
    ensures refused { IfErr result (LimitFault times work) }
{
    if times >= MOST_TIMES {
        return Err(RunFault::Loop);
    }
    if work >= MOST_WORK {
        return Err(RunFault::Work);
    }
    Ok(())
}

/// Applies a rule to tokens by the match that it takes.
#[cycle(runs)]
fn apply(
    config: &Config,
    maps: &Maps,
    values: &mut Values,
    rule: &Rule,
    cuts: &Cuts,
    now: &Ran,
    left: u32,
) -> Result<Ran, RunFault>
    requires operators { values.old.operators ≡ config.now.options.operator_chars }
    requires settled { values.old.after ≡ values.old.macros }
    requires cut { is_cut_left (lates values.old) rule.now.left ≡ true }
    requires choice { IsChoice config.now.classes (left_lists (lates values.old) rule.now.left)
        rule.now.left now.now.tokens cuts.now }
    requires work { now.now.work < 10000 }
    ensures takes { (times : ℕ) → times < 100
        → Ends values.new.macros result
        (Takes (site_of config.now maps.now) (RunsAt (site_of config.now maps.now) left) rule.now
        times now.now.tokens now.now.work values.old.macros) }
    ensures operators { values.new.operators ≡ values.old.operators }
    ensures settled { OnOk result (values.new.after ≡ values.new.macros) }
    ensures work { IfOk result (λ ran. (now.now.work < ran.work) × (ran.work ≤ 10000)) }
{
    let steps = rule.right.steps.items();
    if !is_cut(values, steps)? {
        return Err(RunFault::BadScan);
    }
    let source = Match {
        left: &rule.left,
        cuts,
        tokens: &now.tokens,
    };
    let parts = fill(maps, values, &source, steps)?;
    if parts.is_long {
        return Err(RunFault::Long);
    }
    replace(config, maps, values, parts, now.work + 1, left)
}

/// Makes the calls among parts, from the rightmost to the leftmost.
#[cycle(runs)]
fn replace(
    config: &Config,
    maps: &Maps,
    values: &mut Values,
    parts: Parts,
    work: u32,
    left: u32,
) -> Result<Ran, RunFault>
    requires operators { values.old.operators ≡ config.now.options.operator_chars }
    requires settled { values.old.after ≡ values.old.macros }
    requires parts { Stand parts (parts_of parts.fronts parts.last) }
    requires short { parts.is_long ≡ false }
    requires work { work ≤ 10000 }
    ensures run { Ends values.new.macros result
        (Replaced (RunsAt (site_of config.now maps.now) left) 0
        (parts_of parts.fronts parts.last) work values.old.macros) }
    ensures operators { values.new.operators ≡ values.old.operators }
    ensures settled { OnOk result (values.new.after ≡ values.new.macros) }
    ensures work { IfOk result (λ ran. (work ≤ ran.work) × (ran.work ≤ 10000)) }
{
    let mut before = parts.count;
    let mut fronts = parts.fronts.into_vec();
    let mut now = Ran {
        tokens: parts.last,
        work,
    };
    'calls: while let Some(front) = fronts.pop() {
        let ran = call(config, maps, values, now, left)?;
        if ran.tokens.len() > MOST_TOKENS - before {
            return Err(RunFault::Long);
        }
        before -= front.len();
        now = Ran {
            tokens: joined(front, ran.tokens)?,
            work: ran.work,
        };
    }
    Ok(now)
}

/// Makes a call on tokens, of which the first names the ruleset.
#[cycle(runs)]
fn call(
    config: &Config,
    maps: &Maps,
    values: &mut Values,
    start: Ran,
    left: u32,
) -> Result<Ran, RunFault>
    requires operators { values.old.operators ≡ config.now.options.operator_chars }
    requires settled { values.old.after ≡ values.old.macros }
    requires work { start.work ≤ 10000 }
    ensures run { Ends values.new.macros result
        (RunsAt (site_of config.now maps.now) left (name_of start.tokens)
        (rest_of start.tokens) start.work values.old.macros) }
    ensures operators { values.new.operators ≡ values.old.operators }
    ensures settled { OnOk result (values.new.after ≡ values.new.macros) }
    ensures work { IfOk result (λ ran. (start.work ≤ ran.work) × (ran.work ≤ 10000)) }
{
    if left == 0 {
        return Err(RunFault::Deep);
    }
    let Some((token, tokens)) = first_and_rest(start.tokens) else {
        return Err(RunFault::NoRuleset(Text::new(values.allocator())));
    };
    let start = Ran {
        tokens,
        work: start.work,
    };
    if let Token::Word(word) = &token {
        return run_set(config, maps, values, word.text(), start, left - 1);
    }
    let name = call_name(values.allocator(), &token)?;
    run_set(config, maps, values, &name, start, left - 1)
}
