ghost use Rattle.std.specs.Prelude.{◌≡◌, ◌≤◌, [], ◌∷◌, length, Some, Ok, count_by, nat_lt};
ghost use Rattle.std.specs.Result.{result_ok};
ghost use Rattle.std.specs.List.{prefix_len};
ghost use Rattle.cf_macros.specs.Expansion.{rule_value};
ghost use Rattle.cf_reader.specs.Reads.{first_fault};
ghost use Rattle.cf_reader.specs.inner.Readings.{Reads};
ghost use Rattle.cf_reader.specs.Sides as sides;
ghost use Rattle.cf_reader.specs.declared.fault.Fault.TheVariants.{TooManyMetas, BadReference};
ghost use Rattle.mail_base.specs.Metas.{is_meta};
ghost use Rattle.cf_reader.specs.Rules as spec;
ghost use Rattle.cf_reader.specs.inner.Making.{Makes, stop_of_expansion, stop_of_scan};

use crate::fault::{Fault, LineStop};
use crate::left_sides::{binding_count, items_of};
use crate::right_sides::{refers_badly, template_of};
use addr_tokens::{Lexeme, ScanFault, computed, lexemes};
use bstr::ByteSlice;
use cf_macros::{ExpandFault, expand_rule};
use mail_base::{Item, Macros, Pattern, Rule, Seq, Template, Text};
use std::alloc::Global;

/// The rule of an R line, by what follows the letter: a left side, tabs and a right side. Each side
/// is expanded by the macros so far and cut under the operators.
pub(crate) fn rule(
    alloc: Global,
    line: &[u8],
    macros: &Macros,
    operators: &Text,
) -> Result<Rule, LineStop>
    ensures { Reads result (spec.fault_of_rule line.now macros.now operators.now)
        (spec.rule_of line.now macros.now operators.now) }
{
    if lacks_tab(line) {
        return Err(LineStop::Refused(Fault::NoTab));
    }
    let left = lexemes_in(alloc, left_of(line), macros, operators)?;
    let right = lexemes_in(alloc, right_of(line), macros, operators)?;
    rule_in(alloc, left.items(), right.items())
}

// The rule of two sides.
fn rule_in(alloc: Global, left: &[Lexeme], right: &[Lexeme]) -> Result<Rule, LineStop>
    ensures { Reads result
        (first_fault (spec.faults_in (spec.sides (Some left.now) (Some right.now))))
        (spec.rule_in (spec.sides (Some left.now) (Some right.now))) }
{
    let items = items_of(alloc, left)?;
    let template = template_of(alloc, right)?;
    let refers_badly = refers_badly(right, binding_count(left));
    let rule = joined(items, template)?;
    judged(rule, refers_badly)
}

// The rule of items and a template, of which at most 20 may be written with a dollar sign.
fn joined(items: Seq<Item>, right: Template) -> Result<Rule, LineStop>
    ensures { Reads result (first_fault ((TooManyMetas, nat_lt 20 (count_by is_meta items)) ∷ []))
        (record { left = items; right = right }) }
{
    match Pattern::of(items) {
        Some(left) => Ok(Rule { left, right }),
        None => Err(LineStop::Refused(Fault::TooManyMetas)),
    }
}

// The rule, unless a reference of it is bad.
fn judged(rule: Rule, refers_badly: bool) -> Result<Rule, LineStop>
    ensures { Reads result (first_fault ((BadReference, refers_badly) ∷ [])) rule }
{
    if refers_badly {
        return Err(LineStop::Refused(Fault::BadReference));
    }
    Ok(rule)
}

// What a side is made of: it is expanded and cut.
fn lexemes_in(
    alloc: Global,
    side: &[u8],
    macros: &Macros,
    operators: &Text,
) -> Result<Seq<Lexeme>, LineStop>
    ensures { Makes result (sides.lexemes_in macros.now operators.now side.now) }
{
    let text = expanded(alloc, side, macros)?;
    cut(alloc, &text, operators)
}

fn expanded(alloc: Global, side: &[u8], macros: &Macros) -> Result<Text, LineStop>
    ensures { Makes result (result_ok (rule_value side.now macros.now)) }
{
    let text = Text::of(alloc, side)?;
    match expand_rule(alloc, &text, macros) {
        Ok(value) => Ok(value),
        Err(fault) => Err(stop_of_expansion(fault)),
    }
}

fn stop_of_expansion(fault: ExpandFault) -> LineStop
    ensures { result ≡ stop_of_expansion fault }
{
    match fault {
        ExpandFault::NoMemory => LineStop::NoMemory,
        _ => LineStop::Refused(Fault::BadPattern),
    }
}

fn cut(alloc: Global, text: &Text, operators: &Text) -> Result<Seq<Lexeme>, LineStop>
    ensures { Makes result (sides.cut operators.now (Ok text.now)) }
{
    // A law: what a cutting computes is what it means.
    computed();
    match lexemes(alloc, text, operators, false) {
        Ok(lexemes) => Ok(lexemes),
        Err(fault) => Err(stop_of_scan(fault)),
    }
}

fn stop_of_scan(fault: ScanFault) -> LineStop
    ensures { result ≡ stop_of_scan fault }
{
    match fault {
        ScanFault::NoMemory => LineStop::NoMemory,
        _ => LineStop::Refused(Fault::BadPattern),
    }
}

// Whether a rule has no tab, or nothing before it.
fn lacks_tab(line: &[u8]) -> bool
    ensures { result ≡ spec.lacks_tab line.now }
{
    !line.contains(&b'\t') || left_of(line).is_empty()
}

// What stands before the first tab.
fn left_of(line: &[u8]) -> &[u8]
    ensures { result.now ≡ sides.left_of line.now }
{
    match line.find_byte(b'\t') {
        Some(end) => &line[..end],
        None => line,
    }
}

// What stands between the first run of tabs and the next tab.
fn right_of(line: &[u8]) -> &[u8]
    ensures { result.now ≡ sides.right_of line.now }
{
    let rest = &line[left_of(line).len()..];
    left_of(&rest[tabs_length(rest)..])
}

fn tabs_length(text: &[u8]) -> usize
    ensures length { result ≡ prefix_len sides.is_tab text.now }
    ensures within { result ≤ length text.now }
{
    for (index, byte) in text.iter().enumerate() {
        if *byte != b'\t' {
            return index;
        }
    }
    text.len()
}
