ghost use Rattle.std.specs.Prelude.{◌≡◌, IfOk, None};
ghost use Rattle.std.specs.List.{flat_map};
ghost use Rattle.addr_tokens.specs.Joins.{token_bytes};
ghost use Rattle.ruleset_run.specs.Sites.{site_of};
ghost use Rattle.ruleset_run.specs.declared.fault.RunFault.TheVariants.{NoMemory as RunMemory};
ghost use Rattle.queue_plan.specs.Groups.{Answers, Says};
ghost use Rattle.queue_plan.specs.Groups as spec;
ghost use Rattle.queue_plan.specs.inner.Answering.{Runs};

use addr_tokens::{cut, push_token};
use mail_base::{Config, Macros, Mark, NoMemory, Seq, Text, Token, TryCopy};
use map_tables::Maps;
use ruleset_run::{RunFault, run};
use std::alloc::Global;

/// The name that the set `queuegroup` says of an address, if there is such a set and it says one.
pub fn said(
    alloc: Global,
    config: &Config,
    maps: &Maps,
    macros: &Macros,
    address: &Text,
) -> Result<Option<Text>, NoMemory>
    ensures { IfOk result (Says (site_of config.now maps.now) macros.now address.now) }
{
    let set = Text::of(alloc, b"queuegroup")?;
    match config.book.get(&set) {
        Some(_rules) => answered(alloc, config, maps, macros, &set, address),
        None => Ok(None),
    }
}

// What the set answers to an address.
fn answered(
    alloc: Global,
    config: &Config,
    maps: &Maps,
    macros: &Macros,
    set: &Text,
    address: &Text,
) -> Result<Option<Text>, NoMemory>
    requires { set.now ≡ spec.set_name }
    ensures { IfOk result (Answers (site_of config.now maps.now) macros.now address.now) }
{
    let known = cut(alloc, address, &config.options.operator_chars, true)?;
    match known {
        Some(tokens) => run_over(alloc, config, maps, macros, set, &tokens),
        None => Ok(None),
    }
}

// What the set answers to tokens.
fn run_over(
    alloc: Global,
    config: &Config,
    maps: &Maps,
    macros: &Macros,
    set: &Text,
    tokens: &Seq<Token>,
) -> Result<Option<Text>, NoMemory>
    ensures { IfOk result
        (Runs (site_of config.now maps.now) macros.now set.now tokens.now) }
{
    match run(alloc, config, maps, macros, set, tokens) {
        Ok(ran) => name_said(alloc, ran.tokens.items()),
        Err(fault) => failed(fault),
    }
}

// A run that fails says nothing.
fn failed(fault: RunFault) -> Result<Option<Text>, NoMemory>
    ensures { IfOk result (λ said. (said ≡ None) × (fault ≡ RunMemory → ⊥)) }
{
    match fault {
        RunFault::NoMemory => Err(NoMemory),
        RunFault::Loop => Ok(None),
        RunFault::Work => Ok(None),
        RunFault::Deep => Ok(None),
        RunFault::Long => Ok(None),
        RunFault::BadScan => Ok(None),
        RunFault::NoRuleset(_name) => Ok(None),
        RunFault::MapClass(_name) => Ok(None),
        RunFault::NoSuchMap(_name) => Ok(None),
    }
}

// The name that a list says.
fn name_said(alloc: Global, list: &[Token]) -> Result<Option<Text>, NoMemory>
    ensures { IfOk result (λ said. said ≡ spec.name_said list.now) }
{
    match list {
        [Token::Sign(Mark::Mailer), rest @ ..] => Ok(Some(bytes_of(alloc, rest)?)),
        _ => Ok(None),
    }
}

// The bytes of tokens.
fn bytes_of(alloc: Global, tokens: &[Token]) -> Result<Text, NoMemory>
    ensures { IfOk result (λ text. text ≡ flat_map token_bytes tokens.now) }
{
    let mut text = Text::new(alloc);
    for token in tokens {
        push_token(&mut text, token)?;
    }
    Ok(text)
}
