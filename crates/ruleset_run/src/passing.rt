ghost use Rattle.std.specs.Prelude.{◌≡◌, ◌∷◌, []};
ghost use Rattle.ruleset_run.specs.Sites.{site_of};
ghost use Rattle.ruleset_run.specs.Sets.{Passes, Through};
ghost use Rattle.ruleset_run.specs.Sets as spec;
ghost use Rattle.ruleset_run.specs.Refusals.{Meets};

use crate::refusal::{Refusal, of_run, of_scan};
use crate::runner::run;
use addr_tokens::{computed, tokens};
use mail_base::{Config, Macros, Seq, Text, Token};
use map_tables::Maps;
use std::alloc::Global;

/// The tokens of an address that goes through the rulesets of these names, or why there are none.
pub fn passed(
    alloc: Global,
    config: &Config,
    maps: &Maps,
    macros: &Macros,
    sets: &[Text],
    address: &Text,
) -> Result<Seq<Token>, Refusal>
    ensures { Meets result (Passes (site_of config.now maps.now) macros.now sets.now address.now) }
{
    let tokens = cut(alloc, config, address)?;
    through(alloc, config, maps, macros, sets, tokens)
}

/// What the rulesets of these names give of tokens, each over what the one before gave.
pub fn through(
    alloc: Global,
    config: &Config,
    maps: &Maps,
    macros: &Macros,
    sets: &[Text],
    tokens: Seq<Token>,
) -> Result<Seq<Token>, Refusal>
    ensures { Meets result (Through (site_of config.now maps.now) macros.now sets.now tokens) }
{
    let mut now = tokens;
    for set in sets {
        now = ran(alloc, config, maps, macros, set, &now)?;
    }
    Ok(now)
}

fn ran(
    alloc: Global,
    config: &Config,
    maps: &Maps,
    macros: &Macros,
    set: &Text,
    tokens: &Seq<Token>,
) -> Result<Seq<Token>, Refusal>
    ensures { Meets result
        (Through (site_of config.now maps.now) macros.now (set.now ∷ []) tokens.now) }
{
    match run(alloc, config, maps, macros, set, tokens) {
        Ok(ran) => Ok(ran.tokens),
        Err(fault) => Err(of_run(fault)),
    }
}

// The tokens of an address, whose angles are checked.
fn cut(alloc: Global, config: &Config, address: &Text) -> Result<Seq<Token>, Refusal>
    ensures { Meets result
        (λ answer. answer ≡ spec.cut config.now.options.operator_chars address.now) }
{
    // A law: the tokens that are cut are those that the definition computes.
    computed();
    match tokens(alloc, address, &config.options.operator_chars, true) {
        Ok(tokens) => Ok(tokens),
        Err(fault) => Err(of_scan(fault)),
    }
}
