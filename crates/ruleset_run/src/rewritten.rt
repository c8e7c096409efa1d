ghost use Rattle.std.specs.Prelude.{IfOk};
ghost use Rattle.ruleset_run.specs.declared.rewritten.Rewritten.{Rewritten as TheRewritten};
ghost use Rattle.std.specs.Prelude.{◌≡◌};
ghost use Rattle.ruleset_run.specs.Sites.{site_of};
ghost use Rattle.ruleset_run.specs.Sets.{Rewrites};

use crate::law::one_rewriting;
use crate::passing::passed;
use crate::refusal::Refusal;
use addr_tokens::join;
use mail_base::{Cause, Config, Macros, NoMemory, Seq, Text};
use map_tables::Maps;
use std::alloc::Global;

/// What rulesets make of an address.
#[derive(Drop)]
pub enum Rewritten {
    Gives(Text),
    /// Why they give no text.
    Refuses(Cause),
}

/// An address behind the rulesets of these names, each over what the one before gave: the tokens
/// without blanks, or the cause of the first error (Sendmail Operation Guide, R and S: rewriting
/// rules). [`sender_sets`](crate::sender_sets) and [`recipient_sets`](crate::recipient_sets) are
/// those of a mailer.
pub fn rewrite(
    alloc: Global,
    config: &Config,
    maps: &Maps,
    macros: &Macros,
    sets: &Seq<Text>,
    address: &Text,
) -> Result<Rewritten, NoMemory>
    ensures rewrite { IfOk result
        (Rewrites (site_of config.now maps.now) macros.now sets.now address.now) }
    ensures only { (rewritten : TheRewritten)
        → Rewrites (site_of config.now maps.now) macros.now sets.now address.now rewritten
        → IfOk result (λ given. given ≡ rewritten) }
{
    // A law: an address is rewritten in one way.
    one_rewriting();
    answered(alloc, config, maps, macros, sets.items(), address)
}

fn answered(
    alloc: Global,
    config: &Config,
    maps: &Maps,
    macros: &Macros,
    sets: &[Text],
    address: &Text,
) -> Result<Rewritten, NoMemory>
    ensures { IfOk result (Rewrites (site_of config.now maps.now) macros.now sets.now address.now) }
{
    match passed(alloc, config, maps, macros, sets, address) {
        Ok(tokens) => Ok(Rewritten::Gives(join(alloc, &tokens, None)?)),
        Err(Refusal::Because(cause)) => Ok(Rewritten::Refuses(cause)),
        Err(Refusal::NoMemory) => Err(NoMemory),
    }
}
