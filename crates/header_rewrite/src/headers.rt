ghost use Rattle.std.specs.Prelude.{◌≡◌, List, ℕ, IfOk};
ghost use Rattle.ruleset_run.specs.Sites.{site_of};
ghost use Rattle.header_rewrite.specs.Names as spec;
ghost use Rattle.header_rewrite.specs.Rewriting.{AreRewritten, IsRewritten};

use crate::filling::Way;
use crate::law::one_header;
use crate::names::{is_recipient, is_sender};
use mail_base::{Config, Macros, Mailer, NoMemory, Seq, Text, TryCopy};
use map_tables::Maps;
use ruleset_run::{header_recipient_sets, header_sender_sets};
use std::alloc::Global;

/// The headers of a message for a mailer (Sendmail Installation and Operation Guide, R and S:
/// rewriting rules; M: define mailer). Each address at its place in a header with senders goes
/// through sets 3, 1, that of the mailer's field S for headers, and 4, and one in a header with
/// recipients through sets 3, 2, that of its field R for headers, and 4. It is joined without
/// blanks. Where its rewriting is refused, or gives nothing or a line end, it stays. All other bytes
/// stay, folds among them, and so do all other headers.
pub fn rewritten(
    config: &Config,
    maps: &Maps,
    macros: &Macros,
    mailer: &Mailer,
    headers: &Seq<Text>,
) -> Result<Seq<Text>, NoMemory>
    ensures headers { IfOk result
        (AreRewritten (site_of config.now maps.now) macros.now mailer.now headers.now) }
    ensures only { (texts : List (List ℕ))
        → AreRewritten (site_of config.now maps.now) macros.now mailer.now headers.now texts
        → IfOk result (λ given. given ≡ texts) }
{
    // A law: a header is rewritten in one way.
    one_header();
    all_rewritten(config, maps, macros, mailer, headers)
}

fn all_rewritten(
    config: &Config,
    maps: &Maps,
    macros: &Macros,
    mailer: &Mailer,
    headers: &Seq<Text>,
) -> Result<Seq<Text>, NoMemory>
    ensures { IfOk result
        (AreRewritten (site_of config.now maps.now) macros.now mailer.now headers.now) }
{
    let mut texts = Seq::new(headers.allocator());
    'headers: for (index, header) in headers.items().iter().enumerate() {
        texts.push(header_for(config, maps, macros, mailer, header)?)?;
    }
    Ok(texts)
}

fn header_for(
    config: &Config,
    maps: &Maps,
    macros: &Macros,
    mailer: &Mailer,
    header: &Text,
) -> Result<Text, NoMemory>
    ensures { IfOk result
        (IsRewritten (site_of config.now maps.now) macros.now mailer.now header.now) }
{
    match sets_for(header.allocator(), mailer, header.bytes())? {
        Some(sets) => {
            let sets = &sets;
            let way = Way {
                config,
                maps,
                macros,
                sets,
            };
            way.fill(header)
        }
        None => header.copy(),
    }
}

/// The rulesets that the addresses of a header go through, if it is rewritten.
#[tactic(auto, unfolding(crate::specs::Names::sets_for))]
fn sets_for(alloc: Global, mailer: &Mailer, header: &[u8]) -> Result<Option<Seq<Text>>, NoMemory>
    ensures { IfOk result (λ sets. sets ≡ spec.sets_for mailer.now header.now) }
{
    if is_sender(header) {
        return Ok(Some(header_sender_sets(alloc, mailer)?));
    }
    if is_recipient(header) {
        return Ok(Some(header_recipient_sets(alloc, mailer)?));
    }
    Ok(None)
}
