ghost use Rattle.std.specs.Prelude.{◌≡◌, IfOk};
ghost use Rattle.mail_base.specs.Catalogs.{value_like};
ghost use Rattle.mail_base.specs.declared.route.Resolved.TheVariants.{Goes, Refuses};
ghost use Rattle.addr_route.specs.Sets as sets;
ghost use Rattle.ruleset_run.specs.declared.rewritten.Rewritten.TheVariants.{Gives};
ghost use Rattle.addr_test.specs.Answers.{RewritesUnder, TellsBoth, TellsRoute, TellsTry};
ghost use Rattle.addr_test.specs.Texts as spec;

use crate::printing::push_number;
use addr_route::{Rewritten, recipient_sets, rewrite, route, sender_sets};
use mail_base::{Cause, Config, Mailer, NoMemory, Resolved, RouteError, Text, Triple};
use map_tables::Maps;
use std::alloc::Global;

/// Where an address goes, as one for which an alias may stand, or the error that refuses it.
pub(crate) fn parse(
    alloc: Global,
    address: &[u8],
    config: &Config,
    maps: &Maps,
) -> Result<Text, NoMemory>
    ensures { IfOk result (TellsRoute maps.now config.now address.now) }
{
    let address = Text::of(alloc, address)?;
    let resolved = route(alloc, config, maps, &config.macros, &address, false)?;
    route_text(alloc, &resolved)
}

fn route_text(alloc: Global, resolved: &Resolved) -> Result<Text, NoMemory>
    ensures { IfOk result (λ text. text ≡ spec.route_text resolved.now) }
{
    match resolved {
        Resolved::Goes(triple) => triple_text(alloc, triple),
        Resolved::Refuses(error) => refusal_text(alloc, error),
    }
}

fn triple_text(alloc: Global, triple: &Triple) -> Result<Text, NoMemory>
    ensures { IfOk result (λ text. text ≡ spec.route_text (Goes triple.now)) }
{
    let mut text = Text::of(alloc, b"mailer ")?;
    text.extend(triple.mailer.bytes())?;
    text.extend(b", host ")?;
    text.extend(triple.host.bytes())?;
    text.extend(b", user ")?;
    text.extend(triple.user.bytes())?;
    text.push(b'\n')?;
    Ok(text)
}

fn refusal_text(alloc: Global, error: &RouteError) -> Result<Text, NoMemory>
    ensures { IfOk result (λ text. text ≡ spec.route_text (Refuses error.now)) }
{
    let mut text = Text::of(alloc, b"error ")?;
    push_number(u64::from(error.code), &mut text)?;
    text.push(b' ')?;
    text.extend(error.status.bytes())?;
    text.push(b' ')?;
    text.extend(error.text.bytes())?;
    text.push(b'\n')?;
    Ok(text)
}

/// An address as the sender and as the recipient of the mailer of a name, or why it can't be
/// rewritten so.
pub(crate) fn try_mailer(
    alloc: Global,
    name: &[u8],
    address: &[u8],
    config: &Config,
    maps: &Maps,
) -> Result<Text, NoMemory>
    ensures { IfOk result
        (TellsTry maps.now config.now name.now address.now
        (value_like name.now config.now.mailers)) }
{
    let name = Text::of(alloc, name)?;
    match config.mailer(&name) {
        Some(mailer) => try_both(alloc, mailer, address, config, maps),
        None => error_text(alloc, &Cause::UnknownMailer(name)),
    }
}

fn try_both(
    alloc: Global,
    mailer: &Mailer,
    address: &[u8],
    config: &Config,
    maps: &Maps,
) -> Result<Text, NoMemory>
    ensures { IfOk result (TellsBoth maps.now config.now address.now mailer.now) }
{
    let address = Text::of(alloc, address)?;
    let sender = as_sender(alloc, mailer, &address, config, maps)?;
    let recipient = as_recipient(alloc, mailer, &address, config, maps)?;
    try_text(alloc, &sender, &recipient)
}

fn as_sender(
    alloc: Global,
    mailer: &Mailer,
    address: &Text,
    config: &Config,
    maps: &Maps,
) -> Result<Rewritten, NoMemory>
    ensures { IfOk result
        (RewritesUnder maps.now config.now (sets.sender_sets mailer.now) address.now) }
{
    let sets = sender_sets(alloc, mailer)?;
    rewrite(alloc, config, maps, &config.macros, &sets, address)
}

fn as_recipient(
    alloc: Global,
    mailer: &Mailer,
    address: &Text,
    config: &Config,
    maps: &Maps,
) -> Result<Rewritten, NoMemory>
    ensures { IfOk result
        (RewritesUnder maps.now config.now (sets.recipient_sets mailer.now) address.now) }
{
    let sets = recipient_sets(alloc, mailer)?;
    rewrite(alloc, config, maps, &config.macros, &sets, address)
}

fn try_text(alloc: Global, sender: &Rewritten, recipient: &Rewritten) -> Result<Text, NoMemory>
    ensures { IfOk result (λ text. text ≡ spec.try_text sender.now recipient.now) }
{
    match (sender, recipient) {
        (Rewritten::Gives(sender), Rewritten::Gives(recipient)) => {
            both_text(alloc, sender, recipient)
        }
        (Rewritten::Gives(_), Rewritten::Refuses(cause)) => error_text(alloc, cause),
        (Rewritten::Refuses(cause), _) => error_text(alloc, cause),
    }
}

fn both_text(alloc: Global, sender: &Text, recipient: &Text) -> Result<Text, NoMemory>
    ensures { IfOk result (λ text. text ≡ spec.try_text (Gives sender.now) (Gives recipient.now)) }
{
    let mut text = Text::of(alloc, b"sender: ")?;
    text.extend(sender.bytes())?;
    text.extend(b"\nrecipient: ")?;
    text.extend(recipient.bytes())?;
    text.push(b'\n')?;
    Ok(text)
}

fn error_text(alloc: Global, cause: &Cause) -> Result<Text, NoMemory>
    ensures { IfOk result (λ text. text ≡ spec.error_text cause.now) }
{
    let mut text = Text::of(alloc, b"error: ")?;
    text.extend(cause.name())?;
    text.push(b'\n')?;
    Ok(text)
}
