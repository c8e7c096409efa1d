ghost use Rattle.std.specs.Prelude.{◌≡◌, ℕ, List, IfOk, bytes_eq};
ghost use Rattle.mail_base.specs.Drawing.{null_sender};
ghost use Rattle.addr_route.specs.Senders.{Sends};

use crate::law::one_sender;
use addr_tokens::join;
use mail_base::{Config, Macros, Mailer, NoMemory, Text, without_angles};
use map_tables::Maps;
use ruleset_run::{Refusal, passed, sender_sets};
use std::alloc::Global;

/// The sender that a mailer is given for the sender of a message (Sendmail Operation Guide, R and
/// S: rewriting rules; M: define mailer): behind sets 3, 1, the mailer's own and set 4, without
/// blanks. `<>` is the empty text, and an address whose rewriting is refused stays as it is
/// without its brackets.
pub fn sender_for(
    alloc: Global,
    config: &Config,
    maps: &Maps,
    macros: &Macros,
    mailer: &Mailer,
    sender: &Text,
) -> Result<Text, NoMemory>
    ensures sender { IfOk result (Sends config.now maps.now macros.now mailer.now sender.now) }
    ensures only { (text : List ℕ) → Sends config.now maps.now macros.now mailer.now sender.now text
        → IfOk result (λ given. given ≡ text) }
{
    // A law: a mailer has one sender.
    one_sender();
    sent(alloc, config, maps, macros, mailer, sender)
}

fn sent(
    alloc: Global,
    config: &Config,
    maps: &Maps,
    macros: &Macros,
    mailer: &Mailer,
    sender: &Text,
) -> Result<Text, NoMemory>
    ensures { IfOk result (Sends config.now maps.now macros.now mailer.now sender.now) }
{
    if is_null(sender.bytes()) {
        return Ok(Text::new(alloc));
    }
    let sets = sender_sets(alloc, mailer)?;
    match passed(alloc, config, maps, macros, sets.items(), sender) {
        Ok(tokens) => join(alloc, &tokens, None),
        Err(Refusal::Because(_cause)) => Text::of(alloc, without_angles(sender.bytes())),
        Err(Refusal::NoMemory) => Err(NoMemory),
    }
}

fn is_null(sender: &[u8]) -> bool
    ensures { result ≡ bytes_eq sender.now null_sender }
{
    sender == b"<>".as_slice()
}
