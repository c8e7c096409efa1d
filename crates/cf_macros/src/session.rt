ghost use Rattle.std.specs.Prelude.{◌≡◌, IfOk};
ghost use Rattle.cf_macros.specs.SessionMacros.{macros_with, session_macros};

use mail_base::{Config, Kept, Macros, NoMemory, Text, TryCopy, literal, without_angles};
use std::alloc::Global;

/// The macros that are set in a session whose sender is this path (Sendmail Operation Guide, D:
/// define macro): the configuration's, what is kept of the session, and f, the sender without its
/// angles. Dollar signs of the peer, in f and s, stay.
pub fn session_macros(
    alloc: Global,
    config: &Config,
    kept: &Kept,
    sender: &Text,
) -> Result<Macros, NoMemory>
    ensures { IfOk result (λ macros. macros ≡ session_macros config.now kept.now sender.now) }
{
    macros_with(alloc, &config.macros, kept, sender)
}

/// Macros with what is kept of a session, and with f, its sender without the angles.
pub fn macros_with(
    alloc: Global,
    macros: &Macros,
    kept: &Kept,
    sender: &Text,
) -> Result<Macros, NoMemory>
    ensures { IfOk result (λ all. all ≡ macros_with macros.now kept.now sender.now) }
{
    let sender = literal(alloc, without_angles(sender.bytes()))?;
    let helo = literal(alloc, kept.helo.bytes())?;
    let mut all = macros.copy()?;
    all.define(b"r", &kept.protocol)?;
    all.define(b"s", &helo)?;
    all.define(b"client_addr", &kept.client)?;
    all.define(b"f", &sender)?;
    Ok(all)
}
