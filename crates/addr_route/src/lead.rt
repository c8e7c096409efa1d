ghost use Rattle.std.specs.Prelude.{◌≡◌, ◌∷◌, [], IfOk, codes};
ghost use Rattle.mail_base.specs.Catalogs.{value_like};
ghost use Rattle.ruleset_run.specs.Filling as filling;
ghost use Rattle.ruleset_run.specs.Sites.{site_of};
ghost use Rattle.addr_route.specs.Aims as spec;
ghost use Rattle.addr_route.specs.Aims.{with_host};
ghost use Rattle.addr_route.specs.Routes.{Leads, LeadsTo};
ghost use Rattle.ruleset_run.specs.Sets.{Through, user_sets};
ghost use Rattle.addr_route.specs.inner.Answers.{Tells};
ghost use Rattle.ruleset_run.specs.Refusals.{Meets};

use crate::aim::Aim;
use crate::fault::Stop;
use crate::message::said_by;
use crate::triple::{has_flag, triple_of};
use mail_base::{
    Cause, Config, Macros, Mailer, Mark, NoMemory, Seq, Text, Token, Triple, TryCopy, literal,
};
use map_tables::Maps;
use ruleset_run::{Refusal, sets_of, through, user_sets};
use std::alloc::Global;

/// Where a mailer, a host and a user lead that the rules gave.
pub fn lead(
    alloc: Global,
    config: &Config,
    maps: &Maps,
    macros: &Macros,
    aim: &Aim,
) -> Result<Triple, Stop>
    ensures { Tells result (Leads config.now maps.now macros.now aim.now) }
{
    if is_error(&aim.mailer) {
        let error = said_by(alloc, &aim.host, &aim.user)?;
        return Err(Stop::Says(error));
    }
    match config.mailer(&aim.mailer) {
        Some(mailer) => lead_to(alloc, config, maps, macros, mailer, aim),
        None => {
            let name = aim.mailer.copy()?;
            Err(Stop::Because(Cause::UnknownMailer(name)))
        }
    }
}

// The same for a mailer that an M line has.
fn lead_to(
    alloc: Global,
    config: &Config,
    maps: &Maps,
    macros: &Macros,
    mailer: &Mailer,
    aim: &Aim,
) -> Result<Triple, Stop>
    ensures { Tells result (LeadsTo config.now maps.now macros.now mailer.now aim.now) }
{
    if is_file(mailer) {
        return Err(Stop::Because(Cause::FileMailer));
    }
    if is_nil(&aim.user) {
        return Err(Stop::Because(Cause::NoUser));
    }
    let user = written(alloc, config, maps, macros, mailer, aim)?;
    let triple = triple_of(alloc, mailer, &aim.host, &user)?;
    Ok(triple)
}

// The user's tokens behind set 2, the mailer's own and set 4. The macro h is the host.
fn written(
    alloc: Global,
    config: &Config,
    maps: &Maps,
    macros: &Macros,
    mailer: &Mailer,
    aim: &Aim,
) -> Result<Seq<Token>, Refusal>
    ensures { Meets result
        (Through (site_of config.now maps.now) (with_host aim.now.host macros.now)
        (user_sets mailer.now) aim.now.user) }
{
    let sets = user_sets(alloc, mailer)?;
    let macros = with_host(alloc, &aim.host, macros)?;
    let user = aim.user.copy()?;
    through(alloc, config, maps, &macros, sets.items(), user)
}

/// What set 5 gives of a leaf's user. The macro h is the host.
pub fn five(
    alloc: Global,
    config: &Config,
    maps: &Maps,
    macros: &Macros,
    aim: &Aim,
) -> Result<Seq<Token>, Refusal>
    ensures { Meets result
        (Through (site_of config.now maps.now) (with_host aim.now.host macros.now)
        (codes "5" ∷ []) aim.now.user) }
{
    let sets = sets_of(alloc, b"5")?;
    let macros = with_host(alloc, &aim.host, macros)?;
    let user = aim.user.copy()?;
    through(alloc, config, maps, &macros, sets.items(), user)
}

/// Whether set 5 is asked of an address.
pub fn asks_five(config: &Config, leaf: bool, aim: &Aim) -> bool
    ensures { result ≡ spec.asks_five config.now.mailers leaf aim.now }
{
    leaf && has_five(config, &aim.mailer)
}

fn has_five(config: &Config, name: &Text) -> bool
    ensures { result ≡ spec.found_flag 53 (value_like name.now config.now.mailers) }
{
    match config.mailer(name) {
        Some(mailer) => has_flag(mailer, b'5'),
        None => false,
    }
}

// The macros, of which h stands for this host.
fn with_host(alloc: Global, host: &Text, macros: &Macros) -> Result<Macros, NoMemory>
    ensures { IfOk result (λ new. new ≡ spec.with_host host.now macros.now) }
{
    let host = literal(alloc, host.bytes())?;
    let name = Text::of(alloc, b"h")?;
    let mut new = macros.copy()?;
    new.set(&name, &host)?;
    Ok(new)
}

/// Whether a list begins with `$#`.
pub fn is_resolved(list: &[Token]) -> bool
    ensures { result ≡ filling.is_resolved list.now }
{
    match list {
        [Token::Sign(Mark::Mailer), ..] => true,
        _ => false,
    }
}

/// Whether it is the mailer `error`.
pub fn is_error(name: &Text) -> bool
    ensures { result ≡ spec.is_error name.now }
{
    name.bytes().eq_ignore_ascii_case(b"error")
}

/// Whether a mailer writes files.
pub fn is_file(mailer: &Mailer) -> bool
    ensures { result ≡ spec.is_file mailer.now }
{
    mailer.path.bytes().eq_ignore_ascii_case(b"[FILE]")
}

fn is_nil(user: &Seq<Token>) -> bool
    ensures { result ≡ spec.is_nil user.now }
{
    match user.items().split_first() {
        Some(_) => false,
        None => true,
    }
}
