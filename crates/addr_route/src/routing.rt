ghost use Rattle.std.specs.Prelude.{◌≡◌, ◌∷◌, [], IfOk, List, Ok, Result, Some, codes};
ghost use Rattle.mail_base.specs.declared.route.Cause.{Cause as TheCause};
ghost use Rattle.mail_base.specs.declared.token.Token.{Token as TheToken};
ghost use Rattle.mail_base.specs.Catalogs.{value_like};
ghost use Rattle.mail_base.specs.declared.route.Resolved.{Resolved as TheResolved};
ghost use Rattle.ruleset_run.specs.Sites.{site_of};
ghost use Rattle.addr_route.specs.Aims.{with_host};
ghost use Rattle.addr_route.specs.Routes.{IsBounded, Lands, Leads, Routes, Turns, program_by};
ghost use Rattle.ruleset_run.specs.Sets.{Passes, Through};
ghost use Rattle.addr_route.specs.inner.Answers.{Tells};
ghost use Rattle.ruleset_run.specs.Refusals.{Meets};

use crate::aim::{Aim, aim_of};
use crate::error::error_of;
use crate::fault::Stop;
use crate::form::{Form, form_of};
use crate::law::one_route;
use crate::lead::{asks_five, five, is_file, is_resolved, lead};
use mail_base::{
    Cause, Config, Macros, Mailer, NoMemory, Resolved, Seq, Text, Token, Triple, TryCopy,
};
use map_tables::Maps;
use ruleset_run::{Refusal, passed, sets_of};
use std::alloc::Global;

/// Where an address goes: a mailer, a host and a user, or the error that refuses it (Sendmail
/// Operation Guide, R and S: rewriting rules; M: define mailer). `leaf` says that no alias stands
/// for the address.
///
/// An address goes through sets 3 and 0, whose result names mailer, host and user behind `$#`,
/// `$@` and `$:`. The user goes through set 2, the mailer's own and set 4, while the macro h is
/// the host; that of a leaf goes through set 5, where the mailer has the flag 5. A program, which
/// begins with a bar, goes to the mailer `prog` by no rules.
///
/// A refusal has a code from 400 to 599, a status and a text within one line.
pub fn route(
    alloc: Global,
    config: &Config,
    maps: &Maps,
    macros: &Macros,
    address: &Text,
    leaf: bool,
) -> Result<Resolved, NoMemory>
    ensures route { IfOk result (Routes config.now maps.now macros.now address.now leaf) }
    ensures only { (resolved : TheResolved)
        → Routes config.now maps.now macros.now address.now leaf resolved
        → IfOk result (λ given. given ≡ resolved) }
    ensures bounded { IfOk result IsBounded }
{
    // A law: an address has one route.
    one_route();
    routed(alloc, config, maps, macros, address, leaf)
}

fn routed(
    alloc: Global,
    config: &Config,
    maps: &Maps,
    macros: &Macros,
    address: &Text,
    leaf: bool,
) -> Result<Resolved, NoMemory>
    ensures { IfOk result (Routes config.now maps.now macros.now address.now leaf) }
{
    let gone = went(alloc, config, maps, macros, address, leaf);
    match gone {
        Ok(triple) => Ok(Resolved::Goes(triple)),
        Err(Stop::Because(cause)) => Ok(Resolved::Refuses(error_of(alloc, cause)?)),
        Err(Stop::Says(error)) => Ok(Resolved::Refuses(error)),
        Err(Stop::NoMemory) => Err(NoMemory),
    }
}

fn went(
    alloc: Global,
    config: &Config,
    maps: &Maps,
    macros: &Macros,
    address: &Text,
    leaf: bool,
) -> Result<Triple, Stop>
    ensures { Tells result (Routes config.now maps.now macros.now address.now leaf) }
{
    let form = form_of(alloc, address)?;
    match form {
        Form::Program(command) => program(alloc, config, command),
        Form::File => Err(Stop::Because(Cause::FileMailer)),
        Form::Plain(text) => by_rules(alloc, config, maps, macros, &text, leaf),
    }
}

// A program goes to the mailer `prog`.
fn program(alloc: Global, config: &Config, command: Text) -> Result<Triple, Stop>
    ensures { Tells result
        (λ resolved. resolved ≡ program_by command (value_like (codes "prog") config.now.mailers)) }
{
    let name = Text::of(alloc, b"prog")?;
    match config.mailer(&name) {
        Some(mailer) => program_triple(alloc, mailer, command),
        None => Err(Stop::Because(Cause::UnknownMailer(name))),
    }
}

fn program_triple(alloc: Global, mailer: &Mailer, command: Text) -> Result<Triple, Stop>
    ensures { Tells result (λ resolved. resolved ≡ program_by command (Some mailer.now)) }
{
    if is_file(mailer) {
        return Err(Stop::Because(Cause::FileMailer));
    }
    let name = mailer.name.copy()?;
    Ok(Triple {
        mailer: name,
        host: Text::new(alloc),
        user: command,
    })
}

// An address goes through sets 3 and 0.
fn by_rules(
    alloc: Global,
    config: &Config,
    maps: &Maps,
    macros: &Macros,
    text: &Text,
    leaf: bool,
) -> Result<Triple, Stop>
    ensures { Tells result
        (λ resolved. (answer : Result (List TheToken) TheCause)
        × Passes (site_of config.now maps.now) macros.now (codes "3" ∷ codes "0" ∷ []) text.now
        answer × Lands config.now maps.now macros.now leaf answer resolved) }
{
    let list = resolved(alloc, config, maps, macros, text)?;
    land(alloc, config, maps, macros, list.items(), leaf)
}

fn resolved(
    alloc: Global,
    config: &Config,
    maps: &Maps,
    macros: &Macros,
    text: &Text,
) -> Result<Seq<Token>, Refusal>
    ensures { Meets result
        (Passes (site_of config.now maps.now) macros.now (codes "3" ∷ codes "0" ∷ []) text.now) }
{
    let sets = sets_of(alloc, b"30")?;
    passed(alloc, config, maps, macros, sets.items(), text)
}

// Where the list leads that sets 3 and 0 gave.
fn land(
    alloc: Global,
    config: &Config,
    maps: &Maps,
    macros: &Macros,
    list: &[Token],
    leaf: bool,
) -> Result<Triple, Stop>
    ensures { Tells result (Lands config.now maps.now macros.now leaf (Ok list.now)) }
{
    if !is_resolved(list) {
        return Err(Stop::Because(Cause::NotResolved));
    }
    let aim = aim_of(alloc, list)?;
    let triple = lead(alloc, config, maps, macros, &aim)?;
    if !asks_five(config, leaf, &aim) {
        return Ok(triple);
    }
    turned(alloc, config, maps, macros, &aim, triple)
}

// What set 5 makes of a leaf's triple.
fn turned(
    alloc: Global,
    config: &Config,
    maps: &Maps,
    macros: &Macros,
    aim: &Aim,
    triple: Triple,
) -> Result<Triple, Stop>
    ensures { Tells result
        (λ resolved. (answer : Result (List TheToken) TheCause)
        × Through (site_of config.now maps.now) (with_host aim.now.host macros.now)
        (codes "5" ∷ []) aim.now.user answer
        × Turns config.now maps.now macros.now triple answer resolved) }
{
    let list = five(alloc, config, maps, macros, aim)?;
    if !is_resolved(list.items()) {
        return Ok(triple);
    }
    let other = aim_of(alloc, list.items())?;
    lead(alloc, config, maps, macros, &other)
}
