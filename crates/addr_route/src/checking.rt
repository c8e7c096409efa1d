ghost use Rattle.std.specs.Prelude.{◌≡◌, ◌∷◌, [], IfOk, List, Ok, Option, Result, codes};
ghost use Rattle.mail_base.specs.declared.route.Cause.{Cause as TheCause};
ghost use Rattle.mail_base.specs.declared.token.Token.{Token as TheToken};
ghost use Rattle.mail_base.specs.declared.route.RouteError.{RouteError as TheError};
ghost use Rattle.ruleset_run.specs.Sites.{site_of};
ghost use Rattle.addr_route.specs.Checks.{Checks, IsBoundedIf, verdict, verdict_of};
ghost use Rattle.addr_route.specs.Errors as spec;
ghost use Rattle.ruleset_run.specs.Sets.{Passes};

use crate::aim::{Aim, aim_of};
use crate::error::{answer_error, error_of};
use crate::law::one_check;
use crate::lead::{is_error, is_resolved};
use crate::message::said_by;
use mail_base::{Config, Macros, NoMemory, RouteError, Seq, Text, Token, TryCopy};
use map_tables::Maps;
use ruleset_run::{Refusal, passed};
use std::alloc::Global;
use std::slice;

/// What a check set says of an address (cf/README, check_mail and check_rcpt), which it sees with
/// its brackets: the error that refuses it, or `None`, which accepts it. A set that no S line
/// names accepts, and so do a result that doesn't begin with `$#` and `$#ok`. An error of the
/// run, and another mailer than `error`, are errors of the configuration.
///
/// A refusal has a code from 400 to 599, a status and a text within one line.
pub fn check(
    alloc: Global,
    config: &Config,
    maps: &Maps,
    macros: &Macros,
    set: &Text,
    address: &Text,
) -> Result<Option<RouteError>, NoMemory>
    ensures check { IfOk result (Checks config.now maps.now macros.now set.now address.now) }
    ensures only { (error : Option TheError)
        → Checks config.now maps.now macros.now set.now address.now error
        → IfOk result (λ given. given ≡ error) }
    ensures bounded { IfOk result IsBoundedIf }
{
    // A law: a check has one answer.
    one_check();
    checked(alloc, config, maps, macros, set, address)
}

fn checked(
    alloc: Global,
    config: &Config,
    maps: &Maps,
    macros: &Macros,
    set: &Text,
    address: &Text,
) -> Result<Option<RouteError>, NoMemory>
    ensures { IfOk result (Checks config.now maps.now macros.now set.now address.now) }
{
    match config.book.get(set) {
        Some(_ruleset) => judged(alloc, config, maps, macros, set, address),
        None => Ok(None),
    }
}

fn judged(
    alloc: Global,
    config: &Config,
    maps: &Maps,
    macros: &Macros,
    set: &Text,
    address: &Text,
) -> Result<Option<RouteError>, NoMemory>
    ensures { IfOk result
        (λ error. (answer : Result (List TheToken) TheCause)
        × Passes (site_of config.now maps.now) macros.now (set.now ∷ []) address.now answer
        × (error ≡ verdict answer)) }
{
    match passed(alloc, config, maps, macros, slice::from_ref(set), address) {
        Ok(list) => verdict(alloc, list.items()),
        Err(Refusal::Because(cause)) => Ok(Some(error_of(alloc, cause)?)),
        Err(Refusal::NoMemory) => Err(NoMemory),
    }
}

// What the list says that a check set gave.
fn verdict(alloc: Global, list: &[Token]) -> Result<Option<RouteError>, NoMemory>
    ensures { IfOk result (λ error. error ≡ verdict (Ok list.now)) }
{
    if !is_resolved(list) {
        return Ok(None);
    }
    let aim = aim_of(alloc, list)?;
    verdict_of(alloc, &aim)
}

fn verdict_of(alloc: Global, aim: &Aim) -> Result<Option<RouteError>, NoMemory>
    ensures { IfOk result (λ error. error ≡ verdict_of aim.now) }
{
    if is_ok(&aim.mailer) {
        return Ok(None);
    }
    if is_error(&aim.mailer) {
        return Ok(Some(said_by(alloc, &aim.host, &aim.user)?));
    }
    Ok(Some(answer_error(alloc, &aim.mailer)?))
}

fn is_ok(name: &Text) -> bool
    ensures { result ≡ spec.is_like name.now (codes "ok") }
{
    name.bytes().eq_ignore_ascii_case(b"ok")
}
