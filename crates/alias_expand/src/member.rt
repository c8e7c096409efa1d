ghost use Rattle.std.specs.Prelude.{◌≡◌, ◌<◌, ◌^◌, IfErr, IfOk, false, true};
ghost use Rattle.mail_base.specs.declared.route.Resolved.{Resolved as TheResolved};
ghost use Rattle.mail_edge.specs.Asking.{Asks};
ghost use Rattle.alias_expand.specs.Members.{file_members};
ghost use Rattle.alias_expand.specs.Rows.{Comes, Includes, IsTellable, Meets, RoutesTo, added, is_deep, is_files_fault, is_itself, row_at, with_self};
ghost use Rattle.alias_expand.specs.Rows as spec;
ghost use Rattle.alias_expand.specs.inner.Steps.{Does, Met};

use crate::frame::Opened;
use crate::lead::{lead, read_file};
use crate::leaf::add_row;
use crate::reading::Reading;
use crate::site::{Site, escaped, is_same};
use crate::stand::{Spot, Stand};
use crate::{ExpandRefusal, Member, members_of};
use mail_base::{NoMemory, Resolved, Text, Triple, TryCopy};
use mail_edge::Files;
use std::alloc::Global;

/// What a member comes to: nothing more than was read with it, as it is a row or is left out, or
/// the members that are read in its place. Its level is tested first.
pub(crate) fn member<F: Files>(
    site: &Site,
    files: &mut F,
    stand: &Stand,
    member: &Member,
    reading: &mut Reading,
) -> Result<Option<Opened>, ExpandRefusal>
    ensures comes { Does result reading.new
        (Comes site.now (F.seen files.old).map stand.now reading.old member.now) }
    ensures tellable { IfErr result IsTellable }
    ensures asks { Asks (F.seen files.old) (F.seen files.new) (is_files_fault result) }
{
    if is_deep(site, stand) {
        return Err(ExpandRefusal::TooDeep);
    }
    match member {
        Member::Include(file) => include(site, files, stand, file, reading),
        Member::Address(text) => meet(site, files, stand, text, reading),
    }
}

// Whether members stand deeper than levels go.
fn is_deep(site: &Site, stand: &Stand) -> bool
    ensures is { result ≡ is_deep site.now stand.now }
    ensures low { result ≡ false → stand.now.level < 2 ^ 64 }
{
    stand.level > u128::from(site.config.options.max_alias_recursion)
}

// What an include file comes to.
fn include<F: Files>(
    site: &Site,
    files: &mut F,
    stand: &Stand,
    file: &Text,
    reading: &mut Reading,
) -> Result<Option<Opened>, ExpandRefusal>
    ensures includes { Does result reading.new
        (Includes site.now (F.seen files.old).map stand.now reading.old file.now) }
    ensures tellable { IfErr result IsTellable }
    ensures asks { Asks (F.seen files.old) (F.seen files.new) (is_files_fault result) }
{
    if reading.files.has(&stand.namer, file)? {
        return Ok(None);
    }
    if reading.is_spent() {
        return Err(ExpandRefusal::TooMany);
    }
    match read_file(site.alloc, files, file)? {
        Some(content) => {
            reading.files.add(&stand.namer, file)?;
            Ok(Some(opened(site.alloc, stand, &content)?))
        }
        None => Err(ExpandRefusal::IncludeAbsent(file.copy()?)),
    }
}

// The members of an include file, which stand where its name does.
fn opened(alloc: Global, stand: &Stand, content: &Text) -> Result<Opened, NoMemory>
    ensures { IfOk result (λ opened. (opened.members ≡ file_members content.now)
        × (opened.stand ≡ stand.now)) }
{
    let members = members_of(alloc, content)?;
    let sender = stand.sender.copy()?;
    let namer = stand.namer.copy()?;
    Ok(Opened {
        stand: Stand {
            level: stand.level,
            sender,
            namer,
        },
        members,
    })
}

// What an address comes to.
fn meet<F: Files>(
    site: &Site,
    files: &mut F,
    stand: &Stand,
    text: &Text,
    reading: &mut Reading,
) -> Result<Option<Opened>, ExpandRefusal>
    requires { stand.now.level < 2 ^ 64 }
    ensures meets { Does result reading.new
        (Meets site.now (F.seen files.old).map stand.now reading.old text.now) }
    ensures tellable { IfErr result IsTellable }
    ensures asks { Asks (F.seen files.old) (F.seen files.new) (is_files_fault result) }
{
    let resolved = site.route(text, false)?;
    match resolved {
        Resolved::Goes(triple) => met(site, files, stand, text, triple, reading),
        Resolved::Refuses(error) => {
            add_row(spot(stand, text), Resolved::Refuses(error), reading)
        }
    }
}

fn spot<'a>(stand: &'a Stand, text: &'a Text) -> Spot<'a>
    ensures level { result.level ≡ stand.now.level }
    ensures sender { result.sender.now ≡ stand.now.sender }
    ensures text { result.text.now ≡ text.now }
{
    Spot {
        level: stand.level,
        sender: &stand.sender,
        text,
    }
}

// What an address comes to that goes to a triple.
fn met<F: Files>(
    site: &Site,
    files: &mut F,
    stand: &Stand,
    text: &Text,
    triple: Triple,
    reading: &mut Reading,
) -> Result<Option<Opened>, ExpandRefusal>
    requires { stand.now.level < 2 ^ 64 }
    ensures meets { Does result reading.new
        (Met site.now (F.seen files.old).map stand.now reading.old text.now triple) }
    ensures tellable { IfErr result IsTellable }
    ensures asks { Asks (F.seen files.old) (F.seen files.new) (is_files_fault result) }
{
    if is_itself(stand, &triple, reading)? {
        return itself(site, stand, text, &triple, reading);
    }
    if reading.met.has(&triple)? {
        return Ok(None);
    }
    reading.met.add(&triple)?;
    lead(site, files, spot(stand, text), triple, reading)
}

// Whether an address is the first that goes where the alias or the user does that names it.
fn is_itself(stand: &Stand, triple: &Triple, reading: &Reading) -> Result<bool, NoMemory>
    ensures { IfOk result (λ is. is ≡ is_itself stand.now triple.now reading.now) }
{
    if !is_same(triple, &stand.namer) {
        return Ok(false);
    }
    Ok(!reading.selves.has(triple)?)
}

// An alias or a user that becomes a row itself, for which no alias stands then.
fn itself(
    site: &Site,
    stand: &Stand,
    text: &Text,
    triple: &Triple,
    reading: &mut Reading,
) -> Result<Option<Opened>, ExpandRefusal>
    ensures comes { Does result reading.new (λ act. (resolved : TheResolved)
        × (RoutesTo site.now (spec.escaped text.now) true resolved
        × (act ≡ added (row_at stand.now.level stand.now.sender (spec.escaped text.now) resolved)
        (with_self triple.now reading.old)))) }
    ensures tellable { IfErr result IsTellable }
    ensures calm { is_files_fault result ≡ false }
{
    let text = escaped(site.alloc, text)?;
    let resolved = site.route(&text, true)?;
    reading.selves.add(triple)?;
    add_row(spot(stand, &text), resolved, reading)
}
