ghost use Rattle.std.specs.Prelude.{◌≡◌, ◌<◌, ◌≤◌, ◌^◌, IfErr, IfOk, IfSome, Some, length};
ghost use Rattle.addr_route.specs.Routes.{IsBounded};
ghost use Rattle.mail_edge.specs.Asking.{Asks};
ghost use Rattle.alias_expand.specs.Members.{file_members};
ghost use Rattle.alias_expand.specs.Rows.{Forwards, HasText, IsTellable, Leads, is_files_fault, under_alias, under_user};
ghost use Rattle.alias_expand.specs.inner.Steps.{Does, IsDeviceFault};

use crate::frame::Opened;
use crate::leaf::leaf;
use crate::owner::sender_under;
use crate::reading::Reading;
use crate::site::Site;
use crate::stand::{Spot, Stand};
use crate::{ExpandRefusal, Member, members_of};
use mail_base::{EdgeFault, NoMemory, Resolved, Seq, Text, Triple, TryCopy};
use mail_edge::{Files, LARGEST_FILE};
use std::alloc::Global;

/// What an address comes to whose triple is met for the first time: the members of an alias, those
/// of a forward file, or a row.
pub(crate) fn lead<F: Files>(
    site: &Site,
    files: &mut F,
    spot: Spot,
    triple: Triple,
    reading: &mut Reading,
) -> Result<Option<Opened>, ExpandRefusal>
    requires { spot.level < 2 ^ 64 }
    ensures leads { Does result reading.new (Leads site.now (F.seen files.old).map
        spot.entry.level spot.entry.sender.now spot.entry.text.now triple reading.old) }
    ensures tellable { IfErr result IsTellable }
    ensures asks { Asks (F.seen files.old) (F.seen files.new) (is_files_fault result) }
{
    if let Some(members) = site.alias_members(spot.text, &triple) {
        return Ok(Some(under_alias(site, spot, triple, members)?));
    }
    let resolved = site.route(spot.text, true)?;
    match site.forward_file(spot.text, &triple, &resolved)? {
        Some(file) => forward(site, files, spot, triple, resolved, &file, reading),
        None => leaf(spot, resolved, reading),
    }
}

// The members of an alias, with the sender that its owner gives.
fn under_alias(
    site: &Site,
    spot: Spot,
    triple: Triple,
    members: &Seq<Member>,
) -> Result<Opened, NoMemory>
    requires { spot.level < 2 ^ 64 }
    ensures { IfOk result (λ opened. (opened.members ≡ members.now)
        × (opened.stand ≡ under_alias site.now spot.entry.level spot.entry.sender.now triple)) }
{
    let sender = sender_under(
        site.alloc,
        site.aliases,
        site.macros,
        spot.sender,
        &triple.user,
    )?;
    let members = members.copy()?;
    Ok(Opened {
        stand: Stand {
            level: spot.level + 1,
            sender,
            namer: triple,
        },
        members,
    })
}

// What an address comes to whose forward file this is, if it is there.
fn forward<F: Files>(
    site: &Site,
    files: &mut F,
    spot: Spot,
    triple: Triple,
    resolved: Resolved,
    file: &Text,
    reading: &mut Reading,
) -> Result<Option<Opened>, ExpandRefusal>
    requires level { spot.level < 2 ^ 64 }
    requires bounded { IsBounded resolved }
    ensures forwards { Does result reading.new (Forwards site.now (F.seen files.old).map
        spot.entry.level spot.entry.sender.now spot.entry.text.now triple resolved reading.old (Some file.now)) }
    ensures tellable { IfErr result IsTellable }
    ensures asks { Asks (F.seen files.old) (F.seen files.new) (is_files_fault result) }
{
    if reading.is_spent() {
        return Err(ExpandRefusal::TooMany);
    }
    let found = read_file(site.alloc, files, file)?;
    reading.files.add(&triple, file)?;
    match found {
        Some(content) => Ok(Some(under_user(site.alloc, spot, triple, &content)?)),
        None => leaf(spot, resolved, reading),
    }
}

// The members of a forward file.
fn under_user(alloc: Global, spot: Spot, triple: Triple, content: &Text) -> Result<Opened, NoMemory>
    requires { spot.level < 2 ^ 64 }
    ensures { IfOk result (λ opened. (opened.members ≡ file_members content.now)
        × (opened.stand ≡ under_user spot.entry.level spot.entry.sender.now triple)) }
{
    let members = members_of(alloc, content)?;
    let sender = spot.sender.copy()?;
    Ok(Opened {
        stand: Stand {
            level: spot.level + 1,
            sender,
            namer: triple,
        },
        members,
    })
}

/// The text of a file, or `None` where there is none.
pub(crate) fn read_file<F: Files>(
    alloc: Global,
    files: &mut F,
    name: &Text,
) -> Result<Option<Text>, ExpandRefusal>
    ensures text { IfOk result (HasText (F.seen files.old).map name.now) }
    ensures refused { IfErr result IsDeviceFault }
    ensures bound { IfOk result (λ text. IfSome text (λ bytes. length bytes ≤ LARGEST_FILE)) }
    ensures asks { Asks (F.seen files.old) (F.seen files.new) (is_files_fault result) }
{
    match files.read(alloc, name) {
        Ok(text) => Ok(text),
        Err(EdgeFault::Failed) => Err(ExpandRefusal::FilesFault),
        Err(EdgeFault::NoMemory) => Err(ExpandRefusal::NoMemory),
    }
}
