ghost use Rattle.std.specs.Prelude.{◌≡◌, ◌∷◌, ◌++◌, IfOk};
ghost use Rattle.std.specs.Option.{option_copied};
ghost use Rattle.std.specs.List.{list_all};
ghost use Rattle.cf_macros.specs.Expansion.{host_name};
ghost use Rattle.alias_expand.specs.Owners.{bracketed, is_bare, is_bare_byte, owner_name, owner_sender, sender_under, sole_bare};
ghost use Rattle.alias_expand.specs.Members.{is_local};

use crate::{Aliases, Member};
use cf_macros::host_name;
use mail_base::{Macros, NoMemory, Text, TryCopy, blanked, is_white};
use std::alloc::Global;

/// The sender of the members of an alias.
pub(crate) fn sender_under(
    alloc: Global,
    aliases: &Aliases,
    macros: &Macros,
    sender: &Text,
    name: &Text,
) -> Result<Text, NoMemory>
    ensures { IfOk result
        (λ given. given ≡ sender_under aliases.now macros.now sender.now name.now) }
{
    if sender.bytes() == b"<>".as_slice() {
        return sender.copy();
    }
    let owner = owner_name(alloc, name)?;
    match aliases.members(&owner) {
        Some(members) => owner_sender(alloc, macros, owner.bytes(), members.items()),
        None => sender.copy(),
    }
}

fn owner_name(alloc: Global, name: &Text) -> Result<Text, NoMemory>
    ensures { IfOk result (λ owner. owner ≡ owner_name name.now) }
{
    let mut owner = Text::of(alloc, b"owner-")?;
    owner.extend(name.bytes())?;
    Ok(owner)
}

// The sender that an owner with these members gives.
fn owner_sender(
    alloc: Global,
    macros: &Macros,
    owner: &[u8],
    members: &[Member],
) -> Result<Text, NoMemory>
    ensures { IfOk result
        (λ given. given ≡ owner_sender owner.now (host_name macros.now) members.now) }
{
    match sole_bare(members) {
        Some(text) => bracketed(alloc, text.bytes()),
        None => owner_at_host(alloc, macros, owner),
    }
}

fn owner_at_host(alloc: Global, macros: &Macros, owner: &[u8]) -> Result<Text, NoMemory>
    ensures { IfOk result (λ given. given ≡ bracketed (owner.now ++ 64 ∷ host_name macros.now)) }
{
    let mut text = Text::of(alloc, owner)?;
    text.push(b'@')?;
    text.extend(host_name(alloc, macros)?.bytes())?;
    bracketed(alloc, text.bytes())
}

// The one member, where it is an address that may be a sender by itself.
fn sole_bare(members: &[Member]) -> Option<&Text>
    ensures { option_copied result ≡ sole_bare members.now }
{
    match members {
        [Member::Address(text)] => {
            if is_bare(text.bytes()) {
                Some(text)
            } else {
                None
            }
        }
        _ => None,
    }
}

// A path in its angles, on one line.
fn bracketed(alloc: Global, text: &[u8]) -> Result<Text, NoMemory>
    ensures { IfOk result (λ path. path ≡ bracketed text.now) }
{
    let mut path = Text::of(alloc, b"<")?;
    for byte in text {
        path.push(blanked(*byte))?;
    }
    path.push(b'>')?;
    Ok(path)
}

// An address that may be a sender by itself.
fn is_bare(text: &[u8]) -> bool
    ensures { result ≡ is_bare text.now }
{
    are_bare(text) && !is_local(text)
}

fn are_bare(text: &[u8]) -> bool
    ensures { result ≡ list_all is_bare_byte text.now }
{
    for byte in text {
        if !is_bare_byte(*byte) {
            return false;
        }
    }
    true
}

fn is_bare_byte(byte: u8) -> bool
    ensures { result ≡ is_bare_byte byte }
{
    !(is_white(byte) || matches!(byte, b'"' | b'\\' | b'(' | b')' | b'<' | b'>'))
}

// A program or a file, by its first byte.
fn is_local(text: &[u8]) -> bool
    ensures { result ≡ is_local text.now }
{
    match text.first() {
        Some(byte) => *byte == b'|' || *byte == b'/',
        None => false,
    }
}
