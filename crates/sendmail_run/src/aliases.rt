ghost use Rattle.std.specs.Prelude.{◌≡◌, ◌<◌, ◌^◌, IfSome, Ok, Some, false, length};
ghost use Rattle.mail_edge.specs.Asking.{Asks};
ghost use Rattle.mail_edge.specs.Seen.{text_of};
ghost use Rattle.sendmail_run.specs.AliasFiles.{homes_in, names_by};
ghost use Rattle.sendmail_run.specs.inner.AliasLoading.{Gives, Takes, aliases_by, is_files_fault};

use crate::fault::AliasesFault;
use alias_expand::{AliasFault, Aliases, Homes};
use mail_base::{Config, EdgeFault, Text, TryCopy};
use mail_edge::Files;
use std::alloc::Global;

/// The aliases of a configuration, and the homes of users.
#[derive(Drop)]
pub struct Names {
    pub aliases: Aliases,
    pub homes: Homes,
}

/// The aliases and homes of a configuration: its alias files are read in their order, the lines of
/// each being tried before the next is read, and then the file of homes, which may be absent.
pub fn load_names<F: Files>(
    alloc: Global,
    config: &Config,
    files: &mut F,
) -> Result<Names, AliasesFault>
    ensures told { IfSome (F.seen files.old).map (λ map. Gives result (names_by map config.now)) }
    ensures asks { Asks (F.seen files.old) (F.seen files.new) (is_files_fault result) }
{
    let aliases = aliases_of(alloc, config.options.alias_files.items(), files)?;
    let text = homes_text(alloc, &config.options.homes_file, files)?;
    let homes = Homes::read(alloc, &text)?;
    Ok(Names { aliases, homes })
}

// The lines of alias files, in order.
fn aliases_of<F: Files>(
    alloc: Global,
    names: &[Text],
    files: &mut F,
) -> Result<Aliases, AliasesFault>
    ensures told { IfSome (F.seen files.old).map (λ map. Gives result (aliases_by map names.now)) }
    ensures asks { Asks (F.seen files.old) (F.seen files.new) (is_files_fault result) }
{
    let mut aliases = Aliases::new(alloc);
    for name in names {
        take_file(alloc, name, files, &mut aliases)?;
    }
    Ok(aliases)
}

// Reads an alias file, and puts its lines behind those that are there.
fn take_file<F: Files>(
    alloc: Global,
    name: &Text,
    files: &mut F,
    aliases: &mut Aliases,
) -> Result<(), AliasesFault>
    ensures told { IfSome (F.seen files.old).map
        (λ map. Takes name.now (text_of map name.now) aliases.old aliases.new result) }
    ensures asks { Asks (F.seen files.old) (F.seen files.new) (is_files_fault result) }
{
    match files.read(alloc, name) {
        Ok(Some(text)) => put_lines(name, &text, aliases),
        Ok(None) => Err(AliasesFault::NoFile(name.copy()?)),
        Err(EdgeFault::Failed) => Err(AliasesFault::FilesFault),
        Err(EdgeFault::NoMemory) => Err(AliasesFault::NoMemory),
    }
}

// Puts the lines of an alias file of that name behind those that are there.
fn put_lines(name: &Text, text: &Text, aliases: &mut Aliases) -> Result<(), AliasesFault>
    requires { length text.now < 2 ^ 32 }
    ensures takes { Takes name.now (Some text.now) aliases.old aliases.new result }
    ensures calm { is_files_fault result ≡ false }
{
    match aliases.read(text) {
        Ok(()) => Ok(()),
        Err(AliasFault::Refused { line }) => {
            let name = name.copy()?;
            Err(AliasesFault::Refused { name, line })
        }
        Err(AliasFault::NoMemory) => Err(AliasesFault::NoMemory),
    }
}

// The text of the file of homes, which is empty where none is named or there is no such file.
fn homes_text<F: Files>(
    alloc: Global,
    name: &Option<Text>,
    files: &mut F,
) -> Result<Text, AliasesFault>
    ensures told { IfSome (F.seen files.old).map
        (λ map. Gives result (Ok (homes_in map name.now))) }
    ensures asks { Asks (F.seen files.old) (F.seen files.new) (is_files_fault result) }
{
    let Some(name) = name else {
        return Ok(Text::new(alloc));
    };
    match files.read(alloc, name) {
        Ok(Some(text)) => Ok(text),
        Ok(None) => Ok(Text::new(alloc)),
        Err(EdgeFault::Failed) => Err(AliasesFault::FilesFault),
        Err(EdgeFault::NoMemory) => Err(AliasesFault::NoMemory),
    }
}
