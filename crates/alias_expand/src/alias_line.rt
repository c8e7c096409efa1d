ghost use Rattle.std.specs.Prelude.{◌≡◌, ◌++◌, ◌<◌, ◌^◌, IfErr, IfOk, OnOk, None, length, map};
ghost use Rattle.alias_expand.specs.Aliases as spec;
ghost use Rattle.alias_expand.specs.Aliases.{ExplainsRefusal, file_aliases, first_refused};

use crate::lines::{is_indented, logical_lines};
use crate::members::{push_members, written};
use crate::{Alias, AliasFault};
use addr_tokens::{Separator, any_refused};
use mail_base::{NoMemory, Seq, Text, stripped, without_quotes};
use std::alloc::Global;

/// What the lines of an alias file say, or the first that is refused.
pub(crate) fn file_aliases(alloc: Global, text: &[u8]) -> Result<Seq<Alias>, AliasFault>
    requires { length text.now < 2 ^ 32 }
    ensures ok { IfOk result (λ aliases. aliases ≡ file_aliases text.now) }
    ensures whole { OnOk result (first_refused text.now ≡ None) }
    ensures refused { IfErr result (ExplainsRefusal text.now) }
{
    let lines = logical_lines(alloc, text)?;
    let mut aliases = Seq::new(alloc);
    for line in lines.as_slice() {
        let Some(alias) = alias_of(alloc, line.text.bytes())? else {
            return Err(AliasFault::Refused { line: line.number });
        };
        aliases.push(alias)?;
    }
    Ok(aliases)
}

// What a line says, unless it is refused.
fn alias_of(alloc: Global, line: &[u8]) -> Result<Option<Alias>, NoMemory>
    ensures { IfOk result (λ alias. alias ≡ spec.alias_of line.now) }
{
    let end = Separator::Colon.length_to(line);
    if is_indented(line) || end == line.len() {
        return Ok(None);
    }
    let name = name_of(alloc, &line[..end])?;
    let texts = written(alloc, &line[end + 1..])?;
    alias_by(alloc, name, texts.items())
}

// A name without white space around it and without its double quotes.
fn name_of(alloc: Global, text: &[u8]) -> Result<Text, NoMemory>
    ensures { IfOk result (λ name. name ≡ spec.name_of text.now) }
{
    without_quotes(alloc, stripped(text))
}

// The alias of a name and of members as they are written, unless these are refused.
fn alias_by(alloc: Global, name: Text, texts: &[Text]) -> Result<Option<Alias>, NoMemory>
    ensures { IfOk result (λ alias. alias ≡ spec.alias_by name texts.now) }
{
    if name.is_empty() || texts.is_empty() || any_refused(alloc, texts)? {
        return Ok(None);
    }
    let mut members = Seq::new(alloc);
    push_members(alloc, &mut members, texts)?;
    Ok(Some(Alias { name, members }))
}
