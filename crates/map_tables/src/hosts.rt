ghost use Rattle.std.specs.Prelude.{◌≡◌, ◌++◌, IfOk, OnOk, map};
ghost use Rattle.std.specs.List.{list_any};
ghost use Rattle.std.specs.Option.{option_to_list};
ghost use Rattle.std.specs.Str.{str_eq_ignore_ascii_case};
ghost use Rattle.map_tables.specs.Hosts.{before_comment, has_name, host_line, host_lines, host_of};

use bstr::ByteSlice;
use mail_base::{Named, NoMemory, Seq, Text, split_line, texts_of, words};
use std::alloc::Global;

/// A line of the host table.
#[derive(Drop)]
pub struct HostLine {
    pub address: Text,
    /// The name that a look-up of any of its names gives.
    pub name: Text,
    pub aliases: Seq<Text>,
}

impl Named for HostLine {
    ghost has_name = { has_name };

    fn has_name(&self, name: &Text) -> bool {
        name.is_folded(&self.name) || is_among(name, self.aliases.items())
    }
}

fn is_among(name: &Text, names: &[Text]) -> bool
    ensures { result ≡ list_any (str_eq_ignore_ascii_case name.now) names.now }
{
    names.iter().any(|other| name.is_folded(other))
}

pub(crate) fn host_lines(alloc: Global, text: &[u8]) -> Result<Seq<HostLine>, NoMemory>
    ensures { IfOk result (λ hosts. hosts ≡ host_lines text.now) }
{
    let mut hosts = Seq::new(alloc);
    let mut rest = text;
    'lines: while !rest.is_empty() {
        let (line, after) = split_line(rest);
        put(&mut hosts, host_line(alloc, line)?)?;
        rest = after;
    }
    Ok(hosts)
}

// Puts what a line says at the end.
fn put(hosts: &mut Seq<HostLine>, host: Option<HostLine>) -> Result<(), NoMemory>
    ensures { OnOk result (hosts.new ≡ hosts.old ++ option_to_list host) }
{
    match host {
        Some(host) => hosts.push(host),
        None => Ok(()),
    }
}

fn host_line(alloc: Global, line: &[u8]) -> Result<Option<HostLine>, NoMemory>
    ensures { IfOk result (λ host. host ≡ host_line line.now) }
{
    let words = words(alloc, before_comment(line))?;
    host_of(alloc, words.as_slice())
}

/// The text of a line before its comment, which `#` begins.
pub fn before_comment(line: &[u8]) -> &[u8]
    ensures { result.now ≡ before_comment line.now }
{
    match line.find_byte(b'#') {
        Some(end) => &line[..end],
        None => line,
    }
}

fn host_of(alloc: Global, words: &[&[u8]]) -> Result<Option<HostLine>, NoMemory>
    ensures { IfOk result (λ host. host ≡ host_of (map (λ word. word.now) words.now)) }
{
    match words {
        [address, name, aliases @ ..] => Ok(Some(HostLine {
            address: Text::of(alloc, address)?,
            name: Text::of(alloc, name)?,
            aliases: texts_of(alloc, aliases)?,
        })),
        _ => Ok(None),
    }
}
