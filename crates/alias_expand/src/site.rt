ghost use Rattle.std.specs.Prelude.{◌≡◌, ◌==◌, ◌++◌, IfOk, option_map, codes};
ghost use Rattle.std.specs.List.{list_any};
ghost use Rattle.std.specs.Option.{option_copied};
ghost use Rattle.addr_route.specs.Routes.{IsBounded};
ghost use Rattle.alias_expand.specs.Members.{IsMember};
ghost use Rattle.alias_expand.specs.Rows.{RoutesTo, alias_members, escaped, forward_file, has_mailer_flag, is_escaped, is_left};
ghost use Rattle.alias_expand.specs.Triples.{is_same};

use crate::{Aliases, Homes, Member};
use addr_route::route;
use mail_base::{Config, Macros, NoMemory, Resolved, Seq, Text, Triple};
use map_tables::Maps;
use std::alloc::Global;
use std::marker::Model;

/// What rows stand on.
#[derive(Drop)]
pub(crate) struct Site<'a> {
    pub alloc: Global,
    pub aliases: &'a Aliases,
    pub homes: &'a Homes,
    pub config: &'a Config,
    pub maps: &'a Maps,
    pub macros: &'a Macros,
}

impl<'a> Model for Site<'a> {
    ghost use Rattle.alias_expand.specs.Rows.{Site as TheSite};

    ghost Value = { TheSite };

    ghost view = { λ s. record {
      aliases = s.aliases.now;
      homes = s.homes.now;
      config = s.config.now;
      maps = s.maps.now;
      macros = s.macros.now;
    } };
}

impl Site<'_> {
    /// Where an address goes.
    pub(crate) fn route(&self, text: &Text, leaf: bool) -> Result<Resolved, NoMemory>
        ensures route { IfOk result (RoutesTo self.now text.now leaf) }
        ensures bounded { IfOk result IsBounded }
    {
        route(self.alloc, self.config, self.maps, self.macros, text, leaf)
    }

    /// Whether the mailer of a triple has a flag.
    pub(crate) fn has_mailer_flag(&self, flag: u8, triple: &Triple) -> bool
        ensures { result ≡ has_mailer_flag self.now flag triple.now }
    {
        match self.config.mailer(&triple.mailer) {
            Some(mailer) => has_flag(mailer.flags.bytes(), flag),
            None => false,
        }
    }

    /// The members of the alias of an address.
    pub(crate) fn alias_members(&self, text: &Text, triple: &Triple) -> Option<&Seq<Member>>
        ensures { option_copied result ≡ alias_members self.now text.now triple.now }
    {
        if is_escaped(text) || !self.has_mailer_flag(b'A', triple) {
            return None;
        }
        self.aliases.members(&triple.user)
    }

    /// The forward file of an address, if it is there.
    pub(crate) fn forward_file(
        &self,
        text: &Text,
        triple: &Triple,
        resolved: &Resolved,
    ) -> Result<Option<Text>, NoMemory>
        ensures { IfOk result
            (λ file. file ≡ forward_file self.now text.now triple.now resolved.now) }
    {
        if is_escaped(text) || !is_left(triple, resolved) || !self.has_mailer_flag(b'w', triple) {
            return Ok(None);
        }
        forward_in(self.alloc, self.homes.home(&triple.user))
    }
}

fn has_flag(flags: &[u8], flag: u8) -> bool
    ensures { result ≡ list_any (λ other. other == flag) flags.now }
{
    flags.iter().any(|other| *other == flag)
}

fn forward_in(alloc: Global, home: Option<&Text>) -> Result<Option<Text>, NoMemory>
    ensures { IfOk result
        (λ file. file ≡ option_map (λ path. path ++ codes "/.forward") (option_copied home.entry)) }
{
    let Some(home) = home else {
        return Ok(None);
    };
    let mut file = Text::of(alloc, home.bytes())?;
    file.extend(b"/.forward")?;
    Ok(Some(file))
}

// Whether a backslash stands in front.
fn is_escaped(text: &Text) -> bool
    ensures { result ≡ is_escaped text.now }
{
    text.bytes().first() == Some(&b'\\')
}

/// The text with a backslash in front.
pub(crate) fn escaped(alloc: Global, text: &Text) -> Result<Text, NoMemory>
    ensures { IfOk result (λ given. given ≡ escaped text.now) }
{
    if is_escaped(text) {
        return Text::of(alloc, text.bytes());
    }
    let mut given = Text::of(alloc, b"\\")?;
    given.extend(text.bytes())?;
    Ok(given)
}

// Whether the triple of an address stays under set 5.
fn is_left(triple: &Triple, resolved: &Resolved) -> bool
    ensures { result ≡ is_left triple.now resolved.now }
{
    match resolved {
        Resolved::Goes(other) => is_same(triple, other),
        Resolved::Refuses(_) => false,
    }
}

/// Whether two triples are equal.
pub(crate) fn is_same(one: &Triple, another: &Triple) -> bool
    ensures { result ≡ is_same one.now another.now }
{
    one.mailer == another.mailer && one.host == another.host && one.user == another.user
}
