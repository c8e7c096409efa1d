ghost use Rattle.std.specs.Prelude.{◌≡◌, IfErr, IfOk};
ghost use Rattle.mail_base.specs.Drawing.{AreRows};
ghost use Rattle.mail_base.specs.Texts.{IsAddress, IsBracketed};
ghost use Rattle.mail_edge.specs.Asking.{Asks};
ghost use Rattle.alias_expand.specs.Rows.{Expands, HoldsOf, IsTellable, is_files_fault};
ghost use Rattle.mail_judge.specs.Judged.{site_in};

use alias_expand::{Aliases, ExpandRefusal, Homes, expand};
use mail_base::{Config, Draw, Macros, Seq, Text};
use mail_edge::Files;
use map_tables::Maps;
use std::alloc::Global;
use std::marker::Model;

/// What a judgement stands on beside files.
#[derive(Drop)]
pub struct Grounds<'a> {
    pub(crate) config: &'a Config,
    pub(crate) maps: &'a Maps,
    pub(crate) aliases: &'a Aliases,
    pub(crate) homes: &'a Homes,
}

impl<'a> Model for Grounds<'a> {
    ghost use Rattle.mail_judge.specs.Judged.{Grounds as TheGrounds};

    ghost Value = { TheGrounds };

    ghost view = { λ g. record {
      config = g.config.now;
      maps = g.maps.now;
      aliases = g.aliases.now;
      homes = g.homes.now;
    } };
}

impl<'a> Grounds<'a> {
    /// A configuration, its maps, aliases, and homes of users. It takes no memory.
    pub fn new(
        config: &'a Config,
        maps: &'a Maps,
        aliases: &'a Aliases,
        homes: &'a Homes,
    ) -> Grounds<'a>
        ensures { result ≡ record {
          config = config.now;
          maps = maps.now;
          aliases = aliases.now;
          homes = homes.now;
        } }
    {
        Grounds {
            config,
            maps,
            aliases,
            homes,
        }
    }

    /// Its configuration.
    pub fn config(&self) -> &Config
        ensures { result.now ≡ self.now.config }
    {
        self.config
    }

    /// The maps of its configuration.
    pub fn maps(&self) -> &Maps
        ensures { result.now ≡ self.now.maps }
    {
        self.maps
    }

    /// The rows that an address has with this sender, or why it has none, as its aliases say
    /// ([`alias_expand::expand`]).
    pub fn expand<F: Files>(
        &self,
        alloc: Global,
        macros: &Macros,
        files: &mut F,
        address: &Text,
        sender: &Text,
    ) -> Result<Seq<Draw>, ExpandRefusal>
        ensures rows { HoldsOf result (Expands (site_in self.now macros.now)
            (F.seen files.old).map address.now sender.now) }
        ensures forms { IsAddress address.now → IsBracketed sender.now → IfOk result AreRows }
        ensures refusal { IfErr result IsTellable }
        ensures asks { Asks (F.seen files.old) (F.seen files.new) (is_files_fault result) }
    {
        expand(
            alloc,
            self.aliases,
            self.homes,
            self.config,
            self.maps,
            macros,
            files,
            address,
            sender,
        )
    }
}
