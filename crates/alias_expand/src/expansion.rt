ghost use Rattle.std.specs.Prelude.{◌≡◌, List, Result, IfErr, IfOk, IfSome, Some};
ghost use Rattle.mail_base.specs.Texts.{IsAddress, IsBracketed};
ghost use Rattle.mail_base.specs.declared.draw.Draw.{Draw as TheDraw};
ghost use Rattle.mail_edge.specs.Asking.{Asks};
ghost use Rattle.alias_expand.specs.declared.refusal.ExpandRefusal.{ExpandRefusal as TheRefusal};
ghost use Rattle.mail_base.specs.Drawing.{AreRows};
ghost use Rattle.alias_expand.specs.Rows.{Expands, HoldsOf, IsTellable, Starts, is_files_fault, nothing_read, site_of};
ghost use Rattle.alias_expand.specs.inner.Steps.{ComesTo, Does};

use crate::frame::Opened;
use crate::lead::lead;
use crate::reading::Reading;
use crate::site::Site;
use crate::stand::Spot;
use crate::tree::read_members;
use crate::{Aliases, ExpandRefusal, Homes, one_expansion};
use mail_base::{Config, Draw, Macros, Resolved, Seq, Text};
use mail_edge::Files;
use map_tables::Maps;
use std::alloc::Global;

/// The rows of an address with this sender, at least one and at most 10,000 (Sendmail Installation
/// and Operation Guide, "The Alias Database", "Per-User Forwarding"), or why it has none. At most
/// 20,000 files are read, and each that is open is held whole. Memory is taken from `alloc`.
pub fn expand<F: Files>(
    alloc: Global,
    aliases: &Aliases,
    homes: &Homes,
    config: &Config,
    maps: &Maps,
    macros: &Macros,
    files: &mut F,
    address: &Text,
    sender: &Text,
) -> Result<Seq<Draw>, ExpandRefusal>
    ensures rows { HoldsOf result (Expands
        (site_of aliases.now homes.now config.now maps.now macros.now)
        (F.seen files.old).map address.now sender.now) }
    ensures only { IfSome (F.seen files.old).map (λ map. (one : Result (List TheDraw) TheRefusal)
        → Expands (site_of aliases.now homes.now config.now maps.now macros.now) (Some map)
        address.now sender.now one → HoldsOf result (λ other. other ≡ one)) }
    ensures forms { IsAddress address.now → IsBracketed sender.now → IfOk result AreRows }
    ensures refusal { IfErr result IsTellable }
    ensures asks { Asks (F.seen files.old) (F.seen files.new) (is_files_fault result) }
{
    // Laws: an address comes to one outcome, and aliases have members.
    one_expansion();
    aliases.have_members();
    let site = Site {
        alloc,
        aliases,
        homes,
        config,
        maps,
        macros,
    };
    let reading = read(&site, files, address, sender)?;
    if reading.rows.is_empty() {
        return Err(ExpandRefusal::NoOne);
    }
    Ok(reading.rows)
}

// What is read of an address.
fn read<F: Files>(
    site: &Site,
    files: &mut F,
    address: &Text,
    sender: &Text,
) -> Result<Reading, ExpandRefusal>
    ensures reads { HoldsOf result (ComesTo site.now (F.seen files.old).map address.now sender.now) }
    ensures tellable { IfErr result IsTellable }
    ensures asks { Asks (F.seen files.old) (F.seen files.new) (is_files_fault result) }
{
    let mut reading = Reading::new(site.alloc);
    let started = start(site, files, address, sender, &mut reading)?;
    match started {
        Some(opened) => {
            read_members(site, files, opened, &mut reading)?;
            Ok(reading)
        }
        None => Ok(reading),
    }
}

// What the address itself comes to.
fn start<F: Files>(
    site: &Site,
    files: &mut F,
    address: &Text,
    sender: &Text,
    reading: &mut Reading,
) -> Result<Option<Opened>, ExpandRefusal>
    requires { reading.old ≡ nothing_read }
    ensures starts { Does result reading.new
        (Starts site.now (F.seen files.old).map address.now sender.now) }
    ensures tellable { IfErr result IsTellable }
    ensures asks { Asks (F.seen files.old) (F.seen files.new) (is_files_fault result) }
{
    let resolved = site.route(address, false)?;
    match resolved {
        Resolved::Refuses(error) => Err(ExpandRefusal::Refuses(error)),
        Resolved::Goes(triple) => {
            reading.met.add(&triple)?;
            let spot = Spot {
                level: 0,
                sender,
                text: address,
            };
            lead(site, files, spot, triple, reading)
        }
    }
}
