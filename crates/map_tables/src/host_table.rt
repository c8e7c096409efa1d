ghost use Rattle.std.specs.Prelude.{◌≡◌, ℕ, List, true, IfOk, OnOk};
ghost use Rattle.std.specs.Option.{option_copied};
ghost use Rattle.mail_base.specs.Places.{IsFirstAt, IsIndexed, Keeps, is_held_for};
ghost use Rattle.map_tables.specs.Hosts.{has_name, host_lines, line_of};

use crate::hosts::{HostLine, host_lines};
use mail_base::{NoMemory, Places, Seq, Text};
use std::alloc::Global;
use std::marker::Model;

/// The lines of the host table, and the places of their names, which are compared without ASCII
/// case. A contract sees it as the list of the lines.
pub(crate) struct HostTable {
    lines: Seq<HostLine>,
    /// The places of the first lines of names.
    places: Places,
}

// Written out, since a caller's proof goes through the parts of a derived drop at each way out.
impl Drop for HostTable {
    fn drop(self) {
        let HostTable {
            lines: _,
            places: _,
        } = self;
    }
}

impl Model for HostTable {
    ghost use Rattle.std.specs.Prelude.{List};
    ghost use Rattle.mail_base.specs.Places.{IsIndexed};
    ghost use Rattle.map_tables.specs.Hosts.{has_name};
    ghost use Rattle.map_tables.specs.declared.hosts.HostLine.{HostLine};

    ghost Value = { List HostLine };

    ghost view = { λ h. h.lines };

    ghost invariant = { λ h. IsIndexed has_name h.lines h.places };
}

impl HostTable {
    pub(crate) fn load(alloc: Global, text: &[u8]) -> Result<HostTable, NoMemory>
        ensures { IfOk result (λ table. table ≡ host_lines text.now) }
    {
        let lines = host_lines(alloc, text)?;
        let mut places = Places::new(alloc);
        hold_lines(&mut places, lines.items())?;
        Ok(HostTable { lines, places })
    }

    /// The first line that has a name, without ASCII case. It takes no memory. It is found by the
    /// name's hash; names whose hashes meet stand in one list, which is walked, and no clause
    /// bounds its length.
    pub(crate) fn line_of(&self, name: &Text) -> Option<&HostLine>
        ensures { option_copied result ≡ line_of name.now self.now }
    {
        self.places.first(self.lines.items(), name)
    }
}

// Holds places for the names of all lines.
fn hold_lines(places: &mut Places, lines: &[HostLine]) -> Result<(), NoMemory>
    ensures { OnOk result (IsIndexed has_name lines.now places.new) }
{
    for (place, line) in lines.iter().enumerate() {
        hold_line(places, lines, place, line)?;
    }
    Ok(())
}

// Holds a place for those names of a line that no line before that place has.
fn hold_line(
    places: &mut Places,
    lines: &[HostLine],
    place: usize,
    line: &HostLine,
) -> Result<(), NoMemory>
    ensures keeps { Keeps places.old places.new }
    ensures held { OnOk result
        ((name : List ℕ) → has_name name line.now ≡ true → IsFirstAt (has_name name) lines.now place
        → is_held_for name place places.new ≡ true) }
{
    places.hold_first(lines, place, &line.name)?;
    for alias in line.aliases.items() {
        places.hold_first(lines, place, alias)?;
    }
    Ok(())
}
