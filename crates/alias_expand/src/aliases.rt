ghost use Rattle.std.specs.Prelude.{◌≡◌, ◌++◌, ◌<◌, ◌≤◌, ◌^◌, [], All, None, true, IfErr, IfSome, OnOk, OnErr, length};
ghost use Rattle.std.specs.Option.{option_copied};
ghost use Rattle.alias_expand.specs.Aliases.{ExplainsRefusal, file_aliases, first_refused, members_named};
ghost use Rattle.alias_expand.specs.Aliases as spec;
ghost use Rattle.mail_base.specs.Places.{IsIndexed, IsIndexedTo, Keeps};
ghost use Rattle.alias_expand.specs.Members.{IsMember};
ghost use Rattle.alias_expand.specs.inner.AliasPlaces.{HasMembers};

use crate::alias_line::file_aliases;
use crate::{AliasFault, Member};
use mail_base::{Named, NoMemory, Places, Seq, Text};
use std::alloc::Global;
use std::marker::Model;
use std::mem;

/// A line of an alias file.
#[derive(Drop)]
pub struct Alias {
    /// The name without its double quotes.
    pub name: Text,
    pub members: Seq<Member>,
}

impl Named for Alias {
    ghost has_name = { spec.has_name };

    fn has_name(&self, name: &Text) -> bool {
        name.is_folded(&self.name)
    }
}

/// The aliases of alias files. A contract sees it as the list of their lines, in order.
pub struct Aliases {
    lines: Seq<Alias>,
    /// The places of the first lines of names.
    places: Places,
}

// Written out, since a caller's proof goes through the parts of a derived drop at each way out.
impl Drop for Aliases {
    fn drop(self) {
        let Aliases {
            lines: _,
            places: _,
        } = self;
    }
}

impl Model for Aliases {
    ghost use Rattle.std.specs.Prelude.{List};
    ghost use Rattle.alias_expand.specs.declared.aliases.Alias.{Alias};
    ghost use Rattle.alias_expand.specs.inner.AliasPlaces.{IsKept};

    ghost Value = { List Alias };

    ghost view = { λ a. a.lines };

    ghost invariant = { λ a. IsKept a.lines a.places };
}

impl Aliases {
    /// No aliases. It takes no memory.
    pub fn new(alloc: Global) -> Aliases
        ensures { result ≡ [] }
    {
        Aliases {
            lines: Seq::new(alloc),
            places: Places::new(alloc),
        }
    }

    /// Puts the lines of an alias file behind those that are there. It is refused at its first line
    /// that is a continuation with no line before it, that has no colon, no name or no member, or
    /// whose members can't be cut into tokens, angles aside. After an error nothing is changed
    /// (Sendmail Installation and Operation Guide, "The Alias Database").
    pub fn read(&mut self, text: &Text) -> Result<(), AliasFault>
        requires short { length text.now < 2 ^ 32 }
        ensures ok { OnOk result (self.new ≡ self.old ++ file_aliases text.now) }
        ensures whole { OnOk result (first_refused text.now ≡ None) }
        ensures refused { IfErr result (ExplainsRefusal text.now) }
        ensures err { OnErr result (self.new ≡ self.old) }
    {
        let aliases = file_aliases(self.lines.allocator(), text.bytes())?;
        put(&mut self.lines, &mut self.places, aliases)?;
        Ok(())
    }

    /// The members of the first line with a name, without ASCII case. It takes no memory. It is
    /// found by the name's hash; names whose hashes meet stand in one list, which is walked, and no
    /// clause bounds its length.
    pub fn members(&self, name: &Text) -> Option<&Seq<Member>>
        ensures members { option_copied result ≡ members_named name.now self.now }
        ensures each { IfSome result (λ members. All IsMember members.now) }
    {
        match self.places.first(self.lines.items(), name) {
            Some(alias) => Some(&alias.members),
            None => None,
        }
    }

    /// A fact alone: the members of each line are on one line, and their addresses aren't empty.
    pub(crate) fn have_members(&self)
        ensures { All HasMembers self.now }
    {
        // Only what the type of its lines keeps is used.
        let _ = &self.lines;
    }
}

// Puts lines behind those that are there, and holds the places of their names. After `NoMemory` the
// lines are as before, and those of more names may be held.
fn put(lines: &mut Seq<Alias>, places: &mut Places, more: Seq<Alias>) -> Result<(), NoMemory>
    requires { IsIndexed spec.has_name lines.old places.old }
    ensures ok { OnOk result (lines.new ≡ lines.old ++ more) }
    ensures err { OnErr result (lines.new ≡ lines.old) }
    ensures indexed { IsIndexed spec.has_name lines.new places.new }
{
    let before = lines.len();
    append(lines, more)?;
    match hold_from(places, lines.items(), before) {
        Ok(()) => Ok(()),
        Err(NoMemory) => {
            lines.truncate(before);
            Err(NoMemory)
        }
    }
}

// Puts lines behind others. After `NoMemory` these are as before.
fn append(lines: &mut Seq<Alias>, more: Seq<Alias>) -> Result<(), NoMemory>
    ensures ok { OnOk result (lines.new ≡ lines.old ++ more) }
    ensures err { OnErr result (lines.new ≡ lines.old) }
{
    let mut items = mem::replace(lines, Seq::new(lines.allocator())).into_vec();
    let done = items.append(&mut more.into_vec());
    *lines = Seq::from_vec(items);
    done?;
    Ok(())
}

// Holds the places of the names of the lines from this place on.
fn hold_from(places: &mut Places, lines: &[Alias], start: usize) -> Result<(), NoMemory>
    requires within { start ≤ length lines.now }
    ensures keeps { Keeps places.old places.new }
    ensures held { OnOk result
        (IsIndexedTo spec.has_name start lines.now places.old
        → IsIndexed spec.has_name lines.now places.new) }
{
    let mut place = start;
    'lines: while place < lines.len() {
        let line = &lines[place];
        places.hold_first(lines, place, &line.name)?;
        place += 1;
    }
    Ok(())
}
