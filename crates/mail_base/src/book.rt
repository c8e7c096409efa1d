ghost use Rattle.std.specs.Prelude.{◌≡◌, ◌<◌, ◌∷◌, ◌++◌, [], ℕ, List, true, length, position, set, get_or, OnOk, OnErr};
ghost use Rattle.std.specs.List.{find, list_any};
ghost use Rattle.std.specs.Option.{option_copied};
ghost use Rattle.std.specs.Str.{str_eq_ignore_ascii_case};
ghost use Rattle.mail_base.specs.Rulesets.{Ruled, is_named, with_name, with_rule};
ghost use Rattle.mail_base.specs.Places.{Keeps, is_held_for};

use crate::{Named, NoMemory, Places, Rule, RuleSet, Text, TryCopy};
use std::alloc::Global;
use std::marker::Model;

/// The rulesets, in the order in which they were added, and an index of their names, which are
/// compared without ASCII case. A contract sees it as the list of the rulesets.
pub struct Book {
    sets: Vec<RuleSet>,
    places: Places,
}

// Written out, since a caller's proof goes through the parts of a derived drop at each way out.
impl Drop for Book {
    fn drop(self) {
        let Book { sets: _, places: _ } = self;
    }
}

impl Model for Book {
    ghost use Rattle.std.specs.Prelude.{List};
    ghost use Rattle.mail_base.specs.Rulesets.{Ruled};
    ghost use Rattle.mail_base.specs.inner.Books.{HoldsAll};

    ghost Value = { List Ruled };

    ghost view = { λ b. b.sets.items };

    ghost invariant = { λ b. HoldsAll b.sets.items b.places };
}

impl Book {
    /// No rulesets. It takes no memory.
    pub fn new(alloc: Global) -> Book
        ensures { result ≡ [] }
    {
        Book {
            sets: Vec::new(alloc),
            places: Places::new(alloc),
        }
    }

    /// The rulesets in order.
    pub fn sets(&self) -> &[RuleSet]
        ensures { result.now ≡ self.now }
    {
        &self.sets
    }

    /// Where the first ruleset of a name stands, without ASCII case. It takes no memory, and its
    /// time is that of the name, however many rulesets there are.
    pub fn place_of(&self, name: &Text) -> Option<usize>
        ensures { result ≡ position (is_named name.now) self.now }
    {
        self.places.find(&self.sets, name)
    }

    /// The first ruleset of a name, without ASCII case. It takes no memory, and its time is that
    /// of the name, however many rulesets there are.
    pub fn get(&self, name: &Text) -> Option<&RuleSet>
        ensures { option_copied result ≡ find (is_named name.now) self.now }
    {
        self.places.first(&self.sets, name)
    }

    /// Adds a ruleset at the end. After `NoMemory` the book is as before.
    pub fn push(&mut self, set: RuleSet) -> Result<(), NoMemory>
        ensures ok { OnOk result (self.new ≡ self.old ++ set ∷ []) }
        ensures err { OnErr result (self.new ≡ self.old) }
    {
        let place = self.sets.as_slice().len();
        hold_all(&mut self.places, set.names(), place)?;
        Ok(self.sets.push(set)?)
    }

    /// Adds a rule at the end of the ruleset at a place. After `NoMemory` the book is as before.
    pub fn push_rule(&mut self, place: usize, rule: Rule) -> Result<(), NoMemory>
        requires { place < length self.old }
        ensures ok { OnOk result ((d : Ruled)
            → self.new ≡ set self.old place (with_rule (get_or self.old place d) rule)) }
        ensures err { OnErr result (self.new ≡ self.old) }
    {
        self.sets[place].push(rule)
    }

    /// Gives the ruleset at a place one name more. After `NoMemory` the book is as before.
    pub fn push_name(&mut self, place: usize, name: Text) -> Result<(), NoMemory>
        requires { place < length self.old }
        ensures ok { OnOk result ((d : Ruled)
            → self.new ≡ set self.old place (with_name (get_or self.old place d) name)) }
        ensures err { OnErr result (self.new ≡ self.old) }
    {
        self.places.hold(&name, place)?;
        self.sets[place].push_name(name)
    }
}

// Holds a place for each of these names.
fn hold_all(places: &mut Places, names: &[Text], place: usize) -> Result<(), NoMemory>
    ensures keeps { Keeps places.old places.new }
    ensures held { OnOk result ((name : List ℕ)
        → list_any (λ given. str_eq_ignore_ascii_case given name) names.now ≡ true
        → is_held_for name place places.new ≡ true) }
{
    for name in names {
        places.hold(name, place)?;
    }
    Ok(())
}

impl Named for RuleSet {
    ghost has_name = { is_named };

    fn has_name(&self, name: &Text) -> bool {
        self.is_named(name)
    }
}

impl TryCopy for Book {
    fn copy(&self) -> Result<Book, NoMemory> {
        let mut copied = Book::new(*self.sets.allocator());
        for set in self.sets() {
            copied.push(set.copy()?)?;
        }
        Ok(copied)
    }
}
