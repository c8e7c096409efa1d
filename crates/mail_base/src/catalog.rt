ghost use Rattle.std.specs.Prelude.{◌≡◌, ◌↔◌, [], ℕ, List, None, Some, IsTrue, OnOk, OnErr, length, slice_get};
ghost use Rattle.std.specs.Borrow.{sem};
ghost use Rattle.std.specs.Option.{option_copied, option_copied_mut, option_map};
ghost use Rattle.mail_base.specs.Catalogs.{value_at, value_like, with_value, without_name, SetsValue};
ghost use Rattle.mail_base.specs.Lending.{LendsValue};

use crate::{NoMemory, Text, TryCopy};
use indexmap::IndexMap;
use std::alloc::Global;
use std::marker::Model;

/// Values by their names, which are compared byte by byte. A contract sees it as the list of its
/// pairs in the order in which the names were first set.
pub struct Catalog<V> {
    entries: IndexMap<Text, V>,
}

// Written out, since a caller's proof goes through the parts of a derived drop at each way out.
impl<V: Drop> Drop for Catalog<V> {
    fn drop(self) {
        let Catalog { entries: _ } = self;
    }
}

impl<V> Model for Catalog<V> {
    ghost use Rattle.std.specs.Prelude.{List, ℕ};

    ghost Value = { List (List ℕ × V) };

    ghost view = { λ c. c.entries.entries };
}

impl<V> Catalog<V> {
    /// The empty catalog. It takes no memory.
    pub fn new(alloc: Global) -> Catalog<V>
        ensures { result ≡ [] }
    {
        Catalog {
            entries: IndexMap::new(alloc),
        }
    }

    pub fn len(&self) -> usize
        ensures { result ≡ length self.now }
    {
        self.entries.len()
    }

    pub fn is_empty(&self) -> bool
        ensures { IsTrue result ↔ (self.now ≡ []) }
    {
        self.entries.is_empty()
    }

    /// The value at a name. It takes no memory.
    pub fn get(&self, name: &Text) -> Option<&V>
        ensures { option_copied result ≡ value_at name.now self.now }
    {
        self.entries.get(name)
    }

    /// The value of the first name that is equal without ASCII case. It takes no memory, and looks
    /// at one name after another.
    pub fn get_like(&self, name: &Text) -> Option<&V>
        ensures { option_copied result ≡ value_like name.now self.now }
    {
        for index in 0..self.entries.len() {
            let (key, value) = self.entries.get_index(index).unwrap();
            if name.is_folded(key) {
                return Some(value);
            }
        }
        None
    }

    /// The pair at a place, counted from 0, or `None` past the end.
    pub fn at(&self, index: usize) -> Option<(&Text, &V)>
        ensures { option_map (λ p. (p.0.now, p.1.now)) result ≡ slice_get self.now index }
    {
        self.entries.get_index(index)
    }

    /// The value at a name, to change in its place. It takes no memory.
    pub fn get_mut(&mut self, name: &Text) -> Option<&mut V>
        ensures* lends { sem 𝓛 (LendsValue V.row self.entry name.now result) }
        ensures value { option_copied_mut result ≡ value_at name.now self.old }
    {
        self.entries.get_mut(name)
    }

    /// What the catalog takes its memory from.
    pub fn allocator(&self) -> Global {
        *self.entries.allocator()
    }
}

impl<V: Drop> Catalog<V> {
    /// Sets the value at a name: a name that is there keeps its place, and a new one goes last.
    /// After `NoMemory` the catalog is as before.
    #[tactic(auto, using(crate::proofs::CatalogLemmas::with_value_sets))]
    pub fn set(&mut self, name: Text, value: V) -> Result<(), NoMemory>
        ensures ok { OnOk result (self.new ≡ with_value name value self.old) }
        ensures sets { OnOk result (SetsValue name (Some value) self.old self.new) }
        ensures err { OnErr result (self.new ≡ self.old) }
    {
        self.entries.insert(name, value)?;
        Ok(())
    }

    /// Takes a name out. It takes no memory.
    pub fn remove(&mut self, name: &Text)
        ensures { self.new ≡ without_name name.now self.old }
    {
        self.entries.shift_remove(name);
    }
}

impl<V: TryCopy> TryCopy for Catalog<V> {
    #[tactic(auto, using(crate::proofs::CatalogLemmas::next_is_new))]
    fn copy(&self) -> Result<Catalog<V>, NoMemory> {
        let mut copied = Catalog::new(self.allocator());
        for index in 0..self.entries.len() {
            let (name, value) = self.entries.get_index(index).unwrap();
            let name = name.copy()?;
            let value = value.copy()?;
            copied.set(name, value)?;
        }
        Ok(copied)
    }
}
