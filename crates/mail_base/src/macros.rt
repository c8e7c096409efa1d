ghost use Rattle.std.specs.Prelude.{◌≡◌, [], Some, OnOk, OnErr};
ghost use Rattle.std.specs.Option.{option_copied};
ghost use Rattle.mail_base.specs.Catalogs.{value_at, with_value, without_name, SetsValue};

use crate::{Catalog, NoMemory, Text, TryCopy};
use std::alloc::Global;
use std::marker::Model;

/// The macros with their values, which are not expanded. A contract sees it as the list of their
/// pairs in the order in which they were first set.
#[derive(Drop)]
pub struct Macros {
    values: Catalog<Text>,
}

impl Model for Macros {
    ghost use Rattle.std.specs.Prelude.{List, ℕ};

    ghost Value = { List (List ℕ × List ℕ) };

    ghost view = { λ m. m.values };
}

impl Macros {
    /// No macros. It takes no memory.
    pub fn new(alloc: Global) -> Macros
        ensures { result ≡ [] }
    {
        Macros {
            values: Catalog::new(alloc),
        }
    }

    /// The value of a macro, or `None` where it isn't set. It takes no memory.
    pub fn get(&self, name: &Text) -> Option<&Text>
        ensures { option_copied result ≡ value_at name.now self.now }
    {
        self.values.get(name)
    }

    /// Sets a macro; all others stay. After `NoMemory` the macros are as before.
    pub fn set(&mut self, name: &Text, value: &Text) -> Result<(), NoMemory>
        ensures ok { OnOk result (self.new ≡ with_value name.now value.now self.old) }
        ensures sets { OnOk result (SetsValue name.now (Some value.now) self.old self.new) }
        ensures err { OnErr result (self.new ≡ self.old) }
    {
        let name = name.copy()?;
        let value = value.copy()?;
        self.values.set(name, value)
    }

    /// Sets a macro whose name is given by its bytes, as [`Macros::set`] does.
    pub fn define(&mut self, name: &[u8], value: &Text) -> Result<(), NoMemory>
        ensures ok { OnOk result (self.new ≡ with_value name.now value.now self.old) }
        ensures err { OnErr result (self.new ≡ self.old) }
    {
        let name = Text::of(self.values.allocator(), name)?;
        let value = value.copy()?;
        self.values.set(name, value)
    }

    /// Takes a macro out. It takes no memory.
    pub fn unset(&mut self, name: &Text)
        ensures { self.new ≡ without_name name.now self.old }
    {
        self.values.remove(name);
    }

    /// The macros in the order in which they were first set, each with its value.
    pub fn values(&self) -> &Catalog<Text>
        ensures { result.now ≡ self.now }
    {
        &self.values
    }
}

impl TryCopy for Macros {
    fn copy(&self) -> Result<Macros, NoMemory> {
        Ok(Macros {
            values: self.values.copy()?,
        })
    }
}
