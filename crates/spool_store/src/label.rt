ghost use Rattle.std.specs.Prelude.{◌≡◌, length};
ghost use Rattle.mail_base.specs.Names.{name_of};

use mail_base::{Id, Kind, NoMemory, Text};
use std::alloc::Global;
use std::marker::Model;

/// Memory for the name of a file of the queue, which is written over it. A contract sees it as that
/// name.
#[derive(Drop)]
pub struct Label {
    name: Text,
}

impl Model for Label {
    ghost use Rattle.std.specs.Prelude.{◌≡◌, ℕ, List, length};

    ghost Value = { List ℕ };

    ghost view = { λ l. l.name };

    ghost invariant = { λ l. length l.name ≡ 15 };
}

impl Label {
    /// Some name.
    pub(crate) fn new(alloc: Global) -> Result<Label, NoMemory> {
        Ok(Label {
            name: Text::of(alloc, Id::new(1).name(Kind::Qf).bytes())?,
        })
    }

    /// Makes it the name of the id's file of this kind. It takes no memory.
    pub(crate) fn write(&mut self, kind: Kind, id: Id)
        ensures { self.new ≡ name_of kind id }
    {
        self.name.overwrite(id.name(kind).bytes());
    }

    pub(crate) fn text(&self) -> &Text
        ensures { result.now ≡ self.now }
    {
        &self.name
    }
}
