//! Devices that keep nothing.

use mail_base::{Draw, Draws, EdgeFault, Failed, JudgeFault, NoMemory, Seq, Text, TryCopy};
use spool_disk::Spool;
use std::alloc::Global;

/// A spool that tells nothing and keeps nothing, each of whose files has one body.
#[derive(Drop)]
pub(crate) struct Dropping {
    body: Text,
    faults: u64,
}

impl Dropping {
    pub(crate) fn new(alloc: Global) -> Result<Dropping, NoMemory> {
        Ok(Dropping {
            body: Text::of(alloc, b"hello\r\n")?,
            faults: 0,
        })
    }
}

impl Spool for Dropping {
    ghost use Rattle.bench.specs.Untold.{untold};

    ghost seen = { λ s. untold s.faults };

    ghost only_now = { λ s c h. absurd h };

    ghost at_rest = { λ s. tt };

    ghost earlier = { λ s t u c le h. h };

    fn list(&mut self, _alloc: Global, _dir: &Text) -> Result<Seq<Text>, EdgeFault> {
        self.faults = self.faults.saturating_add(1);
        Err(EdgeFault::Failed)
    }

    fn read(
        &mut self,
        _alloc: Global,
        _dir: &Text,
        _name: &Text,
    ) -> Result<Option<Text>, EdgeFault> {
        Ok(Some(self.body.copy()?))
    }

    fn write_new(&mut self, _dir: &Text, _name: &Text, _bytes: &Text) -> Result<(), Failed> {
        Ok(())
    }

    fn rename(&mut self, _dir: &Text, _from: &Text, _to: &Text) -> Result<(), Failed> {
        Ok(())
    }

    fn remove(&mut self, _dir: &Text, _name: &Text) -> Result<(), Failed> {
        Ok(())
    }
}

/// Draws nobody.
#[derive(Drop)]
pub(crate) struct Nobody;

impl Draws for Nobody {
    ghost use Rattle.std.specs.Prelude.{false};

    ghost seen = { λ _. record { faults = 0; tells = false } };

    ghost answers = { λ _ address rows. Unit {0} };

    ghost fixed = { λ _. tt };

    fn draw(&mut self, _alloc: Global, _address: &Text) -> Result<Seq<Draw>, JudgeFault> {
        Err(JudgeFault::NoMemory)
    }
}
