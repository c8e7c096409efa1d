ghost use Rattle.std.specs.Prelude.{◌≡◌, [], IfOk, OnOk, OnErr};
ghost use Rattle.alias_expand.specs.Triples.{is_among, with_triple};
ghost use Rattle.alias_expand.specs.inner.Holding.{triple_of};

use indexmap::IndexSet;
use mail_base::{NoMemory, Text, Triple, TryCopy};
use std::alloc::Global;
use std::marker::Model;

/// A triple, as a set holds it.
#[derive(Drop, PartialEq, Eq, Hash)]
pub(crate) struct Key {
    pub mailer: Text,
    pub host: Text,
    pub user: Text,
}

/// Triples that were met, each once. A contract sees the list of them in the order in which they
/// came.
pub(crate) struct Triples {
    keys: IndexSet<Key>,
}

impl Drop for Triples {
    fn drop(self) {
        let Triples { keys: _ } = self;
    }
}

impl Model for Triples {
    ghost use Rattle.std.specs.Prelude.{List, map};
    ghost use Rattle.mail_base.specs.declared.route.Triple.{Triple};
    ghost use Rattle.alias_expand.specs.inner.Holding.{triple_of};

    ghost Value = { List Triple };

    ghost view = { λ t. map triple_of t.keys.keys };
}

impl Triples {
    /// No triples. It takes no memory.
    pub(crate) fn new(alloc: Global) -> Triples
        ensures { result ≡ [] }
    {
        Triples {
            keys: IndexSet::new(alloc),
        }
    }

    /// Whether a triple is among them.
    pub(crate) fn has(&self, triple: &Triple) -> Result<bool, NoMemory>
        ensures { IfOk result (λ is. is ≡ is_among triple.now self.now) }
    {
        Ok(self.keys.contains(&key_of(triple)?))
    }

    /// Adds a triple, unless it is among them. After `NoMemory` they are as before.
    pub(crate) fn add(&mut self, triple: &Triple) -> Result<(), NoMemory>
        ensures ok { OnOk result (self.new ≡ with_triple triple.now self.old) }
        ensures err { OnErr result (self.new ≡ self.old) }
    {
        self.keys.insert_full(key_of(triple)?)?;
        Ok(())
    }
}

pub(crate) fn key_of(triple: &Triple) -> Result<Key, NoMemory>
    ensures { IfOk result (λ key. triple_of key ≡ triple.now) }
{
    Ok(Key {
        mailer: triple.mailer.copy()?,
        host: triple.host.copy()?,
        user: triple.user.copy()?,
    })
}
