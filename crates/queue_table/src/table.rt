ghost use Rattle.std.specs.Prelude.{◌≡◌, ◌⊎◌, ◌↔◌, ◌+◌, ◌<◌, ◌≤◌, All, IfOk, IsErrOf, OnOk, OnErr, List, ℕ, true, false, Err, length, map};
ghost use Rattle.std.specs.List.Sorted.{IsStrictlySortedBy};
ghost use Rattle.std.specs.Ordering.{nat_cmp};
ghost use Rattle.mail_base.specs.Histories.{Rose};
ghost use Rattle.mail_base.specs.declared.fault.StoreFault.TheVariants.{SpoolFault as Broke, IdsSpent as Spent, NoMemory as Memory};
ghost use Rattle.mail_base.specs.declared.message.Cut.{Cut as CutSeen};
ghost use Rattle.mail_base.specs.declared.message.Message.{Message as MessageSeen};
ghost use Rattle.spool_disk.specs.Disk.{FileMap};
ghost use Rattle.spool_store.specs.Entries.{Table as Entries};
ghost use Rattle.spool_store.specs.Moves.{Moves};
ghost use Rattle.spool_store.specs.Openings.{IsFitting};
ghost use Rattle.spool_store.specs.Stores.{IsAtRest, KeepsOthers};
ghost use Rattle.queue_table.specs.Calls.{AreDirs, AreValid, CarriesOut, HoldsTable, IsAccepting, IsPlanned, IsSame, LeadsTo, Stays, Tallies, broken_one, store};
ghost use Rattle.queue_table.specs.Commands.{Accept, after};
ghost use Rattle.queue_table.specs.Directories.{terms_of};
ghost use Rattle.queue_table.specs.Soundness.{AreCuts};

use crate::{Accepting, Terms};
use mail_base::{Config, Cut, Id, Message, NoMemory, StoreFault};
use spool_disk::Spool;
use spool_store::{Held, Queue, SpoolFault, holding_goes_on};

/// The message table over the store of the queue: each command is a call, and a stop at any moment
/// of it leaves the table before or after. It is broken exactly where its store is.
#[derive(Drop)]
pub struct Table {
    pub(crate) queue: Queue,
    pub(crate) terms: Terms,
}

impl Table {
    /// The table over a store, with the terms of a configuration.
    pub fn over(queue: Queue, config: &Config) -> Result<Table, NoMemory>
        ensures { IfOk result
            (λ table. table ≡ record { queue = queue; terms = terms_of config.now }) }
    {
        Ok(Table {
            terms: Terms::of(config)?,
            queue,
        })
    }

    /// The store. It takes no memory.
    pub fn queue(&self) -> &Queue
        ensures { result.now ≡ self.now.queue }
    {
        &self.queue
    }

    /// What its commands take from the configuration. It takes no memory.
    pub fn terms(&self) -> &Terms
        ensures { result.now ≡ self.now.terms }
    {
        &self.terms
    }

    /// The first free id. It takes no memory.
    pub fn next(&self) -> u64
        ensures { result ≡ (store self.now).next }
    {
        self.queue.next()
    }

    /// The entries in order of id, each below the first free one. Whatever the spool tells, each is
    /// in one of the store's directories, and its control has a text. It takes no memory.
    pub fn entries(&self) -> &[Held]
        ensures is { result.now ≡ (store self.now).entries }
        ensures ascending { IsStrictlySortedBy nat_cmp
            (map (λ h. h.entry.id) (store self.now).entries) }
        ensures below { All (λ h. h.entry.id < (store self.now).next) (store self.now).entries }
        ensures fit { All (λ h. IsFitting (store self.now).dirs h.entry) (store self.now).entries }
    {
        self.queue.entries()
    }

    /// Whether each call that takes the spool answers `SpoolFault`. It takes no memory.
    pub fn is_broken(&self) -> bool
        ensures { result ≡ (store self.now).broken }
    {
        self.queue.is_broken()
    }

    /// Makes a message ready to be taken in at a moment, with an entry for each cut under the first
    /// free ids. Nothing is written. `IdsSpent` comes exactly where an id would pass [`Id::MOST`].
    pub fn plan_accept(
        &mut self,
        message: Message,
        cuts: &[Cut],
        moment: u64,
    ) -> Result<Accepting, StoreFault>
        requires cuts { AreCuts cuts.now }
        requires dirs { AreDirs self.old.terms (store self.old).dirs }
        requires valid { AreValid self.old.terms message moment cuts.now }
        ensures is { IfOk result (IsAccepting self.new message cuts.now moment) }
        ensures id { IfOk result
            (λ accepting. accepting.parcel.parent.entry.id ≡ (store self.old).next) }
        ensures same { IsSame self.old self.new }
        ensures spent { IsErrOf result Spent
            ↔ (Id.MOST + 1 < (store self.old).next + length cuts.now) }
        ensures never { IsErrOf result Broke → ⊥ }
    {
        if self.lacks_ids(cuts.len()) {
            return Err(StoreFault::IdsSpent);
        }
        let (parent, children) = self.drafts(&message, cuts, moment)?;
        self.plan(&children, &parent, message)
    }

    /// Takes in a message that [`Table::plan_accept`] made ready since the last change. A stop at
    /// any moment leaves the table before or after. It takes no memory.
    pub fn accept_planned<D: Spool>(
        &mut self,
        spool: &mut D,
        accepting: Accepting,
    ) -> Result<Id, SpoolFault>
        requires agrees { Tallies self.old (D.seen spool.old) }
        requires planned { IsPlanned self.old accepting }
        ensures moves { (table : Entries) (message : MessageSeen) (cuts : List CutSeen) (moment : ℕ)
            → HoldsTable self.old table → IsAccepting self.old message cuts moment accepting
            → LeadsTo (store self.old).dirs table
            (after table (Accept self.old.terms message cuts moment)) result (D.seen spool.old)
            (D.seen spool.new) }
        ensures holds { (table : Entries) (message : MessageSeen) (cuts : List CutSeen) (moment : ℕ)
            → HoldsTable self.old table → IsAccepting self.old message cuts moment accepting
            → OnOk result
            (HoldsTable self.new (after table (Accept self.old.terms message cuts moment))) }
        ensures frame { (f : FileMap)
            → Moves (D.seen spool.old) (D.seen spool.new) (λ g. g ≡ f)
            (KeepsOthers (store self.old).dirs f) (KeepsOthers (store self.old).dirs f) }
        ensures agrees { OnOk result (IsAtRest (store self.new) (D.seen spool.new)) }
        ensures id { IfOk result (λ id. id ≡ (store self.old).next) }
        ensures stays { Stays self.old self.new }
        ensures ok { OnOk result ((store self.new).broken ≡ (store self.old).broken) }
        ensures err { OnErr result (store self.new ≡ broken_one (store self.old)) }
        ensures broken { (store self.old).broken ≡ true
            → (result ≡ Err record {}) × (spool.new ≡ spool.old) }
        ensures later { (D.seen spool.old).faults ≤ (D.seen spool.new).faults }
        ensures calm { OnOk result ((D.seen spool.new).faults ≡ (D.seen spool.old).faults) }
        ensures cause { OnErr result
            (((store self.old).broken ≡ true)
            ⊎ Rose (D.seen spool.old).faults (D.seen spool.new).faults) }
    {
        // A law: the store that holds a table holds the next one behind a commit.
        holding_goes_on();
        self.queue.commit(spool, accepting.parcel)
    }

    /// Takes in a message at a moment: an entry for each cut under the first free ids, of which the
    /// first is the parent of the others. It is [`Table::plan_accept`] and then
    /// [`Table::accept_planned`], and answers the id of the first. The message is given up, so that
    /// its body is not copied.
    pub fn accept<D: Spool>(
        &mut self,
        spool: &mut D,
        message: Message,
        cuts: &[Cut],
        moment: u64,
    ) -> Result<Id, StoreFault>
        requires agrees { Tallies self.old (D.seen spool.old) }
        requires cuts { AreCuts cuts.now }
        requires dirs { AreDirs self.old.terms (store self.old).dirs }
        requires valid { AreValid self.old.terms message moment cuts.now }
        ensures does { CarriesOut self.old self.new (Accept self.old.terms message cuts.now moment)
            result (D.seen spool.old) (D.seen spool.new) }
        ensures id { IfOk result (λ id. id ≡ (store self.old).next) }
        ensures refused { (IsErrOf result Memory ⊎ IsErrOf result Spent)
            → IsSame self.old self.new × (spool.new ≡ spool.old) }
        ensures spent { IsErrOf result Spent
            ↔ ((store self.old).broken ≡ false
            × (Id.MOST + 1 < (store self.old).next + length cuts.now)) }
        ensures broken { (store self.old).broken ≡ true
            → (result ≡ Err Broke) × (spool.new ≡ spool.old) }
    {
        if self.queue.is_broken() {
            return Err(StoreFault::SpoolFault);
        }
        let accepting = self.plan_accept(message, cuts, moment)?;
        self.carry_out(spool, accepting)
    }

    // Takes in what is ready.
    fn carry_out<D: Spool>(&mut self, spool: &mut D, accepting: Accepting) -> Result<Id, StoreFault>
        requires agrees { Tallies self.old (D.seen spool.old) }
        requires planned { IsPlanned self.old accepting }
        ensures does { (message : MessageSeen) (cuts : List CutSeen) (moment : ℕ)
            → IsAccepting self.old message cuts moment accepting
            → CarriesOut self.old self.new (Accept self.old.terms message cuts moment) result
            (D.seen spool.old) (D.seen spool.new) }
        ensures id { IfOk result (λ id. id ≡ (store self.old).next) }
        ensures only { OnErr result (IsErrOf result Broke) }
    {
        match self.accept_planned(spool, accepting) {
            Ok(id) => Ok(id),
            Err(_fault) => Err(StoreFault::SpoolFault),
        }
    }
}
