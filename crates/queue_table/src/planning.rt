ghost use Rattle.std.specs.Prelude.{◌≡◌, ◌⊎◌, ◌↔◌, ◌+◌, ◌<◌, ◌≤◌, ℕ, IfOk, IsErrOf, IsTrue, OnErr, Contains, None, Some, [], length, sum_by};
ghost use Rattle.mail_base.specs.declared.fault.StoreFault.TheVariants.{SpoolFault as Broke, IdsSpent as Spent};
ghost use Rattle.spool_store.specs.Parcels.{CanPrepare, CanPrepareUnder, IsParcel, IsParcelUnder, IsReadyUnder};
ghost use Rattle.spool_store.specs.Stores.{HasId};
ghost use Rattle.spool_store.specs.declared.held.Held.{Held as HeldSeen};
ghost use Rattle.queue_table.specs.Calls.{AreBacksValid, AreDirs, AreValid, CarriesOut, IsAsked, IsSame, Tallies, store};
ghost use Rattle.queue_table.specs.Commands.{Command, Return, Warn, drafts_of};
ghost use Rattle.queue_table.specs.Results.{with_warning};
ghost use Rattle.queue_table.specs.Soundness.{AreCuts};
ghost use Rattle.queue_table.specs.inner.Planning.{AreDrafts, IsOpenAt, Makes, control_by, next_draft};

use crate::drafts::{control_back, control_warned, draft_of, drafts_of};
use crate::{Accepting, Table};
use mail_base::{Back, Cut, Draft, Id, Message, NoMemory, Seq, StoreFault, Text, TryCopy};
use spool_disk::Spool;
use spool_store::{Parcel, holding_goes_on};

impl Table {
    // Whether one of so many new entries would have an id that passes the last one.
    pub(crate) fn lacks_ids(&self, count: usize) -> bool
        ensures { IsTrue result ↔ (Id.MOST + 1 < (store self.now).next + count) }
    {
        self.queue.next().saturating_add(count as u64) > Id::MOST + 1
    }

    // The drafts of a message: that of its first cut, and those of the others.
    pub(crate) fn drafts(
        &self,
        message: &Message,
        cuts: &[Cut],
        moment: u64,
    ) -> Result<(Draft, Seq<Draft>), NoMemory>
        requires cuts { AreCuts cuts.now }
        requires valid { AreValid self.now.terms message.now moment cuts.now }
        ensures { IfOk result (AreDrafts self.now.terms message.now moment cuts.now) }
    {
        match cuts.split_first() {
            Some((first, rest)) => {
                let parent = draft_of(&self.terms, message, moment, first)?;
                let children = drafts_of(&self.terms, message, moment, rest)?;
                Ok((parent, children))
            }
            None => unreachable!(),
        }
    }

    // Makes the drafts of a message ready to be committed with its body.
    pub(crate) fn plan(
        &mut self,
        children: &Seq<Draft>,
        parent: &Draft,
        message: Message,
    ) -> Result<Accepting, StoreFault>
        requires can { CanPrepare (store self.old).dirs children.now parent.now }
        ensures is { IfOk result
            (λ a. IsParcel (store self.new) children.now parent.now message.body a.parcel) }
        ensures same { IsSame self.old self.new }
        ensures spent { IsErrOf result Spent
            ↔ (Id.MOST < (store self.old).next + length children.now) }
        ensures never { IsErrOf result Broke → ⊥ }
    {
        let parcel = self.queue.prepare(children, parent, message.body)?;
        Ok(Accepting { parcel })
    }

    // Makes the return of an entry's failed rows ready.
    pub(crate) fn plan_back(
        &mut self,
        id: Id,
        bounces: Seq<Back>,
        moment: u64,
    ) -> Result<Parcel, StoreFault>
        requires asked { IsAsked self.old (Return self.old.terms id bounces moment) }
        requires dirs { AreDirs self.old.terms (store self.old).dirs }
        requires valid { AreBacksValid self.old.terms moment bounces }
        ensures is { IfOk result
            (Makes self.new id (Return self.old.terms id bounces moment)) }
        ensures same { IsSame self.old self.new }
        ensures spent { IsErrOf result Spent
            ↔ (Id.MOST + 1 < (store self.old).next + sum_by (λ back. length back.cuts) bounces) }
        ensures never { IsErrOf result Broke → ⊥ }
    {
        // Only clauses are used: one entry has an id, and its control has a text.
        let _ = self.queue.entries();
        match bounces.into_vec().pop() {
            Some(back) => self.plan_bounce(id, back, moment),
            None => self.plan_death(id),
        }
    }

    // Makes the end of a double bounce's failed rows ready.
    fn plan_death(&mut self, id: Id) -> Result<Parcel, StoreFault>
        requires open_at { IsOpenAt self.old id }
        ensures is { IfOk result
            (λ parcel. (h : HeldSeen) → Contains (store self.old).entries h → h.entry.id ≡ id
            → IsParcelUnder (store self.new) id []
            (next_draft h (control_by None h.entry.control)) [] parcel) }
        ensures same { IsSame self.old self.new }
        ensures spent { IsErrOf result Spent ↔ (Id.MOST + 1 < (store self.old).next) }
        ensures never { IsErrOf result Broke → ⊥ }
    {
        if self.queue.next() > Id::MOST + 1 {
            return Err(StoreFault::IdsSpent);
        }
        let parent = self.draft_back(id, None)?;
        let alloc = parent.dir.allocator();
        Ok(
            self.queue
                .prepare_under(&Seq::new(alloc), &parent, Text::new(alloc))?,
        )
    }

    // Makes a bounce ready that returns an entry's failed rows.
    fn plan_bounce(&mut self, id: Id, back: Back, moment: u64) -> Result<Parcel, StoreFault>
        requires open_at { IsOpenAt self.old id }
        requires dirs { AreDirs self.old.terms (store self.old).dirs }
        requires cuts { AreCuts back.cuts }
        requires valid { AreValid self.old.terms back.message moment back.cuts }
        ensures is { IfOk result
            (λ parcel. (h : HeldSeen) → Contains (store self.old).entries h → h.entry.id ≡ id
            → IsParcelUnder (store self.new) id
            (drafts_of self.old.terms back.message moment back.cuts)
            (next_draft h (control_by (Some (store self.old).next) h.entry.control))
            back.message.body parcel) }
        ensures same { IsSame self.old self.new }
        ensures spent { IsErrOf result Spent
            ↔ (Id.MOST + 1 < (store self.old).next + length back.cuts) }
        ensures never { IsErrOf result Broke → ⊥ }
    {
        if self.lacks_ids(back.cuts.len()) {
            return Err(StoreFault::IdsSpent);
        }
        let bounce = Id::new(self.queue.next());
        let parent = self.draft_back(id, Some(bounce))?;
        self.plan_under(&parent, back, moment)
    }

    // Makes a warning ready.
    pub(crate) fn plan_warning(
        &mut self,
        id: Id,
        warnings: Seq<Back>,
        moment: u64,
    ) -> Result<Parcel, StoreFault>
        requires asked { IsAsked self.old (Warn self.old.terms id warnings moment) }
        requires dirs { AreDirs self.old.terms (store self.old).dirs }
        requires valid { AreBacksValid self.old.terms moment warnings }
        ensures is { IfOk result
            (Makes self.new id (Warn self.old.terms id warnings moment)) }
        ensures same { IsSame self.old self.new }
        ensures spent { IsErrOf result Spent
            ↔ (Id.MOST + 1 < (store self.old).next + sum_by (λ back. length back.cuts) warnings) }
        ensures never { IsErrOf result Broke → ⊥ }
    {
        // Only clauses are used: one entry has an id, and its control has a text.
        let _ = self.queue.entries();
        match warnings.into_vec().pop() {
            Some(back) => self.plan_notice(id, back, moment),
            None => unreachable!(),
        }
    }

    // Makes a message ready by which a warning of an entry is sent.
    fn plan_notice(&mut self, id: Id, back: Back, moment: u64) -> Result<Parcel, StoreFault>
        requires open_at { IsOpenAt self.old id }
        requires dirs { AreDirs self.old.terms (store self.old).dirs }
        requires valid { AreValid self.old.terms back.message moment back.cuts }
        ensures is { IfOk result
            (λ parcel. (h : HeldSeen) → Contains (store self.old).entries h → h.entry.id ≡ id
            → IsParcelUnder (store self.new) id
            (drafts_of self.old.terms back.message moment back.cuts)
            (next_draft h (with_warning h.entry.control)) back.message.body parcel) }
        ensures same { IsSame self.old self.new }
        ensures spent { IsErrOf result Spent
            ↔ (Id.MOST + 1 < (store self.old).next + length back.cuts) }
        ensures never { IsErrOf result Broke → ⊥ }
    {
        if self.lacks_ids(back.cuts.len()) {
            return Err(StoreFault::IdsSpent);
        }
        let parent = self.draft_warned(id)?;
        self.plan_under(&parent, back, moment)
    }

    // Makes an entry's next control ready, with the entries of a message as its children.
    fn plan_under(&mut self, parent: &Draft, back: Back, moment: u64) -> Result<Parcel, StoreFault>
        requires valid { AreValid self.old.terms back.message moment back.cuts }
        requires can { CanPrepareUnder (store self.old).dirs (store self.old).entries
            (drafts_of self.old.terms back.message moment back.cuts) parent.now }
        ensures is { IfOk result
            (λ parcel. (id : ℕ) → parent.now.id ≡ Some id
            → IsParcelUnder (store self.new) id
            (drafts_of self.old.terms back.message moment back.cuts) parent.now back.message.body
            parcel) }
        ensures same { IsSame self.old self.new }
        ensures spent { IsErrOf result Spent
            → (Id.MOST + 1 < (store self.old).next + length back.cuts) }
        ensures never { IsErrOf result Broke → ⊥ }
    {
        let children = drafts_of(&self.terms, &back.message, moment, back.cuts.items())?;
        self.queue
            .prepare_under(&children, parent, back.message.body)
    }

    // The draft of an entry's next control where its failed rows are given back.
    fn draft_back(&self, id: Id, bounce: Option<Id>) -> Result<Draft, NoMemory>
        requires entry { HasId (store self.now).entries id }
        ensures { IfOk result
            (λ d. (h : HeldSeen) → Contains (store self.now).entries h → h.entry.id ≡ id
            → d ≡ next_draft h (control_by bounce h.entry.control)) }
    {
        let entry = self.queue.entry(&id);
        Ok(Draft {
            dir: entry.dir.copy()?,
            control: control_back(&entry.control, bounce)?,
            id: Some(id),
        })
    }

    // The draft of an entry's next control where a warning was sent.
    fn draft_warned(&self, id: Id) -> Result<Draft, NoMemory>
        requires entry { HasId (store self.now).entries id }
        ensures { IfOk result
            (λ d. (h : HeldSeen) → Contains (store self.now).entries h → h.entry.id ≡ id
            → d ≡ next_draft h (with_warning h.entry.control)) }
    {
        let entry = self.queue.entry(&id);
        Ok(Draft {
            dir: entry.dir.copy()?,
            control: control_warned(&entry.control)?,
            id: Some(id),
        })
    }

    // Commits what was made ready under an entry.
    pub(crate) fn commit_under<D: Spool>(
        &mut self,
        spool: &mut D,
        parcel: Parcel,
    ) -> Result<(), StoreFault>
        requires agrees { Tallies self.old (D.seen spool.old) }
        requires ready { IsReadyUnder (store self.old) parcel }
        ensures does { (id : ℕ) (command : Command) → Makes self.old id command parcel
            → CarriesOut self.old self.new command result (D.seen spool.old) (D.seen spool.new) }
        ensures only { OnErr result (IsErrOf result Broke) }
    {
        // A law: the store that holds a table holds the next one behind a commit.
        holding_goes_on();
        match self.queue.commit_under(spool, parcel) {
            Ok(_id) => Ok(()),
            Err(_fault) => Err(StoreFault::SpoolFault),
        }
    }
}
