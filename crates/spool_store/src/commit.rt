ghost use Rattle.std.specs.Prelude.{◌≡◌, ◌⊎◌, ◌↔◌, ◌+◌, ◌<◌, ◌≤◌, length, IfOk, IfSome, IsErrOf, OnOk, OnErr, List, ℕ, Some, None, true, false, Err};
ghost use Rattle.mail_base.specs.Histories.{Rose};
ghost use Rattle.mail_base.specs.declared.control.Draft.{Draft as DraftSeen};
ghost use Rattle.mail_base.specs.declared.fault.StoreFault.TheVariants.{SpoolFault as Broke, IdsSpent as Spent};
ghost use Rattle.spool_disk.specs.Disk.{FileMap};
ghost use Rattle.spool_store.specs.Entries.{Table};
ghost use Rattle.spool_store.specs.Keepers.{seen};
ghost use Rattle.spool_store.specs.Moves.{Moves, Ends};
ghost use Rattle.spool_store.specs.Parts.{IsEitherTable};
ghost use Rattle.spool_store.specs.Parcels.{CanPrepare, CanPrepareUnder, IsBelowLast, IsParcel, IsParcelUnder, IsReady, IsReadyUnder, with_children, with_commit};
ghost use Rattle.spool_store.specs.inner.Commits.{IsNamedIn};
ghost use Rattle.mail_base.specs.Limits.{IsId};
ghost use Rattle.spool_store.specs.Settled.{IsSettled, StandsFor};
ghost use Rattle.spool_store.specs.Stores.{Holds, IsAtRest, KeepsOthers};
ghost use Rattle.spool_store.specs.Writes.{after_commit};

use crate::making::{heirs, part_of};
use crate::parts::put_parcel;
use crate::queue::Queue;
use crate::raises::put_raise;
use crate::{Parcel, SpoolFault};
use mail_base::{Draft, Id, NoMemory, Parent, Seq, StoreFault, Text};
use spool_disk::Spool;

impl Queue {
    /// Makes a new parent and its children ready to be committed under the first free ids. Nothing
    /// is written. `IdsSpent` comes exactly where an id would pass [`Id::MOST`].
    pub fn prepare(
        &mut self,
        children: &Seq<Draft>,
        parent: &Draft,
        body: Text,
    ) -> Result<Parcel, StoreFault>
        requires can { CanPrepare (seen self.old).dirs children.now parent.now }
        ensures is { IfOk result (IsParcel (seen self.new) children.now parent.now body) }
        ensures same { seen self.new ≡ record (seen self.old) { room = (seen self.new).room } }
        ensures spent { IsErrOf result Spent
            ↔ (Id.MOST < (seen self.old).next + length children.now) }
        ensures never { IsErrOf result Broke → ⊥ }
    {
        let count = children.len();
        if self.shelf.next().saturating_add(count as u64) > Id::MOST {
            return Err(StoreFault::IdsSpent);
        }
        self.shelf.reserve(count + 1)?;
        Ok(self.parcel(children, parent, body)?)
    }

    // The parcel of new entries under the first free ids.
    fn parcel(&self, children: &Seq<Draft>, parent: &Draft, body: Text) -> Result<Parcel, NoMemory>
        requires can { CanPrepare (seen self.now).dirs children.now parent.now }
        requires ids { (seen self.now).next + 1 + length children.now ≤ 1_000_000_000_000 }
        requires room { length children.now + 1 ≤ (seen self.now).room }
        ensures { IfOk result (IsParcel (seen self.now) children.now parent.now body) }
    {
        let alloc = self.shelf.allocator();
        let next = self.shelf.next();
        let id = Id::new(next);
        let under = Parent {
            id,
            revision: parent.control.revision,
        };
        let children = heirs(alloc, next + 1, &under, children.items())?;
        let parent = part_of(alloc, id, parent, None)?;
        Ok(Parcel {
            children,
            parent,
            body,
        })
    }

    /// Commits a parcel: each child's body, then its control text, each whole before the next, and
    /// the renaming that gives it its name; then the parent's, whose renaming decides. A stop at
    /// any moment leaves the table before or after. It takes no memory. The parcel is one that
    /// [`Queue::prepare`] made since the last commit.
    pub fn commit<D: Spool>(&mut self, spool: &mut D, parcel: Parcel) -> Result<Id, SpoolFault>
        requires agrees { (seen self.old).broken ≡ false
            → IsAtRest (seen self.old) (D.seen spool.old) }
        requires ready { IsReady (seen self.old) parcel }
        ensures moves { (table : Table) (children : List DraftSeen) (parent : DraftSeen)
            (body : List ℕ) → Holds (seen self.old) table
            → IsParcel (seen self.old) children parent body parcel → Moves
            (D.seen spool.old)
            (D.seen spool.new)
            (StandsFor (seen self.old).dirs table)
            (Ends result
            (IsSettled (seen self.old).dirs
            (after_commit table children parent body None))
            (IsEitherTable (seen self.old).dirs table
            (after_commit table children parent body None)))
            (IsEitherTable (seen self.old).dirs table
            (after_commit table children parent body None)) }
        ensures frame { (f : FileMap)
            → Moves (D.seen spool.old) (D.seen spool.new) (λ g. g ≡ f)
            (KeepsOthers (seen self.old).dirs f) (KeepsOthers (seen self.old).dirs f) }
        ensures agrees { OnOk result (IsAtRest (seen self.new) (D.seen spool.new)) }
        ensures id { IfOk result (λ id. id ≡ (seen self.old).next) }
        ensures ok { (children : List DraftSeen) (parent : DraftSeen) (body : List ℕ)
            → IsParcel (seen self.old) children parent body parcel
            → OnOk result (seen self.new ≡ with_commit (seen self.old) children parent) }
        ensures err { OnErr result (seen self.new ≡ record (seen self.old) { broken = true }) }
        ensures broken { (seen self.old).broken ≡ true
            → (result ≡ Err record {}) × (spool.new ≡ spool.old) }
        ensures later { (D.seen spool.old).faults ≤ (D.seen spool.new).faults }
        ensures calm { OnOk result ((D.seen spool.new).faults ≡ (D.seen spool.old).faults) }
        ensures cause { OnErr result
            (((seen self.old).broken ≡ true)
            ⊎ Rose (D.seen spool.old).faults (D.seen spool.new).faults) }
    {
        if self.broken {
            return Err(SpoolFault);
        }
        match put_parcel(spool, &parcel) {
            Ok(()) => Ok(self.take_in(parcel)),
            Err(_failed) => {
                self.broken = true;
                Err(SpoolFault)
            }
        }
    }

    // Takes in the entries of a parcel whose files are written.
    fn take_in(&mut self, parcel: Parcel) -> Id
        requires ready { IsReady (seen self.old) parcel }
        ensures id { result ≡ (seen self.old).next }
        ensures is { (children : List DraftSeen) (parent : DraftSeen) (body : List ℕ)
            → IsParcel (seen self.old) children parent body parcel
            → seen self.new ≡ with_commit (seen self.old) children parent }
    {
        let id = parcel.id();
        let (children, parent) = parcel.into_parts();
        self.shelf.add(parent.into_held());
        self.shelf.add_all(children);
        id
    }

    /// Makes an entry's new control and its new children ready to be committed, the children under
    /// the first free ids. The parent's draft names the entry. Nothing is written. `IdsSpent` comes
    /// exactly where an id would pass [`Id::MOST`].
    pub fn prepare_under(
        &mut self,
        children: &Seq<Draft>,
        parent: &Draft,
        body: Text,
    ) -> Result<Parcel, StoreFault>
        requires can { CanPrepareUnder (seen self.old).dirs (seen self.old).entries children.now
            parent.now }
        ensures is { IfOk result
            (λ parcel. (id : ℕ) → parent.now.id ≡ Some id
            → IsParcelUnder (seen self.new) id children.now parent.now body parcel) }
        ensures same { seen self.new ≡ record (seen self.old) { room = (seen self.new).room } }
        ensures spent { IsErrOf result Spent
            ↔ (Id.MOST + 1 < (seen self.old).next + length children.now) }
        ensures never { IsErrOf result Broke → ⊥ }
    {
        let count = children.len();
        if self.shelf.next().saturating_add(count as u64) > Id::MOST + 1 {
            return Err(StoreFault::IdsSpent);
        }
        self.shelf.reserve(count)?;
        Ok(self.parcel_under(children, parent, body)?)
    }

    // The parcel of an entry's new control and of new children under the first free ids.
    fn parcel_under(
        &self,
        children: &Seq<Draft>,
        parent: &Draft,
        body: Text,
    ) -> Result<Parcel, NoMemory>
        requires can { CanPrepareUnder (seen self.now).dirs (seen self.now).entries children.now
            parent.now }
        requires ids { (seen self.now).next + length children.now ≤ 1_000_000_000_000 }
        requires room { length children.now ≤ (seen self.now).room }
        ensures { IfOk result
            (λ parcel. (id : ℕ) → parent.now.id ≡ Some id
            → IsParcelUnder (seen self.now) id children.now parent.now body parcel) }
    {
        let alloc = self.shelf.allocator();
        let above = self.above(parent);
        let children = heirs(alloc, self.shelf.next(), &above, children.items())?;
        let parent = part_of(alloc, above.id, parent, parent.control.parent)?;
        Ok(Parcel {
            children,
            parent,
            body,
        })
    }

    // What the children of a draft that names an entry name as their parent.
    fn above(&self, parent: &Draft) -> Parent
        requires named { IsNamedIn (seen self.now).entries parent.now }
        ensures id { parent.now.id ≡ Some result.id }
        ensures revision { result.revision ≡ parent.now.control.revision }
        ensures within { IsId result.id }
        ensures below { result.id < (seen self.now).next }
    {
        let revision = parent.control.revision;
        match parent.id {
            Some(id) => Parent {
                id: self.shelf.known(id),
                revision,
            },
            None => unreachable!(),
        }
    }

    /// Commits a parcel under an entry that is there: the children as [`Queue::commit`] does, and
    /// then the entry's new control, written whole before the renaming that decides. A stop at any
    /// moment leaves the table before or after, unless the entry has the last revision. It takes no
    /// memory. The parcel is one that [`Queue::prepare_under`] made since the last change.
    pub fn commit_under<D: Spool>(
        &mut self,
        spool: &mut D,
        parcel: Parcel,
    ) -> Result<Id, SpoolFault>
        requires agrees { (seen self.old).broken ≡ false
            → IsAtRest (seen self.old) (D.seen spool.old) }
        requires ready { IsReadyUnder (seen self.old) parcel }
        ensures moves { (table : Table) (id : ℕ) (children : List DraftSeen) (parent : DraftSeen)
            (body : List ℕ) → Holds (seen self.old) table
            → IsParcelUnder (seen self.old) id children parent body parcel
            → IsBelowLast (seen self.old).entries id → Moves
            (D.seen spool.old)
            (D.seen spool.new)
            (StandsFor (seen self.old).dirs table)
            (Ends result
            (IsSettled (seen self.old).dirs
            (after_commit table children parent body (Some id)))
            (IsEitherTable (seen self.old).dirs table
            (after_commit table children parent body (Some id))))
            (IsEitherTable (seen self.old).dirs table
            (after_commit table children parent body (Some id))) }
        ensures settled { (table : Table) (id : ℕ) (children : List DraftSeen) (parent : DraftSeen)
            (body : List ℕ) (f : FileMap) → Holds (seen self.old) table
            → IsParcelUnder (seen self.old) id children parent body parcel
            → (D.seen spool.old).told ≡ Some f → StandsFor (seen self.old).dirs table f
            → OnOk result
            (IfSome (D.seen spool.new).told
            (IsSettled (seen self.old).dirs
            (after_commit table children parent body (Some id)))) }
        ensures frame { (f : FileMap)
            → Moves (D.seen spool.old) (D.seen spool.new) (λ g. g ≡ f)
            (KeepsOthers (seen self.old).dirs f) (KeepsOthers (seen self.old).dirs f) }
        ensures agrees { OnOk result (IsAtRest (seen self.new) (D.seen spool.new)) }
        ensures id { (id : ℕ) (children : List DraftSeen) (parent : DraftSeen) (body : List ℕ)
            → IsParcelUnder (seen self.old) id children parent body parcel
            → IfOk result (λ r. r ≡ id) }
        ensures ok { (id : ℕ) (children : List DraftSeen) (parent : DraftSeen) (body : List ℕ)
            → IsParcelUnder (seen self.old) id children parent body parcel
            → OnOk result (seen self.new ≡ with_children (seen self.old) id children parent) }
        ensures err { OnErr result (seen self.new ≡ record (seen self.old) { broken = true }) }
        ensures broken { (seen self.old).broken ≡ true
            → (result ≡ Err record {}) × (spool.new ≡ spool.old) }
        ensures later { (D.seen spool.old).faults ≤ (D.seen spool.new).faults }
        ensures calm { OnOk result ((D.seen spool.new).faults ≡ (D.seen spool.old).faults) }
        ensures cause { OnErr result
            (((seen self.old).broken ≡ true)
            ⊎ Rose (D.seen spool.old).faults (D.seen spool.new).faults) }
    {
        if self.broken {
            return Err(SpoolFault);
        }
        match put_raise(spool, &parcel) {
            Ok(()) => Ok(self.take_under(parcel)),
            Err(_failed) => {
                self.broken = true;
                Err(SpoolFault)
            }
        }
    }

    // Takes in the children and the parent's new control once their files are written.
    fn take_under(&mut self, parcel: Parcel) -> Id
        requires ready { IsReadyUnder (seen self.old) parcel }
        ensures id { (id : ℕ) (children : List DraftSeen) (parent : DraftSeen) (body : List ℕ)
            → IsParcelUnder (seen self.old) id children parent body parcel → result ≡ id }
        ensures is { (id : ℕ) (children : List DraftSeen) (parent : DraftSeen) (body : List ℕ)
            → IsParcelUnder (seen self.old) id children parent body parcel
            → seen self.new ≡ with_children (seen self.old) id children parent }
    {
        let id = parcel.id();
        let (children, parent) = parcel.into_parts();
        self.shelf.set_control(id, parent.into_control());
        self.shelf.add_all(children);
        id
    }
}
