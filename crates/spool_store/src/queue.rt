ghost use Rattle.std.specs.Prelude.{◌≡◌, ◌⊎◌, ◌<◌, ◌≤◌, ◌∷◌, [], IfOk, IfSome, IsErrOf, OnOk, OnErr, Contains, All, Some, None, true, false, Err, map};
ghost use Rattle.std.specs.List.Sorted.{IsStrictlySortedBy};
ghost use Rattle.std.specs.Ordering.{nat_cmp};
ghost use Rattle.mail_base.specs.Histories.{HasCause, Rose};
ghost use Rattle.mail_base.specs.Names.{name_of};
ghost use Rattle.mail_base.specs.States.{NeedsBody};
ghost use Rattle.mail_base.specs.declared.control.Control.{Control};
ghost use Rattle.mail_base.specs.declared.fault.StoreFault.TheVariants.{SpoolFault as Broke, IdsSpent as Spent};
ghost use Rattle.mail_base.specs.declared.id.Kind.TheVariants.{Df};
ghost use Rattle.qf_format.specs.Room.{room_of};
ghost use Rattle.qf_format.specs.Spelling.{spelled};
ghost use Rattle.spool_disk.specs.Disk.{FileMap, bytes_at};
ghost use Rattle.spool_disk.specs.Spooled.{Reads};
ghost use Rattle.spool_store.specs.Entries.{Stored, Table};
ghost use Rattle.spool_store.specs.Keepers.{CanFinish, CanReplace, IsFiled, IsReading, after_replace, or_nothing, seen};
ghost use Rattle.spool_store.specs.inner.Parts.{with_new, CanRaise, IsUnderWay};
ghost use Rattle.spool_store.specs.inner.Finishing.{HasFinished, IsDone, IsRun};
ghost use Rattle.spool_store.specs.Moves.{Moves, Ends};
ghost use Rattle.spool_store.specs.Parts.{IsEitherTable};
ghost use Rattle.spool_store.specs.Openings.{AreOrdered, IsFitting};
ghost use Rattle.spool_store.specs.Settled.{IsSettled, StandsFor};
ghost use Rattle.spool_store.specs.Stores.{Agrees, HasId, Holds, IsAtRest, KeepsOthers, recontrolled, refinished, spot_at};
ghost use Rattle.spool_store.specs.inner.Shelves.{IsAscending};
ghost use Rattle.spool_store.specs.Tidying.{IsClean, IsTidied};
ghost use Rattle.spool_store.specs.Writes.{AreRaised};
ghost use Rattle.spool_store.specs.declared.held.Held.{Held};
ghost use Rattle.spool_store.specs.inner.Opening.{opened_store};

use crate::fault::store_fault;
use crate::finishes::{drop_body, end};
use crate::label::Label;
use crate::opened::Opened;
use crate::raises::put_raised;
use crate::recovery::reopen;
use crate::shelf::Shelf;
use crate::{Held, Room, SpoolFault};
use mail_base::{Entry, Failed, Id, Kind, NoMemory, Seq, StoreFault, Stray, Text, TryCopy};
use qf_format::{Paper, print_into, room};
use spool_disk::Spool;
use std::alloc::Global;

/// The entries of a spool in order of id, whose commits may have several parts. It is broken
/// exactly after a call that changes files and answered `SpoolFault`; then each call that takes the
/// spool answers that and touches nothing, until the spool is opened again.
#[derive(Drop)]
pub struct Queue {
    pub(crate) shelf: Shelf,
    pub(crate) strange: Seq<Stray>,
    pub(crate) broken: bool,
    pub(crate) from: Label,
    pub(crate) to: Label,
}

impl Queue {
    /// Opens a spool, whatever its directories hold: [`recover`](crate::recover) says what becomes
    /// of the files, and what is read of them. After a fault it can be called again. `IdsSpent`
    /// never comes.
    pub fn open<D: Spool>(
        alloc: Global,
        spool: &mut D,
        dirs: &Seq<Text>,
    ) -> Result<Queue, StoreFault>
        ensures store { IfOk result
            (λ q. ((seen q).dirs ≡ dirs.now) × ((seen q).broken ≡ false) × ((seen q).room ≡ 0)) }
        ensures read { (f : FileMap) → (D.seen spool.old).told ≡ Some f
            → IfOk result (λ q. IsReading dirs.now f (seen q)) }
        ensures agrees { IfOk result (λ q. IsAtRest (seen q) (D.seen spool.new)) }
        ensures settled { (table : Table) (f : FileMap) → (D.seen spool.old).told ≡ Some f
            → StandsFor dirs.now table f
            → IfOk result (λ q. IfSome (D.seen spool.new).told
            (IsSettled dirs.now (record { entries = table.entries; next = (seen q).next }))) }
        ensures holds { (table : Table) (f : FileMap) → (D.seen spool.old).told ≡ Some f
            → StandsFor dirs.now table f
            → IfOk result
            (λ q. Holds (seen q) (record { entries = table.entries; next = (seen q).next })) }
        ensures table { (f : FileMap) → (D.seen spool.old).told ≡ Some f
            → IfOk result
            (λ q. (table : Table) × StandsFor dirs.now table f × Holds (seen q) table) }
        ensures stands { (table : Table)
            → Moves (D.seen spool.old) (D.seen spool.new) (StandsFor dirs.now table)
            (StandsFor dirs.now table) (StandsFor dirs.now table) }
        ensures tidied { (f : FileMap) → (D.seen spool.old).told ≡ Some f
            → Moves (D.seen spool.old) (D.seen spool.new) (λ g. g ≡ f) (IsTidied dirs.now f)
            (IsTidied dirs.now f) }
        ensures frame { (f : FileMap)
            → Moves (D.seen spool.old) (D.seen spool.new) (λ g. g ≡ f)
            (KeepsOthers dirs.now f) (KeepsOthers dirs.now f) }
        ensures clean { IfOk result (λ _. IfSome (D.seen spool.new).told (IsClean dirs.now)) }
        ensures later { (D.seen spool.old).faults ≤ (D.seen spool.new).faults }
        ensures never { IsErrOf result Spent → ⊥ }
        ensures cause { IsErrOf result Broke
            → Rose (D.seen spool.old).faults (D.seen spool.new).faults }
        ensures calm { IsErrOf result Broke
            ⊎ ((D.seen spool.new).faults ≡ (D.seen spool.old).faults) }
    {
        reopen(alloc, spool, dirs)
    }

    // The store of what an opening found.
    pub(crate) fn of(alloc: Global, dirs: &Seq<Text>, opened: Opened) -> Result<Queue, NoMemory>
        requires order { AreOrdered opened.entries opened.next }
        requires fit { All (IsFitting dirs.now) opened.entries }
        ensures { IfOk result (λ q. seen q ≡ opened_store dirs.now opened) }
    {
        let dirs = dirs.copy()?;
        let from = Label::new(alloc)?;
        let to = Label::new(alloc)?;
        let shelf = Shelf::of(alloc, dirs, opened.entries, opened.next)?;
        Ok(Queue {
            shelf,
            strange: opened.strange,
            broken: false,
            from,
            to,
        })
    }

    /// The entries in order of id, each below the first free one. Whatever the spool tells, each is
    /// in one of the store's directories, and its control has a text. It takes no memory.
    pub fn entries(&self) -> &[Held]
        ensures is { result.now ≡ (seen self.now).entries }
        ensures ascending { IsStrictlySortedBy nat_cmp
            (map (λ h. h.entry.id) (seen self.now).entries) }
        ensures below { All (λ h. h.entry.id < (seen self.now).next) (seen self.now).entries }
        ensures fit { All (λ h. IsFitting (seen self.now).dirs h.entry) (seen self.now).entries }
    {
        self.shelf.items()
    }

    /// The entry of an id. It takes no memory.
    pub fn entry(&self, id: &Id) -> &Entry
        requires entry { HasId (seen self.now).entries id.now }
        ensures fit { IsFitting (seen self.now).dirs result.now }
        ensures is { (h : Held) → Contains (seen self.now).entries h → h.entry.id ≡ id.now
            → result.now ≡ h.entry }
    {
        let place = self.shelf.place(*id);
        &self.shelf.items()[place].entry
    }

    /// Whether each call that takes the spool answers `SpoolFault`. It takes no memory.
    pub fn is_broken(&self) -> bool
        ensures { result ≡ (seen self.now).broken }
    {
        self.broken
    }

    /// The files that the store leaves alone. It takes no memory.
    pub fn strange(&self) -> &[Stray]
        ensures { result.now ≡ (seen self.now).strange }
    {
        self.strange.items()
    }

    /// The first free id. It takes no memory.
    pub fn next(&self) -> u64
        ensures { result ≡ (seen self.now).next }
    {
        self.shelf.next()
    }

    /// A copy of the control of the entry of an id, with memory for what takes its place. Nothing
    /// is written.
    pub fn reserve(&self, id: &Id) -> Result<Room, NoMemory>
        requires entry { HasId (seen self.now).entries id.now }
        ensures id { IfOk result (λ r. r.id ≡ id.now) }
        ensures control { IfOk result
            (λ r. (h : Held) → Contains (seen self.now).entries h → h.entry.id ≡ id.now
            → r.control ≡ h.entry.control) }
        ensures paper { IfOk result
            (λ r. (r.paper.bytes ≡ []) × (room_of r.control ≤ r.paper.room)) }
    {
        let place = self.shelf.place(*id);
        let control = self.shelf.items()[place].entry.control.copy()?;
        let most = room(&control);
        if most == u64::MAX {
            return Err(NoMemory);
        }
        let paper = Paper::with_room(self.shelf.allocator(), most as usize)?;
        Ok(Room {
            control,
            id: *id,
            paper,
        })
    }

    /// The body of the entry of an id, or no bytes where its file isn't there. What the spool tells
    /// stays, and the files stand for the table for which they stood. A fault doesn't break the
    /// store.
    pub fn body<D: Spool>(&self, spool: &mut D, id: &Id) -> Result<Text, StoreFault>
        requires entry { HasId (seen self.now).entries id.now }
        ensures read { IfOk result
            (λ text. IfSome (D.seen spool.old).told
            (λ files. (h : Held) → Contains (seen self.now).entries h → h.entry.id ≡ id.now
            → text ≡ or_nothing (bytes_at files (h.entry.dir, name_of Df id.now)))) }
        ensures bytes { IfOk result
            (λ text. IfSome (D.seen spool.old).told
            (λ files. (table : Table) (s : Stored) → StandsFor (seen self.now).dirs table files
            → Agrees (seen self.now) files → Contains table.entries s → s.id ≡ id.now
            → NeedsBody s.control → text ≡ s.body)) }
        ensures untouched { Reads (D.seen spool.old) (D.seen spool.new) }
        ensures told { (D.seen spool.new).told ≡ (D.seen spool.old).told }
        ensures stands { (table : Table)
            → Moves (D.seen spool.old) (D.seen spool.new) (StandsFor (seen self.now).dirs table)
            (StandsFor (seen self.now).dirs table) (StandsFor (seen self.now).dirs table) }
        ensures broken { (seen self.now).broken ≡ true
            → (result ≡ Err Broke) × (spool.new ≡ spool.old) }
        ensures never { IsErrOf result Spent → ⊥ }
        ensures later { (D.seen spool.old).faults ≤ (D.seen spool.new).faults }
        ensures cause { IsErrOf result Broke
            → ((seen self.now).broken ≡ true)
            ⊎ Rose (D.seen spool.old).faults (D.seen spool.new).faults }
        ensures calm { IsErrOf result Broke
            ⊎ ((D.seen spool.new).faults ≡ (D.seen spool.old).faults) }
    {
        if self.broken {
            return Err(StoreFault::SpoolFault);
        }
        let alloc = self.shelf.allocator();
        let name = Text::of(alloc, id.name(Kind::Df).bytes())?;
        let place = self.shelf.place(*id);
        match spool.read(alloc, &self.shelf.items()[place].entry.dir, &name) {
            Ok(Some(text)) => Ok(text),
            Ok(None) => Ok(Text::new(alloc)),
            Err(fault) => Err(store_fault(fault)),
        }
    }

    /// Gives an entry the control of its room: it writes the text whole, and then the renaming
    /// decides. It takes no memory.
    pub fn replace<D: Spool>(&mut self, spool: &mut D, room: Room) -> Result<(), SpoolFault>
        requires agrees { (seen self.old).broken ≡ false
            → IsAtRest (seen self.old) (D.seen spool.old) }
        requires can { CanReplace (seen self.old).entries room.id room.control room.paper }
        ensures moves { (table : Table) → Holds (seen self.old) table → Moves
            (D.seen spool.old)
            (D.seen spool.new)
            (StandsFor (seen self.old).dirs table)
            (Ends result
            (IsSettled (seen self.old).dirs (after_replace table room.id room.control))
            (IsEitherTable (seen self.old).dirs table
            (after_replace table room.id room.control)))
            (IsEitherTable (seen self.old).dirs table (after_replace table room.id room.control)) }
        ensures frame { (f : FileMap)
            → Moves (D.seen spool.old) (D.seen spool.new) (λ g. g ≡ f)
            (KeepsOthers (seen self.old).dirs f) (KeepsOthers (seen self.old).dirs f) }
        ensures agrees { OnOk result (IsAtRest (seen self.new) (D.seen spool.new)) }
        ensures ok { OnOk result
            (seen self.new ≡ record (seen self.old) {
              entries = map (recontrolled room.id room.control) (seen self.old).entries;
            }) }
        ensures err { OnErr result (seen self.new ≡ record (seen self.old) { broken = true }) }
        ensures broken { (seen self.old).broken ≡ true
            → (result ≡ Err record {}) × (spool.new ≡ spool.old) }
        ensures later { (D.seen spool.old).faults ≤ (D.seen spool.new).faults }
        ensures calm { OnOk result ((D.seen spool.new).faults ≡ (D.seen spool.old).faults) }
        ensures cause { OnErr result
            (((seen self.old).broken ≡ true)
            ⊎ Rose (D.seen spool.old).faults (D.seen spool.new).faults) }
    {
        if self.broken {
            return Err(SpoolFault);
        }
        let (control, id, mut paper) = room.into_parts();
        print_into(&control, &mut paper);
        let text = paper.into_text();
        match self.write_control(spool, id, &text) {
            Ok(()) => {
                self.shelf.set_control(id, control);
                Ok(())
            }
            Err(_failed) => {
                self.broken = true;
                Err(SpoolFault)
            }
        }
    }

    // Writes the control text of an entry whole, and gives it its name.
    fn write_control<D: Spool>(&mut self, spool: &mut D, id: Id, text: &Text) -> Result<(), Failed>
        requires entry { HasId (seen self.old).entries id }
        ensures same { seen self.new ≡ seen self.old }
        ensures moves { (f : FileMap) (h : Held) (control : Control)
            → Contains (seen self.old).entries h → h.entry.id ≡ id → text.now ≡ spelled control
            → CanRaise f [] (with_new h control) → Moves
            (D.seen spool.old)
            (D.seen spool.new)
            (λ g. g ≡ f)
            (Ends result
            (AreRaised [] (with_new h control) f)
            (λ g. IsUnderWay (seen self.old).next (with_new h control ∷ []) [] f g
            ⊎ AreRaised [] (with_new h control) f g))
            (λ g. IsUnderWay (seen self.old).next (with_new h control ∷ []) [] f g
            ⊎ AreRaised [] (with_new h control) f g) }
        ensures cause { HasCause (D.seen spool.old).faults (D.seen spool.new).faults result }
        ensures calm { OnOk result ((D.seen spool.new).faults ≡ (D.seen spool.old).faults) }
    {
        self.from.write(Kind::Tf, id);
        self.to.write(Kind::Qf, id);
        let place = self.shelf.place(id);
        let items = self.shelf.items();
        put_raised(
            spool,
            &items[place].entry.dir,
            self.from.text(),
            self.to.text(),
            text,
        )
    }

    /// Gives the control file of an entry whose rows are all done the name of a finished one's, and
    /// then takes its body away unless a row is dead. An entry that has that name already stays as
    /// it is. It takes no memory.
    pub fn finish<D: Spool>(&mut self, spool: &mut D, id: &Id) -> Result<(), SpoolFault>
        requires agrees { (seen self.old).broken ≡ false
            → IsAtRest (seen self.old) (D.seen spool.old) }
        requires can { CanFinish (seen self.old).entries id.now }
        ensures moves { (f : FileMap)
            → Moves (D.seen spool.old) (D.seen spool.new) (λ g. g ≡ f)
            (IsTidied (seen self.old).dirs f) (IsTidied (seen self.old).dirs f) }
        ensures stands { (table : Table)
            → Moves (D.seen spool.old) (D.seen spool.new) (StandsFor (seen self.old).dirs table)
            (StandsFor (seen self.old).dirs table) (StandsFor (seen self.old).dirs table) }
        ensures frame { (f : FileMap)
            → Moves (D.seen spool.old) (D.seen spool.new) (λ g. g ≡ f)
            (KeepsOthers (seen self.old).dirs f) (KeepsOthers (seen self.old).dirs f) }
        ensures files { OnOk result
            (IfSome (D.seen spool.new).told
            (λ g. (h : Held) → Contains (seen self.old).entries h → h.entry.id ≡ id.now
            → h.finished ≡ false → IsFiled h g)) }
        ensures already { (h : Held) → Contains (seen self.old).entries h → h.entry.id ≡ id.now
            → h.finished ≡ true → spool.new ≡ spool.old }
        ensures agrees { OnOk result (IsAtRest (seen self.new) (D.seen spool.new)) }
        ensures ok { OnOk result
            (seen self.new ≡ record (seen self.old) {
              entries = map (refinished id.now) (seen self.old).entries;
            }) }
        ensures err { OnErr result (seen self.new ≡ record (seen self.old) { broken = true }) }
        ensures broken { (seen self.old).broken ≡ true
            → (result ≡ Err record {}) × (spool.new ≡ spool.old) }
        ensures later { (D.seen spool.old).faults ≤ (D.seen spool.new).faults }
        ensures calm { OnOk result ((D.seen spool.new).faults ≡ (D.seen spool.old).faults) }
        ensures cause { OnErr result
            (((seen self.old).broken ≡ true)
            ⊎ Rose (D.seen spool.old).faults (D.seen spool.new).faults) }
    {
        if self.broken {
            return Err(SpoolFault);
        }
        if self.is_finished(*id) {
            return Ok(());
        }
        match self.write_finished(spool, *id) {
            Ok(()) => {
                self.shelf.set_finished(*id);
                Ok(())
            }
            Err(_failed) => {
                self.broken = true;
                Err(SpoolFault)
            }
        }
    }

    // Whether the control file of an entry has the name of a finished one's.
    fn is_finished(&self, id: Id) -> bool
        requires entry { HasId (seen self.now).entries id }
        ensures is { (h : Held) → Contains (seen self.now).entries h → h.entry.id ≡ id
            → result ≡ h.finished }
        ensures ascending { IsAscending (seen self.now).entries }
    {
        let place = self.shelf.place(id);
        let items = self.shelf.items();
        items[place].finished
    }

    // Renames the control file of an entry, and takes its body away unless it is wanted.
    fn write_finished<D: Spool>(&mut self, spool: &mut D, id: Id) -> Result<(), Failed>
        requires agrees { IsAtRest (seen self.old) (D.seen spool.old) }
        requires can { CanFinish (seen self.old).entries id }
        requires queued { (h : Held) → Contains (seen self.old).entries h → h.entry.id ≡ id
            → h.finished ≡ false }
        ensures same { seen self.new ≡ seen self.old }
        ensures moves { (f : FileMap) (h : Held) → Contains (seen self.old).entries h
            → h.entry.id ≡ id → IsDone (seen self.old).dirs f (spot_at h) h.entry.control → Moves
            (D.seen spool.old)
            (D.seen spool.new)
            (λ g. g ≡ f)
            (Ends result
            (HasFinished (seen self.old).dirs f (spot_at h) h.entry.control)
            (IsTidied (seen self.old).dirs f))
            (IsTidied (seen self.old).dirs f) }
        ensures runs { IsRun (D.seen spool.old) (D.seen spool.new) }
        ensures cause { HasCause (D.seen spool.old).faults (D.seen spool.new).faults result }
        ensures calm { OnOk result ((D.seen spool.new).faults ≡ (D.seen spool.old).faults) }
    {
        self.from.write(Kind::Qf, id);
        self.to.write(Kind::Sf, id);
        let place = self.shelf.place(id);
        let items = self.shelf.items();
        end(
            spool,
            &items[place].entry.dir,
            self.from.text(),
            self.to.text(),
        )?;
        if items[place].entry.control.needs_body() {
            return Ok(());
        }
        self.from.write(Kind::Df, id);
        let items = self.shelf.items();
        drop_body(spool, &items[place].entry.dir, self.from.text())
    }
}
