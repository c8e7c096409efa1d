ghost use Rattle.std.specs.Prelude.{All, ◌≡◌, ◌⊎◌, ◌≤◌, length, IfOk, IfSome, OnOk, OnErr, Contains, true, false, Err, map};
ghost use Rattle.mail_base.specs.Histories.{Rose};
ghost use Rattle.qf_format.specs.Valid.{AreRows, IsValid};
ghost use Rattle.spool_disk.specs.Disk.{FileMap};
ghost use Rattle.spool_store.specs.Entries.{Table as Entries};
ghost use Rattle.spool_store.specs.Keepers.{CanFinish, IsFiled};
ghost use Rattle.spool_store.specs.Moves.{Moves};
ghost use Rattle.spool_store.specs.Settled.{StandsFor};
ghost use Rattle.spool_store.specs.Stores.{IsAtRest, KeepsOthers, recontrolled, refinished};
ghost use Rattle.spool_store.specs.Tidying.{IsTidied};
ghost use Rattle.spool_store.specs.declared.held.Held.{Held};
ghost use Rattle.queue_table.specs.Calls.{HoldsTable, LeadsTo, Stays, Tallies, broken_one, store};
ghost use Rattle.queue_table.specs.Commands.{after};
ghost use Rattle.queue_table.specs.Commands.Command.{Record};
ghost use Rattle.queue_table.specs.Reserves.{CanReserve, IsReserved};
ghost use Rattle.queue_table.specs.Results.{recorded, with_results};

use crate::results::put_results;
use crate::{Table, Terms};
use mail_base::{Control, Id, NoMemory, Outcomes, Result1, Row, Seq, TryCopy};
use spool_disk::Spool;
use spool_store::{Room, SpoolFault, holding_goes_on};
use std::mem;

/// Memory for the record of an attempt at rows of an entry.
pub struct Reserved {
    pub(crate) room: Room,
    pub(crate) rows: Seq<u32>,
}

// Written out, since a caller's proof goes through the parts of a derived drop at each way out.
impl Drop for Reserved {
    fn drop(self) {
        let Reserved { room: _, rows: _ } = self;
    }
}

impl Reserved {
    /// The entry's id. It takes no memory.
    pub fn id(&self) -> Id
        ensures { result ≡ self.now.room.id }
    {
        self.room.id()
    }

    /// The places of the rows. It takes no memory.
    pub fn rows(&self) -> &[u32]
        ensures { result.now ≡ self.now.rows }
    {
        self.rows.items()
    }

    // The room with what an attempt at a moment makes of its entry.
    fn recorded(self, terms: &Terms, outcomes: &Outcomes, moment: u64) -> Room
        ensures id { result.id ≡ self.room.id }
        ensures paper { result.paper ≡ self.room.paper }
        ensures control { result.control
            ≡ recorded terms.now self.rows outcomes.now.results moment self.room.control }
        ensures valid { IsValid self.room.control → IsValid result.control }
    {
        let Reserved { mut room, rows } = self;
        record_in(
            terms,
            &mut room.control,
            rows.items(),
            outcomes.results.items(),
            moment,
        );
        room
    }
}

// Each row at one of these places gets what its result makes of it. It takes no memory.
fn put_in_rows(rows: &mut Seq<Row>, old: bool, places: &[u32], outcomes: &[Result1])
    ensures is { rows.new ≡ with_results old places.now outcomes.now rows.old }
    ensures form { AreRows rows.old → AreRows rows.new }
{
    let alloc = rows.allocator();
    let mut items = mem::replace(rows, Seq::new(alloc)).into_vec();
    put_results(&mut items, old, places, outcomes);
    *rows = Seq::from_vec(items);
}

// What an attempt at a moment makes of an entry.
fn record_in(
    terms: &Terms,
    control: &mut Control,
    places: &[u32],
    outcomes: &[Result1],
    moment: u64,
)
    ensures is { control.new ≡ recorded terms.now places.now outcomes.now moment control.old }
    ensures valid { IsValid control.old → IsValid control.new }
{
    let old = terms.is_old(control.created, moment);
    put_in_rows(&mut control.rows, old, places, outcomes);
    control.revision = control.revision.saturating_add(1);
    control.last_try = moment;
    control.tries = control.tries.saturating_add(1);
    control.priority = terms.factors.retried(control.priority);
}

impl Table {
    /// Memory for the record of an attempt at rows of an entry, which are still tried. Nothing is
    /// written.
    pub fn reserve(&self, id: &Id, rows: &Seq<u32>) -> Result<Reserved, NoMemory>
        requires can { CanReserve (store self.now).entries id.now rows.now }
        ensures id { IfOk result (λ r. r.room.id ≡ id.now) }
        ensures rows { IfOk result (λ r. r.rows ≡ rows.now) }
        ensures is { IfOk result (IsReserved (store self.now).entries) }
    {
        let rows = rows.copy()?;
        let room = self.queue.reserve(id)?;
        Ok(Reserved { room, rows })
    }

    /// Records what an attempt made of the rows of an entry, which wasn't changed since they were
    /// reserved: one result for each of them, in order. A row that is deferred fails with 4.4.7
    /// where the entry was created Timeout.queuereturn ago or longer. A stop at any moment leaves
    /// the table before or after. It takes no memory.
    pub fn record<D: Spool>(
        &mut self,
        spool: &mut D,
        reserved: Reserved,
        outcomes: &Outcomes,
        moment: u64,
    ) -> Result<(), SpoolFault>
        requires agrees { Tallies self.old (D.seen spool.old) }
        requires reserved { IsReserved (store self.old).entries reserved }
        requires each { length outcomes.now.results ≡ length reserved.rows }
        ensures moves { (table : Entries) → HoldsTable self.old table
            → LeadsTo (store self.old).dirs table
            (after table
            (Record self.old.terms reserved.room.id reserved.rows outcomes.now.results moment))
            result (D.seen spool.old) (D.seen spool.new) }
        ensures holds { (table : Entries) → HoldsTable self.old table
            → OnOk result
            (HoldsTable self.new
            (after table
            (Record self.old.terms reserved.room.id reserved.rows outcomes.now.results moment))) }
        ensures frame { (f : FileMap)
            → Moves (D.seen spool.old) (D.seen spool.new) (λ g. g ≡ f)
            (KeepsOthers (store self.old).dirs f) (KeepsOthers (store self.old).dirs f) }
        ensures agrees { OnOk result (IsAtRest (store self.new) (D.seen spool.new)) }
        ensures stays { Stays self.old self.new }
        ensures ok { OnOk result
            (store self.new ≡ record (store self.old) {
              entries =
                  map
                  (recontrolled reserved.room.id
                  (recorded self.old.terms reserved.rows outcomes.now.results moment
                  reserved.room.control))
                  (store self.old).entries;
            }) }
        ensures err { OnErr result (store self.new ≡ broken_one (store self.old)) }
        ensures broken { (store self.old).broken ≡ true
            → (result ≡ Err record {}) × (spool.new ≡ spool.old) }
        ensures later { (D.seen spool.old).faults ≤ (D.seen spool.new).faults }
        ensures calm { OnOk result ((D.seen spool.new).faults ≡ (D.seen spool.old).faults) }
        ensures cause { OnErr result
            (((store self.old).broken ≡ true)
            ⊎ Rose (D.seen spool.old).faults (D.seen spool.new).faults) }
    {
        // A law: the store holds the table behind a replaced control. Of the entries only clauses
        // are used.
        holding_goes_on();
        let _held = self.queue.entries();
        let room = reserved.recorded(&self.terms, outcomes, moment);
        self.queue.replace(spool, room)
    }

    /// Finishes an entry whose rows are all done: its control file gets the name of a finished
    /// one's, and its body goes unless a row is dead. The table stays. It takes no memory.
    pub fn finish<D: Spool>(&mut self, spool: &mut D, id: &Id) -> Result<(), SpoolFault>
        requires agrees { Tallies self.old (D.seen spool.old) }
        requires can { CanFinish (store self.old).entries id.now }
        ensures moves { (f : FileMap)
            → Moves (D.seen spool.old) (D.seen spool.new) (λ g. g ≡ f)
            (IsTidied (store self.old).dirs f) (IsTidied (store self.old).dirs f) }
        ensures stands { (table : Entries)
            → Moves (D.seen spool.old) (D.seen spool.new) (StandsFor (store self.old).dirs table)
            (StandsFor (store self.old).dirs table) (StandsFor (store self.old).dirs table) }
        ensures holds { (table : Entries) → HoldsTable self.old table
            → OnOk result (HoldsTable self.new table) }
        ensures frame { (f : FileMap)
            → Moves (D.seen spool.old) (D.seen spool.new) (λ g. g ≡ f)
            (KeepsOthers (store self.old).dirs f) (KeepsOthers (store self.old).dirs f) }
        ensures files { OnOk result
            (IfSome (D.seen spool.new).told
            (λ g. (h : Held) → Contains (store self.old).entries h → h.entry.id ≡ id.now
            → h.finished ≡ false → IsFiled h g)) }
        ensures already { (h : Held) → Contains (store self.old).entries h → h.entry.id ≡ id.now
            → h.finished ≡ true → spool.new ≡ spool.old }
        ensures agrees { OnOk result (IsAtRest (store self.new) (D.seen spool.new)) }
        ensures stays { Stays self.old self.new }
        ensures ok { OnOk result
            (store self.new ≡ record (store self.old) {
              entries = map (refinished id.now) (store self.old).entries;
            }) }
        ensures err { OnErr result (store self.new ≡ broken_one (store self.old)) }
        ensures broken { (store self.old).broken ≡ true
            → (result ≡ Err record {}) × (spool.new ≡ spool.old) }
        ensures later { (D.seen spool.old).faults ≤ (D.seen spool.new).faults }
        ensures calm { OnOk result ((D.seen spool.new).faults ≡ (D.seen spool.old).faults) }
        ensures cause { OnErr result
            (((store self.old).broken ≡ true)
            ⊎ Rose (D.seen spool.old).faults (D.seen spool.new).faults) }
    {
        // A law: the store holds the table behind a finish.
        holding_goes_on();
        self.queue.finish(spool, id)
    }
}
