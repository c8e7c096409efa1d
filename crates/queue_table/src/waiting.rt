ghost use Rattle.std.specs.Prelude.{◌≡◌, ◌↔◌, ◌+◌, ◌<◌, ◌≤◌, ℕ, [], ◌∷◌, ◌++◌, List, All, IsTrue, OnOk, OnErr, true, false, length, filter, map, not, eqb, bytes_eq, get_or};
ghost use Rattle.mail_base.specs.declared.control.Control.{Control};
ghost use Rattle.spool_store.specs.Stores.{recontrolled, refinished};
ghost use Rattle.spool_store.specs.declared.held.Held.{Held as HeldSeen};
ghost use Rattle.queue_table.specs.Claims.{IsFull, IsLeastDue, IsQuiet, has_room, is_free, is_held, lane_of, may_claim};
ghost use Rattle.queue_table.specs.declared.waiting.Lane.{Lane as LaneSeen};
ghost use Rattle.queue_table.specs.declared.waiting.Waiting.{Waiting as WaitingSeen};
ghost use Rattle.queue_table.specs.inner.Least.{IsLeastAt};

use crate::order::{before, due, due_from};
use mail_base::{Catalog, Entry, Id, NoMemory, Seq, Text, TryCopy};
use spool_store::Held;
use std::alloc::Global;
use std::mem;

/// What a queue group allows.
#[derive(Drop)]
pub struct Lane {
    /// The group's name.
    pub group: Text,
    /// The least seconds between two tries of an entry.
    pub wait: u64,
    /// The most entries that are held at once.
    pub runners: u64,
}

/// An entry that is held, and the name of its lane.
#[derive(Drop)]
pub struct Holder {
    pub id: Id,
    pub lane: Text,
}

/// Which entries are held, what each group allows, and a moment before which none may be claimed.
pub struct Waiting {
    pub(crate) lanes: Catalog<Lane>,
    pub(crate) other: Lane,
    pub(crate) holders: Seq<Holder>,
    pub(crate) quiet: u64,
}

// Written out, since a caller's proof goes through the parts of a derived drop at each way out.
impl Drop for Waiting {
    fn drop(self) {
        let Waiting {
            lanes: _,
            other: _,
            holders: _,
            quiet: _,
        } = self;
    }
}

impl Waiting {
    /// No entry is held. The lanes stand under the names of their groups; a group that isn't among
    /// them has the other lane. It takes no memory.
    pub fn new(alloc: Global, lanes: Catalog<Lane>, other: Lane) -> Waiting
        ensures { result
            ≡ record { lanes = lanes; other = other; holders = []; quiet = 0 } }
    {
        Waiting {
            lanes,
            other,
            holders: Seq::new(alloc),
            quiet: 0,
        }
    }

    /// The entries that are held, the first one first. It takes no memory.
    pub fn holders(&self) -> &[Holder]
        ensures { result.now ≡ self.now.holders }
    {
        self.holders.items()
    }

    /// The table has changed: an entry may be due at once.
    pub fn wake(&mut self)
        ensures is { self.new ≡ record self.old { quiet = 0 } }
        ensures quiet { (entries : List HeldSeen) → IsQuiet self.new entries }
    {
        self.quiet = 0;
    }

    /// An entry is held from now on. After `NoMemory` all is as before.
    pub fn hold(&mut self, entry: &Entry) -> Result<(), NoMemory>
        ensures ok { OnOk result
            (self.new ≡ record self.old {
              holders =
                  self.old.holders
                  ++ (record {
                    id = entry.now.id;
                    lane = (lane_of self.old entry.now.control.group).group;
                  } ∷ []);
              quiet = 0;
            }) }
        ensures err { OnErr result (self.new ≡ self.old) }
        ensures quiet { OnOk result ((entries : List HeldSeen) → IsQuiet self.new entries) }
    {
        let lane = self.lane(&entry.control.group).group.copy()?;
        self.holders.push(Holder { id: entry.id, lane })?;
        self.quiet = 0;
        Ok(())
    }

    /// An entry isn't held any more. It takes no memory.
    pub fn release(&mut self, id: &Id)
        ensures is { self.new
            ≡ record self.old {
              holders = filter (λ h. not (eqb h.id id.now)) self.old.holders;
              quiet = 0;
            } }
        ensures quiet { (entries : List HeldSeen) → IsQuiet self.new entries }
    {
        without(&mut self.holders, *id);
        self.quiet = 0;
    }

    /// The id of the least of the entries that are due, that nobody holds and whose lane has room,
    /// or `None` exactly where there is none. Where it is called again with the same entries before
    /// one may be claimed, it need not look at them. It takes no memory.
    pub fn least_due(&mut self, entries: &[Held], moment: u64) -> Option<Id>
        requires quiet { IsQuiet self.old entries.now }
        ensures is { IsLeastDue self.old moment entries.now result }
        ensures quiet { IsQuiet self.new entries.now }
        ensures same { self.new ≡ record self.old { quiet = self.new.quiet } }
    {
        if moment < self.quiet {
            return None;
        }
        if self.is_full() {
            self.quiet = u64::MAX;
            return None;
        }
        if let Some(place) = self.least_place(entries, moment) {
            return Some(at(entries, place).entry.id);
        }
        self.quiet = self.quiet_over(entries);
        None
    }

    /// Whether no lane has room: then nothing is free, whatever the table holds. It looks at each
    /// lane once, and takes no memory.
    pub fn is_full(&self) -> bool
        ensures is { IsTrue result ↔ IsFull self.now }
        ensures none { result ≡ true → (h : HeldSeen) → is_free self.now h ≡ false }
    {
        if has_room(self.holders.items(), &self.other) {
            return false;
        }
        for place in 0..self.lanes.len() {
            if self.has_room_at(place) {
                return false;
            }
        }
        true
    }

    // Whether the lane at a place among those with names has room.
    fn has_room_at(&self, place: usize) -> bool
        requires { place < length self.now.lanes }
        ensures { (d : List ℕ × LaneSeen)
            → result ≡ has_room self.now.holders (get_or self.now.lanes place d).1 }
    {
        let (_group, lane) = self.lanes.at(place).unwrap();
        has_room(self.holders.items(), lane)
    }

    // The lane of a group.
    fn lane(&self, group: &Text) -> &Lane
        ensures { result.now ≡ lane_of self.now group.now }
    {
        if self.lanes.is_empty() {
            return &self.other;
        }
        match self.lanes.get(group) {
            Some(lane) => lane,
            None => &self.other,
        }
    }

    /// Whether nobody holds an entry, and its group has a place for another holder: what a run over
    /// a list may claim, whatever the time. It takes no memory.
    pub fn is_free(&self, held: &Held) -> bool
        ensures { result ≡ is_free self.now held.now }
    {
        self.has_place(held, self.lane(&held.entry.control.group))
    }

    // The same of an entry whose lane is known.
    fn has_place(&self, held: &Held, lane: &Lane) -> bool
        requires { lane.now ≡ lane_of self.now held.now.entry.control.group }
        ensures { result ≡ is_free self.now held.now }
    {
        if is_held(self.holders.items(), held.entry.id) {
            return false;
        }
        has_room(self.holders.items(), lane)
    }

    // Whether an entry may be claimed at a moment. Of a large queue most are not due.
    fn may_claim(&self, held: &Held, moment: u64) -> bool
        ensures { result ≡ may_claim self.now moment held.now }
    {
        let lane = self.lane(&held.entry.control.group);
        due(&held.entry.control, moment, lane.wait) && self.has_place(held, lane)
    }

    // A moment before which an entry may not be claimed, where others may not before a moment.
    fn claim_from(&self, held: &Held, others: u64) -> u64
        ensures own { (moment : ℕ) → moment < result → may_claim self.now moment held.now ≡ false }
        ensures others { result ≤ others }
    {
        let lane = self.lane(&held.entry.control.group);
        let from = due_from(&held.entry.control, lane.wait);
        if from < others && self.has_place(held, lane) {
            return from;
        }
        others
    }

    // A moment before which none of these may be claimed.
    fn quiet_over(&self, entries: &[Held]) -> u64
        ensures { (moment : ℕ) → moment < result
            → All (λ h. may_claim self.now moment h ≡ false) entries.now }
    {
        let mut quiet = u64::MAX;
        for held in entries {
            quiet = self.claim_from(held, quiet);
        }
        quiet
    }

    // Where the least of those that may be claimed is.
    fn least_place(&self, entries: &[Held], moment: u64) -> Option<usize>
        ensures { IsLeastAt self.now moment entries.now (length entries.now) result }
    {
        let mut least = None;
        for place in 0..entries.len() {
            least = self.better(entries, least, place, moment);
        }
        least
    }

    // The same up to a place, by what it is before that place.
    fn better(
        &self,
        entries: &[Held],
        least: Option<usize>,
        place: usize,
        moment: u64,
    ) -> Option<usize>
        requires within { place < length entries.now }
        requires before { IsLeastAt self.now moment entries.now place least }
        ensures { IsLeastAt self.now moment entries.now (place + 1) result }
    {
        let held = at(entries, place);
        match least {
            Some(first) => {
                if !before(&held.entry, &at(entries, first).entry) {
                    return Some(first);
                }
                if !self.may_claim(held, moment) {
                    return Some(first);
                }
                Some(place)
            }
            None => {
                if !self.may_claim(held, moment) {
                    return None;
                }
                Some(place)
            }
        }
    }
}

/// The entry of a holder may get another control, and any entry may be finished: before the moment
/// of before no entry may be claimed then. So only new entries need a [`Waiting::wake`].
pub fn held_entries_may_change()
    ensures control { (w : WaitingSeen) (entries : List HeldSeen) (id : ℕ) (control : Control)
        → is_held w.holders id ≡ true → IsQuiet w entries
        → IsQuiet w (map (recontrolled id control) entries) }
    ensures finish { (w : WaitingSeen) (entries : List HeldSeen) (id : ℕ) → IsQuiet w entries
        → IsQuiet w (map (refinished id) entries) }
{}

fn at(entries: &[Held], place: usize) -> &Held
    requires { place < length entries.now }
    ensures { (d : HeldSeen) → result.now ≡ get_or entries.now place d }
{
    &entries[place]
}

fn is_held(holders: &[Holder], id: Id) -> bool
    ensures { result ≡ is_held holders.now id }
{
    holders
        .iter()
        .any(|holder| holder.id.number() == id.number())
}

fn is_in(holder: &Holder, lane: &Lane) -> bool
    ensures { result ≡ bytes_eq holder.now.lane lane.now.group }
{
    holder.lane.bytes() == lane.group.bytes()
}

// Whether fewer entries of a lane are held than may be at once.
fn has_room(holders: &[Holder], lane: &Lane) -> bool
    ensures { result ≡ has_room holders.now lane.now }
{
    let count = holders.iter().filter(|holder| is_in(holder, lane)).count();
    (count as u64) < lane.runners
}

// Takes the holder of an entry out.
fn without(holders: &mut Seq<Holder>, id: Id)
    ensures { holders.new ≡ filter (λ h. not (eqb h.id id)) holders.old }
{
    let alloc = holders.allocator();
    let mut items = mem::replace(holders, Seq::new(alloc)).into_vec();
    keep_others(&mut items, id);
    *holders = Seq::from_vec(items);
}

fn keep_others(items: &mut Vec<Holder>, id: Id)
    ensures { items.new.items ≡ filter (λ h. not (eqb h.id id)) items.old.items }
{
    items.retain(|holder| holder.id.number() != id.number());
}
