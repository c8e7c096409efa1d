ghost use Rattle.std.specs.Prelude.{◌≡◌, ◌≢◌, ◌+◌, ◌<◌, ◌≤◌, ◌++◌, ◌∷◌, [], IfSome, IfNone, IfOk, IfErr, OnOk, OnErr, All, map, length};
ghost use Rattle.mail_base.specs.Limits.{IsId};
ghost use Rattle.spool_store.specs.Stores.{HasId, recontrolled, refinished};
ghost use Rattle.spool_store.specs.inner.Shelves.{IsAscending, IsPlaceOf, Shelved};
ghost use Rattle.qf_format.specs.Valid.{IsValid};
ghost use Rattle.spool_store.specs.Openings.{AreOrdered, IsFitting};
ghost use Rattle.spool_store.specs.inner.Commits.{IsRow, queued};
ghost use Rattle.spool_store.specs.inner.Opening.{taken_over};

use crate::{Held, Part};
use mail_base::{Control, Entry, Id, NoMemory, Seq, Text};
use std::alloc::Global;
use std::marker::Model;

/// Entries in order of id, with room for more, and the first free id, which is greater than each of
/// theirs. Each is in one of the directories and has a control with a text, whatever a spool tells.
/// A contract sees it as its directories, its entries, that id and its room, the number of entries
/// that it takes without memory.
#[derive(Drop)]
pub struct Shelf {
    dirs: Seq<Text>,
    held: Vec<Held>,
    next: u64,
    room: usize,
}

impl Model for Shelf {
    ghost use Rattle.std.specs.Prelude.{◌+◌, ◌<◌, ◌≤◌, All, length};
    ghost use Rattle.std.specs.Vec.{vec_capacity};
    ghost use Rattle.spool_store.specs.Openings.{IsFitting};
    ghost use Rattle.spool_store.specs.inner.Shelves.{IsAscending, Shelved};

    ghost Value = { Shelved };

    ghost view = { λ s. record {
      dirs = s.dirs;
      items = s.held.items;
      next = s.next;
      room = s.room;
    } };

    ghost invariant = { λ s. (length s.held.items + s.room ≤ vec_capacity s.held)
        × (IsAscending s.held.items
        × (All (λ h. h.entry.id < s.next) s.held.items
        × All (λ h. IsFitting s.dirs h.entry) s.held.items)) };
}

// Entries that an opening found.
fn all_held(alloc: Global, entries: Seq<Entry>) -> Result<Vec<Held>, NoMemory>
    ensures { IfOk result (λ held. held.items ≡ map taken_over entries) }
{
    let mut held = Vec::new(alloc);
    for entry in entries.into_vec() {
        held.push(Held::of(entry))?;
    }
    Ok(held)
}

impl Shelf {
    /// These entries in these directories, with no room for more.
    pub(crate) fn of(
        alloc: Global,
        dirs: Seq<Text>,
        entries: Seq<Entry>,
        next: u64,
    ) -> Result<Shelf, NoMemory>
        requires order { AreOrdered entries next }
        requires fit { All (IsFitting dirs) entries }
        ensures { IfOk result
            (λ shelf. shelf ≡ record {
              dirs = dirs;
              items = map taken_over entries;
              next = next;
              room = 0;
            }) }
    {
        let held = all_held(alloc, entries)?;
        Ok(Shelf {
            dirs,
            held,
            next,
            room: 0,
        })
    }

    pub(crate) fn items(&self) -> &[Held]
        ensures items { result.now ≡ self.now.items }
        ensures ascending { IsAscending self.now.items }
        ensures below { All (λ h. h.entry.id < self.now.next) self.now.items }
        ensures fit { All (λ h. IsFitting self.now.dirs h.entry) self.now.items }
    {
        &self.held
    }

    /// Where it has its memory.
    pub(crate) fn allocator(&self) -> Global {
        self.dirs.allocator()
    }

    /// The first free id.
    pub(crate) fn next(&self) -> u64
        ensures { result ≡ self.now.next }
    {
        self.next
    }

    /// Makes room for at least so many entries. After `NoMemory` it is as before.
    pub(crate) fn reserve(&mut self, more: usize) -> Result<(), NoMemory>
        ensures items { self.new.items ≡ self.old.items }
        ensures next { self.new.next ≡ self.old.next }
        ensures dirs { self.new.dirs ≡ self.old.dirs }
        ensures ok { OnOk result (more ≤ self.new.room) }
        ensures least { self.old.room ≤ self.new.room }
        ensures err { OnErr result (self.new ≡ self.old) }
    {
        if more <= self.room {
            return Ok(());
        }
        self.held.reserve(more)?;
        self.room = more;
        Ok(())
    }

    /// Adds an entry under the first free id, for which there is room. It takes no memory.
    pub(crate) fn add(&mut self, held: Held)
        requires room { 0 < self.old.room }
        requires next { held.entry.id ≡ self.old.next }
        requires fit { IsFitting self.old.dirs held.entry }
        ensures dirs { self.new.dirs ≡ self.old.dirs }
        ensures items { self.new.items ≡ self.old.items ++ held ∷ [] }
        ensures next { self.new.next ≡ self.old.next + 1 }
        ensures room { self.new.room + 1 ≡ self.old.room }
    {
        self.held.push_reserved(held);
        self.next += 1;
        self.room -= 1;
    }

    /// Adds entries under the first free ids, in their order, for which there is room. It takes no
    /// memory.
    pub(crate) fn add_all(&mut self, parts: Seq<Part>)
        requires room { length parts ≤ self.old.room }
        requires next { IsRow self.old.next parts }
        requires fit { All (λ p. IsFitting self.old.dirs p.entry) parts }
        ensures dirs { self.new.dirs ≡ self.old.dirs }
        ensures items { self.new.items ≡ self.old.items ++ map queued parts }
        ensures next { self.new.next ≡ self.old.next + length parts }
        ensures room { self.new.room + length parts ≡ self.old.room }
    {
        for part in parts.into_vec() {
            self.add(part.into_held());
        }
    }

    /// Where the entry of an id is. It halves the entries.
    pub(crate) fn find(&self, id: Id) -> Option<usize>
        ensures found { IfSome result (IsPlaceOf self.now.items id) }
        ensures absent { IfNone result (All (λ h. h.entry.id ≢ id) self.now.items) }
        ensures within { IsId id }
    {
        self.search(id.number()).ok()
    }

    fn search(&self, id: u64) -> Result<usize, usize>
        ensures found { IfOk result (IsPlaceOf self.now.items id) }
        ensures absent { IfErr result (λ _. All (λ h. h.entry.id ≢ id) self.now.items) }
    {
        self.held
            .binary_search_by_key(&id, |held| held.entry.id.number())
    }

    /// Where the entry of an id that is there is.
    pub(crate) fn place(&self, id: Id) -> usize
        requires { HasId self.now.items id }
        ensures at { IsPlaceOf self.now.items id result }
        ensures within { IsId id }
    {
        match self.find(id) {
            Some(place) => place,
            None => unreachable!(),
        }
    }

    /// The id of an entry that is there, which is below the first free one.
    pub(crate) fn known(&self, id: Id) -> Id
        requires { HasId self.now.items id }
        ensures is { result ≡ id }
        ensures within { IsId id }
        ensures below { id < self.now.next }
    {
        // Only clauses are used: each id is below the first free one.
        let _ = self.items();
        Id::new(id.number())
    }

    /// Gives the entry of an id another control. It takes no memory.
    pub(crate) fn set_control(&mut self, id: Id, control: Control)
        requires entry { HasId self.old.items id }
        requires valid { IsValid control }
        ensures { self.new
            ≡ record self.old { items = map (recontrolled id control) self.old.items } }
    {
        let place = self.place(id);
        self.held[place].entry.control = control;
    }

    /// Says of the entry of an id that its control file has its other name.
    pub(crate) fn set_finished(&mut self, id: Id)
        requires { HasId self.old.items id }
        ensures { self.new ≡ record self.old { items = map (refinished id) self.old.items } }
    {
        let place = self.place(id);
        self.held[place].finished = true;
    }
}
