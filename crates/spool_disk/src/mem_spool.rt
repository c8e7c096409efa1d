ghost use Rattle.std.specs.Prelude.{◌≡◌, ◌≢◌, ◌≤◌, ◌-◌, ◌&&◌, ◌++◌, ◌∷◌, [], true, false, not, length, slice_get, IfOk, OnOk, OnErr, IsErr, IsOk, IsSome, Some, is_ok, is_err, option_copied, if◌then◌else◌};
ghost use Rattle.mail_base.specs.Histories.{HasCause};
ghost use Rattle.mail_base.specs.Scripts.{is_listed, after_call, one_more};
ghost use Rattle.mail_base.specs.Causes.{HasEdgeCause, has_failed};
ghost use Rattle.spool_disk.specs.Changes.{after_all, after_attempt, record_seen, past_with};
ghost use Rattle.spool_disk.specs.Disk.{FileMap, bytes_at, IsImage, IsDone, IsSame};
ghost use Rattle.spool_disk.specs.Listings.{IsListing};
ghost use Rattle.spool_disk.specs.Spooled.{Calls, Reads};
ghost use Rattle.spool_disk.specs.declared.change.Change.TheVariants.{Write, Rename, Remove};
ghost use Rattle.spool_disk.specs.Lefts.{left_now, left_at_rest, left_earlier};
ghost use Rattle.spool_disk.specs.Memory.{begins, starves};
ghost use Rattle.spool_disk.specs.inner.Folders.{Holds};

use crate::folders::Folders;
use crate::listing::copied;
use crate::{Attempt, Change, File, Spool};
use mail_base::{EdgeFault, Failed, NoMemory, Script, Seq, Text, TryCopy};
use std::alloc::Global;
use std::marker::Model;

/// A spool in memory, some of whose calls fail. It keeps the files that it began with, of which the
/// first at a place counts, and a record of the calls that changed them, from which what a stop
/// since any moment may have left is told; and beside them the files as they stand now, by
/// directory and name, so that a read costs a look-up and its bytes, and a listing its names,
/// however long the record is. A call that fails, also where it found no memory, leaves the files
/// and the record as they were. `starved` counts the calls that found none.
pub struct MemSpool {
    start: Seq<File>,
    past: Vec<Attempt>,
    standing: Folders,
    script: Script,
    starved: u64,
}

// Written out, since a caller's proof goes through the parts of a derived drop at each way out.
impl Drop for MemSpool {
    fn drop(self) {
        let MemSpool {
            start: _,
            past: _,
            standing: _,
            script: _,
            starved: _,
        } = self;
    }
}

impl Model for MemSpool {
    ghost use Rattle.spool_disk.specs.Changes.{after_all};
    ghost use Rattle.spool_disk.specs.Memory.{Memory};
    ghost use Rattle.spool_disk.specs.inner.Folders.{Holds};

    ghost Value = { Memory };

    ghost view = { λ s. record {
      start = s.start;
      past = s.past.items;
      script = s.script;
      starved = s.starved;
    } };

    ghost invariant = { λ s. Holds s.standing (after_all s.past.items s.start) };
}

impl MemSpool {
    /// A spool without files, and which of its calls, counted from 0, are to fail. It takes no
    /// memory.
    pub fn new(alloc: Global, failing: Seq<u64>) -> MemSpool
        ensures { result ≡ begins [] failing }
    {
        MemSpool {
            start: Seq::new(alloc),
            past: Vec::new(alloc),
            standing: Folders::new(alloc),
            script: Script::new(failing),
            starved: 0,
        }
    }

    /// A spool of these files, and which of its calls, counted from 0, are to fail.
    pub fn of(alloc: Global, files: Seq<File>, failing: Seq<u64>) -> Result<MemSpool, NoMemory>
        ensures { IfOk result (λ spool. spool ≡ begins files failing) }
    {
        let standing = Folders::of(alloc, files.items())?;
        Ok(MemSpool {
            start: files,
            past: Vec::new(alloc),
            standing,
            script: Script::new(failing),
            starved: 0,
        })
    }

    /// A copy of the files as they are now, one at each place.
    pub fn files(&self) -> Result<Seq<File>, NoMemory>
        ensures { IfOk result (IsSame (after_all self.now.past self.now.start)) }
    {
        self.standing.files()
    }

    /// How many calls there were.
    pub fn calls(&self) -> u64
        ensures { result ≡ self.now.script.calls }
    {
        self.script.calls
    }

    /// How many of them failed.
    pub fn faults(&self) -> u64
        ensures { result ≡ self.now.script.faults }
    {
        self.script.faults
    }

    /// The files as the record makes them of the first ones, in order.
    pub(crate) fn replayed(&self) -> Result<Seq<File>, NoMemory>
        ensures { IfOk result (λ files. files ≡ after_all self.now.past self.now.start) }
    {
        let mut files = self.start.copy()?;
        for attempt in self.past.as_slice() {
            if attempt.done {
                files = attempt.change.applied(files)?;
            }
        }
        Ok(files)
    }

    /// The last call of the record.
    pub(crate) fn last(&self) -> Option<&Attempt>
        ensures { option_copied result ≡ slice_get self.now.past (length self.now.past - 1) }
    {
        self.past.last()
    }

    /// Records a change that was done, or that a stop cut short. It fails where there is no memory
    /// for it.
    pub(crate) fn keep(&mut self, change: Change, done: bool) -> Result<(), Failed>
        ensures ok { OnOk result
            (self.new ≡ record self.old {
              past = self.old.past
                  ++ record { change = change; done = done } ∷ [];
            }) }
        ensures err { OnErr result (self.new ≡ starves self.old) }
        ensures cause { HasCause self.old.script.faults self.new.script.faults result }
    {
        match record(&mut self.past, &mut self.standing, Attempt { change, done }) {
            Ok(()) => Ok(()),
            Err(NoMemory) => Err(self.starve()),
        }
    }

    /// A call that finds no memory, and so fails.
    pub(crate) fn starve(&mut self) -> Failed
        ensures counted { self.new ≡ starves self.old }
        ensures later { self.old.script.faults ≤ self.new.script.faults }
    {
        self.starved = self.starved.saturating_add(1);
        self.lost()
    }

    /// A call that fails.
    pub(crate) fn lost(&mut self) -> Failed
        ensures counted { self.new
            ≡ record self.old {
              script = record self.old.script { faults = one_more self.old.script.faults };
            } }
        ensures later { self.old.script.faults ≤ self.new.script.faults }
    {
        self.script.fail();
        Failed
    }
}

// Adds a call to a record, with what it makes of the files. After `NoMemory` all is as before.
fn record(past: &mut Vec<Attempt>, files: &mut Folders, attempt: Attempt) -> Result<(), NoMemory>
    ensures past { OnOk result (past.new.items ≡ past.old.items ++ attempt ∷ []) }
    ensures files { OnOk result
        ((map : FileMap) → Holds files.old map → Holds files.new (after_attempt attempt map)) }
    ensures kept { OnErr result ((past.new.items ≡ past.old.items) × (files.new ≡ files.old)) }
{
    past.reserve(1)?;
    if !attempt.done {
        past.push_reserved(attempt);
        return Ok(());
    }
    files.apply(&attempt.change)?;
    past.push_reserved(attempt);
    Ok(())
}

impl Spool for MemSpool {
    ghost seen = { λ s. record_seen s.start s.past s.script.faults };

    ghost only_now = { λ s c h. left_now s.start s.past c h };

    ghost at_rest = { λ s. left_at_rest s.start s.past };

    ghost earlier = { λ s t u c le h. left_earlier s.start s.past t u c le h };

    fn list(&mut self, alloc: Global, dir: &Text) -> Result<Seq<Text>, EdgeFault>
        ensures fails { has_failed result ≡ is_listed self.old.script }
        ensures counted { self.new.script ≡ after_call self.old.script (has_failed result) }
        ensures start { self.new.start ≡ self.old.start }
        ensures past { self.new.past ≡ self.old.past }
        ensures starved { self.new.starved ≡ self.old.starved }
        ensures names { IfOk result
            (λ names. IsListing (Some (after_all self.old.past self.old.start)) dir.now names) }
        ensures call { Reads (record_seen self.old.start self.old.past self.old.script.faults)
            (record_seen self.new.start self.new.past self.new.script.faults) }
        ensures cause { HasEdgeCause self.old.script.faults self.new.script.faults result }
        ensures calm { has_failed result ≡ false → self.new.script.faults ≡ self.old.script.faults }
    {
        self.script.call()?;
        Ok(self.standing.names(alloc, dir)?)
    }

    fn read(&mut self, alloc: Global, dir: &Text, name: &Text) -> Result<Option<Text>, EdgeFault>
        ensures fails { has_failed result ≡ is_listed self.old.script }
        ensures counted { self.new.script ≡ after_call self.old.script (has_failed result) }
        ensures start { self.new.start ≡ self.old.start }
        ensures past { self.new.past ≡ self.old.past }
        ensures starved { self.new.starved ≡ self.old.starved }
        ensures bytes { IfOk result
            (λ bytes. bytes ≡ bytes_at (after_all self.old.past self.old.start)
            (dir.now, name.now)) }
        ensures call { Reads (record_seen self.old.start self.old.past self.old.script.faults)
            (record_seen self.new.start self.new.past self.new.script.faults) }
        ensures cause { HasEdgeCause self.old.script.faults self.new.script.faults result }
        ensures calm { has_failed result ≡ false → self.new.script.faults ≡ self.old.script.faults }
    {
        self.script.call()?;
        let bytes = copied(alloc, self.standing.get(dir, name))?;
        Ok(bytes)
    }

    fn write_new(&mut self, dir: &Text, name: &Text, bytes: &Text) -> Result<(), Failed>
        ensures listed { is_listed self.old.script ≡ true → IsErr result }
        ensures counted { self.new.script ≡ after_call self.old.script (is_err result) }
        ensures starved { self.new.starved
            ≡ (if is_err result && not (is_listed self.old.script) then one_more self.old.starved
            else self.old.starved) }
        ensures start { self.new.start ≡ self.old.start }
        ensures past { self.new.past
            ≡ past_with self.old.past (Write dir.now name.now bytes.now) (is_ok result) }
        ensures call { Calls (record_seen self.old.start self.old.past self.old.script.faults)
            (record_seen self.new.start self.new.past self.new.script.faults)
            (IsImage (Write dir.now name.now bytes.now))
            (IsDone (Write dir.now name.now bytes.now)) (IsOk result) }
        ensures cause { HasCause self.old.script.faults self.new.script.faults result }
        ensures calm { OnOk result (self.new.script.faults ≡ self.old.script.faults) }
    {
        self.script.call()?;
        let Ok(change) = Change::writing(dir, name, bytes) else {
            return Err(self.starve());
        };
        self.keep(change, true)
    }

    fn rename(&mut self, dir: &Text, from: &Text, to: &Text) -> Result<(), Failed>
        requires apart { from.now ≢ to.now }
        requires there { IsSome
            (bytes_at (after_all self.old.past self.old.start) (dir.now, from.now)) }
        ensures listed { is_listed self.old.script ≡ true → IsErr result }
        ensures counted { self.new.script ≡ after_call self.old.script (is_err result) }
        ensures starved { self.new.starved
            ≡ (if is_err result && not (is_listed self.old.script) then one_more self.old.starved
            else self.old.starved) }
        ensures start { self.new.start ≡ self.old.start }
        ensures past { self.new.past
            ≡ past_with self.old.past (Rename dir.now from.now to.now) (is_ok result) }
        ensures call { Calls (record_seen self.old.start self.old.past self.old.script.faults)
            (record_seen self.new.start self.new.past self.new.script.faults)
            (IsImage (Rename dir.now from.now to.now))
            (IsDone (Rename dir.now from.now to.now)) (IsOk result) }
        ensures cause { HasCause self.old.script.faults self.new.script.faults result }
        ensures calm { OnOk result (self.new.script.faults ≡ self.old.script.faults) }
    {
        self.script.call()?;
        let Ok(change) = Change::renaming(dir, from, to) else {
            return Err(self.starve());
        };
        self.keep(change, true)
    }

    fn remove(&mut self, dir: &Text, name: &Text) -> Result<(), Failed>
        ensures listed { is_listed self.old.script ≡ true → IsErr result }
        ensures counted { self.new.script ≡ after_call self.old.script (is_err result) }
        ensures starved { self.new.starved
            ≡ (if is_err result && not (is_listed self.old.script) then one_more self.old.starved
            else self.old.starved) }
        ensures start { self.new.start ≡ self.old.start }
        ensures past { self.new.past
            ≡ past_with self.old.past (Remove dir.now name.now) (is_ok result) }
        ensures call { Calls (record_seen self.old.start self.old.past self.old.script.faults)
            (record_seen self.new.start self.new.past self.new.script.faults)
            (IsImage (Remove dir.now name.now)) (IsDone (Remove dir.now name.now)) (IsOk result) }
        ensures cause { HasCause self.old.script.faults self.new.script.faults result }
        ensures calm { OnOk result (self.new.script.faults ≡ self.old.script.faults) }
    {
        self.script.call()?;
        let Ok(change) = Change::removal(dir, name) else {
            return Err(self.starve());
        };
        self.keep(change, true)
    }
}
