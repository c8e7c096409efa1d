ghost use Rattle.std.specs.Prelude.{◌≡◌, ◌≢◌, ◌≤◌, ◌+◌, ◌++◌, ◌∷◌, [], ◌⊎◌, ◌&&◌, ◌||◌, true, false, not, All, IfOk, OnOk, IsErr, IsOk, IsSome, Some, is_ok, is_err, map, option_copied, if◌then◌else◌};
ghost use Rattle.mail_base.specs.Histories.{HasCause, Rose};
ghost use Rattle.mail_base.specs.Scripts.{is_listed, one_more};
ghost use Rattle.mail_base.specs.Causes.{HasEdgeCause, has_failed};
ghost use Rattle.spool_disk.specs.Changes.{after, after_all, record_seen};
ghost use Rattle.spool_disk.specs.Disk.{bytes_at, IsImage, IsDone};
ghost use Rattle.spool_disk.specs.Lefts.{left_now, left_at_rest, left_earlier};
ghost use Rattle.spool_disk.specs.Listings.{IsListing};
ghost use Rattle.spool_disk.specs.Spooled.{Calls, Reads};
ghost use Rattle.spool_disk.specs.Stops.{MayLeave, fresh, left_maps, past_after, stopped_call, wants_memory};
ghost use Rattle.spool_disk.specs.declared.change.Change.TheVariants.{Write, Rename, Remove};

use crate::{Change, File, MemSpool, Spool};
use mail_base::{EdgeFault, Failed, NoMemory, Seq, Text, TryCopy};
use std::alloc::Global;

/// A spool in memory that stops: so many calls that change files pass, the next such call is cut
/// short, and it and every call after it fail. Where there is no memory to record the call that is
/// cut short, it fails, which the spool's own count of those calls tells, and the stop comes with
/// the next.
pub struct StopSpool {
    pub spool: MemSpool,
    pub left: u64,
    pub stopped: bool,
}

// Written out, since a caller's proof goes through the parts of a derived drop at each way out.
impl Drop for StopSpool {
    fn drop(self) {
        let StopSpool {
            spool: _,
            left: _,
            stopped: _,
        } = self;
    }
}

impl StopSpool {
    /// A spool that passes so many calls that change files. It takes no memory.
    pub fn new(spool: MemSpool, passes: u64) -> StopSpool
        ensures { result ≡ record { spool = spool; left = passes; stopped = false } }
    {
        StopSpool {
            spool,
            left: passes,
            stopped: false,
        }
    }

    /// Some of the maps that the stop may leave, each as a spool of its own: of a write the file
    /// absent, empty, cut in half and whole, of a renaming or a removal the old map and the new
    /// one. Before the stop it is the map alone.
    pub fn images(&self) -> Result<Seq<MemSpool>, NoMemory>
        ensures maps { IfOk result
            (λ spools. spools
            ≡ map fresh (left_maps (stopped_call self.now.spool.past)
            (after_all self.now.spool.past self.now.spool.start))) }
        ensures each { IfOk result
            (λ spools. All (λ spool. MayLeave (stopped_call self.now.spool.past)
            (after_all self.now.spool.past self.now.spool.start) spool.start) spools) }
    {
        let files = self.spool.replayed()?;
        match self.stopped_call() {
            None => at_rest(files),
            Some(change) => left_by(files, change),
        }
    }

    // The call that was cut short.
    fn stopped_call(&self) -> Option<&Change>
        ensures { option_copied result ≡ stopped_call self.now.spool.past }
    {
        let attempt = self.spool.last()?;
        if attempt.done {
            None
        } else {
            Some(&attempt.change)
        }
    }

    // Cuts a call short, which is the stop.
    fn stop(&mut self, change: Change) -> Failed
        requires { self.old.stopped ≡ false }
        ensures left { self.new.left ≡ self.old.left }
        ensures start { self.new.spool.start ≡ self.old.spool.start }
        ensures past { self.new.spool.past
            ≡ past_after self.old.spool.past change false self.new.stopped }
        ensures starved { self.new.spool.starved
            ≡ (if self.new.stopped then self.old.spool.starved
            else one_more self.old.spool.starved) }
        ensures rose { Rose self.old.spool.script.faults self.new.spool.script.faults }
        ensures later { self.old.spool.script.faults ≤ self.new.spool.script.faults }
    {
        if let Err(failed) = self.spool.keep(change, false) {
            return failed;
        }
        self.stopped = true;
        self.spool.lost()
    }
}

// A spool of the files after a change.
fn left_after(files: &Seq<File>, change: &Change) -> Result<MemSpool, NoMemory>
    ensures { IfOk result (λ spool. spool ≡ fresh (after change.now files.now)) }
{
    let alloc = files.allocator();
    let left = change.applied(files.copy()?)?;
    MemSpool::of(alloc, left, Seq::new(alloc))
}

// Adds a spool of the files after a change.
fn leave(spools: &mut Seq<MemSpool>, files: &Seq<File>, change: &Change) -> Result<(), NoMemory>
    ensures { OnOk result (spools.new ≡ spools.old ++ fresh (after change.now files.now) ∷ []) }
{
    spools.push(left_after(files, change)?)
}

// Adds a spool of the files after one was written up to so many of its bytes.
fn leave_part(
    spools: &mut Seq<MemSpool>,
    files: &Seq<File>,
    dir: &Text,
    name: &Text,
    part: &[u8],
) -> Result<(), NoMemory>
    ensures { OnOk result
        (spools.new ≡ spools.old
        ++ fresh (after (Write dir.now name.now part.now) files.now) ∷ []) }
{
    let bytes = Text::of(dir.allocator(), part)?;
    leave(spools, files, &Change::writing(dir, name, &bytes)?)
}

// The files alone.
fn at_rest(files: Seq<File>) -> Result<Seq<MemSpool>, NoMemory>
    ensures { IfOk result (λ spools. spools ≡ map fresh (files ∷ [])) }
{
    let alloc = files.allocator();
    let mut spools = Seq::new(alloc);
    spools.push(MemSpool::of(alloc, files, Seq::new(alloc))?)?;
    Ok(spools)
}

// What a stop in a write may leave: the file absent, empty, cut in half and whole.
fn left_by_write(
    files: &Seq<File>,
    dir: &Text,
    name: &Text,
    bytes: &Text,
) -> Result<Seq<MemSpool>, NoMemory>
    ensures { IfOk result
        (λ spools. spools
        ≡ map fresh (left_maps (Some (Write dir.now name.now bytes.now)) files.now)) }
{
    let whole = bytes.bytes();
    let half = whole.len() / 2;
    let mut spools = Seq::new(files.allocator());
    leave(&mut spools, files, &Change::removal(dir, name)?)?;
    leave_part(&mut spools, files, dir, name, &[])?;
    leave_part(&mut spools, files, dir, name, &whole[..half])?;
    leave_part(&mut spools, files, dir, name, whole)?;
    Ok(spools)
}

// What a stop in another change may leave: the files before it and after it.
fn left_by_move(files: Seq<File>, change: &Change) -> Result<Seq<MemSpool>, NoMemory>
    ensures { IfOk result (λ spools. spools ≡ map fresh (files ∷ after change.now files ∷ [])) }
{
    let left = left_after(&files, change)?;
    let mut spools = at_rest(files)?;
    spools.push(left)?;
    Ok(spools)
}

// Some of what a stop in a change may leave.
fn left_by(files: Seq<File>, change: &Change) -> Result<Seq<MemSpool>, NoMemory>
    ensures { IfOk result (λ spools. spools ≡ map fresh (left_maps (Some change.now) files)) }
{
    match change {
        Change::Write(dir, name, bytes) => left_by_write(&files, dir, name, bytes),
        Change::Rename(_, _, _) => left_by_move(files, change),
        Change::Remove(_, _) => left_by_move(files, change),
    }
}

impl Spool for StopSpool {
    ghost seen = { λ s. record_seen s.spool.start s.spool.past s.spool.script.faults };

    ghost only_now = { λ s c h. left_now s.spool.start s.spool.past c h };

    ghost at_rest = { λ s. left_at_rest s.spool.start s.spool.past };

    ghost earlier = { λ s t u c le h. left_earlier s.spool.start s.spool.past t u c le h };

    fn list(&mut self, alloc: Global, dir: &Text) -> Result<Seq<Text>, EdgeFault>
        ensures fails { has_failed result ≡ (self.old.stopped || is_listed self.old.spool.script) }
        ensures kept { self.new
            ≡ record self.old { spool = record self.old.spool { script = self.new.spool.script } } }
        ensures names { IfOk result
            (λ names. IsListing
            (Some (after_all self.old.spool.past self.old.spool.start)) dir.now names) }
        ensures call { Reads
            (record_seen self.old.spool.start self.old.spool.past self.old.spool.script.faults)
            (record_seen self.new.spool.start self.new.spool.past self.new.spool.script.faults) }
        ensures cause { HasEdgeCause self.old.spool.script.faults
            self.new.spool.script.faults result }
        ensures calm { has_failed result ≡ false
            → self.new.spool.script.faults ≡ self.old.spool.script.faults }
    {
        if self.stopped {
            let failed = self.spool.lost();
            return Err(failed.into());
        }
        self.spool.list(alloc, dir)
    }

    fn read(&mut self, alloc: Global, dir: &Text, name: &Text) -> Result<Option<Text>, EdgeFault>
        ensures fails { has_failed result ≡ (self.old.stopped || is_listed self.old.spool.script) }
        ensures kept { self.new
            ≡ record self.old { spool = record self.old.spool { script = self.new.spool.script } } }
        ensures bytes { IfOk result
            (λ bytes. bytes ≡ bytes_at (after_all self.old.spool.past self.old.spool.start)
            (dir.now, name.now)) }
        ensures call { Reads
            (record_seen self.old.spool.start self.old.spool.past self.old.spool.script.faults)
            (record_seen self.new.spool.start self.new.spool.past self.new.spool.script.faults) }
        ensures cause { HasEdgeCause self.old.spool.script.faults
            self.new.spool.script.faults result }
        ensures calm { has_failed result ≡ false
            → self.new.spool.script.faults ≡ self.old.spool.script.faults }
    {
        if self.stopped {
            let failed = self.spool.lost();
            return Err(failed.into());
        }
        self.spool.read(alloc, dir, name)
    }

    fn write_new(&mut self, dir: &Text, name: &Text, bytes: &Text) -> Result<(), Failed>
        ensures over { self.old.stopped ≡ true → IsErr result × (self.new.stopped ≡ true) }
        ensures stop { self.old.left ≡ 0 → IsErr result }
        ensures stopped { self.new.stopped ≡ true
            → (self.old.stopped ≡ true) ⊎ (self.old.left ≡ 0) }
        ensures cut { self.old.left ≡ 0 → self.old.stopped ≡ false
            → (self.new.stopped ≡ true)
            ⊎ (self.new.spool.starved ≡ one_more self.old.spool.starved) }
        ensures starved { self.new.spool.starved
            ≡ (if wants_memory self.old.stopped self.old.left (is_listed self.old.spool.script)
            self.new.stopped (is_err result) then one_more self.old.spool.starved
            else self.old.spool.starved) }
        ensures left { self.old.left ≡ self.new.left + (if is_ok result then 1 else 0) }
        ensures start { self.new.spool.start ≡ self.old.spool.start }
        ensures past { self.new.spool.past
            ≡ past_after self.old.spool.past (Write dir.now name.now bytes.now) (is_ok result)
            (self.new.stopped && not self.old.stopped) }
        ensures call { Calls
            (record_seen self.old.spool.start self.old.spool.past self.old.spool.script.faults)
            (record_seen self.new.spool.start self.new.spool.past self.new.spool.script.faults)
            (IsImage (Write dir.now name.now bytes.now))
            (IsDone (Write dir.now name.now bytes.now)) (IsOk result) }
        ensures cause { HasCause self.old.spool.script.faults self.new.spool.script.faults result }
        ensures calm { OnOk result (self.new.spool.script.faults ≡ self.old.spool.script.faults) }
    {
        if self.stopped {
            return Err(self.spool.lost());
        }
        if self.left == 0 {
            let Ok(change) = Change::writing(dir, name, bytes) else {
                return Err(self.spool.starve());
            };
            return Err(self.stop(change));
        }
        self.spool.write_new(dir, name, bytes)?;
        self.left -= 1;
        Ok(())
    }

    fn rename(&mut self, dir: &Text, from: &Text, to: &Text) -> Result<(), Failed>
        requires apart { from.now ≢ to.now }
        requires there { IsSome
            (bytes_at (after_all self.old.spool.past self.old.spool.start) (dir.now, from.now)) }
        ensures over { self.old.stopped ≡ true → IsErr result × (self.new.stopped ≡ true) }
        ensures stop { self.old.left ≡ 0 → IsErr result }
        ensures stopped { self.new.stopped ≡ true
            → (self.old.stopped ≡ true) ⊎ (self.old.left ≡ 0) }
        ensures cut { self.old.left ≡ 0 → self.old.stopped ≡ false
            → (self.new.stopped ≡ true)
            ⊎ (self.new.spool.starved ≡ one_more self.old.spool.starved) }
        ensures starved { self.new.spool.starved
            ≡ (if wants_memory self.old.stopped self.old.left (is_listed self.old.spool.script)
            self.new.stopped (is_err result) then one_more self.old.spool.starved
            else self.old.spool.starved) }
        ensures left { self.old.left ≡ self.new.left + (if is_ok result then 1 else 0) }
        ensures start { self.new.spool.start ≡ self.old.spool.start }
        ensures past { self.new.spool.past
            ≡ past_after self.old.spool.past (Rename dir.now from.now to.now) (is_ok result)
            (self.new.stopped && not self.old.stopped) }
        ensures call { Calls
            (record_seen self.old.spool.start self.old.spool.past self.old.spool.script.faults)
            (record_seen self.new.spool.start self.new.spool.past self.new.spool.script.faults)
            (IsImage (Rename dir.now from.now to.now))
            (IsDone (Rename dir.now from.now to.now)) (IsOk result) }
        ensures cause { HasCause self.old.spool.script.faults self.new.spool.script.faults result }
        ensures calm { OnOk result (self.new.spool.script.faults ≡ self.old.spool.script.faults) }
    {
        if self.stopped {
            return Err(self.spool.lost());
        }
        if self.left == 0 {
            let Ok(change) = Change::renaming(dir, from, to) else {
                return Err(self.spool.starve());
            };
            return Err(self.stop(change));
        }
        self.spool.rename(dir, from, to)?;
        self.left -= 1;
        Ok(())
    }

    fn remove(&mut self, dir: &Text, name: &Text) -> Result<(), Failed>
        ensures over { self.old.stopped ≡ true → IsErr result × (self.new.stopped ≡ true) }
        ensures stop { self.old.left ≡ 0 → IsErr result }
        ensures stopped { self.new.stopped ≡ true
            → (self.old.stopped ≡ true) ⊎ (self.old.left ≡ 0) }
        ensures cut { self.old.left ≡ 0 → self.old.stopped ≡ false
            → (self.new.stopped ≡ true)
            ⊎ (self.new.spool.starved ≡ one_more self.old.spool.starved) }
        ensures starved { self.new.spool.starved
            ≡ (if wants_memory self.old.stopped self.old.left (is_listed self.old.spool.script)
            self.new.stopped (is_err result) then one_more self.old.spool.starved
            else self.old.spool.starved) }
        ensures left { self.old.left ≡ self.new.left + (if is_ok result then 1 else 0) }
        ensures start { self.new.spool.start ≡ self.old.spool.start }
        ensures past { self.new.spool.past
            ≡ past_after self.old.spool.past (Remove dir.now name.now) (is_ok result)
            (self.new.stopped && not self.old.stopped) }
        ensures call { Calls
            (record_seen self.old.spool.start self.old.spool.past self.old.spool.script.faults)
            (record_seen self.new.spool.start self.new.spool.past self.new.spool.script.faults)
            (IsImage (Remove dir.now name.now)) (IsDone (Remove dir.now name.now)) (IsOk result) }
        ensures cause { HasCause self.old.spool.script.faults self.new.spool.script.faults result }
        ensures calm { OnOk result (self.new.spool.script.faults ≡ self.old.spool.script.faults) }
    {
        if self.stopped {
            return Err(self.spool.lost());
        }
        if self.left == 0 {
            let Ok(change) = Change::removal(dir, name) else {
                return Err(self.spool.starve());
            };
            return Err(self.stop(change));
        }
        self.spool.remove(dir, name)?;
        self.left -= 1;
        Ok(())
    }
}
