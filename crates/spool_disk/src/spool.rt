ghost use Rattle.std.specs.Prelude.{◌≡◌, ◌≢◌, ◌≤◌, ℕ, false, IfOk, IfSome, IsSome, IsOk, OnOk, Some};
ghost use Rattle.mail_base.specs.Histories.{HasCause};
ghost use Rattle.mail_base.specs.Causes.{HasEdgeCause, has_failed};
ghost use Rattle.spool_disk.specs.Disk.{FileMap, bytes_at, IsImage, IsDone};
ghost use Rattle.spool_disk.specs.Listings.{IsListing};
ghost use Rattle.spool_disk.specs.Spooled.{Spooled, Calls, Reads};
ghost use Rattle.spool_disk.specs.declared.change.Change.TheVariants.{Write, Rename, Remove};

use mail_base::{EdgeFault, Failed, Seq, Text};
use std::alloc::Global;

/// Files in directories that a queue is kept in, on a disk or in memory. It may tell them, and what
/// a stop since any moment may have left of them; whether it does never changes. Its count of
/// faults never falls, and rises where a call answers `Failed` and in no other.
pub trait Spool {
    /// All that is seen of it.
    ghost seen: { Self → Spooled };

    /// The names of the files in that directory, sorted by their bytes, each once. Their memory
    /// comes from `alloc`. It changes nothing.
    fn list(&mut self, alloc: Global, dir: &Text) -> Result<Seq<Text>, EdgeFault>
        ensures names { IfOk result (λ names. IsListing (seen self.old).told dir.now names) }
        ensures call { Reads (seen self.old) (seen self.new) }
        ensures cause { HasEdgeCause (seen self.old).faults (seen self.new).faults result }
        ensures calm { has_failed result ≡ false
            → (seen self.new).faults ≡ (seen self.old).faults };

    /// The bytes of that file, or `None` exactly where it isn't there. Their memory comes from
    /// `alloc`. It changes nothing.
    fn read(&mut self, alloc: Global, dir: &Text, name: &Text) -> Result<Option<Text>, EdgeFault>
        ensures bytes { IfOk result
            (λ bytes. IfSome (seen self.old).told
            (λ files. bytes ≡ bytes_at files (dir.now, name.now))) }
        ensures call { Reads (seen self.old) (seen self.new) }
        ensures cause { HasEdgeCause (seen self.old).faults (seen self.new).faults result }
        ensures calm { has_failed result ≡ false
            → (seen self.new).faults ≡ (seen self.old).faults };

    /// Makes the file hold exactly these bytes, whether it was there or not. After `Failed` it is
    /// absent or holds any bytes.
    fn write_new(&mut self, dir: &Text, name: &Text, bytes: &Text) -> Result<(), Failed>
        ensures call { Calls (seen self.old) (seen self.new)
            (IsImage (Write dir.now name.now bytes.now))
            (IsDone (Write dir.now name.now bytes.now)) (IsOk result) }
        ensures cause { HasCause (seen self.old).faults (seen self.new).faults result }
        ensures calm { OnOk result ((seen self.new).faults ≡ (seen self.old).faults) };

    /// Gives a file another name in its directory, in place of what had that name. After `Failed`
    /// it was done or not.
    fn rename(&mut self, dir: &Text, from: &Text, to: &Text) -> Result<(), Failed>
        requires apart { from.now ≢ to.now }
        requires there { IfSome (seen self.old).told
            (λ files. IsSome (bytes_at files (dir.now, from.now))) }
        ensures call { Calls (seen self.old) (seen self.new)
            (IsImage (Rename dir.now from.now to.now))
            (IsDone (Rename dir.now from.now to.now)) (IsOk result) }
        ensures cause { HasCause (seen self.old).faults (seen self.new).faults result }
        ensures calm { OnOk result ((seen self.new).faults ≡ (seen self.old).faults) };

    /// Takes a file away, if it was there. After `Failed` it was done or not.
    fn remove(&mut self, dir: &Text, name: &Text) -> Result<(), Failed>
        ensures call { Calls (seen self.old) (seen self.new) (IsImage (Remove dir.now name.now))
            (IsDone (Remove dir.now name.now)) (IsOk result) }
        ensures cause { HasCause (seen self.old).faults (seen self.new).faults result }
        ensures calm { OnOk result ((seen self.new).faults ≡ (seen self.old).faults) };

    /// Since this moment a stop can have left only what is told.
    ghost only_now: { (s : Self) (c : FileMap) → (seen s).left_since (seen s).moment c
        → (seen s).told ≡ Some c };

    /// What is told, a stop since this moment may leave.
    ghost at_rest: { (s : Self)
        → IfSome (seen s).told (λ files. (seen s).left_since (seen s).moment files) };

    /// What a stop since a moment may have left, one since an earlier moment may have left too.
    ghost earlier: { (s : Self) (t u : ℕ) (c : FileMap) → t ≤ u → (seen s).left_since u c
        → (seen s).left_since t c };
}
