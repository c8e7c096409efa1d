ghost use Rattle.std.specs.Prelude.{◌≡◌, ◌<◌, ◌≤◌, ◌⊎◌, [], false, All, IfOk, IfSome, IsErrOf, Some, Contains, length};
ghost use Rattle.std.specs.List.Sorted.{IsNonDecreasingBy, IsPermutation};
ghost use Rattle.mail_base.specs.Histories.{Rose};
ghost use Rattle.mail_base.specs.declared.fault.StoreFault.TheVariants.{SpoolFault as Broke, IdsSpent as Spent};
ghost use Rattle.spool_disk.specs.Disk.{FileMap};
ghost use Rattle.spool_store.specs.Moves.{Moves, Ends};
ghost use Rattle.spool_store.specs.Entries.{Table};
ghost use Rattle.spool_store.specs.Openings.{AreEntries, AreOrdered, AreStrays, IsFitting, IsNext};
ghost use Rattle.spool_store.specs.Keepers.{IsReading, seen};
ghost use Rattle.spool_store.specs.Settled.{IsSettled, StandsFor};
ghost use Rattle.spool_store.specs.Stores.{Holds, IsAtRest, KeepsOthers};
ghost use Rattle.spool_store.specs.Tidying.{IsClean, IsSwept, IsTidied};
ghost use Rattle.spool_store.specs.inner.Finds.{AreForeign, AreNamed};
ghost use Rattle.spool_store.specs.inner.Looks.{Looks};
ghost use Rattle.spool_store.specs.inner.Recovering.{HasLooked, HasPlanned, IsLook, IsPlan};
ghost use Rattle.spool_store.specs.inner.Sweeps.{Counts, IsSweptOf};
ghost use Rattle.spool_store.specs.declared.named.Named.{Named as NamedSeen};
ghost use Rattle.spool_store.specs.declared.named.Found.{Found as FoundSeen};
ghost use Rattle.spool_store.specs.declared.looked.Looked.{Looked as LookedSeen};

use crate::judged::judge;
use crate::listed::{Listed, list_all};
use crate::looked::{Looked, Plan};
use crate::looking::read_all;
use crate::named::Found;
use crate::opened::{Opened, opened_of};
use crate::plan::{bodies, closed, dead, drafts};
use crate::queue::Queue;
use crate::swept::{finish_all, remove_all};
use mail_base::{NoMemory, Seq, StoreFault, Text};
use spool_disk::Spool;
use std::alloc::Global;

// The control files in order of id.
fn sorted(found: Seq<Found>) -> Seq<Found>
    ensures order { IsNonDecreasingBy (λ (x : FoundSeen). x.named.id) result }
    ensures same { IsPermutation found result }
{
    let mut found = found.into_vec();
    found.sort_unstable_by_key(|x| x.named.id.number());
    Seq::from_vec(found)
}

// Reads the control files of what was listed, and judges them.
fn look_into<D: Spool>(
    alloc: Global,
    spool: &mut D,
    dirs: &[Text],
    listed: Listed,
) -> Result<Looked, StoreFault>
    requires within { (x : NamedSeen) → Contains listed.named x → x.dir < length dirs.now }
    requires order { IsNonDecreasingBy (λ (x : NamedSeen). x.id) listed.named }
    ensures look { IfOk result (IsLook dirs.now) }
    ensures looked { (f : FileMap) → (D.seen spool.old).told ≡ Some f
        → AreNamed dirs.now f (length dirs.now) listed.named
        × AreForeign dirs.now f (length dirs.now) listed.strays
        → IfOk result (HasLooked dirs.now f) }
    ensures looks { Looks (D.seen spool.old) (D.seen spool.new) result }
{
    let found = sorted(read_all(alloc, spool, dirs, listed.named.items())?);
    let verdicts = judge(alloc, dirs, listed.named.items(), found.items())?;
    Ok(Looked {
        named: listed.named,
        strays: listed.strays,
        found,
        verdicts,
    })
}

// Lists the directories, reads their control files, and judges them. It changes nothing.
fn look<D: Spool>(alloc: Global, spool: &mut D, dirs: &[Text]) -> Result<Looked, StoreFault>
    ensures look { IfOk result (IsLook dirs.now) }
    ensures looked { (f : FileMap) → (D.seen spool.old).told ≡ Some f
        → IfOk result (HasLooked dirs.now f) }
    ensures looks { Looks (D.seen spool.old) (D.seen spool.new) result }
{
    let listed = list_all(alloc, spool, dirs)?;
    look_into(alloc, spool, dirs, listed)
}

// What is to be done.
fn plan_of(alloc: Global, dirs: &[Text], looked: &Looked) -> Result<Plan, NoMemory>
    requires look { IsLook dirs.now looked.now }
    ensures plan { IfOk result (IsPlan (length dirs.now)) }
    ensures planned { (f : FileMap) → HasLooked dirs.now f looked.now
        → IfOk result (HasPlanned dirs.now f looked.now) }
{
    let named = looked.named.items();
    let found = looked.found.items();
    let verdicts = looked.verdicts.items();
    let drafts = drafts(alloc, named)?;
    let dead = dead(alloc, found, verdicts)?;
    let closed = closed(alloc, found, verdicts)?;
    let bodies = bodies(alloc, named, found, verdicts)?;
    Ok(Plan {
        drafts,
        dead,
        closed,
        bodies,
    })
}

// Does it.
fn carry_out<D: Spool>(
    alloc: Global,
    spool: &mut D,
    dirs: &[Text],
    plan: &Plan,
) -> Result<(), StoreFault>
    requires plan { IsPlan (length dirs.now) plan.now }
    ensures moves { (f : FileMap) (l : LookedSeen) → length l.verdicts ≡ length l.found
        → HasLooked dirs.now f l → HasPlanned dirs.now f l plan.now → Moves
        (D.seen spool.old)
        (D.seen spool.new)
        (IsSweptOf dirs.now f [])
        (Ends result (λ g. IsTidied dirs.now f g × IsSwept dirs.now g) (IsTidied dirs.now f))
        (IsTidied dirs.now f) }
    ensures counts { Counts (D.seen spool.old) (D.seen spool.new) result }
{
    remove_all(alloc, spool, dirs, plan.drafts.items())?;
    remove_all(alloc, spool, dirs, plan.dead.items())?;
    finish_all(alloc, spool, dirs, plan.closed.items())?;
    remove_all(alloc, spool, dirs, plan.bodies.items())
}

// Looks, and does what is to be done.
fn sweep<D: Spool>(
    alloc: Global,
    spool: &mut D,
    dirs: &[Text],
    looked: &Looked,
) -> Result<(), StoreFault>
    requires look { IsLook dirs.now looked.now }
    ensures moves { (f : FileMap) → HasLooked dirs.now f looked.now → Moves
        (D.seen spool.old)
        (D.seen spool.new)
        (IsSweptOf dirs.now f [])
        (Ends result (λ g. IsTidied dirs.now f g × IsSwept dirs.now g) (IsTidied dirs.now f))
        (IsTidied dirs.now f) }
    ensures counts { Counts (D.seen spool.old) (D.seen spool.new) result }
{
    let plan = plan_of(alloc, dirs, looked)?;
    carry_out(alloc, spool, dirs, &plan)
}

/// Opens: what is found is told of the map as it was.
pub(crate) fn take_over<D: Spool>(
    alloc: Global,
    spool: &mut D,
    dirs: &[Text],
) -> Result<Opened, StoreFault>
    ensures tidied { (f : FileMap) → (D.seen spool.old).told ≡ Some f → Moves
        (D.seen spool.old)
        (D.seen spool.new)
        (λ g. g ≡ f)
        (Ends result (λ g. IsTidied dirs.now f g × IsSwept dirs.now g) (IsTidied dirs.now f))
        (IsTidied dirs.now f) }
    ensures order { IfOk result (λ opened. AreOrdered opened.entries opened.next) }
    ensures fit { IfOk result (λ opened. All (IsFitting dirs.now) opened.entries) }
    ensures entries { (f : FileMap) → (D.seen spool.old).told ≡ Some f
        → IfOk result (λ opened. AreEntries dirs.now f opened.entries) }
    ensures strange { (f : FileMap) → (D.seen spool.old).told ≡ Some f
        → IfOk result (λ opened. AreStrays dirs.now f opened.strange) }
    ensures next { (f : FileMap) → (D.seen spool.old).told ≡ Some f
        → IfOk result (λ opened. IsNext dirs.now f opened.next) }
    ensures counts { Counts (D.seen spool.old) (D.seen spool.new) result }
{
    let looked = look(alloc, spool, dirs)?;
    let opened = opened_of(alloc, dirs, &looked)?;
    sweep(alloc, spool, dirs, &looked)?;
    Ok(opened)
}

/// Takes over the files of these directories, whatever they hold: it removes the drafts, the
/// control files that are neither strange nor live, and the bodies that nobody wants, wherever the
/// control file of their id is, and finishes the live entries that are done. Strange files and the
/// bodies of their ids stay as they are, and so does each file elsewhere and of another name. After
/// a fault it can be called again. `IdsSpent` never comes.
pub fn recover<D: Spool>(
    alloc: Global,
    spool: &mut D,
    dirs: &Seq<Text>,
) -> Result<Opened, StoreFault>
    ensures stands { (table : Table) → Moves
        (D.seen spool.old)
        (D.seen spool.new)
        (StandsFor dirs.now table)
        (StandsFor dirs.now table)
        (StandsFor dirs.now table) }
    ensures tidied { (f : FileMap) → (D.seen spool.old).told ≡ Some f → Moves
        (D.seen spool.old)
        (D.seen spool.new)
        (λ g. g ≡ f)
        (IsTidied dirs.now f)
        (IsTidied dirs.now f) }
    ensures order { IfOk result (λ opened. AreOrdered opened.entries opened.next) }
    ensures fit { IfOk result (λ opened. All (IsFitting dirs.now) opened.entries) }
    ensures entries { IfOk result
        (λ opened. IfSome (D.seen spool.old).told (λ f. AreEntries dirs.now f opened.entries)) }
    ensures strange { IfOk result
        (λ opened. IfSome (D.seen spool.old).told (λ f. AreStrays dirs.now f opened.strange)) }
    ensures next { IfOk result
        (λ opened. IfSome (D.seen spool.old).told (λ f. IsNext dirs.now f opened.next)) }
    ensures frame { (f : FileMap) → Moves
        (D.seen spool.old)
        (D.seen spool.new)
        (λ g. g ≡ f)
        (KeepsOthers dirs.now f)
        (KeepsOthers dirs.now f) }
    ensures clean { IfOk result (λ _. IfSome (D.seen spool.new).told (IsClean dirs.now)) }
    ensures later { (D.seen spool.old).faults ≤ (D.seen spool.new).faults }
    ensures never { IsErrOf result Spent → ⊥ }
    ensures cause { IsErrOf result Broke
        → Rose (D.seen spool.old).faults (D.seen spool.new).faults }
    ensures calm { IsErrOf result Broke ⊎ ((D.seen spool.new).faults ≡ (D.seen spool.old).faults) }
{
    take_over(alloc, spool, dirs.items())
}

/// Opens, and makes the store of what was found.
pub(crate) fn reopen<D: Spool>(
    alloc: Global,
    spool: &mut D,
    dirs: &Seq<Text>,
) -> Result<Queue, StoreFault>
    ensures store { IfOk result
        (λ q. ((seen q).dirs ≡ dirs.now) × ((seen q).broken ≡ false) × ((seen q).room ≡ 0)) }
    ensures read { (f : FileMap) → (D.seen spool.old).told ≡ Some f
        → IfOk result (λ q. IsReading dirs.now f (seen q)) }
    ensures agrees { IfOk result (λ q. IsAtRest (seen q) (D.seen spool.new)) }
    ensures settled { (table : Table) (f : FileMap) → (D.seen spool.old).told ≡ Some f
        → StandsFor dirs.now table f
        → IfOk result (λ q. IfSome (D.seen spool.new).told
        (IsSettled dirs.now (record { entries = table.entries; next = (seen q).next }))) }
    ensures holds { (table : Table) (f : FileMap) → (D.seen spool.old).told ≡ Some f
        → StandsFor dirs.now table f
        → IfOk result
        (λ q. Holds (seen q) (record { entries = table.entries; next = (seen q).next })) }
    ensures table { (f : FileMap) → (D.seen spool.old).told ≡ Some f
        → IfOk result
        (λ q. (table : Table) × StandsFor dirs.now table f × Holds (seen q) table) }
    ensures stands { (table : Table)
        → Moves (D.seen spool.old) (D.seen spool.new) (StandsFor dirs.now table)
        (StandsFor dirs.now table) (StandsFor dirs.now table) }
    ensures tidied { (f : FileMap) → (D.seen spool.old).told ≡ Some f
        → Moves (D.seen spool.old) (D.seen spool.new) (λ g. g ≡ f) (IsTidied dirs.now f)
        (IsTidied dirs.now f) }
    ensures frame { (f : FileMap) → Moves
        (D.seen spool.old)
        (D.seen spool.new)
        (λ g. g ≡ f)
        (KeepsOthers dirs.now f)
        (KeepsOthers dirs.now f) }
    ensures clean { IfOk result (λ _. IfSome (D.seen spool.new).told (IsClean dirs.now)) }
    ensures counts { Counts (D.seen spool.old) (D.seen spool.new) result }
{
    let opened = take_over(alloc, spool, dirs.items())?;
    let queue = Queue::of(alloc, dirs, opened)?;
    Ok(queue)
}
