ghost use Rattle.std.specs.Prelude.{◌≡◌, ◌<◌, ◌++◌, ◌∷◌, [], ℕ, IfSome, IsSome, List, Contains, length};
ghost use Rattle.mail_base.specs.declared.id.Kind.TheVariants.{Qf as ControlKind};
ghost use Rattle.spool_disk.specs.Disk.{FileMap, Place, bytes_at};
ghost use Rattle.spool_store.specs.Moves.{Moves, Ends};
ghost use Rattle.spool_store.specs.Queue.{at};
ghost use Rattle.spool_store.specs.Tidying.{IsTidied};
ghost use Rattle.spool_store.specs.inner.Finds.{dir_at};
ghost use Rattle.spool_store.specs.inner.Sweeps.{Counts, IsSweptOf, MayFinish, MayGo, place_named, places};
ghost use Rattle.spool_store.specs.declared.named.Named.{Named as NamedSeen};

use crate::looking::read_bytes;
use crate::named::Named;
use mail_base::{Id, Kind, StoreFault, Text};
use spool_disk::Spool;
use std::alloc::Global;

// Takes a file away.
fn remove_one<D: Spool>(
    alloc: Global,
    spool: &mut D,
    dirs: &[Text],
    named: &Named,
) -> Result<(), StoreFault>
    requires own { named.now.dir < length dirs.now }
    ensures moves { (f : FileMap) (done : List Place) → MayGo dirs.now f done named.now → Moves
        (D.seen spool.old)
        (D.seen spool.new)
        (IsSweptOf dirs.now f done)
        (Ends result
        (IsSweptOf dirs.now f (done ++ place_named dirs.now named.now ∷ []))
        (IsTidied dirs.now f))
        (IsTidied dirs.now f) }
    ensures counts { Counts (D.seen spool.old) (D.seen spool.new) result }
{
    let name = Text::of(alloc, named.id.name(named.kind).bytes())?;
    match spool.remove(&dirs[named.dir], &name) {
        Ok(()) => Ok(()),
        Err(_) => Err(StoreFault::SpoolFault),
    }
}

/// Takes these files away, one after another.
pub(crate) fn remove_all<D: Spool>(
    alloc: Global,
    spool: &mut D,
    dirs: &[Text],
    doomed: &[Named],
) -> Result<(), StoreFault>
    requires within { (x : NamedSeen) → Contains doomed.now x → x.dir < length dirs.now }
    ensures moves { (f : FileMap) (done : List Place)
        → ((x : NamedSeen) → Contains doomed.now x → MayGo dirs.now f done x) → Moves
        (D.seen spool.old)
        (D.seen spool.new)
        (IsSweptOf dirs.now f done)
        (Ends result
        (IsSweptOf dirs.now f (done ++ places dirs.now doomed.now))
        (IsTidied dirs.now f))
        (IsTidied dirs.now f) }
    ensures counts { Counts (D.seen spool.old) (D.seen spool.new) result }
{
    for named in doomed {
        remove_one(alloc, spool, dirs, named)?;
    }
    Ok(())
}

// Gives a control file that is there its other name.
fn rename_one<D: Spool>(alloc: Global, spool: &mut D, dir: &Text, id: Id) -> Result<(), StoreFault>
    requires there { IfSome (D.seen spool.old).told
        (λ files. IsSome (bytes_at files (at dir.now ControlKind id))) }
    ensures moves { (dirs : List (List ℕ)) (f : FileMap) (done : List Place) (x : NamedSeen)
        → MayFinish dirs f done x → dir.now ≡ dir_at dirs x.dir → x.id ≡ id → Moves
        (D.seen spool.old)
        (D.seen spool.new)
        (IsSweptOf dirs f done)
        (Ends result (IsSweptOf dirs f (done ++ place_named dirs x ∷ [])) (IsTidied dirs f))
        (IsTidied dirs f) }
    ensures counts { Counts (D.seen spool.old) (D.seen spool.new) result }
{
    let from = Text::of(alloc, id.name(Kind::Qf).bytes())?;
    let to = Text::of(alloc, id.name(Kind::Sf).bytes())?;
    match spool.rename(dir, &from, &to) {
        Ok(()) => Ok(()),
        Err(_) => Err(StoreFault::SpoolFault),
    }
}

// Gives a control file its other name, if it is there.
fn finish_one<D: Spool>(
    alloc: Global,
    spool: &mut D,
    dirs: &[Text],
    named: &Named,
) -> Result<(), StoreFault>
    requires own { named.now.dir < length dirs.now }
    requires kind { named.now.kind ≡ ControlKind }
    ensures moves { (f : FileMap) (done : List Place) → MayFinish dirs.now f done named.now → Moves
        (D.seen spool.old)
        (D.seen spool.new)
        (IsSweptOf dirs.now f done)
        (Ends result
        (IsSweptOf dirs.now f (done ++ place_named dirs.now named.now ∷ []))
        (IsTidied dirs.now f))
        (IsTidied dirs.now f) }
    ensures counts { Counts (D.seen spool.old) (D.seen spool.new) result }
{
    match read_bytes(alloc, spool, &dirs[named.dir], named)? {
        None => Ok(()),
        Some(_bytes) => rename_one(alloc, spool, &dirs[named.dir], named.id),
    }
}

/// Gives these control files their other names, one after another, each if it is there.
pub(crate) fn finish_all<D: Spool>(
    alloc: Global,
    spool: &mut D,
    dirs: &[Text],
    closed: &[Named],
) -> Result<(), StoreFault>
    requires within { (x : NamedSeen) → Contains closed.now x → x.dir < length dirs.now }
    requires kinds { (x : NamedSeen) → Contains closed.now x → x.kind ≡ ControlKind }
    ensures moves { (f : FileMap) (done : List Place)
        → ((x : NamedSeen) → Contains closed.now x → MayFinish dirs.now f done x) → Moves
        (D.seen spool.old)
        (D.seen spool.new)
        (IsSweptOf dirs.now f done)
        (Ends result
        (IsSweptOf dirs.now f (done ++ places dirs.now closed.now))
        (IsTidied dirs.now f))
        (IsTidied dirs.now f) }
    ensures counts { Counts (D.seen spool.old) (D.seen spool.new) result }
{
    for named in closed {
        finish_one(alloc, spool, dirs, named)?;
    }
    Ok(())
}
