ghost use Rattle.std.specs.Prelude.{◌≡◌, ◌⊎◌, ◌<◌, ◌++◌, ◌∷◌, [], List, true, false, IfOk, OnOk, Some, Contains, length};
ghost use Rattle.spool_disk.specs.Disk.{FileMap, bytes_at};
ghost use Rattle.spool_store.specs.Queue.{at, IsSpot};
ghost use Rattle.spool_store.specs.inner.Finds.{HasText, IsMeaning, IsThere, AreNamed, AddsFound, AreAmong, AreRead, spot_named};
ghost use Rattle.spool_store.specs.inner.Looks.{Looks};
ghost use Rattle.mail_base.specs.declared.id.Kind.TheVariants.{Qf as ControlKind, Sf as FinishedKind};
ghost use Rattle.spool_store.specs.declared.named.Named.{Named as NamedSeen};
ghost use Rattle.spool_store.specs.declared.named.Found.{Found as FoundSeen};

use crate::fault::store_fault;
use crate::named::{Found, Named};
use mail_base::{Control, Kind, NoMemory, Seq, StoreFault, Text};
use qf_format::parse;
use spool_disk::Spool;
use std::alloc::Global;

// The bytes of a file, if it is there.
pub(crate) fn read_bytes<D: Spool>(
    alloc: Global,
    spool: &mut D,
    dir: &Text,
    named: &Named,
) -> Result<Option<Text>, StoreFault>
    ensures bytes { (f : FileMap) → (D.seen spool.old).told ≡ Some f
        → IfOk result (λ bytes. bytes ≡ bytes_at f (at dir.now named.now.kind named.now.id)) }
    ensures looks { Looks (D.seen spool.old) (D.seen spool.new) result }
{
    let name = Text::of(alloc, named.id.name(named.kind).bytes())?;
    match spool.read(alloc, dir, &name) {
        Ok(bytes) => Ok(bytes),
        Err(fault) => Err(store_fault(fault)),
    }
}

// What the bytes of a control file say.
fn meaning(bytes: &Text) -> Result<Option<Control>, NoMemory>
    ensures { IfOk result (IsMeaning bytes.now) }
{
    parse(bytes)
}

// A control file with what it says.
fn found_of(named: &Named, bytes: &Text) -> Result<Found, NoMemory>
    ensures is { IfOk result (λ x. (x.named ≡ named.now) × IsMeaning bytes.now x.control) }
    ensures text { IfOk result HasText }
{
    let control = meaning(bytes)?;
    Ok(Found {
        named: Named {
            dir: named.dir,
            kind: named.kind,
            id: named.id,
        },
        control,
    })
}

// Reads a control file, if it is there.
fn read_one<D: Spool>(
    alloc: Global,
    spool: &mut D,
    dirs: &[Text],
    named: &Named,
    found: &mut Seq<Found>,
) -> Result<(), StoreFault>
    requires within { named.now.dir < length dirs.now }
    ensures found { (f : FileMap) → (D.seen spool.old).told ≡ Some f
        → IsSpot dirs.now (spot_named dirs.now named.now)
        → OnOk result (AddsFound dirs.now f named.now found.old found.new) }
    ensures among { OnOk result
        ((x : FoundSeen) → Contains found.new x
        → Contains found.old x ⊎ ((x.named ≡ named.now) × HasText x)) }
    ensures looks { Looks (D.seen spool.old) (D.seen spool.new) result }
{
    match read_bytes(alloc, spool, &dirs[named.dir], named)? {
        None => Ok(()),
        Some(bytes) => {
            found.push(found_of(named, &bytes)?)?;
            Ok(())
        }
    }
}

// Whether a file of that kind is a control file.
fn is_control(kind: Kind) -> bool
    ensures yes { result ≡ true → (kind ≡ ControlKind) ⊎ (kind ≡ FinishedKind) }
    ensures no { result ≡ false → (kind ≡ ControlKind) ⊎ (kind ≡ FinishedKind) → ⊥ }
{
    match kind {
        Kind::Qf | Kind::Sf => true,
        Kind::Df | Kind::Tf => false,
    }
}

// Reads a file, if it is a control file and there.
fn read_named<D: Spool>(
    alloc: Global,
    spool: &mut D,
    dirs: &[Text],
    named: &Named,
    found: &mut Seq<Found>,
) -> Result<(), StoreFault>
    requires within { named.now.dir < length dirs.now }
    ensures found { (f : FileMap) (names : List NamedSeen) → (D.seen spool.old).told ≡ Some f
        → IsThere dirs.now f (length dirs.now) named.now → AreRead dirs.now f names found.old
        → OnOk result (AreRead dirs.now f (names ++ named.now ∷ []) found.new) }
    ensures among { (names : List NamedSeen) → AreAmong names found.old
        → OnOk result (AreAmong (names ++ named.now ∷ []) found.new) }
    ensures looks { Looks (D.seen spool.old) (D.seen spool.new) result }
{
    if is_control(named.kind) {
        return read_one(alloc, spool, dirs, named, found);
    }
    Ok(())
}

// Reads the control files among these files, each if it is there.
pub(crate) fn read_all<D: Spool>(
    alloc: Global,
    spool: &mut D,
    dirs: &[Text],
    names: &[Named],
) -> Result<Seq<Found>, StoreFault>
    requires within { (x : NamedSeen) → Contains names.now x → x.dir < length dirs.now }
    ensures found { (f : FileMap) → (D.seen spool.old).told ≡ Some f
        → AreNamed dirs.now f (length dirs.now) names.now
        → IfOk result (AreRead dirs.now f names.now) }
    ensures among { IfOk result (AreAmong names.now) }
    ensures looks { Looks (D.seen spool.old) (D.seen spool.new) result }
{
    let mut found = Seq::new(alloc);
    for named in names {
        read_named(alloc, spool, dirs, named, &mut found)?;
    }
    Ok(found)
}
