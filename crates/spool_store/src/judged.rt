ghost use Rattle.std.specs.Prelude.{◌≡◌, ◌≢◌, ◌<◌, ◌≤◌, IfOk, IfSome, IfNone, Some, None, Contains, List, ℕ, length, take, true, false};
ghost use Rattle.std.specs.List.{slice_index_or};
ghost use Rattle.std.specs.List.Sorted.{IsNonDecreasingBy};
ghost use Rattle.mail_base.specs.declared.id.Kind.TheVariants.{Df as BodyKind, Sf as FinishedKind};
ghost use Rattle.mail_base.specs.declared.control.Control.{Control as ControlSeen};
ghost use Rattle.mail_base.specs.States.{NeedsBody};
ghost use Rattle.spool_disk.specs.Disk.{FileMap};
ghost use Rattle.spool_store.specs.Queue.{IsOpen, IsRead, IsStrange, Spot as SpotSeen};
ghost use Rattle.spool_store.specs.Verdicts.{IsSober};
ghost use Rattle.spool_store.specs.inner.Judging.{IsVerdict, AreJudged, IsIndexed};
ghost use Rattle.spool_store.specs.inner.Finds.{AreFound, AreNamed, spot_named};
ghost use Rattle.spool_store.specs.declared.named.Named.{Named as NamedSeen};
ghost use Rattle.spool_store.specs.declared.named.Found.{Found as FoundSeen};

use crate::named::{Found, Named};
use crate::verdict::Verdict;
use mail_base::{Control, Id, Kind, NoMemory, Parent, Seq, Text};
use std::alloc::Global;

// The place of the first file of that id, or where it would stand.
fn first_named(names: &[Named], id: u64) -> usize
    requires order { IsNonDecreasingBy (λ (x : NamedSeen). x.id) names.now }
    ensures bound { result ≤ length names.now }
    ensures before { (k : ℕ) (d : NamedSeen) → k < result → (slice_index_or names.now k d).id < id }
    ensures from { (k : ℕ) (d : NamedSeen) → result ≤ k → k < length names.now
        → id ≤ (slice_index_or names.now k d).id }
{
    names.partition_point(|x| x.id.number() < id)
}

// The place of the first control file of that id, or where it would stand.
fn first_found(found: &[Found], id: u64) -> usize
    requires order { IsNonDecreasingBy (λ (x : FoundSeen). x.named.id) found.now }
    ensures bound { result ≤ length found.now }
    ensures before { (k : ℕ) (d : FoundSeen) → k < result
        → (slice_index_or found.now k d).named.id < id }
    ensures from { (k : ℕ) (d : FoundSeen) → result ≤ k → k < length found.now
        → id ≤ (slice_index_or found.now k d).named.id }
{
    found.partition_point(|x| x.named.id.number() < id)
}

// Whether a file is a body in that directory.
fn is_body(named: &Named, dir: usize) -> bool
    ensures yes { result ≡ true → (named.now.kind ≡ BodyKind) × (named.now.dir ≡ dir) }
    ensures no { result ≡ false → named.now.kind ≡ BodyKind → named.now.dir ≡ dir → ⊥ }
{
    named.kind == Kind::Df && named.dir == dir
}

// Whether a body of that id is in that directory.
fn has_body(names: &[Named], dir: usize, id: Id) -> bool
    requires order { IsNonDecreasingBy (λ (x : NamedSeen). x.id) names.now }
    ensures yes { result ≡ true
        → Contains names.now (record { dir = dir; kind = BodyKind; id = id }) }
    ensures no { result ≡ false
        → Contains names.now (record { dir = dir; kind = BodyKind; id = id }) → ⊥ }
{
    let number = id.number();
    for place in first_named(names, number)..names.len() {
        let named = &names[place];
        if named.id.number() != number {
            return false;
        }
        if is_body(named, dir) {
            return true;
        }
    }
    false
}

// Whether two control files of one id lie apart.
fn is_apart(dirs: &[Text], one: &Named, other: &Named) -> bool
    requires one { one.now.dir < length dirs.now }
    requires other { other.now.dir < length dirs.now }
    ensures yes { result ≡ true → spot_named dirs.now other.now ≢ spot_named dirs.now one.now }
    ensures no { result ≡ false → other.now.id ≡ one.now.id
        → spot_named dirs.now other.now ≡ spot_named dirs.now one.now }
{
    other.kind != one.kind || dirs[other.dir] != dirs[one.dir]
}

// Whether another control file has the id.
fn has_twin(dirs: &[Text], found: &[Found], named: &Named) -> bool
    requires order { IsNonDecreasingBy (λ (x : FoundSeen). x.named.id) found.now }
    requires within { (x : FoundSeen) → Contains found.now x → x.named.dir < length dirs.now }
    requires own { named.now.dir < length dirs.now }
    ensures yes { result ≡ true
        → (y : FoundSeen) × Contains found.now y × (y.named.id ≡ named.now.id)
        × (spot_named dirs.now y.named ≢ spot_named dirs.now named.now) }
    ensures no { result ≡ false → (y : FoundSeen) → Contains found.now y → y.named.id ≡ named.now.id
        → spot_named dirs.now y.named ≡ spot_named dirs.now named.now }
{
    let number = named.id.number();
    for place in first_found(found, number)..found.len() {
        let other = &found[place].named;
        if other.id.number() != number {
            return false;
        }
        if is_apart(dirs, named, other) {
            return true;
        }
    }
    false
}

// The place of a control file of that id.
pub(crate) fn place_of(found: &[Found], id: Id) -> Option<usize>
    requires order { IsNonDecreasingBy (λ (x : FoundSeen). x.named.id) found.now }
    ensures some { IfSome result
        (λ k. (k < length found.now)
        × ((d : FoundSeen) → (slice_index_or found.now k d).named.id ≡ id)) }
    ensures none { IfNone result ((y : FoundSeen) → Contains found.now y → y.named.id ≢ id) }
{
    let number = id.number();
    let place = first_found(found, number);
    if place < found.len() && found[place].named.id.number() == number {
        return Some(place);
    }
    None
}

// Whether the body is wanted and isn't there.
fn lacks_body(names: &[Named], named: &Named, control: &Control) -> bool
    requires order { IsNonDecreasingBy (λ (x : NamedSeen). x.id) names.now }
    ensures yes { result ≡ true
        → NeedsBody control.now
        × (Contains names.now
        (record { dir = named.now.dir; kind = BodyKind; id = named.now.id }) → ⊥) }
    ensures no { result ≡ false → NeedsBody control.now
        → Contains names.now (record { dir = named.now.dir; kind = BodyKind; id = named.now.id }) }
{
    if control.needs_body() {
        return !has_body(names, named.dir, named.id);
    }
    false
}

// Whether a finished entry has an open row.
fn is_reopened(kind: Kind, control: &Control) -> bool
    ensures yes { result ≡ true → (kind ≡ FinishedKind) × IsOpen control.now }
    ensures no { result ≡ false → kind ≡ FinishedKind → IsOpen control.now → ⊥ }
{
    if kind == Kind::Sf {
        return !control.is_finished();
    }
    false
}

// Whether a control file is strange for a reason of its own.
fn is_odd(dirs: &[Text], names: &[Named], found: &[Found], named: &Named, control: &Control) -> bool
    requires indexed { IsIndexed dirs.now names.now found.now }
    requires own { named.now.dir < length dirs.now }
    ensures odd { (f : FileMap) → AreNamed dirs.now f (length dirs.now) names.now
        → AreFound dirs.now f found.now
        → IsRead dirs.now f (spot_named dirs.now named.now) control.now → result ≡ true
        → IsStrange dirs.now f (spot_named dirs.now named.now) }
    ensures sober { (f : FileMap) → AreNamed dirs.now f (length dirs.now) names.now
        → AreFound dirs.now f found.now
        → IsRead dirs.now f (spot_named dirs.now named.now) control.now → result ≡ false
        → IsSober dirs.now f (spot_named dirs.now named.now) control.now }
{
    if has_twin(dirs, found, named) {
        return true;
    }
    if lacks_body(names, named, control) {
        return true;
    }
    is_reopened(named.kind, control)
}

// The verdict on a child by the one on the control file above it.
fn below(above: &Verdict, parent: &Parent, revision: u64) -> Verdict
    ensures { (dirs : List (List ℕ)) (f : FileMap) (s a : SpotSeen) (c : ControlSeen)
        → IsSober dirs f s c → c.parent ≡ Some parent.now → parent.now.id < s.id
        → c.revision ≡ revision → a.id ≡ parent.now.id → IsVerdict dirs f a above.now
        → IsVerdict dirs f s result }
{
    match above {
        Verdict::Strange => Verdict::Strange,
        Verdict::Dead => Verdict::Dead,
        Verdict::Live(own) => {
            if *own < parent.revision {
                return Verdict::Dead;
            }
            Verdict::Live(revision)
        }
    }
}

// The verdict on a child.
fn under(found: &[Found], verdicts: &[Verdict], parent: &Parent, revision: u64) -> Verdict
    requires order { IsNonDecreasingBy (λ (x : FoundSeen). x.named.id) found.now }
    requires far { (k : ℕ) (d : FoundSeen) → k < length found.now
        → (slice_index_or found.now k d).named.id ≡ parent.now.id → k < length verdicts.now }
    ensures { (dirs : List (List ℕ)) (f : FileMap) (s : SpotSeen) (c : ControlSeen)
        → AreFound dirs f found.now
        → AreJudged dirs f (take (length verdicts.now) found.now) verdicts.now → IsSober dirs f s c
        → c.parent ≡ Some parent.now → parent.now.id < s.id → c.revision ≡ revision
        → IsVerdict dirs f s result }
{
    match place_of(found, parent.id) {
        None => Verdict::Dead,
        Some(place) => below(&verdicts[place], parent, revision),
    }
}

// The verdict on a control file that isn't strange for a reason of its own.
fn by_parent(found: &[Found], verdicts: &[Verdict], named: &Named, control: &Control) -> Verdict
    requires order { IsNonDecreasingBy (λ (x : FoundSeen). x.named.id) found.now }
    requires far { (k : ℕ) (d : FoundSeen) → k < length found.now
        → (slice_index_or found.now k d).named.id < named.now.id → k < length verdicts.now }
    ensures { (dirs : List (List ℕ)) (f : FileMap) → AreFound dirs f found.now
        → AreJudged dirs f (take (length verdicts.now) found.now) verdicts.now
        → IsSober dirs f (spot_named dirs named.now) control.now
        → IsVerdict dirs f (spot_named dirs named.now) result }
{
    match &control.parent {
        None => Verdict::Live(control.revision),
        Some(parent) => {
            if parent.id.number() >= named.id.number() {
                return Verdict::Strange;
            }
            under(found, verdicts, parent, control.revision)
        }
    }
}

// The verdict on a control file, by those on the ones before it.
fn verdict_on(
    dirs: &[Text],
    names: &[Named],
    found: &[Found],
    x: &Found,
    verdicts: &[Verdict],
) -> Verdict
    requires indexed { IsIndexed dirs.now names.now found.now }
    requires own { x.now.named.dir < length dirs.now }
    requires far { (k : ℕ) (d : FoundSeen) → k < length found.now
        → (slice_index_or found.now k d).named.id < x.now.named.id → k < length verdicts.now }
    ensures { (f : FileMap) → AreNamed dirs.now f (length dirs.now) names.now
        → AreFound dirs.now f found.now
        → AreJudged dirs.now f (take (length verdicts.now) found.now) verdicts.now
        → Contains found.now x.now → IsVerdict dirs.now f (spot_named dirs.now x.now.named) result }
{
    match &x.control {
        None => Verdict::Strange,
        Some(control) => {
            if is_odd(dirs, names, found, &x.named, control) {
                return Verdict::Strange;
            }
            by_parent(found, verdicts, &x.named, control)
        }
    }
}

/// The verdicts on the control files, in their order.
pub(crate) fn judge(
    alloc: Global,
    dirs: &[Text],
    names: &[Named],
    found: &[Found],
) -> Result<Seq<Verdict>, NoMemory>
    requires indexed { IsIndexed dirs.now names.now found.now }
    ensures long { IfOk result (λ verdicts. length verdicts ≡ length found.now) }
    ensures judged { (f : FileMap) → AreNamed dirs.now f (length dirs.now) names.now
        → AreFound dirs.now f found.now → IfOk result (AreJudged dirs.now f found.now) }
{
    let mut verdicts = Seq::new(alloc);
    for x in found {
        let verdict = verdict_on(dirs, names, found, x, verdicts.items());
        verdicts.push(verdict)?;
    }
    Ok(verdicts)
}
