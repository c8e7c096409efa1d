ghost use Rattle.std.specs.Prelude.{◌≡◌, ◌++◌, ◌∷◌, [], IfOk, OnOk, List, ℕ, Some, Contains, length, true, false, if◌then◌else◌};
ghost use Rattle.std.specs.List.Sorted.{IsNonDecreasingBy};
ghost use Rattle.mail_base.specs.declared.id.Kind.TheVariants.{Qf as ControlKind, Tf as DraftKind, Df as BodyKind};
ghost use Rattle.mail_base.specs.declared.control.Control.{Control as ControlSeen};
ghost use Rattle.mail_base.specs.States.{NeedsBody};
ghost use Rattle.spool_disk.specs.Disk.{FileMap};
ghost use Rattle.spool_store.specs.Queue.{IsOpen};
ghost use Rattle.spool_store.specs.inner.Judging.{IsVerdict, AreJudged};
ghost use Rattle.spool_store.specs.inner.Finds.{AreFound, IsFound, spot_named};
ghost use Rattle.spool_store.specs.inner.Plans.{AreDrafts, AreDead, AreDone, AreUnwanted, Stays, its_name};
ghost use Rattle.spool_store.specs.inner.Sweeps.{IsDone, IsUnwanted, IsWanted};
ghost use Rattle.spool_store.specs.declared.named.Named.{Named as NamedSeen};
ghost use Rattle.spool_store.specs.declared.named.Found.{Found as FoundSeen};
ghost use Rattle.spool_store.specs.declared.verdict.Verdict.TheVariants.{Dead as DeadVerdict};

use crate::judged::place_of;
use crate::named::{Found, Named};
use crate::verdict::Verdict;
use mail_base::{Kind, NoMemory, Seq};
use std::alloc::Global;

// Adds a file to a list, if it is picked.
fn add_if(named: &Named, picked: bool, out: &mut Seq<Named>) -> Result<(), NoMemory>
    ensures { OnOk result (out.new ≡ (if picked then out.old ++ named.now ∷ [] else out.old)) }
{
    if picked {
        return out.push(Named {
            dir: named.dir,
            kind: named.kind,
            id: named.id,
        });
    }
    Ok(())
}

fn is_draft(named: &Named) -> bool
    ensures yes { result ≡ true → named.now.kind ≡ DraftKind }
    ensures no { result ≡ false → named.now.kind ≡ DraftKind → ⊥ }
{
    named.kind == Kind::Tf
}

/// The drafts among these files.
pub(crate) fn drafts(alloc: Global, names: &[Named]) -> Result<Seq<Named>, NoMemory>
    ensures { IfOk result (AreDrafts names.now) }
{
    let mut out = Seq::new(alloc);
    for named in names {
        add_if(named, is_draft(named), &mut out)?;
    }
    Ok(out)
}

fn is_dead(verdict: &Verdict) -> bool
    ensures yes { result ≡ true → verdict.now ≡ DeadVerdict }
    ensures no { result ≡ false → verdict.now ≡ DeadVerdict → ⊥ }
{
    match verdict {
        Verdict::Dead => true,
        Verdict::Strange => false,
        Verdict::Live(_) => false,
    }
}

/// The control files that are dead.
pub(crate) fn dead(
    alloc: Global,
    found: &[Found],
    verdicts: &[Verdict],
) -> Result<Seq<Named>, NoMemory>
    requires long { length verdicts.now ≡ length found.now }
    ensures stays { IfOk result
        (λ out. (x : NamedSeen) → Contains out x → Stays its_name found.now x) }
    ensures picks { (dirs : List (List ℕ)) (f : FileMap) → AreJudged dirs f found.now verdicts.now
        → IfOk result (AreDead dirs f found.now) }
{
    let mut out = Seq::new(alloc);
    for place in 0..found.len() {
        add_if(&found[place].named, is_dead(&verdicts[place]), &mut out)?;
    }
    Ok(out)
}

// Whether a control file is that of a queued entry without an open row.
fn is_spent(x: &Found) -> bool
    ensures kind { result ≡ true → x.now.named.kind ≡ ControlKind }
    ensures yes { (c : ControlSeen) → x.now.control ≡ Some c → result ≡ true → IsOpen c → ⊥ }
    ensures no { (c : ControlSeen) → x.now.control ≡ Some c → result ≡ false
        → x.now.named.kind ≡ ControlKind → IsOpen c }
{
    if x.named.kind == Kind::Qf {
        return match &x.control {
            None => false,
            Some(control) => control.is_finished(),
        };
    }
    false
}

// Whether a control file is that of a live entry that is to be finished.
fn is_closed(x: &Found, verdict: &Verdict) -> bool
    ensures kind { result ≡ true → x.now.named.kind ≡ ControlKind }
    ensures yes { (dirs : List (List ℕ)) (f : FileMap) → IsFound dirs f x.now
        → IsVerdict dirs f (spot_named dirs x.now.named) verdict.now → result ≡ true
        → IsDone dirs f x.now.named }
    ensures no { (dirs : List (List ℕ)) (f : FileMap) → IsFound dirs f x.now
        → IsVerdict dirs f (spot_named dirs x.now.named) verdict.now → result ≡ false
        → IsDone dirs f x.now.named → ⊥ }
{
    match verdict {
        Verdict::Strange => false,
        Verdict::Dead => false,
        Verdict::Live(_) => is_spent(x),
    }
}

/// The control files of live entries that are to be finished.
pub(crate) fn closed(
    alloc: Global,
    found: &[Found],
    verdicts: &[Verdict],
) -> Result<Seq<Named>, NoMemory>
    requires long { length verdicts.now ≡ length found.now }
    ensures stays { IfOk result
        (λ out. (x : NamedSeen) → Contains out x → Stays its_name found.now x) }
    ensures kinds { IfOk result (λ out. (x : NamedSeen) → Contains out x → x.kind ≡ ControlKind) }
    ensures picks { (dirs : List (List ℕ)) (f : FileMap) → AreFound dirs f found.now
        → AreJudged dirs f found.now verdicts.now → IfOk result (AreDone dirs f found.now) }
{
    let mut out = Seq::new(alloc);
    for place in 0..found.len() {
        add_if(
            &found[place].named,
            is_closed(&found[place], &verdicts[place]),
            &mut out,
        )?;
    }
    Ok(out)
}

// Whether a live entry wants its body.
fn wants(x: &Found) -> bool
    ensures yes { (c : ControlSeen) → x.now.control ≡ Some c → result ≡ true → NeedsBody c }
    ensures no { (c : ControlSeen) → x.now.control ≡ Some c → result ≡ false → NeedsBody c → ⊥ }
{
    match &x.control {
        None => false,
        Some(control) => control.needs_body(),
    }
}

// Whether a body stays: it does wherever the control file of its id is.
fn is_wanted(found: &[Found], verdicts: &[Verdict], named: &Named) -> bool
    requires order { IsNonDecreasingBy (λ (y : FoundSeen). y.named.id) found.now }
    requires long { length verdicts.now ≡ length found.now }
    ensures yes { (dirs : List (List ℕ)) (f : FileMap) → AreFound dirs f found.now
        → AreJudged dirs f found.now verdicts.now → result ≡ true → IsWanted dirs f named.now }
    ensures no { (dirs : List (List ℕ)) (f : FileMap) → AreFound dirs f found.now
        → AreJudged dirs f found.now verdicts.now → result ≡ false → IsUnwanted dirs f named.now }
{
    match place_of(found, named.id) {
        None => false,
        Some(place) => is_wanted_by(&found[place], &verdicts[place], named),
    }
}

// Whether the verdict on a control file, which is of the body's id, keeps the body.
fn is_wanted_by(x: &Found, verdict: &Verdict, named: &Named) -> bool
    ensures yes { (dirs : List (List ℕ)) (f : FileMap) → IsFound dirs f x.now
        → x.now.named.id ≡ named.now.id
        → IsVerdict dirs f (spot_named dirs x.now.named) verdict.now → result ≡ true
        → IsWanted dirs f named.now }
    ensures no { (dirs : List (List ℕ)) (f : FileMap) → IsFound dirs f x.now
        → x.now.named.id ≡ named.now.id
        → IsVerdict dirs f (spot_named dirs x.now.named) verdict.now → result ≡ false
        → IsUnwanted dirs f named.now }
{
    match verdict {
        Verdict::Strange => true,
        Verdict::Dead => false,
        Verdict::Live(_) => wants(x),
    }
}

// Whether a file is a body that goes.
fn is_stray_body(found: &[Found], verdicts: &[Verdict], named: &Named) -> bool
    requires order { IsNonDecreasingBy (λ (y : FoundSeen). y.named.id) found.now }
    requires long { length verdicts.now ≡ length found.now }
    ensures yes { (dirs : List (List ℕ)) (f : FileMap) → AreFound dirs f found.now
        → AreJudged dirs f found.now verdicts.now → result ≡ true
        → (named.now.kind ≡ BodyKind) × IsUnwanted dirs f named.now }
    ensures no { (dirs : List (List ℕ)) (f : FileMap) → AreFound dirs f found.now
        → AreJudged dirs f found.now verdicts.now → result ≡ false → named.now.kind ≡ BodyKind
        → IsWanted dirs f named.now }
{
    if named.kind == Kind::Df {
        return !is_wanted(found, verdicts, named);
    }
    false
}

/// The bodies that nobody wants.
pub(crate) fn bodies(
    alloc: Global,
    names: &[Named],
    found: &[Found],
    verdicts: &[Verdict],
) -> Result<Seq<Named>, NoMemory>
    requires order { IsNonDecreasingBy (λ (y : FoundSeen). y.named.id) found.now }
    requires long { length verdicts.now ≡ length found.now }
    ensures stays { IfOk result (λ out. (x : NamedSeen) → Contains out x → Contains names.now x) }
    ensures picks { (dirs : List (List ℕ)) (f : FileMap) → AreFound dirs f found.now
        → AreJudged dirs f found.now verdicts.now → IfOk result (AreUnwanted dirs f names.now) }
{
    let mut out = Seq::new(alloc);
    for named in names {
        add_if(named, is_stray_body(found, verdicts, named), &mut out)?;
    }
    Ok(out)
}
