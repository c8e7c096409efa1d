ghost use Rattle.std.specs.Prelude.{◌≡◌, ◌⊎◌, ◌+◌, ◌<◌, ◌≤◌, ◌++◌, ◌∷◌, [], ℕ, List, true, false, All, IfOk, OnOk, Some, Contains, length};
ghost use Rattle.std.specs.List.Sorted.{IsNonDecreasingBy};
ghost use Rattle.mail_base.specs.declared.control.Control.{Control as ControlSeen};
ghost use Rattle.spool_disk.specs.Disk.{FileMap};
ghost use Rattle.spool_store.specs.Openings.{AreAscending, AreEntries, AreOrdered, AreStrays, IsFitting, IsNext};
ghost use Rattle.spool_store.specs.inner.Judging.{IsVerdict, AreJudged};
ghost use Rattle.spool_store.specs.inner.Finds.{AreForeign, AreFound, HasText, IsFound, spot_named};
ghost use Rattle.spool_store.specs.inner.Recovering.{HasLooked, IsLook};
ghost use Rattle.spool_store.specs.inner.Telling.{AreShown, AreTold, ComeFrom, HasEntry, IsAdding, IsPast, IsRising, Names};
ghost use Rattle.mail_base.specs.Names.{name_of};
ghost use Rattle.mail_base.specs.declared.control.Stray.{Stray as StraySeen};
ghost use Rattle.mail_base.specs.declared.control.Parent.{Parent as ParentSeen};
ghost use Rattle.spool_store.specs.declared.named.Named.{Named as NamedSeen};
ghost use Rattle.spool_store.specs.declared.named.Found.{Found as FoundSeen};

use crate::looked::Looked;
use crate::named::{Found, Named};
use crate::verdict::Verdict;
use mail_base::{Control, Entry, Id, NoMemory, Seq, Stray, Text, TryCopy};
use std::alloc::Global;

/// What an opening found: the entries in order of id, the files that it left alone, and the first
/// free id.
#[derive(Drop)]
pub struct Opened {
    pub entries: Seq<Entry>,
    pub strange: Seq<Stray>,
    pub next: u64,
}

fn entry_of(dir: &Text, id: Id, control: &Control) -> Result<Entry, NoMemory>
    ensures { IfOk result (λ e. e ≡ record { id = id; dir = dir.now; control = control.now }) }
{
    let dir = dir.copy()?;
    Ok(Entry {
        id,
        dir,
        control: control.copy()?,
    })
}

// Adds the entry of a control file.
fn add_live(dir: &Text, x: &Found, out: &mut Seq<Entry>) -> Result<(), NoMemory>
    ensures told { (c : ControlSeen) → x.now.control ≡ Some c
        → OnOk result (out.new
        ≡ out.old ++ record { id = x.now.named.id; dir = dir.now; control = c } ∷ []) }
    ensures adds { OnOk result (IsAdding out.old out.new x.now.named.id) }
    ensures fit { (dirs : List (List ℕ)) → Contains dirs dir.now → HasText x.now
        → All (IsFitting dirs) out.old → OnOk result (All (IsFitting dirs) out.new) }
{
    match &x.control {
        None => Ok(()),
        Some(control) => out.push(entry_of(dir, x.named.id, control)?),
    }
}

// Whether the last of these entries has that id.
fn is_last(entries: &[Entry], id: Id) -> bool
    ensures yes { result ≡ true → HasEntry entries.now id }
    ensures no { result ≡ false → (n : ℕ) → IsRising entries.now n → n ≤ id
        → All (λ e. e.id < id) entries.now }
{
    let count = entries.len();
    if count == 0 {
        return false;
    }
    entries[count - 1].id.number() == id.number()
}

// Adds the entry of a control file, unless it is there: a directory may be listed twice.
fn add_once(dir: &Text, x: &Found, out: &mut Seq<Entry>) -> Result<(), NoMemory>
    ensures told { (c : ControlSeen) → x.now.control ≡ Some c
        → OnOk result (((out.new ≡ out.old) × HasEntry out.old x.now.named.id)
        ⊎ (out.new ≡ out.old
        ++ record { id = x.now.named.id; dir = dir.now; control = c } ∷ [])) }
    ensures rises { (n : ℕ) → IsRising out.old n → n ≤ x.now.named.id
        → OnOk result (IsRising out.new x.now.named.id) }
    ensures adds { OnOk result (IsAdding out.old out.new x.now.named.id) }
    ensures fit { (dirs : List (List ℕ)) → Contains dirs dir.now → HasText x.now
        → All (IsFitting dirs) out.old → OnOk result (All (IsFitting dirs) out.new) }
{
    if is_last(out.items(), x.named.id) {
        return Ok(());
    }
    add_live(dir, x, out)?;
    Ok(())
}

// Adds the entry of a control file, if it is live.
fn add_entry(
    dirs: &[Text],
    x: &Found,
    verdict: &Verdict,
    out: &mut Seq<Entry>,
) -> Result<(), NoMemory>
    requires own { x.now.named.dir < length dirs.now }
    ensures told { (f : FileMap) (found : List FoundSeen) → IsFound dirs.now f x.now
        → IsVerdict dirs.now f (spot_named dirs.now x.now.named) verdict.now
        → AreTold dirs.now f found out.old
        → OnOk result (AreTold dirs.now f (found ++ x.now ∷ []) out.new) }
    ensures rises { (n : ℕ) → IsRising out.old n → n ≤ x.now.named.id
        → OnOk result (IsRising out.new x.now.named.id) }
    ensures adds { OnOk result (IsAdding out.old out.new x.now.named.id) }
    ensures fit { HasText x.now → All (IsFitting dirs.now) out.old
        → OnOk result (All (IsFitting dirs.now) out.new) }
{
    match verdict {
        Verdict::Strange => Ok(()),
        Verdict::Dead => Ok(()),
        Verdict::Live(_) => add_once(&dirs[x.named.dir], x, out),
    }
}

fn stray_of(dir: &Text, named: &Named) -> Result<Stray, NoMemory>
    ensures { IfOk result
        (λ x. x ≡ record { dir = dir.now; name = name_of named.now.kind named.now.id }) }
{
    let dir = dir.copy()?;
    let alloc = dir.allocator();
    Ok(Stray {
        dir,
        name: Text::of(alloc, named.id.name(named.kind).bytes())?,
    })
}

// Adds a control file, if it is strange.
fn add_strange(
    dirs: &[Text],
    x: &Found,
    verdict: &Verdict,
    out: &mut Seq<Stray>,
) -> Result<(), NoMemory>
    requires own { x.now.named.dir < length dirs.now }
    ensures { (f : FileMap) (before : List StraySeen) (found : List FoundSeen)
        → IsVerdict dirs.now f (spot_named dirs.now x.now.named) verdict.now
        → AreShown dirs.now f before found out.old
        → OnOk result (AreShown dirs.now f before (found ++ x.now ∷ []) out.new) }
{
    match verdict {
        Verdict::Strange => out.push(stray_of(&dirs[x.named.dir], &x.named)?),
        Verdict::Dead => Ok(()),
        Verdict::Live(_) => Ok(()),
    }
}

// The entries of the live control files, in order of id.
fn entries_of(
    alloc: Global,
    dirs: &[Text],
    found: &[Found],
    verdicts: &[Verdict],
) -> Result<Seq<Entry>, NoMemory>
    requires within { (x : FoundSeen) → Contains found.now x → x.named.dir < length dirs.now }
    requires long { length verdicts.now ≡ length found.now }
    requires order { IsNonDecreasingBy (λ (x : FoundSeen). x.named.id) found.now }
    ensures told { (f : FileMap) → AreFound dirs.now f found.now
        → AreJudged dirs.now f found.now verdicts.now → IfOk result (AreEntries dirs.now f) }
    ensures ascending { IfOk result AreAscending }
    ensures source { IfOk result (ComeFrom found.now) }
    ensures fit { ((x : FoundSeen) → Contains found.now x → HasText x)
        → IfOk result (All (IsFitting dirs.now)) }
{
    let mut entries = Seq::new(alloc);
    for place in 0..found.len() {
        add_entry(dirs, &found[place], &verdicts[place], &mut entries)?;
    }
    Ok(entries)
}

// The strange control files, behind files of other names.
fn strange_of(
    strays: &Seq<Stray>,
    dirs: &[Text],
    found: &[Found],
    verdicts: &[Verdict],
) -> Result<Seq<Stray>, NoMemory>
    requires within { (x : FoundSeen) → Contains found.now x → x.named.dir < length dirs.now }
    requires long { length verdicts.now ≡ length found.now }
    ensures { (f : FileMap) → AreForeign dirs.now f (length dirs.now) strays.now
        → AreFound dirs.now f found.now → AreJudged dirs.now f found.now verdicts.now
        → IfOk result (AreStrays dirs.now f) }
{
    let mut strange = strays.copy()?;
    for place in 0..found.len() {
        add_strange(dirs, &found[place], &verdicts[place], &mut strange)?;
    }
    Ok(strange)
}

// The number behind an id, if that is no less.
fn later(next: u64, id: u64) -> u64
    requires { id ≤ 999_999_999_999 }
    ensures kept { next ≤ result }
    ensures above { id < result }
    ensures least { (result ≡ next) ⊎ (result ≡ id + 1) }
{
    if id < next {
        return next;
    }
    id + 1
}

// The id after the greatest one that a file has.
fn next_named(named: &[Named]) -> u64
    ensures above { (x : NamedSeen) → Contains named.now x → x.id < result }
    ensures least { (result ≡ 1) ⊎ ((x : NamedSeen) × Contains named.now x × (result ≡ x.id + 1)) }
{
    let mut next = 1u64;
    for x in named {
        next = later(next, x.id.number());
    }
    next
}

// The same, or the id after that of the parent that a control file names.
fn past_parent(x: &Found, next: u64) -> u64
    ensures kept { next ≤ result }
    ensures above { (p : ParentSeen) → Names x.now p → p.id < result }
    ensures least { (result ≡ next) ⊎ ((p : ParentSeen) × Names x.now p × (result ≡ p.id + 1)) }
{
    match &x.control {
        None => next,
        Some(control) => match &control.parent {
            None => next,
            Some(parent) => later(next, parent.id.number()),
        },
    }
}

// The same over all control files.
fn past_parents(found: &[Found], next: u64) -> u64
    ensures { IsPast found.now next result }
{
    let mut past = next;
    for x in found {
        past = past_parent(x, past);
    }
    past
}

/// What an opening found, for its caller.
pub(crate) fn opened_of(alloc: Global, dirs: &[Text], looked: &Looked) -> Result<Opened, NoMemory>
    requires look { IsLook dirs.now looked.now }
    ensures order { IfOk result (λ opened. AreOrdered opened.entries opened.next) }
    ensures fit { IfOk result (λ opened. All (IsFitting dirs.now) opened.entries) }
    ensures entries { (f : FileMap) → HasLooked dirs.now f looked.now
        → IfOk result (λ opened. AreEntries dirs.now f opened.entries) }
    ensures strange { (f : FileMap) → HasLooked dirs.now f looked.now
        → IfOk result (λ opened. AreStrays dirs.now f opened.strange) }
    ensures next { (f : FileMap) → HasLooked dirs.now f looked.now
        → IfOk result (λ opened. IsNext dirs.now f opened.next) }
{
    let found = looked.found.items();
    let verdicts = looked.verdicts.items();
    let entries = entries_of(alloc, dirs, found, verdicts)?;
    let strange = strange_of(&looked.strays, dirs, found, verdicts)?;
    Ok(Opened {
        entries,
        strange,
        next: past_parents(found, next_named(looked.named.items())),
    })
}
