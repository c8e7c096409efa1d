ghost use Rattle.std.specs.Prelude.{◌≡◌, ◌<◌, ◌++◌, ◌∷◌, Contains, OnOk, IfOk, Some, List, [], ℕ, length};
ghost use Rattle.std.specs.List.Sorted.{IsNonDecreasingBy, IsPermutation};
ghost use Rattle.spool_disk.specs.Disk.{FileMap};
ghost use Rattle.spool_disk.specs.Listings.{IsListing};
ghost use Rattle.spool_store.specs.inner.Finds.{AddsNamed, AddsStrays, AreNamed, AreForeign};
ghost use Rattle.spool_store.specs.inner.Looks.{Looks};
ghost use Rattle.mail_base.specs.declared.control.Stray.{Stray as StraySeen};
ghost use Rattle.spool_store.specs.declared.named.Named.{Named as NamedSeen};

use crate::fault::store_fault;
use crate::named::Named;
use mail_base::{Id, NoMemory, Seq, StoreFault, Stray, Text, TryCopy};
use spool_disk::Spool;
use std::alloc::Global;

// Adds the file of the queue that a name of a directory is of, if it is of one.
fn add_name(name: &Text, dir: usize, out: &mut Seq<Named>) -> Result<(), NoMemory>
    ensures { (names : List (List ℕ)) (old : List NamedSeen) → AddsNamed dir names old out.old
        → OnOk result (AddsNamed dir (names ++ name.now ∷ []) old out.new) }
{
    match Id::of(name) {
        None => Ok(()),
        Some(file) => {
            // Only its range is used: it is an id.
            let _within = file.1.number();
            out.push(Named {
                dir,
                kind: file.0,
                id: file.1,
            })
        }
    }
}

// Adds the files of the queue that these names of a directory are of.
fn add_named(names: &[Text], dir: usize, out: &mut Seq<Named>) -> Result<(), NoMemory>
    ensures { OnOk result (AddsNamed dir names.now out.old out.new) }
{
    for name in names {
        add_name(name, dir, out)?;
    }
    Ok(())
}

// Adds a name of a directory, if it is of no file of the queue.
fn add_stray(name: &Text, dir: &Text, out: &mut Seq<Stray>) -> Result<(), NoMemory>
    ensures { (names : List (List ℕ)) (old : List StraySeen) → AddsStrays dir.now names old out.old
        → OnOk result (AddsStrays dir.now (names ++ name.now ∷ []) old out.new) }
{
    match Id::of(name) {
        Some(_) => Ok(()),
        None => out.push(stray(dir, name)?),
    }
}

// Adds the names of a directory that are of no file of the queue.
fn add_strays(names: &[Text], dir: &Text, out: &mut Seq<Stray>) -> Result<(), NoMemory>
    ensures { OnOk result (AddsStrays dir.now names.now out.old out.new) }
{
    for name in names {
        add_stray(name, dir, out)?;
    }
    Ok(())
}

fn stray(dir: &Text, name: &Text) -> Result<Stray, NoMemory>
    ensures { IfOk result (λ x. x ≡ record { dir = dir.now; name = name.now }) }
{
    let dir = dir.copy()?;
    Ok(Stray {
        dir,
        name: name.copy()?,
    })
}

/// The files of the queue in some directories, and the files of other names there.
#[derive(Drop)]
pub(crate) struct Listed {
    pub(crate) named: Seq<Named>,
    pub(crate) strays: Seq<Stray>,
}

// Adds the files of one more directory.
fn list_dir<D: Spool>(
    alloc: Global,
    spool: &mut D,
    dir: &Text,
    number: usize,
    listed: &mut Listed,
) -> Result<(), StoreFault>
    ensures files { OnOk result
        ((names : List (List ℕ)) × IsListing (D.seen spool.old).told dir.now names
        × AddsNamed number names listed.old.named listed.new.named
        × AddsStrays dir.now names listed.old.strays listed.new.strays) }
    ensures looks { Looks (D.seen spool.old) (D.seen spool.new) result }
{
    match spool.list(alloc, dir) {
        Ok(names) => {
            add_named(names.items(), number, &mut listed.named)?;
            add_strays(names.items(), dir, &mut listed.strays)?;
            Ok(())
        }
        Err(fault) => Err(store_fault(fault)),
    }
}

// The files in order of id.
fn in_order(named: Seq<Named>) -> Seq<Named>
    ensures order { IsNonDecreasingBy (λ (x : NamedSeen). x.id) result }
    ensures same { IsPermutation named result }
{
    let mut named = named.into_vec();
    named.sort_unstable_by_key(|x| x.id.number());
    Seq::from_vec(named)
}

// Adds the files of all the directories.
fn list_dirs<D: Spool>(
    alloc: Global,
    spool: &mut D,
    dirs: &[Text],
    listed: &mut Listed,
) -> Result<(), StoreFault>
    requires named { listed.old.named ≡ [] }
    requires strays { listed.old.strays ≡ [] }
    ensures within { OnOk result
        ((x : NamedSeen) → Contains listed.new.named x → x.dir < length dirs.now) }
    ensures named { (f : FileMap) → (D.seen spool.old).told ≡ Some f
        → OnOk result (AreNamed dirs.now f (length dirs.now) listed.new.named
        × AreForeign dirs.now f (length dirs.now) listed.new.strays) }
    ensures looks { Looks (D.seen spool.old) (D.seen spool.new) result }
{
    for number in 0..dirs.len() {
        list_dir(alloc, spool, &dirs[number], number, listed)?;
    }
    Ok(())
}

/// All files in these directories, those of the queue in order of id.
pub(crate) fn list_all<D: Spool>(
    alloc: Global,
    spool: &mut D,
    dirs: &[Text],
) -> Result<Listed, StoreFault>
    ensures within { IfOk result
        (λ listed. (x : NamedSeen) → Contains listed.named x → x.dir < length dirs.now) }
    ensures order { IfOk result
        (λ listed. IsNonDecreasingBy (λ (x : NamedSeen). x.id) listed.named) }
    ensures named { (f : FileMap) → (D.seen spool.old).told ≡ Some f
        → IfOk result (λ listed. AreNamed dirs.now f (length dirs.now) listed.named
        × AreForeign dirs.now f (length dirs.now) listed.strays) }
    ensures looks { Looks (D.seen spool.old) (D.seen spool.new) result }
{
    let mut listed = Listed {
        named: Seq::new(alloc),
        strays: Seq::new(alloc),
    };
    list_dirs(alloc, spool, dirs, &mut listed)?;
    Ok(Listed {
        named: in_order(listed.named),
        strays: listed.strays,
    })
}
