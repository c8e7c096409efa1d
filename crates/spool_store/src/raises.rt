ghost use Rattle.std.specs.Prelude.{◌≡◌, ◌≢◌, ◌⊎◌, ◌∷◌, [], ℕ, List, OnOk, IfSome, IsSome, map};
ghost use Rattle.mail_base.specs.Histories.{HasCause};
ghost use Rattle.mail_base.specs.Names.{name_of};
ghost use Rattle.mail_base.specs.declared.id.Kind.TheVariants.{Qf as ControlKind, Tf as DraftKind};
ghost use Rattle.qf_format.specs.Spelling.{spelled};
ghost use Rattle.spool_disk.specs.Disk.{FileMap, bytes_at};
ghost use Rattle.spool_store.specs.Entries.{Stored};
ghost use Rattle.mail_base.specs.declared.control.Draft.{Draft};
ghost use Rattle.spool_store.specs.Moves.{Moves, Ends};
ghost use Rattle.spool_store.specs.Parcels.{IsParcelUnder};
ghost use Rattle.spool_store.specs.Parts.{entry_of};
ghost use Rattle.spool_store.specs.inner.Parts.{AreNew, CanRaise, IsUnderWay};
ghost use Rattle.spool_store.specs.Stores.{StoreSeen};
ghost use Rattle.spool_store.specs.Writes.{AreRaised, AreWritten, HasNewDraft};
ghost use Rattle.spool_store.specs.inner.Commits.{HasNoDrafts, IsRaisedWith, IsRaising};

use crate::parts::put_parts;
use crate::{Parcel, Part};
use mail_base::{Failed, Text};
use spool_disk::Spool;

/// Writes the new control text of an old entry under the name that opening takes away. It takes no
/// memory.
pub(crate) fn put_control<D: Spool>(
    spool: &mut D,
    dir: &Text,
    tf: &Text,
    control: &Text,
) -> Result<(), Failed>
    ensures moves { (f : FileMap) (next : ℕ) (these : List Stored) (s : Stored) → dir.now ≡ s.dir
        → tf.now ≡ name_of DraftKind s.id → control.now ≡ spelled s.control
        → CanRaise f these s → Moves
        (D.seen spool.old)
        (D.seen spool.new)
        (λ g. AreWritten these f g × IsUnderWay next (s ∷ these) these f g)
        (Ends result
        (λ g. HasNewDraft these s f g × IsUnderWay next (s ∷ these) these f g)
        (IsUnderWay next (s ∷ these) these f))
        (IsUnderWay next (s ∷ these) these f) }
    ensures there { OnOk result
        (IfSome (D.seen spool.new).told (λ files. IsSome (bytes_at files (dir.now, tf.now)))) }
    ensures cause { HasCause (D.seen spool.old).faults (D.seen spool.new).faults result }
    ensures calm { OnOk result ((D.seen spool.new).faults ≡ (D.seen spool.old).faults) }
{
    spool.write_new(dir, tf, control)
}

/// Gives it the name of the entry's control file, which decides. It takes no memory.
pub(crate) fn raise<D: Spool>(spool: &mut D, dir: &Text, tf: &Text, qf: &Text) -> Result<(), Failed>
    requires apart { tf.now ≢ qf.now }
    requires there { IfSome (D.seen spool.old).told
        (λ files. IsSome (bytes_at files (dir.now, tf.now))) }
    ensures moves { (f : FileMap) (next : ℕ) (these : List Stored) (s : Stored) → dir.now ≡ s.dir
        → tf.now ≡ name_of DraftKind s.id → qf.now ≡ name_of ControlKind s.id
        → CanRaise f these s → Moves
        (D.seen spool.old)
        (D.seen spool.new)
        (λ g. HasNewDraft these s f g × IsUnderWay next (s ∷ these) these f g)
        (Ends result
        (AreRaised these s f)
        (λ g. IsUnderWay next (s ∷ these) these f g ⊎ AreRaised these s f g))
        (λ g. IsUnderWay next (s ∷ these) these f g ⊎ AreRaised these s f g) }
    ensures cause { HasCause (D.seen spool.old).faults (D.seen spool.new).faults result }
    ensures calm { OnOk result ((D.seen spool.new).faults ≡ (D.seen spool.old).faults) }
{
    spool.rename(dir, tf, qf)
}

// Writes the files of the children and then the control of their old parent, whose renaming
// decides.
fn put_under<D: Spool>(
    spool: &mut D,
    children: &[Part],
    parent: &Part,
    body: &Text,
) -> Result<(), Failed>
    ensures moves { (f : FileMap) (next : ℕ) → AreNew f next (map (entry_of body.now) children.now)
        → CanRaise f (map (entry_of body.now) children.now) (entry_of body.now parent.now) → Moves
        (D.seen spool.old)
        (D.seen spool.new)
        (AreWritten [] f)
        (Ends result
        (AreRaised (map (entry_of body.now) children.now) (entry_of body.now parent.now) f)
        (λ g. IsUnderWay next (entry_of body.now parent.now ∷ map (entry_of body.now) children.now)
        (map (entry_of body.now) children.now) f g
        ⊎ AreRaised (map (entry_of body.now) children.now) (entry_of body.now parent.now) f g))
        (λ g. IsUnderWay next (entry_of body.now parent.now ∷ map (entry_of body.now) children.now)
        (map (entry_of body.now) children.now) f g
        ⊎ AreRaised (map (entry_of body.now) children.now) (entry_of body.now parent.now) f g) }
    ensures cause { HasCause (D.seen spool.old).faults (D.seen spool.new).faults result }
    ensures calm { OnOk result ((D.seen spool.new).faults ≡ (D.seen spool.old).faults) }
{
    put_parts(spool, children, body)?;
    put_control(spool, &parent.entry.dir, &parent.tf, &parent.control)?;
    raise(spool, &parent.entry.dir, &parent.tf, &parent.qf)
}

/// Writes the files of a parcel whose parent is an entry that is there. It takes no memory.
pub(crate) fn put_raise<D: Spool>(spool: &mut D, parcel: &Parcel) -> Result<(), Failed>
    ensures moves { (store : StoreSeen) (id : ℕ) (children : List Draft) (parent : Draft)
        (f : FileMap) → IsParcelUnder store id children parent parcel.now.body parcel.now
        → HasNoDrafts store.dirs f → Moves
        (D.seen spool.old)
        (D.seen spool.new)
        (λ g. g ≡ f)
        (Ends result
        (IsRaisedWith store.next id children parent parcel.now.body f)
        (IsRaising store.next id children parent parcel.now.body f))
        (IsRaising store.next id children parent parcel.now.body f) }
    ensures cause { HasCause (D.seen spool.old).faults (D.seen spool.new).faults result }
    ensures calm { OnOk result ((D.seen spool.new).faults ≡ (D.seen spool.old).faults) }
{
    put_under(spool, parcel.children.items(), &parcel.parent, &parcel.body)
}

/// Writes the new control text of an entry whole, and then gives it its name, which decides. It
/// takes no memory.
pub(crate) fn put_raised<D: Spool>(
    spool: &mut D,
    dir: &Text,
    tf: &Text,
    qf: &Text,
    control: &Text,
) -> Result<(), Failed>
    requires apart { tf.now ≢ qf.now }
    ensures moves { (f : FileMap) (next : ℕ) (s : Stored) → dir.now ≡ s.dir
        → tf.now ≡ name_of DraftKind s.id → qf.now ≡ name_of ControlKind s.id
        → control.now ≡ spelled s.control → CanRaise f [] s → Moves
        (D.seen spool.old)
        (D.seen spool.new)
        (λ g. g ≡ f)
        (Ends result (AreRaised [] s f) (λ g. IsUnderWay next (s ∷ []) [] f g ⊎ AreRaised [] s f g))
        (λ g. IsUnderWay next (s ∷ []) [] f g ⊎ AreRaised [] s f g) }
    ensures cause { HasCause (D.seen spool.old).faults (D.seen spool.new).faults result }
    ensures calm { OnOk result ((D.seen spool.new).faults ≡ (D.seen spool.old).faults) }
{
    put_control(spool, dir, tf, control)?;
    raise(spool, dir, tf, qf)
}
