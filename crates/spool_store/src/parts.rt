ghost use Rattle.std.specs.Prelude.{◌≡◌, ◌⊎◌, ◌∷◌, ◌++◌, [], ℕ, List, OnOk, IfSome, IsSome, Contains, map};
ghost use Rattle.mail_base.specs.Histories.{HasCause};
ghost use Rattle.spool_disk.specs.Disk.{FileMap, bytes_at};
ghost use Rattle.spool_store.specs.Entries.{Stored};
ghost use Rattle.spool_store.specs.Moves.{Moves, Ends};
ghost use Rattle.mail_base.specs.declared.control.Draft.{Draft};
ghost use Rattle.spool_store.specs.Parcels.{IsParcel};
ghost use Rattle.spool_store.specs.Parts.{entry_of};
ghost use Rattle.spool_store.specs.inner.Parts.{AreAmong, AreNew, CanFollow, IsUnderWay};
ghost use Rattle.spool_store.specs.Stores.{StoreSeen};
ghost use Rattle.spool_store.specs.Writes.{AreWritten, HasBody, HasDraft};
ghost use Rattle.spool_store.specs.inner.Commits.{HasNoDraft, IsCommitted, IsCommitting};

use crate::{Parcel, Part};
use mail_base::{Failed, Text};
use spool_disk::Spool;

// Writes the body.
fn put_body<D: Spool>(spool: &mut D, part: &Part, body: &Text) -> Result<(), Failed>
    ensures moves { (f : FileMap) (next : ℕ) (own children done : List Stored)
        → CanFollow f next done (entry_of body.now part.now)
        → Contains own (entry_of body.now part.now) → Moves
        (D.seen spool.old)
        (D.seen spool.new)
        (λ g. AreWritten done f g × IsUnderWay next own children f g)
        (Ends result
        (λ g. HasBody done (entry_of body.now part.now) f g × IsUnderWay next own children f g)
        (IsUnderWay next own children f))
        (IsUnderWay next own children f) }
    ensures cause { HasCause (D.seen spool.old).faults (D.seen spool.new).faults result }
    ensures calm { OnOk result ((D.seen spool.new).faults ≡ (D.seen spool.old).faults) }
{
    spool.write_new(&part.entry.dir, &part.df, body)
}

// Writes the control text under the name that opening takes away.
fn put_draft<D: Spool>(spool: &mut D, part: &Part) -> Result<(), Failed>
    ensures moves { (body : List ℕ) (f : FileMap) (next : ℕ) (own children done : List Stored)
        → CanFollow f next done (entry_of body part.now)
        → Contains own (entry_of body part.now) → Moves
        (D.seen spool.old)
        (D.seen spool.new)
        (λ g. HasBody done (entry_of body part.now) f g × IsUnderWay next own children f g)
        (Ends result
        (λ g. HasDraft done (entry_of body part.now) f g × IsUnderWay next own children f g)
        (IsUnderWay next own children f))
        (IsUnderWay next own children f) }
    ensures there { OnOk result
        (IfSome (D.seen spool.new).told
        (λ files. IsSome (bytes_at files (part.now.entry.dir, part.now.tf)))) }
    ensures cause { HasCause (D.seen spool.old).faults (D.seen spool.new).faults result }
    ensures calm { OnOk result ((D.seen spool.new).faults ≡ (D.seen spool.old).faults) }
{
    spool.write_new(&part.entry.dir, &part.tf, &part.control)
}

// Gives the control text of a child its own name.
fn publish<D: Spool>(spool: &mut D, part: &Part) -> Result<(), Failed>
    requires there { IfSome (D.seen spool.old).told
        (λ files. IsSome (bytes_at files (part.now.entry.dir, part.now.tf))) }
    ensures moves { (body : List ℕ) (f : FileMap) (next : ℕ) (own children done : List Stored)
        → CanFollow f next done (entry_of body part.now)
        → ((t : Stored) → Contains children t → Contains own t)
        → Contains children (entry_of body part.now) → AreAmong next done children → Moves
        (D.seen spool.old)
        (D.seen spool.new)
        (λ g. HasDraft done (entry_of body part.now) f g × IsUnderWay next own children f g)
        (Ends result
        (λ g. AreWritten (done ++ entry_of body part.now ∷ []) f g
        × IsUnderWay next own children f g)
        (IsUnderWay next own children f))
        (IsUnderWay next own children f) }
    ensures cause { HasCause (D.seen spool.old).faults (D.seen spool.new).faults result }
    ensures calm { OnOk result ((D.seen spool.new).faults ≡ (D.seen spool.old).faults) }
{
    spool.rename(&part.entry.dir, &part.tf, &part.qf)
}

// Writes the files of a child, each whole before the next.
fn put_part<D: Spool>(spool: &mut D, part: &Part, body: &Text) -> Result<(), Failed>
    ensures moves { (f : FileMap) (next : ℕ) (own children done : List Stored)
        → CanFollow f next done (entry_of body.now part.now)
        → ((t : Stored) → Contains children t → Contains own t)
        → Contains children (entry_of body.now part.now) → AreAmong next done children → Moves
        (D.seen spool.old)
        (D.seen spool.new)
        (λ g. AreWritten done f g × IsUnderWay next own children f g)
        (Ends result
        (λ g. AreWritten (done ++ entry_of body.now part.now ∷ []) f g
        × IsUnderWay next own children f g)
        (IsUnderWay next own children f))
        (IsUnderWay next own children f) }
    ensures cause { HasCause (D.seen spool.old).faults (D.seen spool.new).faults result }
    ensures calm { OnOk result ((D.seen spool.new).faults ≡ (D.seen spool.old).faults) }
{
    put_body(spool, part, body)?;
    put_draft(spool, part)?;
    publish(spool, part)
}

/// Writes the files of the children of a commit, one after another. It takes no memory.
pub(crate) fn put_parts<D: Spool>(spool: &mut D, parts: &[Part], body: &Text) -> Result<(), Failed>
    ensures moves { (f : FileMap) (next : ℕ) (own : List Stored)
        → AreNew f next (map (entry_of body.now) parts.now)
        → ((t : Stored) → Contains (map (entry_of body.now) parts.now) t → Contains own t) → Moves
        (D.seen spool.old)
        (D.seen spool.new)
        (AreWritten [] f)
        (Ends result
        (λ g. AreWritten (map (entry_of body.now) parts.now) f g
        × IsUnderWay next own (map (entry_of body.now) parts.now) f g)
        (IsUnderWay next own (map (entry_of body.now) parts.now) f))
        (IsUnderWay next own (map (entry_of body.now) parts.now) f) }
    ensures cause { HasCause (D.seen spool.old).faults (D.seen spool.new).faults result }
    ensures calm { OnOk result ((D.seen spool.new).faults ≡ (D.seen spool.old).faults) }
{
    for part in parts {
        put_part(spool, part, body)?;
    }
    Ok(())
}

// Gives the control text of a new parent its own name, which decides.
fn decide<D: Spool>(spool: &mut D, part: &Part) -> Result<(), Failed>
    requires there { IfSome (D.seen spool.old).told
        (λ files. IsSome (bytes_at files (part.now.entry.dir, part.now.tf))) }
    ensures moves { (body : List ℕ) (f : FileMap) (next : ℕ) (own children : List Stored)
        → CanFollow f next children (entry_of body part.now) → Moves
        (D.seen spool.old)
        (D.seen spool.new)
        (λ g. HasDraft children (entry_of body part.now) f g × IsUnderWay next own children f g)
        (Ends result
        (AreWritten (children ++ entry_of body part.now ∷ []) f)
        (λ g. IsUnderWay next own children f g
        ⊎ AreWritten (children ++ entry_of body part.now ∷ []) f g))
        (λ g. IsUnderWay next own children f g
        ⊎ AreWritten (children ++ entry_of body part.now ∷ []) f g) }
    ensures cause { HasCause (D.seen spool.old).faults (D.seen spool.new).faults result }
    ensures calm { OnOk result ((D.seen spool.new).faults ≡ (D.seen spool.old).faults) }
{
    spool.rename(&part.entry.dir, &part.tf, &part.qf)
}

/// Writes the files of the children and then of their new parent, whose renaming decides. It takes
/// no memory.
pub(crate) fn put_all<D: Spool>(
    spool: &mut D,
    children: &[Part],
    parent: &Part,
    body: &Text,
) -> Result<(), Failed>
    ensures moves { (f : FileMap) (next : ℕ) → AreNew f next (map (entry_of body.now) children.now)
        → CanFollow f next (map (entry_of body.now) children.now) (entry_of body.now parent.now)
        → Moves
        (D.seen spool.old)
        (D.seen spool.new)
        (AreWritten [] f)
        (Ends result
        (AreWritten (map (entry_of body.now) children.now ++ entry_of body.now parent.now ∷ []) f)
        (λ g. IsUnderWay next (entry_of body.now parent.now ∷ map (entry_of body.now) children.now)
        (map (entry_of body.now) children.now) f g
        ⊎ AreWritten
        (map (entry_of body.now) children.now ++ entry_of body.now parent.now ∷ []) f g))
        (λ g. IsUnderWay next (entry_of body.now parent.now ∷ map (entry_of body.now) children.now)
        (map (entry_of body.now) children.now) f g
        ⊎ AreWritten
        (map (entry_of body.now) children.now ++ entry_of body.now parent.now ∷ []) f g) }
    ensures cause { HasCause (D.seen spool.old).faults (D.seen spool.new).faults result }
    ensures calm { OnOk result ((D.seen spool.new).faults ≡ (D.seen spool.old).faults) }
{
    put_parts(spool, children, body)?;
    put_body(spool, parent, body)?;
    put_draft(spool, parent)?;
    decide(spool, parent)
}

/// Writes the files of a parcel. It takes no memory.
pub(crate) fn put_parcel<D: Spool>(spool: &mut D, parcel: &Parcel) -> Result<(), Failed>
    ensures moves { (store : StoreSeen) (children : List Draft) (parent : Draft) (f : FileMap)
        → IsParcel store children parent parcel.now.body parcel.now
        → HasNoDraft store.dirs store.next f → Moves
        (D.seen spool.old)
        (D.seen spool.new)
        (λ g. g ≡ f)
        (Ends result
        (IsCommitted store.next children parent parcel.now.body f)
        (IsCommitting store.next children parent parcel.now.body f))
        (IsCommitting store.next children parent parcel.now.body f) }
    ensures cause { HasCause (D.seen spool.old).faults (D.seen spool.new).faults result }
    ensures calm { OnOk result ((D.seen spool.new).faults ≡ (D.seen spool.old).faults) }
{
    put_all(spool, parcel.children.items(), &parcel.parent, &parcel.body)
}
