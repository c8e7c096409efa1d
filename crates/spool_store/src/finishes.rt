ghost use Rattle.std.specs.Prelude.{◌≡◌, ◌≢◌, ℕ, List, OnOk, IfSome, IsSome, false};
ghost use Rattle.mail_base.specs.Histories.{HasCause};
ghost use Rattle.mail_base.specs.Names.{name_of};
ghost use Rattle.mail_base.specs.States.{needs_body};
ghost use Rattle.mail_base.specs.declared.control.Control.{Control};
ghost use Rattle.mail_base.specs.declared.id.Kind.TheVariants.{Df as BodyKind, Qf as ControlKind, Sf as FinishedKind};
ghost use Rattle.spool_disk.specs.Disk.{FileMap, bytes_at};
ghost use Rattle.spool_store.specs.inner.Finishing.{HasEnded, HasFinished, IsDone, IsRun};
ghost use Rattle.spool_store.specs.Moves.{Moves, Ends};
ghost use Rattle.spool_store.specs.Queue.{Spot};
ghost use Rattle.spool_store.specs.Tidying.{IsTidied};

use mail_base::{Failed, Text};
use spool_disk::Spool;

/// Gives the control file of an entry whose rows are all done its other name. It takes no memory.
pub(crate) fn end<D: Spool>(spool: &mut D, dir: &Text, qf: &Text, sf: &Text) -> Result<(), Failed>
    requires apart { qf.now ≢ sf.now }
    requires there { IfSome (D.seen spool.old).told
        (λ files. IsSome (bytes_at files (dir.now, qf.now))) }
    ensures moves { (dirs : List (List ℕ)) (f : FileMap) (s : Spot) (control : Control)
        → IsDone dirs f s control → dir.now ≡ s.dir → qf.now ≡ name_of ControlKind s.id
        → sf.now ≡ name_of FinishedKind s.id → Moves
        (D.seen spool.old)
        (D.seen spool.new)
        (λ g. g ≡ f)
        (Ends result (HasEnded dirs f s) (IsTidied dirs f))
        (IsTidied dirs f) }
    ensures runs { IsRun (D.seen spool.old) (D.seen spool.new) }
    ensures cause { HasCause (D.seen spool.old).faults (D.seen spool.new).faults result }
    ensures calm { OnOk result ((D.seen spool.new).faults ≡ (D.seen spool.old).faults) }
{
    spool.rename(dir, qf, sf)
}

/// Takes away the body that is wanted no more. It takes no memory.
pub(crate) fn drop_body<D: Spool>(spool: &mut D, dir: &Text, df: &Text) -> Result<(), Failed>
    ensures moves { (dirs : List (List ℕ)) (f : FileMap) (s : Spot) (control : Control)
        → IsDone dirs f s control → needs_body control ≡ false → dir.now ≡ s.dir
        → df.now ≡ name_of BodyKind s.id → Moves
        (D.seen spool.old)
        (D.seen spool.new)
        (HasEnded dirs f s)
        (Ends result (HasFinished dirs f s control) (IsTidied dirs f))
        (IsTidied dirs f) }
    ensures runs { IsRun (D.seen spool.old) (D.seen spool.new) }
    ensures cause { HasCause (D.seen spool.old).faults (D.seen spool.new).faults result }
    ensures calm { OnOk result ((D.seen spool.new).faults ≡ (D.seen spool.old).faults) }
{
    spool.remove(dir, df)
}
