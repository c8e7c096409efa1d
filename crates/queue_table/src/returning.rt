ghost use Rattle.std.specs.Prelude.{◌≡◌, ◌⊎◌, ◌↔◌, ◌<◌, ◌+◌, IsErrOf, false, true, Err, sum_by, length};
ghost use Rattle.mail_base.specs.declared.fault.StoreFault.TheVariants.{SpoolFault as Broke, IdsSpent as Spent, NoMemory as Memory};
ghost use Rattle.queue_table.specs.Calls.{AreBacksValid, AreDirs, CarriesOut, IsAsked, IsSame, Tallies, store};
ghost use Rattle.queue_table.specs.Commands.{Return, Warn};

use crate::Table;
use mail_base::{Back, Id, Seq, StoreFault};
use spool_disk::Spool;

impl Table {
    /// Returns the failed rows of an entry at a moment, by a bounce whose entries are its children
    /// at its next revision, or in a double bounce, by none, leaves them dead. The bounce is given
    /// up, so that its body is not copied. `IdsSpent` comes exactly where an id would pass
    /// [`Id::MOST`]. A stop at any moment leaves the table before or after, unless the entry has
    /// the last revision.
    pub fn give_back<D: Spool>(
        &mut self,
        spool: &mut D,
        id: &Id,
        bounces: Seq<Back>,
        moment: u64,
    ) -> Result<(), StoreFault>
        requires agrees { Tallies self.old (D.seen spool.old) }
        requires asked { IsAsked self.old (Return self.old.terms id.now bounces moment) }
        requires dirs { AreDirs self.old.terms (store self.old).dirs }
        requires valid { AreBacksValid self.old.terms moment bounces }
        ensures does { CarriesOut self.old self.new (Return self.old.terms id.now bounces moment) result
            (D.seen spool.old) (D.seen spool.new) }
        ensures refused { (IsErrOf result Memory ⊎ IsErrOf result Spent)
            → IsSame self.old self.new × (spool.new ≡ spool.old) }
        ensures spent { IsErrOf result Spent
            ↔ ((store self.old).broken ≡ false
            × (Id.MOST + 1 < (store self.old).next + sum_by (λ back. length back.cuts) bounces)) }
        ensures broken { (store self.old).broken ≡ true
            → (result ≡ Err Broke) × (spool.new ≡ spool.old) }
    {
        if self.queue.is_broken() {
            return Err(StoreFault::SpoolFault);
        }
        let parcel = self.plan_back(*id, bounces, moment)?;
        self.commit_under(spool, parcel)
    }

    /// Says of an entry that a warning was sent, whose entries are its children at its next
    /// revision. Else as [`Table::give_back`].
    pub fn warn<D: Spool>(
        &mut self,
        spool: &mut D,
        id: &Id,
        warnings: Seq<Back>,
        moment: u64,
    ) -> Result<(), StoreFault>
        requires agrees { Tallies self.old (D.seen spool.old) }
        requires asked { IsAsked self.old (Warn self.old.terms id.now warnings moment) }
        requires dirs { AreDirs self.old.terms (store self.old).dirs }
        requires valid { AreBacksValid self.old.terms moment warnings }
        ensures does { CarriesOut self.old self.new (Warn self.old.terms id.now warnings moment) result
            (D.seen spool.old) (D.seen spool.new) }
        ensures refused { (IsErrOf result Memory ⊎ IsErrOf result Spent)
            → IsSame self.old self.new × (spool.new ≡ spool.old) }
        ensures spent { IsErrOf result Spent
            ↔ ((store self.old).broken ≡ false
            × (Id.MOST + 1 < (store self.old).next + sum_by (λ back. length back.cuts) warnings)) }
        ensures broken { (store self.old).broken ≡ true
            → (result ≡ Err Broke) × (spool.new ≡ spool.old) }
    {
        if self.queue.is_broken() {
            return Err(StoreFault::SpoolFault);
        }
        let parcel = self.plan_warning(*id, warnings, moment)?;
        self.commit_under(spool, parcel)
    }
}
