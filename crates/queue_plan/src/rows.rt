ghost use Rattle.std.specs.Prelude.{◌≡◌, IfOk, OnOk};
ghost use Rattle.indexmap.specs.IndexSet.{insert_key};
ghost use Rattle.mail_base.specs.Drawing.{AreRows};
ghost use Rattle.queue_plan.specs.Rows as spec;
ghost use Rattle.queue_plan.specs.inner.Targets.{same_target, target_of, with_row};

use crate::target::{Target, target_of};
use indexmap::IndexSet;
use mail_base::{Draw, NoMemory, Seq};
use std::alloc::Global;

/// The rows of a message, each once: of those that go to one mailer, host and user the first stays,
/// and so it does of those of one address whose route is an error. The others keep their order.
/// Senders are not compared.
///
/// Equal rows are found by an index, so that the time grows as the number of rows.
pub fn distinct(alloc: Global, rows: Seq<Draw>) -> Result<Seq<Draw>, NoMemory>
    ensures is { IfOk result (λ kept. kept ≡ spec.distinct rows) }
    ensures form { AreRows rows → IfOk result AreRows }
{
    firsts_of(alloc, rows)
}

fn firsts_of(alloc: Global, rows: Seq<Draw>) -> Result<Seq<Draw>, NoMemory>
    ensures { IfOk result (λ kept. kept ≡ spec.distinct rows) }
{
    let mut met = IndexSet::new(alloc);
    let mut kept = Seq::new(alloc);
    for row in rows.into_vec() {
        keep(&mut met, &mut kept, row)?;
    }
    Ok(kept)
}

// Keeps a row, unless its target was met.
fn keep(met: &mut IndexSet<Target>, kept: &mut Seq<Draw>, row: Draw) -> Result<(), NoMemory>
    ensures met { OnOk result (met.new.keys ≡ insert_key same_target met.old.keys (target_of row)) }
    ensures kept { OnOk result (kept.new ≡ with_row met.old.keys kept.old row) }
{
    let target = target_of(&row)?;
    let is_new = met.insert(target)?;
    if !is_new {
        return Ok(());
    }
    kept.push(row)
}
