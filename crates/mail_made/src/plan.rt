ghost use Rattle.std.specs.Prelude.{◌≡◌, All, List, ℕ, Option, IfOk, IfSome, IsErrOf};
ghost use Rattle.mail_base.specs.Drawing.{AreRows};
ghost use Rattle.mail_base.specs.Texts.{IsHeader};
ghost use Rattle.mail_base.specs.declared.fault.StoreFault.TheVariants.{IdsSpent as NoIdLeft, SpoolFault as SpoolBroke};
ghost use Rattle.mail_base.specs.declared.message.Cut.{Cut as CutSeen};
ghost use Rattle.queue_plan.specs.Parts.{IsPart};
ghost use Rattle.queue_table.specs.Calls.{AreDirs, AreValid, IsSame, store};
ghost use Rattle.mail_made.specs.Messages.{headed};
ghost use Rattle.mail_made.specs.Planned.{IsMade, LacksIds};

use crate::message::made;
use mail_base::{Config, Id, Message, StoreFault};
use map_tables::Maps;
use queue_table::{Accepting, Table};
use std::alloc::Global;

/// Makes a message ready to be taken into a table at a moment, under the table's first free ids.
/// Nothing is written: the table has more room at most. `IdsSpent` comes exactly where an id is
/// wanting for one of its parts, and the spool isn't asked.
#[tactic(auto, unfolding(crate::specs::Messages::last_id))]
pub fn planned(
    alloc: Global,
    config: &Config,
    maps: &Maps,
    table: &mut Table,
    moment: u64,
    message: Message,
) -> Result<Accepting, StoreFault>
    requires dirs { AreDirs table.old.terms (store table.old).dirs }
    requires valid { (first : Option (List ℕ)) (cuts : List CutSeen) → IfSome first IsHeader
        → All IsPart cuts → AreValid table.old.terms (headed first message) moment cuts }
    requires rows { AreRows message.rows }
    ensures is { IfOk result
        (IsMade config.now maps.now moment (store table.old).next table.new message) }
    ensures id { IfOk result
        (λ accepting. accepting.parcel.parent.entry.id ≡ (store table.old).next) }
    ensures table { IsSame table.old table.new }
    ensures spent { IsErrOf result NoIdLeft
        → LacksIds config.now maps.now moment (store table.old).next message }
    ensures never { IsErrOf result SpoolBroke → ⊥ }
{
    let next = table.next();
    if next > Id::MOST {
        return Err(StoreFault::IdsSpent);
    }
    let (message, cuts) = made(alloc, config, maps, moment, message, Id::new(next))?;
    table.plan_accept(message, cuts.items(), moment)
}
