ghost use Rattle.std.specs.Prelude.{◌≡◌, IfErr, IfOk, false};
ghost use Rattle.addr_route.specs.Routes.{IsBounded};
ghost use Rattle.alias_expand.specs.Rows.{IsTellable, added, is_files_fault, leaf_at, row_at};
ghost use Rattle.alias_expand.specs.inner.Steps.{Does};

use crate::ExpandRefusal;
use crate::frame::Opened;
use crate::reading::Reading;
use crate::stand::Spot;
use mail_base::{Draw, MOST_ROWS, NoMemory, Resolved, TryCopy};

/// A leaf is a row; but the address itself is refused where its route is an error.
pub(crate) fn leaf(
    spot: Spot,
    resolved: Resolved,
    reading: &mut Reading,
) -> Result<Option<Opened>, ExpandRefusal>
    requires { IsBounded resolved }
    ensures comes { Does result reading.new
        (λ act. act ≡ leaf_at spot.entry.level spot.entry.sender.now spot.entry.text.now resolved reading.old) }
    ensures tellable { IfErr result IsTellable }
    ensures calm { is_files_fault result ≡ false }
{
    if spot.level > 0 {
        return add(row_at(spot, resolved)?, reading);
    }
    match resolved {
        Resolved::Refuses(error) => Err(ExpandRefusal::Refuses(error)),
        Resolved::Goes(triple) => add(row_at(spot, Resolved::Goes(triple))?, reading),
    }
}

/// A member that is a row.
pub(crate) fn add_row(
    spot: Spot,
    resolved: Resolved,
    reading: &mut Reading,
) -> Result<Option<Opened>, ExpandRefusal>
    ensures comes { Does result reading.new
        (λ act. act ≡ added (row_at spot.entry.level spot.entry.sender.now spot.entry.text.now resolved) reading.old) }
    ensures tellable { IfErr result IsTellable }
    ensures calm { is_files_fault result ≡ false }
{
    add(row_at(spot, resolved)?, reading)
}

// One row more, if there may be one.
#[tactic(auto, unfolding(mail_base::specs::Limits::most_rows))]
fn add(row: Draw, reading: &mut Reading) -> Result<Option<Opened>, ExpandRefusal>
    ensures comes { Does result reading.new (λ act. act ≡ added row reading.old) }
    ensures tellable { IfErr result IsTellable }
    ensures calm { is_files_fault result ≡ false }
{
    if reading.rows.len() >= MOST_ROWS {
        return Err(ExpandRefusal::TooMany);
    }
    reading.rows.push(row)?;
    Ok(None)
}

fn row_at(spot: Spot, resolved: Resolved) -> Result<Draw, NoMemory>
    ensures { IfOk result
        (λ row. row ≡ row_at spot.entry.level spot.entry.sender.now spot.entry.text.now resolved) }
{
    let address = spot.text.copy()?;
    let sender = spot.sender.copy()?;
    Ok(Draw {
        address,
        sender,
        primary: spot.level == 0,
        resolved,
    })
}
