ghost use Rattle.std.specs.Prelude.{◌≡◌, ◌∷◌, ◌≤◌, [], IfOk, Some, false};
ghost use Rattle.mail_base.specs.Texts.{has_lf};
ghost use Rattle.spool_disk.specs.Disk.{FileMap};
ghost use Rattle.spool_disk.specs.Spooled.{Reads};
ghost use Rattle.spool_store.specs.Entries.{Table as Entries};
ghost use Rattle.spool_store.specs.Settled.{StandsFor};
ghost use Rattle.spool_store.specs.Stores.{HasId};
ghost use Rattle.queue_plan.specs.Cuts.{AreForms};
ghost use Rattle.queue_table.specs.Calls.{Tallies, store};
ghost use Rattle.dsn_bounce.specs.Returned.{IsBounce, IsWarning};
ghost use Rattle.queue_run.specs.Backs.{IsSteady, drawer, drawn_for, is_address};
ghost use Rattle.queue_run.specs.Working.{IsBodyOf};
ghost use Rattle.queue_run.specs.inner.Sendings.{HasDrawFault, HasReadFault, HasRows, IsBackMade};

use crate::RunStop;
use crate::handing::stop_of;
use dsn_bounce::{bounce, receiver, warning};
use mail_base::{Back, Config, Control, Cut, Draws, Id, JudgeFault, NoMemory, Seq, Text, TryCopy};
use map_tables::Maps;
use queue_plan::{cuts, distinct};
use queue_table::Table;
use spool_disk::Spool;
use std::alloc::Global;

// The body of an entry.
pub(crate) fn body_of<D: Spool>(table: &Table, spool: &mut D, id: &Id) -> Result<Text, RunStop>
    requires agrees { Tallies table.now (D.seen spool.old) }
    requires whole { (store table.now).broken ≡ false }
    requires entry { HasId (store table.now).entries id.now }
    ensures body { (files : FileMap) (entries : Entries) → (D.seen spool.old).told ≡ Some files
        → StandsFor (store table.now).dirs entries files
        → IfOk result (IsBodyOf entries id.now) }
    ensures reads { Reads (D.seen spool.old) (D.seen spool.new) }
    ensures later { (D.seen spool.old).faults ≤ (D.seen spool.new).faults }
    ensures fault { HasReadFault (D.seen spool.old).faults (D.seen spool.new).faults result }
{
    match table.queue().body(spool, id) {
        Ok(body) => Ok(body),
        Err(fault) => Err(stop_of(fault)),
    }
}

fn has_lf(text: &[u8]) -> bool
    ensures { result ≡ has_lf text.now }
{
    text.contains(&b'\n')
}

// Whether a row may have a text as its address.
fn is_address(text: &[u8]) -> bool
    ensures { result ≡ is_address text.now }
{
    !text.is_empty() && !has_lf(text)
}

// Whose rows are drawn for an entry.
fn address_of(alloc: Global, config: &Config, control: &Control) -> Result<Text, NoMemory>
    ensures { IfOk result (λ text. text ≡ drawn_for config.now control.now) }
{
    let receiver = receiver(config, control);
    if is_address(receiver.bytes()) {
        return receiver.copy();
    }
    Text::of(alloc, b"postmaster")
}

// The parts of the rows that are drawn for an entry's receiver. Rulesets see the macros of the
// configuration, since no session brings these rows.
fn parts<W: Draws>(
    alloc: Global,
    config: &Config,
    maps: &Maps,
    draws: &mut W,
    control: &Control,
) -> Result<Seq<Cut>, RunStop>
    ensures rows { IfOk result (HasRows (drawer (W.seen draws.old) (W.answers draws.old))
        config.now maps.now control.now) }
    ensures forms { IfOk result AreForms }
    ensures steady { IsSteady (drawer (W.seen draws.old) (W.answers draws.old))
        (drawer (W.seen draws.new) (W.answers draws.new)) }
    ensures fault { HasDrawFault (W.seen draws.old).faults (W.seen draws.new).faults result }
    ensures fixed { W.fixed draws.new ≡ W.fixed draws.old }
{
    let address = address_of(alloc, config, control)?;
    let rows = match draws.draw(alloc, &address) {
        Ok(rows) => rows,
        Err(JudgeFault::FilesFault) => return Err(RunStop::FilesFault),
        Err(JudgeFault::NoMemory) => return Err(RunStop::NoMemory),
    };
    let rows = distinct(alloc, rows)?;
    let parts = cuts(alloc, config, maps, &config.macros, &rows)?;
    Ok(parts)
}

// The bounce of an entry that has this body.
pub(crate) fn bounce_of<W: Draws>(
    alloc: Global,
    config: &Config,
    maps: &Maps,
    draws: &mut W,
    control: &Control,
    body: &Text,
    moment: u64,
) -> Result<Back, RunStop>
    ensures made { IfOk result (IsBackMade (drawer (W.seen draws.old) (W.answers draws.old))
        config.now maps.now control.now (IsBounce config.now control.now body.now moment)) }
    ensures steady { IsSteady (drawer (W.seen draws.old) (W.answers draws.old))
        (drawer (W.seen draws.new) (W.answers draws.new)) }
    ensures fault { HasDrawFault (W.seen draws.old).faults (W.seen draws.new).faults result }
    ensures fixed { W.fixed draws.new ≡ W.fixed draws.old }
{
    let cuts = parts(alloc, config, maps, draws, control)?;
    let message = bounce(config, control, body, moment)?;
    Ok(Back { message, cuts })
}

// The warning of an entry.
pub(crate) fn warning_of<W: Draws>(
    alloc: Global,
    config: &Config,
    maps: &Maps,
    draws: &mut W,
    control: &Control,
    moment: u64,
) -> Result<Back, RunStop>
    ensures made { IfOk result (IsBackMade (drawer (W.seen draws.old) (W.answers draws.old))
        config.now maps.now control.now (IsWarning config.now control.now moment)) }
    ensures steady { IsSteady (drawer (W.seen draws.old) (W.answers draws.old))
        (drawer (W.seen draws.new) (W.answers draws.new)) }
    ensures fault { HasDrawFault (W.seen draws.old).faults (W.seen draws.new).faults result }
    ensures fixed { W.fixed draws.new ≡ W.fixed draws.old }
{
    let cuts = parts(alloc, config, maps, draws, control)?;
    let message = warning(config, control, moment)?;
    Ok(Back { message, cuts })
}

// A list of one.
pub(crate) fn one(alloc: Global, back: Back) -> Result<Seq<Back>, NoMemory>
    ensures { IfOk result (λ backs. backs ≡ back ∷ []) }
{
    let mut backs = Seq::new(alloc);
    backs.push(back)?;
    Ok(backs)
}
