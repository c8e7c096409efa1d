ghost use Rattle.std.specs.Prelude.{All, IfOk};
ghost use Rattle.mail_base.specs.Drawing.{AreRows};
ghost use Rattle.mail_base.specs.Texts.{IsLine};
ghost use Rattle.queue_plan.specs.Cuts.{AreForms, AreGrouped, AreParts};
ghost use Rattle.queue_plan.specs.Groups.{Groups, mailer_of};

use crate::{group_of, mailer_of, parts};
use mail_base::{Config, Cut, Draw, Macros, NoMemory, Seq, Text};
use map_tables::Maps;
use std::alloc::Global;

/// The parts of rows, by their senders and by the queue groups that the configuration gives them
/// (Sendmail Installation and Operation Guide, "Queue Groups"). There are no more of them than
/// rows, and each may become an entry. The set `queuegroup` sees these macros.
pub fn cuts(
    alloc: Global,
    config: &Config,
    maps: &Maps,
    macros: &Macros,
    rows: &Seq<Draw>,
) -> Result<Seq<Cut>, NoMemory>
    requires { AreRows rows.now }
    ensures is { IfOk result (AreParts config.now maps.now macros.now rows.now) }
    ensures form { IfOk result AreForms }
{
    let groups = groups_of(alloc, config, maps, macros, rows.items())?;
    parts(alloc, rows, &groups, config)
}

// The queue group of each row.
fn groups_of(
    alloc: Global,
    config: &Config,
    maps: &Maps,
    macros: &Macros,
    rows: &[Draw],
) -> Result<Seq<Text>, NoMemory>
    ensures are { IfOk result (AreGrouped config.now maps.now macros.now rows.now) }
    ensures lines { IfOk result (All IsLine) }
{
    let mut groups = Seq::new(alloc);
    for row in rows {
        let group = group_at(alloc, config, maps, macros, row)?;
        groups.push(group)?;
    }
    Ok(groups)
}

// The queue group of a row.
fn group_at(
    alloc: Global,
    config: &Config,
    maps: &Maps,
    macros: &Macros,
    row: &Draw,
) -> Result<Text, NoMemory>
    ensures is { IfOk result
        (Groups config.now maps.now macros.now row.now.address (mailer_of row.now.resolved)) }
    ensures line { IfOk result IsLine }
{
    let mailer = mailer_of(alloc, &row.resolved)?;
    group_of(alloc, config, maps, macros, &row.address, &mailer)
}
