ghost use Rattle.std.specs.Prelude.{◌≡◌, ◌<◌, ◌≤◌, ◌++◌, ◌∷◌, All, IfOk, OnOk, filter_map, flat_map, length, map, option_to_list, slice_get, zip};
ghost use Rattle.std.specs.Option.{option_copied};
ghost use Rattle.mail_base.specs.Catalogs.{value_at};
ghost use Rattle.mail_base.specs.Limits.{most_rows};
ghost use Rattle.mail_base.specs.Texts.{IsLine};
ghost use Rattle.mail_base.specs.Drawing.{IsDrawn};
ghost use Rattle.queue_plan.specs.Parts.{IsPart, heading_of, limit_of, parts_of};
ghost use Rattle.queue_plan.specs.Parts as spec;
ghost use Rattle.queue_plan.specs.inner.Buckets.{part_at, parts_in};

use crate::Heading;
use crate::buckets::gathered;
use indexmap::IndexMap;
use mail_base::{Config, Cut, Draw, NoMemory, Seq, Text, TryCopy};
use std::alloc::Global;

/// The parts of a message's rows, each of which becomes an entry: for each pair of a sender and a
/// queue group, in the order in which they are first met, the rows that have it, in their order,
/// cut into parts of at most the group's recipients (Sendmail Installation and Operation Guide,
/// "Queue Groups"). 0 recipients are no limit. Each row goes to the group at its place.
///
/// Pairs are found by an index, so that the time grows as the number of rows.
pub fn parts(
    alloc: Global,
    rows: &Seq<Draw>,
    groups: &Seq<Text>,
    config: &Config,
) -> Result<Seq<Cut>, NoMemory>
    requires placed { length groups.now ≡ length rows.now }
    ensures is { IfOk result (λ cuts. cuts ≡ parts_of config.now rows.now groups.now) }
    ensures some { 0 < length rows.now → IfOk result (λ cuts. 0 < length cuts) }
    ensures few { IfOk result (λ cuts. length cuts ≤ length rows.now) }
    ensures each { length rows.now ≤ most_rows → All IsDrawn rows.now → All IsLine groups.now
        → IfOk result (All IsPart) }
{
    parted(alloc, rows, groups, config)
}

fn parted(
    alloc: Global,
    rows: &Seq<Draw>,
    groups: &Seq<Text>,
    config: &Config,
) -> Result<Seq<Cut>, NoMemory>
    ensures { IfOk result (λ cuts. cuts ≡ parts_of config.now rows.now groups.now) }
{
    let headings = headings_of(alloc, rows.items(), groups.items())?;
    let buckets = gathered(alloc, headings.items())?;
    parts_in(alloc, &buckets, rows, config)
}

// The parts of the rows of all headings.
fn parts_in(
    alloc: Global,
    buckets: &IndexMap<Heading, Seq<usize>>,
    rows: &Seq<Draw>,
    config: &Config,
) -> Result<Seq<Cut>, NoMemory>
    ensures { IfOk result
        (λ cuts. cuts ≡ flat_map (parts_in config.now rows.now) buckets.now.entries) }
{
    let mut cuts = Seq::new(alloc);
    for (heading, places) in buckets {
        add_parts(alloc, &mut cuts, config, rows, heading, places)?;
    }
    Ok(cuts)
}

// The sender and the group of each row.
fn headings_of(alloc: Global, rows: &[Draw], groups: &[Text]) -> Result<Seq<Heading>, NoMemory>
    ensures { IfOk result (λ headings. headings ≡ map heading_of (zip rows.now groups.now)) }
{
    let mut headings = Seq::new(alloc);
    for (row, group) in rows.iter().zip(groups) {
        headings.push(Heading {
            sender: row.sender.copy()?,
            group: group.copy()?,
        })?;
    }
    Ok(headings)
}

// The most recipients of an entry of a group; 0 is no limit.
fn limit_of(config: &Config, group: &Text) -> u64
    ensures { result ≡ limit_of (value_at group.now config.now.groups) }
{
    match config.groups.get(group) {
        Some(group) => group.recipients,
        None => 0,
    }
}

fn portion_size(limit: u64, count: usize) -> usize
    ensures is { result ≡ spec.portion_size limit count }
    ensures some { 0 < result }
{
    if limit == 0 {
        count.max(1)
    } else {
        limit as usize
    }
}

// Adds the parts of the rows at the places of a heading.
fn add_parts(
    alloc: Global,
    cuts: &mut Seq<Cut>,
    config: &Config,
    rows: &Seq<Draw>,
    heading: &Heading,
    places: &Seq<usize>,
) -> Result<(), NoMemory>
    ensures { OnOk result
        (cuts.new ≡ cuts.old ++ parts_in config.now rows.now (heading.now, places.now)) }
{
    let size = portion_size(limit_of(config, &heading.group), places.len());
    for portion in places.items().chunks(size) {
        let cut = part_at(alloc, heading, rows, portion)?;
        cuts.push(cut)?;
    }
    Ok(())
}

// The part of the rows at some places.
fn part_at(
    alloc: Global,
    heading: &Heading,
    rows: &Seq<Draw>,
    places: &[usize],
) -> Result<Cut, NoMemory>
    ensures { IfOk result (λ cut. cut ≡ part_at heading.now rows.now places.now) }
{
    Ok(Cut {
        rows: rows_at(alloc, rows, places)?,
        sender: heading.sender.copy()?,
        group: heading.group.copy()?,
    })
}

fn rows_at(alloc: Global, rows: &Seq<Draw>, places: &[usize]) -> Result<Seq<Draw>, NoMemory>
    ensures { IfOk result (λ some. some ≡ filter_map (slice_get rows.now) places.now) }
{
    let mut chosen = Seq::new(alloc);
    for place in places {
        add_row(&mut chosen, rows.get(*place))?;
    }
    Ok(chosen)
}

fn add_row(chosen: &mut Seq<Draw>, row: Option<&Draw>) -> Result<(), NoMemory>
    ensures { OnOk result (chosen.new ≡ chosen.old ++ option_to_list (option_copied row.entry)) }
{
    match row {
        Some(row) => chosen.push(row.copy()?),
        None => Ok(()),
    }
}
