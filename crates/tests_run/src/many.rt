// Messages of many rows.
use crate::drawn::row_of;
use crate::samples::config_of;
use mail_base::{Cut, Draw, NoMemory, Seq, Text};
use queue_plan::{distinct, parts};
use std::alloc::Global;
use std::test::Fail;

// The group bulk has a hundred recipients an entry.
static CONFIG: &[u8] = b"Qbulk, Path=/q/bulk, recipients=100\n";

// So many rows, whose users come again after so many.
fn rows_of(alloc: Global, count: u32, users: u32) -> Result<Seq<Draw>, NoMemory> {
    let mut rows = Seq::new(alloc);
    for number in 0..count {
        let user = number % users.max(1);
        let line = format!(in alloc; "{number} <bob@c.example> smtp far.example {user}")?;
        rows.push(row_of(alloc, line.as_bytes())?)?;
    }
    Ok(rows)
}

// The group of each of so many rows: bulk for the first ones, and then mqueue.
fn groups_of(alloc: Global, count: usize, bulk: usize) -> Result<Seq<Text>, NoMemory> {
    let mut groups = Seq::new(alloc);
    for number in 0..count {
        let group: &[u8] = if number < bulk { b"bulk" } else { b"mqueue" };
        groups.push(Text::of(alloc, group)?)?;
    }
    Ok(groups)
}

/// How many rows there are, how many of them are in bulk, in how many parts they come, and the
/// sizes of the first of these.
type Row = (u32, usize, usize, &'static [usize]);

static ROWS: [Row; 3] = [
    (251, 250, 4, &[100, 100, 50, 1]),
    (10_000, 10_000, 100, &[100, 100, 100, 100]),
    (10_000, 0, 1, &[10_000]),
];

fn are_sizes(cuts: &[Cut], count: usize, first: &[usize]) -> bool {
    for (cut, size) in cuts.iter().zip(first) {
        if cut.rows.len() != *size {
            return false;
        }
    }
    cuts.len() == count
}

fn are_parts(alloc: Global, row: &Row) -> Result<bool, Fail> {
    let config = config_of(alloc, CONFIG)?;
    let rows = rows_of(alloc, row.0, row.0)?;
    let groups = groups_of(alloc, rows.len(), row.1)?;
    if groups.len() != rows.len() {
        return Ok(false);
    }
    let cuts = parts(alloc, &rows, &groups, &config)?;
    Ok(are_sizes(cuts.items(), row.2, row.3))
}

/// How many rows there are, how many users, and how many rows stay.
static KEPT: [(u32, u32, usize); 2] = [(10_000, 10_000, 10_000), (10_000, 7, 7)];

fn kept(alloc: Global, count: u32, users: u32) -> Result<usize, NoMemory> {
    let rows = distinct(alloc, rows_of(alloc, count, users)?)?;
    Ok(rows.len())
}

#[test]
fn many_rows_stay_once_and_have_many_parts(rt: HostRuntime) -> Result<(), Fail> {
    for row in &KEPT {
        assert!(rt;
            kept(rt.alloc(), row.0, row.1) == Ok(row.2),
            "{} users",
            row.1
        );
    }
    for (at, row) in ROWS.iter().enumerate() {
        assert!(rt; are_parts(rt.alloc(), row)?, "row {at}");
    }
    Ok(())
}
