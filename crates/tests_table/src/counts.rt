//! How many calls that change files each command of a scene takes, and how many files are there
//! once it is done.

use crate::runs::{files_after, run, spool_of};
use crate::scenes::scene;
use crate::stops::front;
use mail_base::StoreFault;
use std::alloc::Global;

/// After so many commands of a scene: the calls since the beginning, and the files.
type Row = (usize, usize, u64, usize);

static ROWS: &[Row] = &[
    // Three for each part: body, draft and renaming.
    (0, 1, 9, 6),
    (1, 1, 12, 8),
    // Draft and renaming.
    (2, 1, 3, 2),
    (2, 2, 5, 2),
    // Three for the child, and two for its parent.
    (3, 2, 5, 2),
    (3, 3, 10, 4),
    (4, 2, 5, 2),
    (4, 3, 10, 4),
    // The entry is finished: its control is renamed, and its body goes.
    (5, 2, 5, 2),
    (5, 3, 12, 3),
    (5, 4, 14, 3),
    // A dead row keeps its body.
    (5, 5, 17, 3),
    (6, 3, 7, 2),
    (6, 4, 9, 2),
    (7, 2, 7, 1),
];

const NOTHING: u64 = 1_000;

fn calls_of(alloc: Global, number: usize, commands: usize) -> u64 {
    let mut spool = spool_of(alloc, NOTHING);
    run(alloc, &mut spool, front(scene(number), commands));
    NOTHING.saturating_sub(spool.left)
}

fn files_of(alloc: Global, number: usize, commands: usize) -> Result<usize, StoreFault> {
    match files_after(alloc, front(scene(number), commands))? {
        Some(files) => Ok(files.len()),
        None => Ok(0),
    }
}

#[test]
fn a_command_takes_its_calls_and_no_others(rt: HostRuntime) {
    for (at, (number, commands, calls, files)) in ROWS.iter().enumerate() {
        let taken = calls_of(rt.alloc(), *number, *commands);
        assert_eq!(rt; taken, *calls, "row {at}");
        let left = files_of(rt.alloc(), *number, *commands);
        assert_eq!(rt; left, Ok(*files), "row {at}");
    }
}
