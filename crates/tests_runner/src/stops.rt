//! A record that is lost, and a warning that is stopped.

use crate::entries::{files_for, from_bob};
use crate::runs::{Case, Device, Failing, NOTHING, run_over, tell_files};
use crate::telling::Teller;
use crate::worlds::world_with;
use std::alloc::Global;
use std::test::Fail;

fn hello(lines: &'static str, moment: u64, lives: &'static str) -> Case {
    Case {
        lines,
        letter: from_bob("ann"),
        moment,
        ids: "1",
        lives,
        says: "",
    }
}

// Whether that is told where the renaming of the record fails, and the run ends; in the next one the
// row is tried again.
fn is_lost(alloc: Global, wanted: &str) -> Result<bool, Fail> {
    let case = hello("", 1_767_225_610, "0");
    let failing = Failing {
        device: Device::Spool,
        call: 5,
    };
    let world = world_with(alloc, case.lines)?;
    let mut teller = Teller::new(alloc, true);
    let files = files_for(alloc, &case.letter)?;
    let spool = run_over(alloc, &world, files, &case, failing, u64::MAX, &mut teller)?;
    let files = spool.spool.files()?;
    let spool = run_over(alloc, &world, files, &case, NOTHING, u64::MAX, &mut teller)?;
    tell_files(alloc, &world, spool.spool.files()?, &mut teller)?;
    Ok(teller.told.as_str() == wanted)
}

static LOST: &str = "/bin/mail<-d><ann> began !spool \
    /bin/mail<-d><ann> began recorded: S; free = 1.2 S;";

#[test]
fn a_row_whose_record_is_lost_is_tried_again(rt: HostRuntime) -> Result<(), Fail> {
    assert!(rt; is_lost(rt.alloc(), LOST)?);
    Ok(())
}

// Whether that is told of a stop after so many changing calls: the files as they were before the next
// call, and behind it each image of the stop in that.
fn is_stopped(alloc: Global, passes: u64, wanted: &str) -> Result<bool, Fail> {
    let case = hello("O Timeout.queuewarn=4h\n", 1_767_240_000, "75");
    let world = world_with(alloc, case.lines)?;
    let mut teller = Teller::new(alloc, false);
    let files = files_for(alloc, &case.letter)?;
    let spool = run_over(alloc, &world, files, &case, NOTHING, passes, &mut teller)?;
    tell_files(alloc, &world, spool.spool.files()?, &mut teller)?;
    for image in spool.images()?.items() {
        teller.told.push_str(" ")?;
        tell_files(alloc, &world, image.files()?, &mut teller)?;
    }
    Ok(teller.told.as_str() == wanted)
}

/// After so many calls that change files, what is told. Two make the record, three the entry of
/// the warning, and two change the entry that is warned of. A write that is cut short leaves a file that
/// isn't there, or is empty, half or whole.
static STOPS: [(u64, &str); 8] = [
    (
        0,
        "began !spool = 1.1 Q; = 1.1 Q; = 1.1 Q; = 1.1 Q; = 1.1 Q;",
    ),
    (1, "began !spool = 1.1 Q; = 1.1 Q; = 1.2 Q(exit 75);"),
    (
        2,
        "began recorded !spool = 1.2 Q(exit 75); \
          = 1.2 Q(exit 75); = 1.2 Q(exit 75); = 1.2 Q(exit 75); = 1.2 Q(exit 75);",
    ),
    (
        3,
        "began recorded !spool = 1.2 Q(exit 75); \
          = 1.2 Q(exit 75); = 1.2 Q(exit 75); = 1.2 Q(exit 75); = 1.2 Q(exit 75);",
    ),
    (
        4,
        "began recorded !spool = 1.2 Q(exit 75); = 1.2 Q(exit 75); = 1.2 Q(exit 75);",
    ),
    (
        5,
        "began recorded !spool = 1.2 Q(exit 75); \
          = 1.2 Q(exit 75); = 1.2 Q(exit 75); = 1.2 Q(exit 75); = 1.2 Q(exit 75);",
    ),
    (
        6,
        "began recorded !spool = 1.2 Q(exit 75); \
          = 1.2 Q(exit 75); = 1.3w Q(exit 75); 2.1b Q;",
    ),
    (
        7,
        "began recorded gave free = 1.3w Q(exit 75); 2.1b Q; = 1.3w Q(exit 75); 2.1b Q;",
    ),
];

#[test]
fn a_warning_is_sent_whole_or_not(rt: HostRuntime) -> Result<(), Fail> {
    for (passes, wanted) in &STOPS {
        assert!(rt; is_stopped(rt.alloc(), *passes, wanted)?, "after {passes}");
    }
    Ok(())
}
