use crate::queues::{Answer, FAULT, Pace, Step, answer, are_names, make_empty, motion_of};
use mail_base::{EdgeFault, Seq, Text};
use queue_devices::{QueueDirs, QueueView};
use shared_devices::{Descriptor, Joint, Motion, Move};
use spool_disk::Spool;
use std::alloc::Global;
use std::test::Fail;
use std::{fs, io};

/// The directory of the late scenes.
const LATE: &str = "/tmp/sendmail-late";

/// What is asked of a late spool, and what the disk has to show then.
#[derive(Clone, Copy)]
enum Late {
    /// A spool does this.
    Does(Step),
    /// It fails.
    Fails(Step),
    /// What waits comes to the disk; or it doesn't, and nothing does any more.
    Settles(bool),
    /// Whether nothing waits.
    IsClear(bool),
    /// These are the names in the directory, in order, each with a blank behind it.
    Has(&'static [u8]),
}

/// How a late spool goes.
#[derive(Clone, Copy)]
struct LateScene {
    name: &'static str,
    pace: Pace,
    steps: &'static [Late],
}

const LATE_SCENES: &[LateScene] = &[
    LateScene {
        name: "names change when they are settled, and what tidies behind them",
        pace: Pace::Late,
        steps: &[
            Late::IsClear(true),
            Late::Does(Step::Writes(b"dfw000000000001", b"mail")),
            Late::Does(Step::Writes(b"tfw000000000001", b"V1\n")),
            Late::Does(Step::Renames(b"tfw000000000001", b"qfw000000000001")),
            Late::Does(Step::Renames(b"qfw000000000001", b"sfw000000000001")),
            Late::Does(Step::Removes(b"dfw000000000001")),
            Late::Has(b"dfw000000000001 tfw000000000001 "),
            Late::IsClear(false),
            Late::Settles(true),
            Late::Has(b"sfw000000000001 "),
            Late::IsClear(true),
            Late::Settles(true),
        ],
    },
    LateScene {
        name: "what is asked of a name that waits settles first",
        pace: Pace::Late,
        steps: &[
            Late::Does(Step::Writes(b"tfw000000000001", b"V1\nv1\n")),
            Late::Does(Step::Renames(b"tfw000000000001", b"qfw000000000001")),
            Late::Does(Step::Lacks(b"qfw000000000002")),
            Late::Has(b"tfw000000000001 "),
            Late::Does(Step::Writes(b"tfw000000000001", b"V1\nv2\n")),
            Late::Has(b"qfw000000000001 tfw000000000001 "),
            Late::Does(Step::Renames(b"tfw000000000001", b"qfw000000000001")),
            Late::Does(Step::Holds(b"qfw000000000001", b"V1\nv2\n")),
            Late::Has(b"qfw000000000001 "),
            Late::Does(Step::Removes(b"qfw000000000001")),
            Late::Has(b""),
        ],
    },
    LateScene {
        name: "a part and its first part get their names",
        pace: Pace::Late,
        steps: &[
            Late::Does(Step::Writes(b"tfw000000000002", b"V1\nv1\npw000000000001 1\n")),
            Late::Does(Step::Renames(b"tfw000000000002", b"qfw000000000002")),
            Late::Does(Step::Writes(b"tfw000000000001", b"V1\nv1\ngmq\n")),
            Late::Does(Step::Renames(b"tfw000000000001", b"qfw000000000001")),
            Late::Settles(true),
            Late::Has(b"qfw000000000001 qfw000000000002 "),
        ],
    },
    LateScene {
        name: "many files have their names behind one settling",
        pace: Pace::Joint(b"/bin/sync"),
        steps: MANY,
    },
    LateScene {
        name: "what comes to nothing is the last",
        pace: Pace::Late,
        steps: &[
            Late::Does(Step::Writes(b"dfw000000000001", b"mail")),
            Late::Does(Step::Renames(b"tfw000000000009", b"qfw000000000009")),
            Late::Settles(false),
            Late::Settles(false),
            Late::Fails(Step::Writes(b"dfw000000000002", b"mail")),
            Late::Fails(Step::Renames(b"dfw000000000001", b"dfw000000000003")),
            Late::Fails(Step::Removes(b"dfw000000000001")),
            Late::Has(b"dfw000000000001 "),
        ],
    },
];

const MANY: &[Late] = &[
    Late::Does(Step::Writes(b"b1", b"mail")),
    Late::Does(Step::Writes(b"b2", b"mail")),
    Late::Does(Step::Writes(b"b3", b"mail")),
    Late::Does(Step::Writes(b"b4", b"mail")),
    Late::Does(Step::Writes(b"b5", b"mail")),
    Late::Does(Step::Writes(b"b6", b"mail")),
    Late::Does(Step::Writes(b"tfw000000000001", b"V1\n")),
    Late::Does(Step::Writes(b"tfw000000000002", b"V1\n")),
    Late::Does(Step::Renames(b"tfw000000000001", b"qfw000000000001")),
    Late::Does(Step::Renames(b"tfw000000000002", b"qfw000000000002")),
    Late::Settles(true),
    Late::Has(b"b1 b2 b3 b4 b5 b6 qfw000000000001 qfw000000000002 "),
    Late::Does(Step::Holds(b"qfw000000000002", b"V1\n")),
];

// The place of the first step of a late scene that doesn't go so, if there is one.
fn wrong_in_late(rt: &HostRuntime, scene: &LateScene) -> io::Result<Option<usize>> {
    make_empty(rt, LATE)?;
    let motion = motion_of(rt.alloc(), scene.pace);
    let mut spool = QueueDirs::new(rt.alloc(), LATE.as_bytes(), &motion);
    for (place, step) in scene.steps.iter().enumerate() {
        if !goes(rt, &motion, &mut spool, *step) {
            return Ok(Some(place));
        }
    }
    Ok(None)
}

fn goes(rt: &HostRuntime, motion: &Motion, spool: &mut QueueDirs<'_>, step: Late) -> bool {
    match step {
        Late::Does(step) => answer(rt, spool, step) == Ok(true),
        Late::Fails(step) => answer(rt, spool, step) == FAULT,
        Late::Settles(goes) => motion.unsynced().settle().is_ok() == goes,
        Late::IsClear(clear) => motion.unsynced().is_clear() == clear,
        Late::Has(names) => has(rt.alloc(), names) == Ok(true),
    }
}

// Whether these are the names on the disk, as one sees them who isn't the owner.
fn has(alloc: Global, wanted: &[u8]) -> Answer {
    let mut view = QueueView::new(alloc, LATE.as_bytes());
    let names: Seq<Text> = view.list(alloc, &Text::new(alloc))?;
    Ok(are_names(names.items(), wanted))
}

// Whether a sync of a directory that fails is the last of all: nothing is clear then, nothing is
// settled, and nothing is changed. The first of two directories is a file that can't be synced. What
// tidies there waits for the next change in the second, which writes or takes away; else it doesn't.
fn ends_all(alloc: Global, pace: Pace, tidies: bool, writes: bool) -> Result<bool, EdgeFault> {
    let motion = motion_of(alloc, pace);
    let books = motion.unsynced();
    let first = books.add_dir(Text::of(alloc, b"first")?, Descriptor::null()?)?;
    let second = books.add_dir(Text::of(alloc, b"second")?, Descriptor::null()?)?;
    let asked = Move::Remove(b"/tmp/sendmail-unsynced");
    let begun = books.is_clear() && books.settle().is_ok();
    let changed = books.change(first, asked, None, tidies).is_ok();
    let went = if writes {
        books.write(second, b"/tmp/sendmail-unsynced", b"mail")
    } else {
        books.change(second, asked, None, true)
    };
    let again = books.change(second, asked, None, true);
    let ended = !books.is_clear() && books.settle().is_err() && again.is_err();
    Ok(begun && changed == tidies && went.is_err() && ended)
}

// Whether that program syncs a directory, twice, and is there behind that.
fn syncs(program: &[u8], dir: &[u8]) -> (bool, bool, bool) {
    let mut joint = Joint::at(program);
    let first = joint.sync(dir);
    let second = joint.sync(dir);
    (first, second, joint.is_there())
}

#[test]
fn a_program_that_cannot_sync_is_given_up(rt: HostRuntime) {
    let (goes, fails) = ((true, true, true), (false, false, false));
    assert_eq!(rt; syncs(b"/bin/sync", b"/tmp"), goes);
    assert_eq!(rt; syncs(b"/bin/sync", b"/tmp/no-directory"), fails);
    assert_eq!(rt; syncs(b"/bin/false", b"/tmp"), fails);
    assert_eq!(rt; syncs(b"/tmp/no-program", b"/tmp"), fails);
    assert_eq!(rt; syncs(b"", b"/tmp"), fails);
}

#[test]
fn a_directory_that_cannot_be_synced_ends_all(rt: HostRuntime) {
    for pace in [Pace::Prompt, Pace::Late] {
        for (tidies, writes) in [(true, true), (true, false), (false, true), (false, false)] {
            assert_eq!(rt; ends_all(rt.alloc(), pace, tidies, writes), Ok(true));
        }
    }
}

#[test]
fn late_spools_go_as_their_scenes_say(rt: HostRuntime) -> Result<(), Fail> {
    for scene in LATE_SCENES {
        assert_eq!(rt; wrong_in_late(&rt, scene)?, None, "{}", scene.name);
    }
    fs::remove_dir_all(&rt, LATE)?;
    Ok(())
}
