use crate::queues::{Answer, Step, are_names, is_so, make_empty, wrong_step};
use mail_base::{EdgeFault, Text};
use queue_devices::{QueueDirs, QueueView};
use shared_devices::Motion;
use spool_disk::Spool;
use std::alloc::Global;
use std::fs;
use std::test::Fail;

/// The directory of the tests.
const ROOT: &str = "/tmp/sendmail-view";

// Whether these are the names that a view lists, each with a blank behind it.
fn lists(alloc: Global, view: &mut QueueView<'_>, wanted: &[u8]) -> Answer {
    let names = view.list(alloc, &Text::new(alloc))?;
    Ok(are_names(names.items(), wanted))
}

// Whether a file has these bytes, or isn't there.
fn holds(alloc: Global, view: &mut QueueView<'_>, name: &[u8], wanted: Option<&[u8]>) -> Answer {
    let there = view.read(alloc, &Text::new(alloc), &Text::of(alloc, name)?)?;
    Ok(is_so(&there, wanted))
}

fn renames(alloc: Global, view: &mut QueueView<'_>, from: &[u8], to: &[u8]) -> Answer {
    let from = Text::of(alloc, from)?;
    let to = Text::of(alloc, to)?;
    if from.bytes() == to.bytes() {
        return Ok(false);
    }
    view.rename(&Text::new(alloc), &from, &to)?;
    Ok(true)
}

fn removes(alloc: Global, view: &mut QueueView<'_>, name: &[u8]) -> Answer {
    view.remove(&Text::new(alloc), &Text::of(alloc, name)?)?;
    Ok(true)
}

fn writes(alloc: Global, view: &mut QueueView<'_>, name: &[u8], bytes: &[u8]) -> Answer {
    view.write_new(
        &Text::new(alloc),
        &Text::of(alloc, name)?,
        &Text::of(alloc, bytes)?,
    )?;
    Ok(true)
}

// Whether a view sees the two files of the queue.
fn sees_disk(alloc: Global, view: &mut QueueView<'_>) -> Answer {
    Ok(
        lists(alloc, view, b"dfw1 qfw1 ")?
            && holds(alloc, view, b"dfw1", Some(b"mail"))?
            && holds(alloc, view, b"qfw1", Some(b"V1\n"))?
            && holds(alloc, view, b"sfw1", None)?,
    )
}

// Whether a view sees what it changed itself, also where it renames what isn't there.
fn sees_changes(alloc: Global, view: &mut QueueView<'_>) -> Answer {
    Ok(
        renames(alloc, view, b"qfw1", b"sfw1")?
            && removes(alloc, view, b"dfw1")?
            && writes(alloc, view, b"note", b"x")?
            && renames(alloc, view, b"qfw1", b"sfw2")?
            && lists(alloc, view, b"note sfw1 ")?
            && holds(alloc, view, b"sfw1", Some(b"V1\n"))?
            && holds(alloc, view, b"note", Some(b"x"))?
            && holds(alloc, view, b"dfw1", None)?
            && holds(alloc, view, b"qfw1", None)?,
    )
}

// Whether a view sees a file again that it writes where it took one away.
fn sees_again(alloc: Global, view: &mut QueueView<'_>) -> Answer {
    Ok(
        writes(alloc, view, b"dfw1", b"other")?
            && lists(alloc, view, b"dfw1 note sfw1 ")?
            && holds(alloc, view, b"dfw1", Some(b"other"))?,
    )
}

#[test]
fn a_view_serves_beside_the_owner_and_changes_nothing(rt: HostRuntime) -> Result<(), Fail> {
    make_empty(&rt, ROOT)?;
    let motion = Motion::new(rt.alloc());
    let mut owner = QueueDirs::new(rt.alloc(), ROOT.as_bytes(), &motion);
    let made = [
        Step::Writes(b"dfw1", b"mail"),
        Step::Writes(b"qfw1", b"V1\n"),
    ];
    assert_eq!(rt; wrong_step(&rt, &mut owner, &made, Ok(true)), None);
    let mut view = QueueView::new(rt.alloc(), ROOT.as_bytes());
    assert_eq!(rt; sees_disk(rt.alloc(), &mut view), Ok(true));
    assert_eq!(rt; sees_changes(rt.alloc(), &mut view), Ok(true));
    assert_eq!(rt; sees_again(rt.alloc(), &mut view), Ok(true));
    let left = [
        Step::Lists(b"dfw1 qfw1 "),
        Step::Holds(b"dfw1", b"mail"),
        Step::Holds(b"qfw1", b"V1\n"),
        Step::Writes(b"qfw2", b"V1\n"),
    ];
    assert_eq!(rt; wrong_step(&rt, &mut owner, &left, Ok(true)), None);
    assert_eq!(rt;
        lists(rt.alloc(), &mut view, b"dfw1 note qfw2 sfw1 "),
        Ok(true)
    );
    fs::remove_dir_all(&rt, ROOT)?;
    Ok(())
}

#[test]
fn a_view_of_an_absent_directory_is_a_fault(rt: HostRuntime) {
    let mut view = QueueView::new(rt.alloc(), b"/tmp/sendmail-view-absent");
    assert_eq!(rt; lists(rt.alloc(), &mut view, b""), Err(EdgeFault::Failed));
}
