use mail_base::{EdgeFault, Failed, Seq, Text};
use mail_edge::LARGEST_FILE;
use queue_devices::{QueueDirs, cause_of};
use shared_devices::{Descriptor, Joint, Motion, complaint};
use spool_disk::Spool;
use std::alloc::Global;
use std::fs::File;
use std::os::unix::fs::PermissionsExt;
use std::test::Fail;
use std::{fs, io};

/// What is asked of a spool, and what it has to answer.
#[derive(Clone, Copy)]
pub enum Step {
    /// A file is written with these bytes.
    Writes(&'static [u8], &'static [u8]),
    /// A file gets another name.
    Renames(&'static [u8], &'static [u8]),
    /// A file is taken away.
    Removes(&'static [u8]),
    /// A file has these bytes.
    Holds(&'static [u8], &'static [u8]),
    /// A file isn't there.
    Lacks(&'static [u8]),
    /// These are the names of all files, each with a blank behind it.
    Lists(&'static [u8]),
    /// The file at this path is for its owner alone.
    IsPrivate(&'static str),
    /// Another spool is at fault in each call.
    IsAlone,
}

/// The answer of a spool to a step: whether it is so, or a fault.
pub type Answer = Result<bool, EdgeFault>;

/// The answer of a spool that is at fault.
pub const FAULT: Answer = Err(EdgeFault::Failed);

/// The place of the first step that isn't answered so, if there is one.
pub fn wrong_step(
    rt: &HostRuntime,
    spool: &mut QueueDirs<'_>,
    steps: &[Step],
    wanted: Answer,
) -> Option<usize> {
    for (place, step) in steps.iter().enumerate() {
        if answer(rt, spool, *step) != wanted {
            return Some(place);
        }
    }
    None
}

/// How a spool answers a step.
pub fn answer(rt: &HostRuntime, spool: &mut QueueDirs<'_>, step: Step) -> Answer {
    let alloc = rt.alloc();
    match step {
        Step::Writes(name, bytes) => writes(alloc, spool, name, bytes),
        Step::Renames(from, to) => renames(alloc, spool, from, to),
        Step::Removes(name) => removes(alloc, spool, name),
        Step::Holds(name, bytes) => holds(alloc, spool, name, Some(bytes)),
        Step::Lacks(name) => holds(alloc, spool, name, None),
        Step::Lists(names) => lists(alloc, spool, names),
        Step::IsPrivate(path) => Ok(is_private(rt, path)),
        Step::IsAlone => Ok(faults_of_another(alloc) == 3),
    }
}

fn writes(alloc: Global, spool: &mut QueueDirs<'_>, name: &[u8], bytes: &[u8]) -> Answer {
    let name = Text::of(alloc, name)?;
    let bytes = Text::of(alloc, bytes)?;
    spool.write_new(&Text::new(alloc), &name, &bytes)?;
    Ok(true)
}

fn renames(alloc: Global, spool: &mut QueueDirs<'_>, from: &[u8], to: &[u8]) -> Answer {
    let from = Text::of(alloc, from)?;
    let to = Text::of(alloc, to)?;
    if from.bytes() == to.bytes() {
        return Ok(false);
    }
    spool.rename(&Text::new(alloc), &from, &to)?;
    Ok(true)
}

fn removes(alloc: Global, spool: &mut QueueDirs<'_>, name: &[u8]) -> Answer {
    let name = Text::of(alloc, name)?;
    spool.remove(&Text::new(alloc), &name)?;
    Ok(true)
}

fn holds(alloc: Global, spool: &mut QueueDirs<'_>, name: &[u8], wanted: Option<&[u8]>) -> Answer {
    let name = Text::of(alloc, name)?;
    let there = spool.read(alloc, &Text::new(alloc), &name)?;
    Ok(is_so(&there, wanted))
}

/// Whether a file has these bytes, or isn't there.
pub fn is_so(there: &Option<Text>, wanted: Option<&[u8]>) -> bool {
    match (there, wanted) {
        (Some(text), Some(bytes)) => text.bytes() == bytes,
        (None, None) => true,
        _ => false,
    }
}

fn lists(alloc: Global, spool: &mut QueueDirs<'_>, wanted: &[u8]) -> Answer {
    let names: Seq<Text> = spool.list(alloc, &Text::new(alloc))?;
    Ok(are_names(names.items(), wanted))
}

/// Whether these are the names, each with a blank behind it.
pub fn are_names(names: &[Text], wanted: &[u8]) -> bool {
    let mut rest = wanted;
    for name in names {
        match rest.strip_prefix(name.bytes()) {
            Some([b' ', behind @ ..]) => rest = behind,
            _ => return false,
        }
    }
    rest.is_empty()
}

/// What there is before a spool is made.
#[derive(Clone, Copy)]
enum Before {
    Nothing,
    Empty,
    /// What the scene before left.
    Same,
    /// A directory with another one in it.
    Nested,
    /// A file that everybody may read.
    Open,
    /// A file with one byte more than one may have.
    Large,
}

/// How the devices of a run let wait what is changed in the queue.
#[derive(Clone, Copy)]
pub enum Pace {
    /// Not at all.
    Prompt,
    /// Until it is settled, with a sync for each file.
    Late,
    /// The same, with a sync for many files by a program.
    Joint(&'static [u8]),
}

/// How a spool over a directory goes: steps that are faults, and then steps that go.
#[derive(Clone, Copy)]
struct Scene {
    name: &'static str,
    before: Before,
    fails: &'static [Step],
    goes: &'static [Step],
}

/// The directory of the scenes.
const ROOT: &str = "/tmp/sendmail-queue";

const SCENES: &[Scene] = &[
    Scene {
        name: "a file holds what was written last for its owner",
        before: Before::Open,
        fails: &[],
        goes: &[
            Step::Writes(b"dfw1", b"a body\xff\r\n"),
            Step::Holds(b"dfw1", b"a body\xff\r\n"),
            Step::IsPrivate("/tmp/sendmail-queue/dfw1"),
            Step::Lacks(b"dfw2"),
        ],
    },
    Scene {
        name: "a file has its new name alone until it is removed",
        before: Before::Empty,
        fails: &[],
        goes: &[
            Step::Writes(b"tfw1", b"V1\n"),
            Step::Renames(b"tfw1", b"qfw1"),
            Step::Lacks(b"tfw1"),
            Step::Holds(b"qfw1", b"V1\n"),
            Step::Removes(b"qfw1"),
            Step::Removes(b"qfw1"),
            Step::Lacks(b"qfw1"),
        ],
    },
    Scene {
        name: "names of any bytes are listed in order",
        before: Before::Nested,
        fails: &[],
        goes: &[
            Step::Writes(b"qf\xfe", b""),
            Step::Writes(b"a b", b""),
            Step::Lists(b"a b qf\xfe "),
            Step::Lists(b"a b qf\xfe "),
        ],
    },
    Scene {
        name: "a directory has one owner",
        before: Before::Empty,
        fails: &[],
        goes: &[
            Step::Lists(b""),
            Step::Writes(b"dfw1", b"mail"),
            Step::IsAlone,
            Step::Holds(b"dfw1", b"mail"),
            Step::Lists(b"dfw1 "),
        ],
    },
    Scene {
        name: "a directory is free when its owner is gone",
        before: Before::Same,
        fails: &[],
        goes: &[
            Step::Lists(b"dfw1 "),
            Step::Writes(b"dfw1", b"other mail"),
            Step::Removes(b"dfw1"),
        ],
    },
    Scene {
        name: "an absent directory is a fault",
        before: Before::Nothing,
        fails: &[
            Step::Lists(b""),
            Step::Lacks(b"qfw1"),
            Step::Writes(b"qfw1", b"V1\n"),
            Step::Removes(b"qfw1"),
            Step::Renames(b"tfw1", b"qfw1"),
        ],
        goes: &[],
    },
    Scene {
        name: "a name outside its directory is a fault",
        before: Before::Empty,
        fails: &[
            Step::Writes(b"", b""),
            Step::Writes(b".", b""),
            Step::Writes(b"..", b""),
            Step::Writes(b"a/b", b""),
            Step::Writes(b"/etc/x", b""),
            Step::Writes(b"a\0b", b""),
            Step::Writes(&[b'x'; 4096], b""),
        ],
        goes: &[Step::Lists(b"")],
    },
    Scene {
        name: "a large file is a fault",
        before: Before::Large,
        fails: &[Step::Lacks(b"dfw1")],
        goes: &[Step::Lists(b"dfw1 ")],
    },
];

// The place of the first step of a scene that doesn't go so, if there is one.
fn wrong_in_scene(rt: &HostRuntime, pace: Pace, scene: &Scene) -> io::Result<Option<usize>> {
    make(rt, scene.before)?;
    let motion = motion_of(rt.alloc(), pace);
    let mut spool = QueueDirs::new(rt.alloc(), ROOT.as_bytes(), &motion);
    Ok(wrong_in_spool(rt, &mut spool, scene))
}

/// What the devices of a run share at a pace.
pub fn motion_of(alloc: Global, pace: Pace) -> Motion {
    match pace {
        Pace::Prompt => Motion::new(alloc),
        Pace::Late => Motion::late(alloc, Joint::none()),
        Pace::Joint(path) => Motion::late(alloc, Joint::at(path)),
    }
}

// The same of a spool. Each fault is counted.
fn wrong_in_spool(rt: &HostRuntime, spool: &mut QueueDirs<'_>, scene: &Scene) -> Option<usize> {
    let wrong = wrong_step(rt, spool, scene.fails, FAULT);
    if wrong.is_some() {
        return wrong;
    }
    if spool.faults() != scene.fails.len() as u64 {
        return Some(scene.fails.len());
    }
    wrong_step(rt, spool, scene.goes, Ok(true))
}

// How many of three calls fail of another spool over the directory.
fn faults_of_another(alloc: Global) -> u64 {
    let motion = Motion::new(alloc);
    let mut other = QueueDirs::new(alloc, ROOT.as_bytes(), &motion);
    let _ = lists(alloc, &mut other, b"");
    let _ = writes(alloc, &mut other, b"dfw1", b"other mail");
    let _ = removes(alloc, &mut other, b"dfw1");
    other.faults()
}

// Makes what there is before a scene.
fn make(rt: &HostRuntime, before: Before) -> io::Result<()> {
    if !matches!(before, Before::Same) {
        make_empty(rt, ROOT)?;
    }
    match before {
        Before::Nothing => fs::remove_dir(rt, ROOT),
        Before::Empty | Before::Same => Ok(()),
        Before::Open => make_open(rt, "/tmp/sendmail-queue/dfw1"),
        Before::Nested => fs::create_dir(rt, "/tmp/sendmail-queue/bulk"),
        Before::Large => make_large(rt, "/tmp/sendmail-queue/dfw1"),
    }
}

/// Makes an empty directory at that path.
pub fn make_empty(rt: &HostRuntime, path: &str) -> io::Result<()> {
    if fs::exists(rt, path)? {
        fs::remove_dir_all(rt, path)?;
    }
    fs::create_dir_all(rt, path)
}

// A file with one byte more than one may have.
fn make_large(rt: &HostRuntime, path: &str) -> io::Result<()> {
    File::create(rt, path)?.set_len(LARGEST_FILE as u64 + 1)
}

// Makes a file that everybody may read.
fn make_open(rt: &HostRuntime, path: &str) -> io::Result<()> {
    fs::write(rt, path, b"a first and long body".as_slice())?;
    fs::set_permissions(rt, path, fs::Permissions::from_mode(0o644))
}

fn is_private(rt: &HostRuntime, path: &str) -> bool {
    match fs::metadata(rt, path) {
        Ok(file) => file.permissions().mode() & 0o777 == 0o600,
        Err(_) => false,
    }
}

#[test]
fn spools_on_a_disk_go_as_their_scenes_say(rt: HostRuntime) -> Result<(), Fail> {
    for pace in [Pace::Prompt, Pace::Late] {
        for scene in SCENES {
            assert_eq!(rt; wrong_in_scene(&rt, pace, scene)?, None, "{}", scene.name);
        }
    }
    fs::remove_dir_all(&rt, ROOT)?;
    Ok(())
}

#[test]
fn a_full_disk_is_a_fault(rt: HostRuntime) {
    assert!(rt;
        Descriptor::to_change(b"/dev/full").is_ok_and(|full| full.write_all(b"V1\n").is_err())
    );
}

// Whether this line is that of a directory of the queue with this error.
fn is_line(error: i32, wanted: &[u8]) -> bool {
    match complaint(b"/q", cause_of(error, &mut [0u8; 128])) {
        Ok(line) => line.as_slice() == wanted,
        Err(Failed) => false,
    }
}

#[test]
fn a_directory_that_cannot_be_had_has_a_line(rt: HostRuntime) {
    assert!(rt; is_line(libc::EAGAIN, b"sendmail: /q: owned by another process\n"));
    assert!(rt; is_line(libc::ENOENT, b"sendmail: /q: No such file or directory\n"));
}
