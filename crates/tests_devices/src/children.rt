use crate::times::lowest;
use delivery_devices::{SystemSpawner, ignores_ends};
use mail_base::{Failed, NoMemory, Seq, Text};
use shared_devices::{Descriptor, Joint, Motion};
use spawn_edge::Spawner;
use std::alloc::Global;
use std::net::TcpListener;
use std::test::Fail;
use std::time::{Duration, Instant};
use std::{fs, io, thread};

/// What a program reads.
#[derive(Clone, Copy)]
enum Input {
    Bytes(&'static [u8]),
    /// So many of the 16 megabytes.
    First(usize),
    /// 16 megabytes.
    Much,
}

/// What comes of a program.
#[derive(Clone, Copy, Debug, PartialEq, Eq)]
enum End {
    Unborn,
    Over(i32),
    Lost,
    /// It ran to the end of the test.
    Runs,
}

/// A program, and what comes of it.
#[derive(Clone, Copy)]
struct Run {
    name: &'static str,
    program: &'static [u8],
    args: &'static [&'static [u8]],
    input: Input,
    end: End,
}

/// A script that ends with 9 where a descriptor above 2 is open in it.
const LOOKS: &[u8] = b"for n in 3 4 5 6 7 8 9 10 11 12 13 14 15 16 17 18 19; \
do test -e /proc/$$/fd/$n && exit 9; done; exit 8";

/// A script that ends with 11 where it has its words and its input as they were given.
const ANY_BYTES: &[u8] = b"test \"$1\" = \"$(printf 'a\\377')\" && test -z \"$2\" && \
test \"$(cat)\" = hi && exit 11";

const RUNS: &[Run] = &[
    Run {
        name: "a program that writes what it reads",
        program: b"/bin/cat",
        args: &[],
        input: Input::Bytes(b"hello\n"),
        end: End::Over(0),
    },
    Run {
        name: "another status",
        program: b"/bin/sh",
        args: &[b"-c", b"exit 75"],
        input: Input::Bytes(b""),
        end: End::Over(75),
    },
    Run {
        name: "any bytes but NUL go through",
        program: b"/bin/sh",
        args: &[b"-c", ANY_BYTES, b"sh", b"a\xff", b""],
        input: Input::Bytes(b"hi"),
        end: End::Over(11),
    },
    Run {
        name: "all of 16 megabytes are read",
        program: b"/bin/sh",
        args: &[b"-c", b"test $(wc -c) -eq 16777216 && exit 5"],
        input: Input::Much,
        end: End::Over(5),
    },
    Run {
        name: "16 megabytes aren't read",
        program: b"/bin/sh",
        args: &[b"-c", b"exit 6"],
        input: Input::Much,
        end: End::Over(6),
    },
    Run {
        name: "65,536 bytes are read",
        program: b"/bin/sh",
        args: &[b"-c", b"test $(wc -c) -eq 65536 && exit 5"],
        input: Input::First(65_536),
        end: End::Over(5),
    },
    Run {
        name: "65,536 bytes aren't read",
        program: b"/bin/sh",
        args: &[b"-c", b"exit 6"],
        input: Input::First(65_536),
        end: End::Over(6),
    },
    Run {
        name: "65,537 bytes are read",
        program: b"/bin/sh",
        args: &[b"-c", b"test $(wc -c) -eq 65537 && exit 5"],
        input: Input::First(65_537),
        end: End::Over(5),
    },
    Run {
        name: "the input is closed at once",
        program: b"/bin/sh",
        args: &[b"-c", b"exec 0<&-; exit 7"],
        input: Input::Much,
        end: End::Over(7),
    },
    Run {
        name: "much output goes nowhere",
        program: b"/bin/cat",
        args: &[],
        input: Input::Much,
        end: End::Over(0),
    },
    Run {
        name: "a signal ends it",
        program: b"/bin/sh",
        args: &[b"-c", b"kill -9 $$"],
        input: Input::Bytes(b""),
        end: End::Lost,
    },
    Run {
        name: "no descriptor but three",
        program: b"/bin/sh",
        args: &[b"-c", LOOKS],
        input: Input::Bytes(b""),
        end: End::Over(8),
    },
    Run {
        name: "where it starts and what it finds there",
        program: b"/bin/sh",
        args: &[
            b"-c",
            b"test $(pwd) = / && test $AGENT = sendmail && exit 3",
        ],
        input: Input::Bytes(b""),
        end: End::Over(3),
    },
    Run {
        name: "a program that isn't there",
        program: b"/nowhere/program",
        args: &[],
        input: Input::Bytes(b""),
        end: End::Unborn,
    },
    Run {
        name: "a NUL in an argument",
        program: b"/bin/cat",
        args: &[b"/dev/null\0/dev/null"],
        input: Input::Bytes(b""),
        end: End::Unborn,
    },
];

fn texts(alloc: Global, words: &[&[u8]]) -> Result<Seq<Text>, NoMemory> {
    let mut texts = Seq::new(alloc);
    for word in words {
        texts.push(Text::of(alloc, word)?)?;
    }
    Ok(texts)
}

// Starts a program.
fn start(
    spawner: &mut SystemSpawner<'_>,
    alloc: Global,
    run: &Run,
    much: &Text,
) -> Result<u64, Failed> {
    let program = Text::of(alloc, run.program).map_err(|_| Failed)?;
    let args = texts(alloc, run.args).map_err(|_| Failed)?;
    match run.input {
        Input::Bytes(bytes) => {
            let input = Text::of(alloc, bytes).map_err(|_| Failed)?;
            spawner.start(&program, &args, &input)
        }
        Input::First(count) => {
            let bytes = much.bytes().get(..count).unwrap_or(&[]);
            let input = Text::of(alloc, bytes).map_err(|_| Failed)?;
            spawner.start(&program, &args, &input)
        }
        Input::Much => spawner.start(&program, &args, much),
    }
}

// Polls a child until it is over.
fn polled(spawner: &mut SystemSpawner<'_>, child: u64) -> End {
    for _ in 0..40_000u32 {
        match spawner.finished(child) {
            Ok(None) => {}
            Ok(Some(status)) => return End::Over(status),
            Err(Failed) => return End::Lost,
        }
    }
    End::Runs
}

fn end_of(rt: &HostRuntime, run: &Run, much: &Text) -> End {
    let motion = Motion::new(rt.alloc());
    let mut spawner = SystemSpawner::new(*rt, &motion);
    match start(&mut spawner, rt.alloc(), run, much) {
        Ok(child) => polled(&mut spawner, child),
        Err(Failed) => End::Unborn,
    }
}

#[test]
fn programs_end_as_their_rows_say(rt: HostRuntime) -> Result<(), Fail> {
    let held = TcpListener::bind(&rt, ("127.0.0.1", 0))?;
    let much = Text::from_vec(Vec::from_elem(rt.alloc(), b'x', 16_777_216)?);
    for run in RUNS {
        assert_eq!(rt; end_of(&rt, run, &much), run.end, "{}", run.name);
    }
    drop(held);
    Ok(())
}

/// How many children there are in all, and at once.
const MANY: u32 = 2000;

const AT_ONCE: u32 = 20;

/// A program that ends by a signal, or one that isn't there.
const ENDED: Run = Run {
    name: "",
    program: b"/bin/sh",
    args: &[b"-c", b"kill -9 $$"],
    input: Input::Bytes(b""),
    end: End::Lost,
};

const SHORT: Run = Run {
    name: "",
    program: b"/bin/true",
    args: &[],
    input: Input::Bytes(b"hello\n"),
    end: End::Over(0),
};

const ABSENT: Run = Run {
    name: "",
    program: b"/nowhere/program",
    args: &[],
    input: Input::Bytes(b""),
    end: End::Unborn,
};

// Starts some children side by side, and polls each to its end. All end as they have to.
fn ends_some(rt: &HostRuntime, spawner: &mut SystemSpawner<'_>, run: &Run) -> bool {
    let none = Text::new(rt.alloc());
    let mut last = 0;
    for _ in 0..AT_ONCE {
        match start(spawner, rt.alloc(), run, &none) {
            Ok(child) => last = child,
            Err(Failed) => return false,
        }
    }
    let first = last.saturating_sub(u64::from(AT_ONCE));
    (first..last).all(|child| polled(spawner, child.saturating_add(1)) == run.end)
}

// Whether a program that isn't there can't be started.
fn is_unborn(rt: &HostRuntime, spawner: &mut SystemSpawner<'_>) -> bool {
    let none = Text::new(rt.alloc());
    start(spawner, rt.alloc(), &ABSENT, &none) == Err(Failed)
}

fn ends_many(rt: &HostRuntime, spawner: &mut SystemSpawner<'_>) -> bool {
    for batch in 0..MANY / AT_ONCE {
        let run = if batch % 10 == 0 { ENDED } else { SHORT };
        if !ends_some(rt, spawner, &run) || !is_unborn(rt, spawner) {
            return false;
        }
    }
    spawner.running() == 0
}

#[test]
fn two_thousand_children_leave_nothing(rt: HostRuntime) -> Result<(), Fail> {
    let before = lowest(&rt)?;
    let motion = Motion::new(rt.alloc());
    let mut spawner = SystemSpawner::new(rt, &motion);
    assert!(rt; ends_many(&rt, &mut spawner));
    assert_eq!(rt; lowest(&rt)?, before);
    assert!(rt; fs::read(&rt, "/proc/thread-self/children")?.is_empty());
    Ok(())
}

/// A program that runs for a while.
const LONG: Run = Run {
    name: "",
    program: b"/bin/sleep",
    args: &[b"2"],
    input: Input::Bytes(b""),
    end: End::Over(0),
};

/// How many milliseconds a floor may wait behind each poll of two children that run, by turns.
const PAUSES: &[u32] = &[0, 0, 1, 0, 3, 0, 5, 0, 5];

// The floor's pause behind a poll that finds its child running.
fn pause_behind(spawner: &mut SystemSpawner<'_>, motion: &Motion, child: u64) -> Option<u32> {
    match spawner.finished(child) {
        Ok(None) => motion.take_work(),
        _ => None,
    }
}

// Whether the floor may wait as long as `PAUSES` says.
fn pauses(spawner: &mut SystemSpawner<'_>, motion: &Motion) -> bool {
    for (turn, pause) in PAUSES.iter().enumerate() {
        let child = if turn % 2 == 0 { 1 } else { 2 };
        if pause_behind(spawner, motion, child) != Some(*pause) {
            return false;
        }
    }
    true
}

// Whether a child ends within ten seconds.
fn ends_soon(rt: &HostRuntime, spawner: &mut SystemSpawner<'_>, child: u64) -> bool {
    for _ in 0..100u32 {
        match spawner.finished(child) {
            Ok(None) => thread::sleep(rt, Duration::from_millis(100)),
            Ok(Some(status)) => return End::Over(status) == LONG.end,
            Err(Failed) => return false,
        }
    }
    false
}

#[test]
fn the_floor_waits_once_for_all_children(rt: HostRuntime) -> Result<(), Fail> {
    let motion = Motion::new(rt.alloc());
    motion.note_floor();
    let mut spawner = SystemSpawner::new(rt, &motion);
    let none = Text::new(rt.alloc());
    for _ in 0..2u32 {
        start(&mut spawner, rt.alloc(), &LONG, &none)?;
    }
    assert!(rt; pauses(&mut spawner, &motion));
    assert!(rt; (1..3u64).all(|child| ends_soon(&rt, &mut spawner, child)));
    Ok(())
}

/// A directory of a queue, and a file in it.
const QUEUE: &str = "/tmp/sendmail-children";

const DRAFT: &[u8] = b"/tmp/sendmail-children/tfw1";

// Whether a file waits for the disk, in that directory.
fn waits(rt: &HostRuntime, motion: &Motion) -> bool {
    let path = Text::of(rt.alloc(), QUEUE.as_bytes());
    let (Ok(path), Ok(open)) = (path, Descriptor::to_dir(QUEUE.as_bytes())) else {
        return false;
    };
    motion.unsynced().add_dir(path, open) == Ok(0)
        && motion.unsynced().write(0, DRAFT, b"V1\n").is_ok()
        && !motion.unsynced().is_clear()
}

// Whether ten polls of a child that runs take some time, and bring to the disk what waits.
fn rests(rt: &HostRuntime, spawner: &mut SystemSpawner<'_>, motion: &Motion) -> io::Result<bool> {
    let start = Instant::now(rt)?;
    let runs = (0..10u32).all(|_| spawner.finished(1) == Ok(None));
    let took = start.elapsed(rt)?.as_millis();
    Ok(runs && took >= 20 && motion.unsynced().is_clear())
}

#[test]
fn polls_wait_where_nobody_asks_the_floor(rt: HostRuntime) -> Result<(), Fail> {
    if fs::exists(&rt, QUEUE)? {
        fs::remove_dir_all(&rt, QUEUE)?;
    }
    fs::create_dir_all(&rt, QUEUE)?;
    let motion = Motion::late(rt.alloc(), Joint::none());
    motion.note_floor();
    let mut spawner = SystemSpawner::new(rt, &motion);
    let none = Text::new(rt.alloc());
    start(&mut spawner, rt.alloc(), &LONG, &none)?;
    assert!(rt; waits(&rt, &motion));
    assert!(rt; rests(&rt, &mut spawner, &motion)?);
    assert!(rt; ends_soon(&rt, &mut spawner, 1));
    fs::remove_dir_all(&rt, QUEUE)?;
    Ok(())
}

/// What the system tells of a process, and whether it ignores its children's ends.
const STATUSES: &[(&[u8], bool)] = &[
    (
        b"Name:\tsh\nSigIgn:\t0000000000010000\nSigCgt:\t0000000000000000\n",
        true,
    ),
    (b"SigIgn:\tfffffffe7fffffff\n", true),
    (
        b"SigBlk:\t0000000000010000\nSigIgn:\t0000000000001000\n",
        false,
    ),
    (b"SigIgn:\tfffffffffffeffff\n", false),
    (b"SigIgn:\t1\n", false),
    (b"SigCgt:\t0000000000010000\n", false),
    (b"", false),
];

#[test]
fn who_ignores_the_ends_of_children_is_known(rt: HostRuntime) {
    for (status, ignores) in STATUSES {
        assert_eq!(rt; ignores_ends(status), *ignores);
    }
}
