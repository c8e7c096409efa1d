// Output that waits for the disk.
use crate::floors::{brings, reads};
use link_edge::{Floor, Place, Turn};
use mail_base::{NoMemory, Text};
use session_devices::{LIMITS, SystemFloor};
use shared_devices::{Descriptor, Joint, Motion, Move};
use std::io::{ErrorKind, Read, Write};
use std::net::TcpStream;
use std::test::Fail;
use std::time::Duration;
use std::{fs, io, thread};

type HeldFloor<'a> = SystemFloor<'a, &'static [u8], Vec<u8>>;

/// The directory of the queue, and the paths in it.
const ROOT: &str = "/tmp/sendmail-held";

const DRAFT: &[u8] = b"/tmp/sendmail-held/tfw1";

const CONTROL: &[u8] = b"/tmp/sendmail-held/qfw1";

const CONTROL_PATH: &str = "/tmp/sendmail-held/qfw1";

/// What is done with a late queue, a floor at a port and its one peer, or has to come next.
#[derive(Clone, Copy)]
enum Step {
    /// The peer sends a byte, which the next turn brings.
    Asks,
    /// A control text is written and gets its name.
    Commits,
    /// What isn't there gets a name.
    Breaks,
    /// Session 1 is sent bytes.
    Sends(&'static [u8]),
    /// These bytes are what the peer reads next; none are the end.
    Hears(&'static [u8]),
    /// There is nothing to read.
    HearsNothing,
    /// Whether the control text has its name.
    IsNamed(bool),
    /// The next turn is idle.
    Idles,
    /// The next turn fails.
    Fails,
    /// The next turn is a Stop.
    Stops,
    /// Bytes come one by one, each of which the next turns bring, until the control text has its
    /// name.
    KeepsAsking,
    HangsUp,
    /// All sessions are ended.
    Finishes,
}

/// How a floor goes behind the opening of session 1.
#[derive(Clone, Copy)]
struct Scene {
    name: &'static str,
    /// How many sessions bring the floor to a Stop; 0 are none.
    most: u64,
    steps: &'static [Step],
}

const SCENES: &[Scene] = &[
    Scene {
        name: "what rests on a change comes behind it",
        most: 0,
        steps: &[
            Step::Asks,
            Step::Commits,
            Step::Sends(b"250 w1\r\n"),
            Step::HearsNothing,
            Step::IsNamed(false),
            Step::Idles,
            Step::IsNamed(true),
            Step::Hears(b"250 w1\r\n"),
        ],
    },
    Scene {
        name: "what was said before a change doesn't wait, and all behind it does",
        most: 0,
        steps: &[
            Step::Asks,
            Step::Sends(b"354 go\r\n"),
            Step::Hears(b"354 go\r\n"),
            Step::Commits,
            Step::Sends(b"250 w1\r\n"),
            Step::Sends(b"221 bye\r\n"),
            Step::HangsUp,
            Step::HearsNothing,
            Step::Idles,
            Step::Idles,
            Step::Hears(b"250 w1\r\n221 bye\r\n"),
            Step::Hears(b""),
        ],
    },
    Scene {
        name: "what rests on nothing new doesn't wait",
        most: 0,
        steps: &[
            Step::Asks,
            Step::Commits,
            Step::Asks,
            Step::Sends(b"250 ok\r\n"),
            Step::Hears(b"250 ok\r\n"),
            Step::IsNamed(false),
        ],
    },
    Scene {
        name: "a change comes to the disk while nothing waits for it but pieces come",
        most: 0,
        steps: &[
            Step::Asks,
            Step::Commits,
            Step::IsNamed(false),
            Step::KeepsAsking,
        ],
    },
    Scene {
        name: "a stop lets all go, since no turn may follow",
        most: 1,
        steps: &[
            Step::Asks,
            Step::Commits,
            Step::Sends(b"250 w1\r\n"),
            Step::Sends(b"221 bye\r\n"),
            Step::HangsUp,
            Step::HearsNothing,
            Step::IsNamed(false),
            Step::Stops,
            Step::IsNamed(true),
            Step::Hears(b"250 w1\r\n221 bye\r\n"),
            Step::Hears(b""),
        ],
    },
    Scene {
        name: "a stop brings to the disk what nothing waits for",
        most: 1,
        steps: &[
            Step::HangsUp,
            Step::Commits,
            Step::IsNamed(false),
            Step::Stops,
            Step::IsNamed(true),
            Step::Hears(b""),
        ],
    },
    Scene {
        name: "an end brings all to the disk",
        most: 0,
        steps: &[
            Step::Asks,
            Step::Commits,
            Step::Sends(b"250 w1\r\n"),
            Step::Finishes,
            Step::IsNamed(true),
            Step::Hears(b"250 w1\r\n"),
            Step::Hears(b""),
        ],
    },
    Scene {
        name: "what rests on a change that came to nothing is never sent",
        most: 0,
        steps: &[
            Step::Asks,
            Step::Breaks,
            Step::Sends(b"250 w1\r\n"),
            Step::Fails,
            Step::Fails,
            Step::HearsNothing,
            Step::Finishes,
            Step::Hears(b""),
        ],
    },
];

// The place of the first step of a scene that doesn't go so, if there is one.
fn wrong_in_scene(rt: &HostRuntime, scene: &Scene) -> io::Result<Option<usize>> {
    if fs::exists(rt, ROOT)? {
        fs::remove_dir_all(rt, ROOT)?;
    }
    fs::create_dir_all(rt, ROOT)?;
    let motion = Motion::late(rt.alloc(), Joint::none());
    if !opens(rt, &motion) {
        return Ok(Some(0));
    }
    let writer = Vec::new(rt.alloc());
    let mut floor = SystemFloor::new(*rt, b"".as_slice(), writer, None, LIMITS, Some(&motion));
    let mut peer = joined(rt, &mut floor, scene.most)?;
    for (place, step) in scene.steps.iter().enumerate() {
        if !goes(rt, &motion, &mut floor, &mut peer, *step) {
            return Ok(Some(place));
        }
    }
    Ok(None)
}

// Whether the directory is open.
fn opens(rt: &HostRuntime, motion: &Motion) -> bool {
    let path = Text::of(rt.alloc(), ROOT.as_bytes());
    match (path, Descriptor::to_dir(ROOT.as_bytes())) {
        (Ok(path), Ok(open)) => motion.unsynced().add_dir(path, open) == Ok(0),
        _ => false,
    }
}

// The peer of session 1 of a floor that begins.
fn joined(rt: &HostRuntime, floor: &mut HeldFloor<'_>, most: u64) -> io::Result<TcpStream> {
    let Ok(place) = place(rt) else {
        return Err(io::Error::from(ErrorKind::OutOfMemory));
    };
    if floor.begin(&place, most).is_err() {
        return Err(io::Error::from(ErrorKind::NotConnected));
    }
    let peer = TcpStream::connect(rt, ("127.0.0.1", floor.port()?))?;
    if !brings(floor, Turn::Opened(1, 9)) {
        return Err(io::Error::from(ErrorKind::NotConnected));
    }
    Ok(peer)
}

fn place(rt: &HostRuntime) -> Result<Place, NoMemory> {
    Ok(Place::Port {
        address: Text::of(rt.alloc(), b"127.0.0.1")?,
        port: 0,
    })
}

// Whether a step goes so.
fn goes(
    rt: &HostRuntime,
    motion: &Motion,
    floor: &mut HeldFloor<'_>,
    peer: &mut TcpStream,
    step: Step,
) -> bool {
    match step {
        Step::Asks => peer.write_all(b"x").is_ok() && brings(floor, Turn::Piece(1, 1)),
        Step::Commits => commits(motion),
        Step::Breaks => renames(motion, b"/tmp/sendmail-held/tfw9"),
        Step::Sends(bytes) => sends(rt, floor, bytes),
        Step::Hears(bytes) => peer.set_nonblocking(false).is_ok() && reads(peer, bytes),
        Step::HearsNothing => hears_nothing(peer),
        Step::IsNamed(named) => is_named(rt) == named,
        Step::Idles => floor.turn(&mut [0u8; 64]) == Ok(Turn::Idle),
        Step::Fails => floor.turn(&mut [0u8; 64]).is_err(),
        Step::Stops => floor.turn(&mut [0u8; 64]) == Ok(Turn::Stop),
        Step::KeepsAsking => keeps_asking(rt, floor, peer),
        Step::HangsUp => {
            floor.hang_up(1);
            true
        }
        Step::Finishes => {
            floor.finish();
            true
        }
    }
}

fn is_named(rt: &HostRuntime) -> bool {
    fs::exists(rt, CONTROL_PATH).is_ok_and(|there| there)
}

// Whether the control text gets its name while a byte comes each millisecond, for seconds at most.
fn keeps_asking(rt: &HostRuntime, floor: &mut HeldFloor<'_>, peer: &mut TcpStream) -> bool {
    for _ in 0..2000u32 {
        if peer.write_all(b"x").is_err() || !brings(floor, Turn::Piece(1, 1)) {
            return false;
        }
        if is_named(rt) {
            return true;
        }
        thread::sleep(rt, Duration::from_millis(1));
    }
    false
}

fn commits(motion: &Motion) -> bool {
    motion.unsynced().write(0, DRAFT, b"V1\n").is_ok() && renames(motion, DRAFT)
}

fn renames(motion: &Motion, from: &[u8]) -> bool {
    let asked = Move::Rename(from, CONTROL);
    motion.unsynced().change(0, asked, None, false).is_ok()
}

fn sends(rt: &HostRuntime, floor: &mut HeldFloor<'_>, bytes: &[u8]) -> bool {
    match Text::of(rt.alloc(), bytes) {
        Ok(bytes) => floor.send(1, &bytes).is_ok(),
        Err(NoMemory) => false,
    }
}

fn hears_nothing(peer: &mut TcpStream) -> bool {
    if peer.set_nonblocking(true).is_err() {
        return false;
    }
    match peer.read(&mut [0u8; 64]) {
        Ok(_) => false,
        Err(error) => error.kind() == ErrorKind::WouldBlock,
    }
}

#[test]
fn output_waits_for_the_disk_as_the_scenes_say(rt: HostRuntime) -> Result<(), Fail> {
    for scene in SCENES {
        assert_eq!(rt; wrong_in_scene(&rt, scene)?, None, "{}", scene.name);
    }
    fs::remove_dir_all(&rt, ROOT)?;
    Ok(())
}
