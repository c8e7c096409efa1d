use link_edge::{Floor, Place, Turn};
use mail_base::{NoMemory, Text};
use mail_edge::Clock;
use session_devices::{LIMITS, Limits, SystemClock, SystemFloor};
use shared_devices::Motion;
use std::io;
use std::io::{ErrorKind, Read, Write};
use std::net::TcpStream;
use std::test::Fail;
use std::time::Instant;

/// A floor at a port, with no standard input.
type PortFloor = SystemFloor<'static, &'static [u8], Vec<u8>>;

/// The buffer of a turn.
pub(crate) type Buffer = [u8; 64];

/// What a session that was silent for too long hears.
pub(crate) const SILENT: &[u8] = b"421 4.4.2 Nothing came for too long, closing connection\r\n";

/// What is done with a floor at a port and its peers, or has to come next. Sessions are counted
/// from 1, and peers from 0 among those that are there.
#[derive(Clone, Copy)]
enum Step {
    /// One more peer connects.
    Joins,
    /// The first peer leaves.
    Leaves,
    /// A peer sends bytes.
    Says(usize, &'static [u8]),
    /// These bytes are what a peer reads next; none are the end.
    Hears(usize, &'static [u8]),
    /// This is the next turn that isn't idle.
    Brings(Turn),
    /// This is the next turn.
    Turns(Turn),
    /// The next turn is idle, with no descriptors left.
    Starves,
    /// A session is sent bytes.
    Sends(u64, &'static [u8]),
    /// A session can't be sent a text.
    Refuses(u64),
    /// The first session is sent 16 megabytes.
    SendsMuch,
    /// The first session, whose peer reads nothing, is sent texts until that fails, and the peer at
    /// place 1 reads what the second session is sent meanwhile.
    Floods,
    /// A session is hung up.
    HangsUp(u64),
    /// So many sessions were hung up and aren't over yet.
    Parts(usize),
    /// All sessions are ended.
    Finishes,
    /// No other floor begins at this port.
    Holds,
}

/// How a floor goes, step by step.
#[derive(Clone, Copy)]
struct Scene {
    name: &'static str,
    address: &'static [u8],
    limits: Limits,
    steps: &'static [Step],
}

const SCENES: &[Scene] = &[
    Scene {
        name: "two sessions are served in turn",
        address: b"",
        limits: LIMITS,
        steps: &[
            Step::Joins,
            Step::Brings(Turn::Opened(1, 9)),
            Step::Joins,
            Step::Brings(Turn::Opened(2, 9)),
            Step::Says(1, b"NOOP\r\n"),
            Step::Brings(Turn::Piece(2, 6)),
            Step::Says(0, b"HE"),
            Step::Brings(Turn::Piece(1, 2)),
            Step::Leaves,
            Step::Brings(Turn::Closed(1)),
            Step::HangsUp(2),
            Step::Turns(Turn::Stop),
        ],
    },
    Scene {
        name: "a silent session is told so and closed",
        address: b"127.0.0.1",
        limits: Limits {
            silence: 40,
            ..LIMITS
        },
        steps: &[
            Step::Joins,
            Step::Brings(Turn::Opened(1, 9)),
            Step::Refuses(2),
            Step::Brings(Turn::Closed(1)),
            Step::Hears(0, SILENT),
            Step::Turns(Turn::Idle),
            Step::Hears(0, b""),
        ],
    },
    Scene {
        name: "a deaf peer stops nobody",
        address: b"127.0.0.1",
        limits: Limits {
            backlog: 65_536,
            ..LIMITS
        },
        steps: &[
            Step::Joins,
            Step::Brings(Turn::Opened(1, 9)),
            Step::Joins,
            Step::Brings(Turn::Opened(2, 9)),
            Step::Floods,
        ],
    },
    Scene {
        name: "a session that reads nothing isn't read and ends",
        address: b"127.0.0.1",
        limits: Limits {
            stall: 40,
            backlog: 16_777_216,
            ..LIMITS
        },
        steps: &[
            Step::Joins,
            Step::Brings(Turn::Opened(1, 9)),
            Step::SendsMuch,
            Step::Says(0, b"NOOP\r\n"),
            Step::Brings(Turn::Closed(1)),
        ],
    },
    Scene {
        name: "a farewell arrives where more was sent",
        address: b"127.0.0.1",
        limits: LIMITS,
        steps: &[
            Step::Joins,
            Step::Brings(Turn::Opened(1, 9)),
            Step::Says(0, b"EHLO c.example\r\n"),
            Step::Sends(1, b"421 4.3.2 Too many\r\n"),
            Step::HangsUp(1),
            Step::Hears(0, b"421 4.3.2 Too many\r\n"),
            Step::Turns(Turn::Idle),
            Step::Hears(0, b""),
            Step::Parts(1),
            Step::Leaves,
            Step::Turns(Turn::Idle),
            Step::Parts(0),
        ],
    },
    Scene {
        name: "at most so many sessions part",
        address: b"127.0.0.1",
        limits: Limits {
            parting: 1,
            ..LIMITS
        },
        steps: &[
            Step::Joins,
            Step::Brings(Turn::Opened(1, 9)),
            Step::HangsUp(1),
            Step::Turns(Turn::Idle),
            Step::Parts(1),
            Step::Joins,
            Step::Brings(Turn::Opened(2, 9)),
            Step::HangsUp(2),
            Step::Parts(1),
            Step::Turns(Turn::Stop),
        ],
    },
    Scene {
        name: "what waits at the end is written",
        address: b"127.0.0.1",
        limits: Limits {
            farewell: 40,
            ..LIMITS
        },
        steps: &[
            Step::Joins,
            Step::Brings(Turn::Opened(1, 9)),
            Step::Sends(1, b"220 ready\r\n"),
            Step::Finishes,
            Step::Hears(0, b"220 ready\r\n"),
            Step::Hears(0, b""),
        ],
    },
    Scene {
        name: "a turn is idle where sessions are busy",
        address: b"127.0.0.1",
        limits: Limits { busy: 1, ..LIMITS },
        steps: &[
            Step::Joins,
            Step::Brings(Turn::Opened(1, 9)),
            Step::Says(0, b"NOOP\r\n"),
            Step::Turns(Turn::Idle),
            Step::Brings(Turn::Piece(1, 6)),
        ],
    },
    Scene {
        name: "no descriptors end nothing",
        address: b"127.0.0.1",
        limits: Limits { rest: 1, ..LIMITS },
        steps: &[Step::Joins, Step::Starves, Step::Brings(Turn::Opened(1, 9))],
    },
    Scene {
        name: "a port in use is a fault",
        address: b"127.0.0.1",
        limits: LIMITS,
        steps: &[Step::Holds],
    },
];

// A floor that listens at some port of this machine.
fn listening(rt: &HostRuntime, scene: &Scene) -> Option<PortFloor> {
    let mut floor = not_begun(rt, scene.limits);
    let place = place(rt, scene.address, 0).ok()?;
    floor.begin(&place, 2).ok()?;
    Some(floor)
}

fn not_begun(rt: &HostRuntime, limits: Limits) -> PortFloor {
    SystemFloor::new(
        *rt,
        b"".as_slice(),
        Vec::new(rt.alloc()),
        None,
        limits,
        None,
    )
}

fn place(rt: &HostRuntime, address: &[u8], port: u16) -> Result<Place, NoMemory> {
    Ok(Place::Port {
        address: Text::of(rt.alloc(), address)?,
        port,
    })
}

// The first step of a scene that doesn't go so, if there is one.
fn wrong_step(rt: &HostRuntime, scene: &Scene) -> Option<usize> {
    let Some(mut floor) = listening(rt, scene) else {
        return Some(0);
    };
    let mut peers = Vec::new(rt.alloc());
    first_wrong(rt, &mut floor, &mut peers, scene.steps)
}

fn first_wrong(
    rt: &HostRuntime,
    floor: &mut PortFloor,
    peers: &mut Vec<TcpStream>,
    steps: &[Step],
) -> Option<usize> {
    for (place, step) in steps.iter().enumerate() {
        if !goes(rt, floor, peers, *step) {
            return Some(place);
        }
    }
    None
}

// Whether a step goes so.
fn goes(rt: &HostRuntime, floor: &mut PortFloor, peers: &mut Vec<TcpStream>, step: Step) -> bool {
    match step {
        Step::Joins => joins(rt, floor, peers).is_ok(),
        Step::Leaves => leaves(peers),
        Step::Says(peer, bytes) => says(peers, peer, bytes),
        Step::Hears(peer, bytes) => hears(peers, peer, bytes),
        Step::Brings(turn) => brings(floor, turn),
        Step::Turns(turn) => turns(floor, turn),
        Step::Starves => starves(rt, floor),
        Step::Sends(session, bytes) => sends(rt, floor, session, bytes),
        Step::Refuses(session) => !sends(rt, floor, session, b"220 ready\r\n"),
        Step::SendsMuch => sends_much(rt, floor),
        Step::Floods => floods(rt, floor, peers),
        Step::HangsUp(session) => {
            floor.hang_up(session);
            true
        }
        Step::Parts(count) => floor.parting() == count,
        Step::Finishes => {
            floor.finish();
            true
        }
        Step::Holds => holds(rt, floor),
    }
}

fn joins(rt: &HostRuntime, floor: &PortFloor, peers: &mut Vec<TcpStream>) -> io::Result<()> {
    let peer = TcpStream::connect(rt, ("127.0.0.1", floor.port()?))?;
    peers.push(peer)?;
    Ok(())
}

fn leaves(peers: &mut Vec<TcpStream>) -> bool {
    if peers.is_empty() {
        return false;
    }
    peers.remove(0);
    true
}

fn says(peers: &mut [TcpStream], peer: usize, bytes: &[u8]) -> bool {
    match peers.get_mut(peer) {
        Some(peer) => peer.write_all(bytes).is_ok(),
        None => false,
    }
}

fn hears(peers: &mut [TcpStream], peer: usize, bytes: &[u8]) -> bool {
    match peers.get_mut(peer) {
        Some(peer) => reads(peer, bytes),
        None => false,
    }
}

// Whether the next bytes that a reader gives are these.
pub(crate) fn reads(reader: &mut impl Read, wanted: &[u8]) -> bool {
    let mut buf = [0u8; 64];
    match reader.read(&mut buf) {
        Ok(count) => buf.get(..count) == Some(wanted),
        Err(_) => false,
    }
}

// Whether this is the next turn that isn't idle, or `Idle` where many are.
pub(crate) fn brings<R: Read, W: Write>(floor: &mut SystemFloor<'_, R, W>, wanted: Turn) -> bool {
    let mut buf = [0u8; 64];
    let turn = next(floor, &mut buf);
    turn == wanted && (!is_opening(turn) || buf.starts_with(b"127.0.0.1"))
}

fn is_opening(turn: Turn) -> bool {
    matches!(turn, Turn::Opened(_, _))
}

// The next turn that isn't idle; `Idle` where many were.
pub(crate) fn next<R: Read, W: Write>(floor: &mut SystemFloor<'_, R, W>, buf: &mut Buffer) -> Turn {
    for _ in 0..200u32 {
        match floor.turn(buf) {
            Ok(Turn::Idle) => {}
            Ok(turn) => return turn,
            Err(_) => return Turn::Idle,
        }
    }
    Turn::Idle
}

fn turns(floor: &mut PortFloor, wanted: Turn) -> bool {
    let mut buf = [0u8; 64];
    floor.turn(&mut buf) == Ok(wanted)
}

fn sends(rt: &HostRuntime, floor: &mut PortFloor, session: u64, bytes: &[u8]) -> bool {
    match Text::of(rt.alloc(), bytes) {
        Ok(bytes) => floor.send(session, &bytes).is_ok(),
        Err(NoMemory) => false,
    }
}

fn sends_much(rt: &HostRuntime, floor: &mut PortFloor) -> bool {
    match Vec::from_elem(rt.alloc(), b'x', 16_777_216) {
        Ok(bytes) => floor.send(1, &Text::from_vec(bytes)).is_ok(),
        Err(_) => false,
    }
}

// Whether a send to the first session fails at last, while the second is sent a text each time,
// which its peer reads.
fn floods(rt: &HostRuntime, floor: &mut PortFloor, peers: &mut [TcpStream]) -> bool {
    let much = [b'x'; 65_536];
    for _ in 0..2000u32 {
        if !sends(rt, floor, 1, &much) {
            return true;
        }
        if !sends(rt, floor, 2, b"250 ok\r\n") || !hears(peers, 1, b"250 ok\r\n") {
            return false;
        }
    }
    false
}

// Takes descriptors until there are none left.
fn take_all(taken: &mut Vec<i32>) -> bool {
    for _ in 0..2_000_000u32 {
        let copy = os::duplicate(0);
        if copy < 0 {
            return os::errno() == libc::EMFILE;
        }
        if taken.push(copy).is_err() {
            libc::close(copy);
            return false;
        }
    }
    false
}

// Whether a turn is idle while there are no descriptors left.
fn starves(rt: &HostRuntime, floor: &mut PortFloor) -> bool {
    let mut taken = Vec::new(rt.alloc());
    let all = take_all(&mut taken);
    let is_idle = turns(floor, Turn::Idle);
    for copy in &taken {
        libc::close(*copy);
    }
    all && is_idle
}

// Whether another floor fails, once, to begin at the port.
fn holds(rt: &HostRuntime, floor: &PortFloor) -> bool {
    let mut other = not_begun(rt, LIMITS);
    fails_beside(rt, floor, &mut other).is_some_and(|faults| faults == 1)
}

// The faults of a floor that doesn't begin at the port of another.
fn fails_beside(rt: &HostRuntime, floor: &PortFloor, other: &mut PortFloor) -> Option<u64> {
    let place = place(rt, b"127.0.0.1", floor.port().ok()?).ok()?;
    match other.begin(&place, 0) {
        Ok(()) => None,
        Err(_) => Some(other.faults()),
    }
}

#[test]
fn floors_at_a_port_go_as_their_scenes_say(rt: HostRuntime) {
    for scene in SCENES {
        assert_eq!(rt; wrong_step(&rt, scene), None, "{}", scene.name);
    }
}

/// Idle turns that wait, unless a delivery works.
const SLOW: Limits = Limits {
    wait: 200,
    ..LIMITS
};

// Whether a hundred idle turns, between which a delivery works, take a few seconds at most, and one
// for which a child lets it wait takes that long.
fn hastens(rt: &HostRuntime) -> io::Result<bool> {
    let motion = Motion::new(rt.alloc());
    let writer = Vec::new(rt.alloc());
    let mut floor = SystemFloor::new(*rt, b"".as_slice(), writer, None, SLOW, Some(&motion));
    let start = Instant::now(rt)?;
    let idle = begins(rt, &mut floor) && (0..100u32).all(|_| is_idle(&motion, &mut floor));
    let hasty = start.elapsed(rt)?.as_secs() < 10;
    let start = Instant::now(rt)?;
    motion.note_pause(100);
    let still = is_idle(&motion, &mut floor) && motion.has_floor();
    Ok(idle && hasty && still && start.elapsed(rt)?.as_millis() >= 100)
}

fn begins(rt: &HostRuntime, floor: &mut SystemFloor<'_, &[u8], Vec<u8>>) -> bool {
    match place(rt, b"127.0.0.1", 0) {
        Ok(place) => floor.begin(&place, 0).is_ok(),
        Err(NoMemory) => false,
    }
}

// Whether a turn is idle behind a delivery that worked.
fn is_idle(motion: &Motion, floor: &mut SystemFloor<'_, &[u8], Vec<u8>>) -> bool {
    motion.note_work();
    floor.turn(&mut [0u8; 64]) == Ok(Turn::Idle) && !motion.take_move()
}

#[test]
fn a_floor_does_not_wait_while_deliveries_work(rt: HostRuntime) -> Result<(), Fail> {
    assert!(rt; hastens(&rt)?);
    Ok(())
}

#[test]
fn the_clock_tells_this_century(rt: HostRuntime) {
    let mut clock = SystemClock::new(rt);
    let first = clock.now();
    assert!(rt; first > 1_767_225_600 && first < 32_503_680_000);
    assert!(rt; clock.now() >= first);
}
