use crate::floors::{SILENT, brings, next, reads};
use link_edge::{Floor, Place, Turn};
use mail_base::{NoMemory, Text};
use session_devices::{LIMITS, Limits, SystemFloor, Wires};
use std::io;
use std::io::{Read, Write};
use std::net::{TcpListener, TcpStream};
use std::test::Fail;

/// A session over pipes, and how it goes.
#[derive(Clone, Copy)]
struct Talk {
    said: &'static [u8],
    /// Whether the peer stays when it has said all.
    stays: bool,
    silence: u64,
    /// The turns that aren't idle. Each piece is replied to.
    turns: &'static [Turn],
    heard: &'static [u8],
}

const TALKS: &[Talk] = &[
    // One session is all that there is.
    Talk {
        said: b"QUIT\r\n",
        stays: false,
        silence: LIMITS.silence,
        turns: &[
            Turn::Opened(1, 0),
            Turn::Piece(1, 6),
            Turn::Closed(1),
            Turn::Stop,
        ],
        heard: b"221",
    },
    // One that is silent is ended.
    Talk {
        said: b"",
        stays: true,
        silence: 20,
        turns: &[Turn::Opened(1, 0), Turn::Closed(1), Turn::Stop],
        heard: SILENT,
    },
];

// Whether a session goes so.
fn is_held(rt: &HostRuntime, talk: &Talk) -> io::Result<bool> {
    let (reader, mut far_writer) = io::pipe(rt)?;
    let (mut far_reader, writer) = io::pipe(rt)?;
    far_writer.write_all(talk.said)?;
    let far = talk.stays.then_some(far_writer);
    let wires = Wires::of(&reader, &writer);
    let limits = Limits {
        silence: talk.silence,
        ..LIMITS
    };
    let mut floor = SystemFloor::new(*rt, reader, writer, Some(wires), limits, None);
    let goes = follows(rt, &mut floor, talk.turns) && reads(&mut far_reader, talk.heard);
    drop(far);
    Ok(goes)
}

// Whether these are the turns of standard input and output that aren't idle.
fn follows<R: Read, W: Write>(
    rt: &HostRuntime,
    floor: &mut SystemFloor<'_, R, W>,
    turns: &[Turn],
) -> bool {
    if floor.begin(&Place::Standard, 1).is_err() {
        return false;
    }
    for wanted in turns {
        let mut buf = [0u8; 64];
        if next(floor, &mut buf) != *wanted || !replies(rt, floor, *wanted) {
            return false;
        }
    }
    true
}

// Replies to a piece, and says whether that went.
fn replies<R: Read, W: Write>(
    rt: &HostRuntime,
    floor: &mut SystemFloor<'_, R, W>,
    turn: Turn,
) -> bool {
    let Turn::Piece(session, _) = turn else {
        return true;
    };
    match Text::of(rt.alloc(), b"221") {
        Ok(reply) => floor.send(session, &reply).is_ok(),
        Err(NoMemory) => false,
    }
}

#[test]
fn sessions_over_pipes_go_as_their_rows_say(rt: HostRuntime) -> Result<(), Fail> {
    for talk in TALKS {
        assert!(rt; is_held(&rt, talk)?);
    }
    Ok(())
}

// Whether a session on a socket tells its peer.
fn tells_peer(rt: &HostRuntime) -> io::Result<bool> {
    let listener = TcpListener::bind(rt, ("127.0.0.1", 0))?;
    let far = TcpStream::connect(rt, ("127.0.0.1", listener.local_addr()?.port()))?;
    let (near, _) = listener.accept()?;
    let tells = opens(rt, &near);
    drop(far);
    Ok(tells)
}

fn opens(rt: &HostRuntime, near: &TcpStream) -> bool {
    let wires = Wires::of(near, near);
    let mut floor = SystemFloor::new(*rt, near, near, Some(wires), LIMITS, None);
    brings(&mut floor, Turn::Opened(1, 9))
}

#[test]
fn standard_tells_the_peer_of_a_socket(rt: HostRuntime) -> Result<(), Fail> {
    assert!(rt; tells_peer(&rt)?);
    Ok(())
}
