use crate::times::lowest;
use delivery_devices::{PATIENCE, Patience, SystemDialer};
use link_edge::{Dialer, Peer};
use mail_base::{Failed, NoMemory, Text};
use shared_devices::Motion;
use std::alloc::Global;
use std::io::{ErrorKind, Read, Write};
use std::net::{Shutdown, TcpListener, TcpStream};
use std::os::fd::{AsRawFd, OwnedFd};
use std::os::unix::net::UnixListener;
use std::test::Fail;
use std::time::Instant;
use std::{fs, io, process};

/// The path of the peer's socket, where it has one.
const PATH: &str = "/tmp/sendmail-lines-of-a-test";

/// Where a peer listens.
#[derive(Clone, Copy)]
enum At {
    Four,
    Six,
    Path,
}

/// A listener of a peer.
#[derive(Drop)]
enum Far {
    Host(TcpListener),
    Path(UnixListener, String),
}

impl Far {
    fn listen(rt: &HostRuntime, at: At) -> io::Result<Far> {
        match at {
            At::Four => Ok(Far::Host(TcpListener::bind(rt, ("127.0.0.1", 0))?)),
            // A machine may have no addresses of that kind.
            At::Six => match TcpListener::bind(rt, ("::1", 0)) {
                Ok(listener) => Ok(Far::Host(listener)),
                Err(_) => Ok(Far::Host(TcpListener::bind(rt, ("127.0.0.1", 0))?)),
            },
            At::Path => match Far::listen_at(rt, format!(in rt.alloc(); "{PATH}")?) {
                Ok(far) => Ok(far),
                // Another user's lies there.
                Err(_) => {
                    let number = process::id(rt.process());
                    Far::listen_at(rt, format!(in rt.alloc(); "{PATH}-{number}")?)
                }
            },
        }
    }

    fn listen_at(rt: &HostRuntime, path: String) -> io::Result<Far> {
        // One that an earlier run left.
        let _ = fs::remove_file(rt, path.as_str());
        Ok(Far::Path(UnixListener::bind(rt, path.as_str())?, path))
    }

    fn descriptor(&self) -> i32 {
        match self {
            Far::Host(listener) => listener.as_raw_fd(),
            Far::Path(listener, _) => listener.as_raw_fd(),
        }
    }

    fn peer(&self, alloc: Global) -> io::Result<Peer> {
        match self {
            Far::Host(listener) => {
                let address = listener.local_addr()?;
                let text = format!(in alloc; "{}", address.ip())?;
                Ok(host(alloc, text.as_bytes(), address.port())?)
            }
            Far::Path(_, path) => Ok(Peer::Path(text_of(alloc, path.as_bytes())?)),
        }
    }

    fn accept(&self) -> io::Result<TcpStream> {
        match self {
            Far::Host(listener) => Ok(listener.accept()?.0),
            Far::Path(listener, _) => Ok(TcpStream::from(OwnedFd::from(listener.accept()?.0))),
        }
    }
}

fn text_of(alloc: Global, bytes: &[u8]) -> io::Result<Text> {
    Text::of(alloc, bytes).map_err(|_| io::Error::from(ErrorKind::OutOfMemory))
}

fn host(alloc: Global, address: &[u8], port: u16) -> io::Result<Peer> {
    Ok(Peer::Host {
        address: text_of(alloc, address)?,
        port,
    })
}

/// What is done on a line and by its peer, or has to come next.
#[derive(Clone, Copy)]
enum Step {
    /// The peer sends bytes.
    Says(&'static [u8]),
    /// These bytes are read next; none are the end.
    Reads(&'static [u8]),
    /// A read fails, after so many milliseconds at least.
    Stalls(u128),
    /// Bytes are written.
    Writes(&'static [u8]),
    /// These bytes are what the peer reads next; none are the end.
    Hears(&'static [u8]),
    /// Bytes can't be written.
    Refuses,
    /// 16 megabytes can't be written, since the peer reads nothing.
    Floods,
    /// The peer ends the line.
    Leaves,
    /// The line is closed.
    Closes,
}

/// How a line goes, step by step.
#[derive(Clone, Copy)]
struct Scene {
    name: &'static str,
    at: At,
    patience: Patience,
    steps: &'static [Step],
}

/// Times of a peer that says nothing.
const SHORT: Patience = Patience {
    dial: 2000,
    reply: 40,
    text: 120,
    whole: 10_000,
};

const SCENES: &[Scene] = &[
    Scene {
        name: "a dialogue over IPv4",
        at: At::Four,
        patience: PATIENCE,
        steps: &[
            Step::Says(b"220 ready\r\n"),
            Step::Reads(b"220 read"),
            Step::Reads(b"y\r\n"),
            Step::Writes(b"QUIT\r\n"),
            Step::Hears(b"QUIT\r\n"),
            Step::Leaves,
            Step::Reads(b""),
            Step::Closes,
        ],
    },
    Scene {
        name: "a line over IPv6 is closed",
        at: At::Six,
        patience: PATIENCE,
        steps: &[
            Step::Writes(b"EHLO a\r\n"),
            Step::Hears(b"EHLO a\r\n"),
            Step::Closes,
            Step::Hears(b""),
        ],
    },
    Scene {
        name: "a line to a socket of this machine",
        at: At::Path,
        patience: PATIENCE,
        steps: &[
            Step::Says(b"220 me\r\n"),
            Step::Reads(b"220 me\r\n"),
            Step::Writes(b"LHLO a\r\n"),
            Step::Hears(b"LHLO a\r\n"),
            Step::Closes,
            Step::Hears(b""),
        ],
    },
    Scene {
        name: "a silent peer has less time than one that got a text",
        at: At::Four,
        patience: SHORT,
        steps: &[
            Step::Stalls(40),
            Step::Writes(b"hello\r\n..\r\n"),
            Step::Stalls(40),
            Step::Writes(b"hello\r\n.\r\n"),
            Step::Stalls(120),
            Step::Writes(b".\r\n"),
            Step::Stalls(120),
            Step::Closes,
        ],
    },
    Scene {
        name: "the whole dialogue has its time too",
        at: At::Path,
        patience: Patience {
            whole: 50,
            ..PATIENCE
        },
        steps: &[
            Step::Stalls(40),
            Step::Says(b"220 late\r\n"),
            Step::Stalls(0),
            Step::Refuses,
            Step::Closes,
        ],
    },
    Scene {
        name: "a deaf peer",
        at: At::Six,
        patience: SHORT,
        steps: &[Step::Floods, Step::Closes],
    },
];

/// A dialer with a line, and its peer's end.
struct Both<'a> {
    rt: HostRuntime,
    dialer: SystemDialer<'a>,
    line: u64,
    peer: TcpStream,
}

impl Drop for Both<'_> {
    fn drop(self) {
        let Both {
            rt: _,
            dialer: _,
            line: _,
            peer: _,
        } = self;
    }
}

impl Both<'_> {
    // Whether a step goes so.
    fn goes(&mut self, step: Step) -> bool {
        match step {
            Step::Says(bytes) => self.peer.write_all(bytes).is_ok(),
            Step::Reads(bytes) => self.reads(bytes),
            Step::Stalls(least) => self.stalls(least).unwrap_or(false),
            Step::Writes(bytes) => self.writes(bytes) == Ok(true),
            Step::Hears(bytes) => self.hears(bytes),
            Step::Refuses => self.writes(b"QUIT\r\n") == Ok(false),
            Step::Floods => self.floods() == Ok(true),
            Step::Leaves => self.peer.shutdown(Shutdown::Write).is_ok(),
            Step::Closes => {
                self.dialer.close(self.line);
                self.dialer.open() == 0
            }
        }
    }

    // Whether these are the next bytes, of which a buffer takes eight.
    fn reads(&mut self, wanted: &[u8]) -> bool {
        let mut buf = [0u8; 8];
        match self.dialer.read(self.line, &mut buf) {
            Ok(count) => buf.get(..count) == Some(wanted),
            Err(Failed) => false,
        }
    }

    fn stalls(&mut self, least: u128) -> io::Result<bool> {
        let start = Instant::now(&self.rt)?;
        let failed = self.dialer.read(self.line, &mut [0u8; 8]).is_err();
        Ok(failed && start.elapsed(&self.rt)?.as_millis() >= least)
    }

    fn writes(&mut self, bytes: &[u8]) -> Result<bool, NoMemory> {
        let bytes = Text::of(self.rt.alloc(), bytes)?;
        Ok(self.dialer.write(self.line, &bytes).is_ok())
    }

    fn hears(&mut self, wanted: &[u8]) -> bool {
        let mut buf = [0u8; 64];
        match self.peer.read(&mut buf) {
            Ok(count) => buf.get(..count) == Some(wanted),
            Err(_) => false,
        }
    }

    fn floods(&mut self) -> Result<bool, NoMemory> {
        let much = Text::from_vec(Vec::from_elem(self.rt.alloc(), b'x', 16_777_216)?);
        Ok(self.dialer.write(self.line, &much) == Err(Failed))
    }
}

// A dialer with a line to a peer that listens there.
fn dialled<'a>(
    rt: &HostRuntime,
    motion: &'a Motion,
    far: &Far,
    patience: Patience,
) -> io::Result<Both<'a>> {
    let peer = far.peer(rt.alloc())?;
    let mut dialer = SystemDialer::new(*rt, motion, patience);
    let line = dial(&mut dialer, &peer)?;
    Ok(Both {
        rt: *rt,
        dialer,
        line,
        peer: far.accept()?,
    })
}

fn dial(dialer: &mut SystemDialer<'_>, peer: &Peer) -> io::Result<u64> {
    dialer
        .dial(peer)
        .map_err(|_| io::Error::from(ErrorKind::NotConnected))
}

// The first step of a scene that doesn't go so, if there is one.
fn wrong_step(rt: &HostRuntime, scene: &Scene) -> io::Result<Option<usize>> {
    let motion = Motion::new(rt.alloc());
    let far = Far::listen(rt, scene.at)?;
    let mut both = dialled(rt, &motion, &far, scene.patience)?;
    Ok(first_wrong(&mut both, scene.steps))
}

fn first_wrong(both: &mut Both<'_>, steps: &[Step]) -> Option<usize> {
    for (place, step) in steps.iter().enumerate() {
        if !both.goes(*step) {
            return Some(place);
        }
    }
    None
}

#[test]
fn lines_go_as_their_scenes_say(rt: HostRuntime) -> Result<(), Fail> {
    for scene in SCENES {
        assert_eq!(rt; wrong_step(&rt, scene)?, None, "{}", scene.name);
    }
    Ok(())
}

/// Addresses of nobody.
const NOBODY: &[&[u8]] = &[
    b"",
    b"localhost",
    b"127.0.0.1\0",
    b"IPv6:",
    b"IPv6:127.0.0.\xff",
];

// Whether a dial fails.
fn fails(rt: &HostRuntime, peer: &Peer) -> bool {
    let motion = Motion::new(rt.alloc());
    SystemDialer::new(*rt, &motion, SHORT).dial(peer) == Err(Failed)
}

// A port at which nobody listens.
fn closed(rt: &HostRuntime) -> io::Result<u16> {
    let listener = TcpListener::bind(rt, ("127.0.0.1", 0))?;
    Ok(listener.local_addr()?.port())
}

#[test]
fn nobody_answers(rt: HostRuntime) -> Result<(), Fail> {
    let port = closed(&rt)?;
    for address in NOBODY {
        assert!(rt; fails(&rt, &host(rt.alloc(), address, port)?));
    }
    assert!(rt; fails(&rt, &host(rt.alloc(), b"127.0.0.1", port)?));
    assert!(rt; fails(&rt, &host(rt.alloc(), b"ipv6:::1", port)?));
    for path in [
        b"".as_slice(),
        b"/nowhere/socket",
        b"/tmp/a\0b",
        &[b'x'; 108],
    ] {
        assert!(rt; fails(&rt, &Peer::Path(text_of(rt.alloc(), path)?)));
    }
    Ok(())
}

// Whether a dial fails at last where a peer lets nobody in.
fn is_crowded(rt: &HostRuntime, at: At) -> io::Result<bool> {
    let motion = Motion::new(rt.alloc());
    let far = Far::listen(rt, at)?;
    libc::net::listen(far.descriptor(), 0);
    let peer = far.peer(rt.alloc())?;
    let patience = Patience { dial: 40, ..SHORT };
    let mut dialer = SystemDialer::new(*rt, &motion, patience);
    Ok((0..8u32).any(|_| dialer.dial(&peer).is_err()))
}

#[test]
fn a_dial_has_its_time(rt: HostRuntime) -> Result<(), Fail> {
    assert!(rt; is_crowded(&rt, At::Four)?);
    assert!(rt; is_crowded(&rt, At::Path)?);
    Ok(())
}

/// How many lines there are in all.
const MANY: u32 = 2000;

// Whether a line goes and is closed.
fn goes_once(both: &mut Both<'_>) -> bool {
    first_wrong(
        both,
        &[
            Step::Says(b"220 ok\r\n"),
            Step::Reads(b"220 ok\r\n"),
            Step::Writes(b"QUIT\r\n"),
            Step::Hears(b"QUIT\r\n"),
            Step::Closes,
        ],
    )
    .is_none()
}

// Whether many lines go, one after another.
fn many_go(rt: &HostRuntime, at: At) -> io::Result<bool> {
    let motion = Motion::new(rt.alloc());
    let far = Far::listen(rt, at)?;
    let peer = far.peer(rt.alloc())?;
    let mut both = dialled(rt, &motion, &far, PATIENCE)?;
    let mut go = goes_once(&mut both);
    for _ in 1..MANY {
        both.line = dial(&mut both.dialer, &peer)?;
        both.peer = far.accept()?;
        go &= goes_once(&mut both);
    }
    Ok(go)
}

#[test]
fn two_thousand_lines_leave_nothing(rt: HostRuntime) -> Result<(), Fail> {
    let before = lowest(&rt)?;
    assert!(rt; many_go(&rt, At::Four)?);
    assert!(rt; many_go(&rt, At::Path)?);
    assert_eq!(rt; lowest(&rt)?, before);
    Ok(())
}
