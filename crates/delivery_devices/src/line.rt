// One line to a peer, and its times.
ghost use Rattle.std.specs.Prelude.{◌≡◌, ◌≤◌, IfOk, length};

use crate::patience::Patience;
use libc::net::{POLLIN, POLLOUT};
use libc::types::pollfd;
use mail_base::Failed;
use std::io;
use std::io::{ErrorKind, Read, Write};
use std::net::{IpAddr, Net, SocketAddr, TcpStream};
use std::os::fd::AsRawFd;
use std::time::{Duration, Instant};

/// The most bytes of the path of a Unix socket, and where it stands in an address.
const LONGEST_PATH: usize = 107;

const PATH_AT: usize = 2;

/// How a text's last write ends: the line of a single dot.
const LAST_LINE: &[u8] = b".\r\n";

/// A socket that never waits by itself, of the internet or of this machine.
#[derive(Drop)]
pub struct Line {
    // A socket is read and written in the same way whatever its family is.
    stream: TcpStream,
    patience: Patience,
    start: Instant,
    /// How long the peer may now take, in milliseconds.
    turn: u64,
}

impl Line {
    /// Dials a port of an address of version 4 or 6, which may have the tag `IPv6:`.
    pub fn to_host(
        rt: &HostRuntime,
        address: &[u8],
        port: u16,
        patience: Patience,
    ) -> io::Result<Line> {
        let start = Instant::now(rt)?;
        let address = SocketAddr::new(address_of(address)?, port);
        let most = Duration::from_millis(patience.dial);
        let stream = TcpStream::connect_timeout(rt, &address, most)?;
        stream.set_nodelay(true)?;
        Line::of(stream, patience, start)
    }

    /// Dials a Unix socket.
    pub fn to_path(rt: &HostRuntime, path: &[u8], patience: Patience) -> io::Result<Line> {
        let start = Instant::now(rt)?;
        let stream = TcpStream::from(rt.unix_socket()?);
        // This bounds the dial too, which waits where many others do.
        stream.set_write_timeout(Some(Duration::from_millis(patience.dial)))?;
        connect(&stream, path)?;
        Line::of(stream, patience, start)
    }

    fn of(stream: TcpStream, patience: Patience, start: Instant) -> io::Result<Line> {
        stream.set_nonblocking(true)?;
        Ok(Line {
            stream,
            patience,
            start,
            turn: patience.reply,
        })
    }

    /// Puts what comes at the front of a buffer; 0 at the line's end.
    pub fn read(&mut self, rt: &HostRuntime, buf: &mut [u8]) -> io::Result<usize>
        ensures room { length buf.new ≡ length buf.old }
        ensures count { IfOk result (λ count. count ≤ length buf.new) }
    {
        let until = self.until(rt)?;
        for _ in 0..u64::MAX {
            match self.stream.read(buf) {
                Err(error) if is_passing(error.kind()) => self.wait(rt, POLLIN, until)?,
                answer => return answer,
            }
        }
        Err(io::Error::from(ErrorKind::TimedOut))
    }

    /// Writes all of the bytes, in as many pieces as the peer takes them.
    pub fn write(&mut self, rt: &HostRuntime, bytes: &[u8]) -> io::Result<()> {
        self.turn = self.patience.reply;
        let mut rest = bytes;
        for _ in 0..u64::MAX {
            if rest.is_empty() {
                self.turn = turn_behind(bytes, self.patience);
                return Ok(());
            }
            let count = self.write_some(rt, rest)?;
            rest = rest.get(count..).unwrap_or(&[]);
        }
        Err(io::Error::from(ErrorKind::TimedOut))
    }

    // Writes some of the bytes, of which there is one at least.
    fn write_some(&mut self, rt: &HostRuntime, bytes: &[u8]) -> io::Result<usize> {
        let until = self.until(rt)?;
        for _ in 0..u64::MAX {
            match self.stream.write(bytes) {
                Ok(0) => return Err(io::Error::from(ErrorKind::WriteZero)),
                Err(error) if is_passing(error.kind()) => self.wait(rt, POLLOUT, until)?,
                answer => return answer,
            }
        }
        Err(io::Error::from(ErrorKind::TimedOut))
    }

    // When the peer's turn is over, or the whole dialogue, in milliseconds since the dial; it fails
    // where the dialogue is over now.
    fn until(&self, rt: &HostRuntime) -> io::Result<u64> {
        let now = millis_since(rt, self.start)?;
        if now >= self.patience.whole {
            return Err(io::Error::from(ErrorKind::TimedOut));
        }
        Ok(now.saturating_add(self.turn).min(self.patience.whole))
    }

    // Waits until the line can be read or written; it fails where the time is over.
    fn wait(&self, rt: &HostRuntime, events: i16, until: u64) -> io::Result<()> {
        for _ in 0..u64::MAX {
            let left = until.saturating_sub(millis_since(rt, self.start)?);
            if left == 0 {
                break;
            }
            let mut asked = [pollfd {
                fd: self.stream.as_raw_fd(),
                events,
                revents: 0,
            }];
            let left = i32::try_from(left).unwrap_or(i32::MAX);
            let count = libc::net::poll(&mut asked, left);
            if count > 0 {
                return Ok(());
            }
            if count < 0 && os::errno() != libc::EINTR {
                return Err(io::Error::from_raw_os_error(os::errno()));
            }
        }
        Err(io::Error::from(ErrorKind::TimedOut))
    }
}

// How long the peer may take behind a write: longer where it ended a message's text.
fn turn_behind(bytes: &[u8], patience: Patience) -> u64 {
    let ends = match bytes.strip_suffix(LAST_LINE) {
        Some(before) => before.is_empty() || before.ends_with(b"\r\n"),
        None => false,
    };
    if ends { patience.text } else { patience.reply }
}

// An address of the internet.
fn address_of(address: &[u8]) -> io::Result<IpAddr> {
    let untagged = match address.split_at_checked(5) {
        Some((tag, rest)) if tag.eq_ignore_ascii_case(b"IPv6:") => rest,
        _ => address,
    };
    let text = str::from_utf8(untagged).map_err(|_| io::Error::from(ErrorKind::InvalidInput))?;
    text.parse::<IpAddr>()
        .map_err(|_| io::Error::from(ErrorKind::InvalidInput))
}

// Connects a socket to the Unix socket of that path.
fn connect(stream: &TcpStream, path: &[u8]) -> io::Result<()> {
    if path.is_empty() || path.len() > LONGEST_PATH || path.contains(&0) {
        return Err(io::Error::from(ErrorKind::InvalidInput));
    }
    let mut address = [0u8; libc::net::_SS_SIZE];
    let [first, second] = family().to_ne_bytes();
    address[0] = first;
    address[1] = second;
    address[PATH_AT..PATH_AT + path.len()].copy_from_slice(path);
    let length = u32::try_from(PATH_AT + path.len() + 1).unwrap_or(0);
    for _ in 0..u64::MAX {
        if unsafe { libc::net::connect(stream.as_raw_fd(), &address, length) } == 0 {
            return Ok(());
        }
        match os::errno() {
            libc::EISCONN => return Ok(()),
            libc::EINTR => {}
            error => return Err(io::Error::from_raw_os_error(error)),
        }
    }
    Err(io::Error::from(ErrorKind::TimedOut))
}

// The family of Unix sockets, as an address begins with it.
fn family() -> u16 {
    u16::try_from(libc::net::AF_UNIX).unwrap_or(0)
}

// Whether a later call may go well.
fn is_passing(kind: ErrorKind) -> bool {
    matches!(kind, ErrorKind::WouldBlock | ErrorKind::Interrupted)
}

fn millis_since(rt: &HostRuntime, start: Instant) -> io::Result<u64> {
    Ok(u64::try_from(start.elapsed(rt)?.as_millis()).unwrap_or(u64::MAX))
}
