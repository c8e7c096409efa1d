// A socket to a peer, with the bytes that wait to go out.
ghost use Rattle.std.specs.Prelude.{◌≡◌, ◌<◌, ◌≤◌, IfOk, IfSome, length};

use libc::net::{POLLIN, POLLOUT};
use mail_base::Failed;
use std::alloc::Global;
use std::io::{ErrorKind, Read, Write};
use std::net::{Shutdown, TcpStream};
use std::os::fd::AsRawFd;

/// A socket that never waits. Times are milliseconds of one clock.
#[derive(Drop)]
pub struct Link {
    stream: TcpStream,
    waiting: Vec<u8>,
    /// Whether they wait for the disk.
    is_held: bool,
    /// When a byte last came or went, or the first of those that wait was put there.
    moved: u64,
}

impl Link {
    pub fn new(alloc: Global, stream: TcpStream, now: u64) -> Result<Link, Failed> {
        if stream.set_nonblocking(true).is_err() || stream.set_nodelay(true).is_err() {
            return Err(Failed);
        }
        Ok(Link {
            stream,
            waiting: Vec::new(alloc),
            is_held: false,
            moved: now,
        })
    }

    /// Its descriptor, or -1 while its bytes wait for the disk: then nothing is asked of it.
    pub fn descriptor(&self) -> i32 {
        if self.is_held {
            -1
        } else {
            self.stream.as_raw_fd()
        }
    }

    /// Whether bytes wait for the disk.
    pub fn is_held(&self) -> bool {
        self.is_held
    }

    /// Whether bytes wait to go out.
    pub fn is_waiting(&self) -> bool {
        !self.waiting.is_empty()
    }

    /// What to wait for: while bytes wait to go out nothing is read.
    pub fn events(&self) -> i16 {
        if self.is_waiting() { POLLOUT } else { POLLIN }
    }

    /// How long nothing has moved.
    pub fn stillness(&self, now: u64) -> u64 {
        now.saturating_sub(self.moved)
    }

    /// Sends bytes behind those that wait, as many as go now. The others wait, or it fails where
    /// more than so many would.
    pub fn send(&mut self, bytes: &[u8], now: u64, most: usize) -> Result<(), Failed> {
        if self.is_waiting() || self.is_held {
            self.keep(bytes, most)?;
            return self.flush(now);
        }
        self.moved = now;
        let count = write_some(&mut self.stream, bytes)?;
        self.keep(bytes.get(count..).unwrap_or(&[]), most)
    }

    /// Puts bytes behind those that wait, and all of them wait for the disk; or it fails where more
    /// than so many would.
    pub fn hold(&mut self, bytes: &[u8], most: usize) -> Result<(), Failed> {
        self.is_held = true;
        self.keep(bytes, most)
    }

    /// All is on the disk that its bytes waited for. It says whether they did.
    pub fn release(&mut self) -> bool {
        let was_held = self.is_held;
        self.is_held = false;
        was_held
    }

    // Puts bytes behind those that wait.
    fn keep(&mut self, bytes: &[u8], most: usize) -> Result<(), Failed> {
        if bytes.len() > most.saturating_sub(self.waiting.len()) {
            return Err(Failed);
        }
        self.waiting.extend_from_slice(bytes).map_err(|_| Failed)
    }

    /// Writes as many of the bytes that wait as go now: none while they wait for the disk.
    pub fn flush(&mut self, now: u64) -> Result<(), Failed> {
        if self.is_held {
            return Ok(());
        }
        let count = write_some(&mut self.stream, &self.waiting)?;
        let count = count.min(self.waiting.len());
        if count > 0 {
            self.waiting.drain(..count);
            self.moved = now;
        }
        Ok(())
    }

    /// Puts what came at the front of a buffer; `None` where nothing is there, and a failure where
    /// nothing comes any more.
    pub fn read(&mut self, buf: &mut [u8], now: u64) -> Result<Option<usize>, Failed>
        ensures room { length buf.new ≡ length buf.old }
        ensures some { IfOk result (λ count. IfSome count (λ count.
            (0 < count) × (count ≤ length buf.new))) }
    {
        match self.stream.read(buf) {
            Ok(count) if count > 0 => {
                self.moved = now;
                Ok(Some(count))
            }
            Err(error) if is_passing(error.kind()) => Ok(None),
            _ => Err(Failed),
        }
    }

    /// Tells the peer that nothing more comes.
    pub fn finish(&self) -> Result<(), Failed> {
        self.stream.shutdown(Shutdown::Write).map_err(|_| Failed)
    }
}

// Writes as many bytes as go now.
fn write_some(stream: &mut TcpStream, bytes: &[u8]) -> Result<usize, Failed> {
    let mut gone: usize = 0;
    for _ in 0..u64::MAX {
        let rest = bytes.get(gone..).unwrap_or(&[]);
        if rest.is_empty() {
            break;
        }
        match stream.write(rest) {
            Ok(0) => return Err(Failed),
            Ok(count) => gone = gone.saturating_add(count),
            Err(error) if error.kind() == ErrorKind::Interrupted => {}
            Err(error) if error.kind() == ErrorKind::WouldBlock => break,
            Err(_) => return Err(Failed),
        }
    }
    Ok(gone)
}

// Whether a later call may go well.
fn is_passing(kind: ErrorKind) -> bool {
    matches!(kind, ErrorKind::WouldBlock | ErrorKind::Interrupted)
}
