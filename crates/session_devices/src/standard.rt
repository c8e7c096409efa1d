// One session on a reader and a writer.
ghost use Rattle.std.specs.Prelude.{◌≤◌, IfOk, length};
ghost use Rattle.link_edge.specs.Turns.{Fits};

use crate::peer::{peer_of, put_peer};
use crate::port::SILENT;
use crate::stream::{InputStream, OutputStream};
use crate::waiting::{asking, is_ready};
use libc::net::{POLLIN, POLLOUT};
use link_edge::{Floor, OneFloor, Stage, Turn};
use mail_base::{Failed, Text};
use mail_edge::Sink;
use std::io::{Read, Write};
use std::net::IpAddr;
use std::os::fd::{AsFd, AsRawFd};

/// The descriptors of a reader and a writer, and the peer where they are a socket.
#[derive(Clone, Copy)]
pub struct Wires {
    input: i32,
    output: i32,
    peer: Result<Option<IpAddr>, Failed>,
}

impl Wires {
    /// Those of a reader and a writer that are open.
    pub fn of<I: AsFd + AsRawFd, O: AsRawFd>(input: &I, output: &O) -> Wires {
        Wires {
            input: input.as_raw_fd(),
            output: output.as_raw_fd(),
            peer: peer_of(input),
        }
    }
}

/// One session on a reader and a writer. Where these have descriptors, the session ends when
/// nothing came for so many milliseconds.
pub struct Standard<R, W> {
    one: OneFloor<InputStream<R>, OutputStream<W>>,
    wires: Option<Wires>,
    silence: i32,
}

// Written out, since a caller's proof goes through the parts of a derived drop at each way out.
impl<R: Drop, W: Drop> Drop for Standard<R, W> {
    fn drop(self) {
        let Standard {
            one: _,
            wires: _,
            silence: _,
        } = self;
    }
}

impl<R: Read, W: Write> Standard<R, W> {
    pub fn new(reader: R, writer: W, wires: Option<Wires>, silence: u64) -> Standard<R, W> {
        Standard {
            one: OneFloor::new(InputStream::new(reader), OutputStream::new(writer)),
            wires,
            silence: i32::try_from(silence).unwrap_or(i32::MAX),
        }
    }

    /// Fails where the peer can't be told.
    pub fn begin(&self) -> Result<(), Failed> {
        match self.wires {
            Some(wires) => wires.peer.map(|_| ()),
            None => Ok(()),
        }
    }

    /// Waits for what comes, for so long as a session may be silent.
    pub fn turn(&mut self, buf: &mut [u8]) -> Result<Turn, Failed>
        requires { 64 ≤ length buf.old }
        ensures { IfOk result (λ turn. Fits turn buf.new) }
    {
        let Some(wires) = self.wires else {
            return self.one.turn(buf);
        };
        if self.one.stage == Stage::During && self.is_silent(wires)? {
            self.end(wires);
            return Ok(Turn::Closed(1));
        }
        match self.one.turn(buf) {
            Ok(Turn::Opened(session, _)) => {
                let peer = wires.peer.unwrap_or(None);
                Ok(Turn::Opened(session, put_peer(peer, buf)))
            }
            answer => answer,
        }
    }

    pub fn send(&mut self, session: u64, bytes: &Text) -> Result<(), Failed> {
        self.one.send(session, bytes)
    }

    pub fn hang_up(&mut self, session: u64) {
        self.one.hang_up(session);
    }

    // Whether nothing comes for too long.
    fn is_silent(&self, wires: Wires) -> Result<bool, Failed> {
        Ok(!is_ready(&mut [asking(wires.input, POLLIN)], self.silence)?)
    }

    // Ends the session. It is told why, where that can be written at once.
    fn end(&mut self, wires: Wires) {
        if is_ready(&mut [asking(wires.output, POLLOUT)], 0) == Ok(true) {
            // Nobody can be told that this one line doesn't arrive.
            let _ = self.one.sink.give(SILENT);
        }
        self.one.hang_up(1);
    }
}
