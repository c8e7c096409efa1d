// Lines to peers. They tell nothing but how often they failed.
ghost use Rattle.std.specs.Prelude.{◌≡◌, ◌≤◌, None, IfOk, length};

use crate::line::Line;
use crate::patience::Patience;
use link_edge::{Dialer, Peer};
use mail_base::{Failed, Text};
use shared_devices::{Motion, counted};
use std::io;
use std::io::ErrorKind;

/// A line that wasn't closed.
#[derive(Drop)]
struct Open {
    number: u64,
    line: Line,
}

/// Lines to peers over sockets of the internet and of this machine, each with its times. A peer
/// that takes longer is a failure of the call, and so is an address that isn't one. What was changed
/// in the queue is on the disk before a dial and before anything is written.
pub struct SystemDialer<'a> {
    rt: HostRuntime,
    motion: &'a Motion,
    patience: Patience,
    lines: Vec<Open>,
    /// How many dials went well.
    dialled: u64,
    faults: u64,
}

// Written out, since a caller's proof goes through the parts of a derived drop at each way out.
impl Drop for SystemDialer<'_> {
    fn drop(self) {
        let SystemDialer {
            rt: _,
            motion: _,
            patience: _,
            lines: _,
            dialled: _,
            faults: _,
        } = self;
    }
}

impl<'a> SystemDialer<'a> {
    /// One that dialled nobody.
    pub fn new(rt: HostRuntime, motion: &'a Motion, patience: Patience) -> SystemDialer<'a> {
        SystemDialer {
            rt,
            motion,
            patience,
            lines: Vec::new(rt.alloc()),
            dialled: 0,
            faults: 0,
        }
    }

    /// How many lines weren't closed.
    pub fn open(&self) -> usize {
        self.lines.len()
    }

    // Dials a peer, and gives the line's number.
    fn connect(&mut self, peer: &Peer) -> io::Result<u64>
        ensures { self.new.faults ≡ self.old.faults }
    {
        self.note();
        self.settle()?;
        self.lines.reserve(1)?;
        let line = match peer {
            Peer::Host { address, port } => {
                Line::to_host(&self.rt, address.bytes(), *port, self.patience)?
            }
            Peer::Path(path) => Line::to_path(&self.rt, path.bytes(), self.patience)?,
        };
        let number = self.dialled.saturating_add(1);
        self.dialled = number;
        self.lines.push(Open { number, line })?;
        Ok(number)
    }

    // Puts what comes of a line at the front of a buffer.
    fn hear(&mut self, number: u64, buf: &mut [u8]) -> io::Result<usize>
        ensures count { IfOk result (λ count. count ≤ length buf.new) }
        ensures faults { self.new.faults ≡ self.old.faults }
    {
        self.note();
        match self.lines.iter_mut().find(|open| open.number == number) {
            Some(open) => open.line.read(&self.rt, buf),
            None => Err(io::Error::from(ErrorKind::NotConnected)),
        }
    }

    // Writes all of the bytes to a line.
    fn say(&mut self, number: u64, bytes: &[u8]) -> io::Result<()>
        ensures { self.new.faults ≡ self.old.faults }
    {
        self.note();
        self.settle()?;
        match self.lines.iter_mut().find(|open| open.number == number) {
            Some(open) => open.line.write(&self.rt, bytes),
            None => Err(io::Error::from(ErrorKind::NotConnected)),
        }
    }

    // Brings to the disk what was changed in the queue.
    fn settle(&self) -> io::Result<()> {
        match self.motion.unsynced().settle() {
            Ok(()) => Ok(()),
            Err(Failed) => Err(io::Error::from(ErrorKind::Other)),
        }
    }

    fn note(&self) {
        self.motion.note_move();
        self.motion.note_work();
    }
}

impl Dialer for SystemDialer<'_> {
    ghost seen = { λ d. record { told = None; missed = 0; faults = d.faults } };

    fn dial(&mut self, peer: &Peer) -> Result<u64, Failed> {
        let went = self.connect(peer);
        counted(&mut self.faults, went)
    }

    fn read(&mut self, line: u64, buf: &mut [u8]) -> Result<usize, Failed> {
        let went = self.hear(line, buf);
        counted(&mut self.faults, went)
    }

    fn write(&mut self, line: u64, bytes: &Text) -> Result<(), Failed> {
        let went = self.say(line, bytes.bytes());
        counted(&mut self.faults, went)
    }

    fn close(&mut self, line: u64) {
        self.note();
        if let Some(place) = self.lines.iter().position(|open| open.number == line) {
            if place < self.lines.len() {
                self.lines.remove(place);
            }
        }
    }
}
