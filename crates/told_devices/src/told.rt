// Programs and peers whose beginnings and ends are told to the log. What is seen of them is theirs.
ghost use Rattle.std.specs.Prelude.{◌≡◌};

use crate::line::Line;
use crate::log::Log;
use link_edge::{Dialer, Peer};
use mail_base::{Failed, Seq, Text};
use spawn_edge::Spawner;

/// A spawner or a dialer with its log, where there is one. Of a program its path is told, the number
/// of its child and how that ended; of a line its peer, its number, and that it failed or was
/// closed.
pub struct Told<D> {
    pub device: D,
    log: Option<Log>,
}

// Written out, since a caller's proof goes through the parts of a derived drop at each way out.
impl<D: Drop> Drop for Told<D> {
    fn drop(self) {
        let Told { device: _, log: _ } = self;
    }
}

impl<D> Told<D> {
    pub fn new(device: D, log: Option<Log>) -> Told<D>
        ensures { result.device ≡ device }
    {
        Told { device, log }
    }
}

impl<S: Spawner> Spawner for Told<S> {
    ghost seen = { λ t. S.seen t.device };

    fn start(&mut self, program: &Text, args: &Seq<Text>, input: &Text) -> Result<u64, Failed> {
        let went = self.device.start(program, args, input);
        if let Some(log) = self.log {
            tell_start(log, program, went);
        }
        went
    }

    fn finished(&mut self, child: u64) -> Result<Option<i32>, Failed> {
        let went = self.device.finished(child);
        if let Some(log) = self.log {
            tell_poll(log, child, went);
        }
        went
    }
}

impl<D: Dialer> Dialer for Told<D> {
    ghost seen = { λ t. D.seen t.device };

    fn dial(&mut self, peer: &Peer) -> Result<u64, Failed> {
        let went = self.device.dial(peer);
        if let Some(log) = self.log {
            tell_dial(log, peer, went);
        }
        went
    }

    fn read(&mut self, line: u64, buf: &mut [u8]) -> Result<usize, Failed> {
        let went = self.device.read(line, buf);
        if let (Some(log), Err(Failed)) = (self.log, went) {
            tell_line(log, line, b"read failed");
        }
        went
    }

    fn write(&mut self, line: u64, bytes: &Text) -> Result<(), Failed> {
        let went = self.device.write(line, bytes);
        if let (Some(log), Err(Failed)) = (self.log, went) {
            tell_line(log, line, b"write failed");
        }
        went
    }

    fn close(&mut self, line: u64) {
        self.device.close(line);
        if let Some(log) = self.log {
            tell_line(log, line, b"closed");
        }
    }
}

fn tell_start(log: Log, program: &Text, went: Result<u64, Failed>) {
    let mut line = log.line();
    line.put(b"NOQUEUE: program=");
    line.put(program.bytes());
    put_begun(&mut line, b", child=", went, b"started");
    log.tell(line);
}

fn tell_dial(log: Log, peer: &Peer, went: Result<u64, Failed>) {
    let mut line = log.line();
    line.put(b"NOQUEUE: relay=");
    match peer {
        Peer::Host { address, port } => {
            line.put(b"[");
            line.put(address.bytes());
            line.put(b"]:");
            line.put_number(u64::from(*port));
        }
        Peer::Path(path) => line.put(path.bytes()),
    }
    put_begun(&mut line, b", line=", went, b"connected");
    log.tell(line);
}

// The number of what began, or that it failed.
fn put_begun(line: &mut Line, what: &[u8], went: Result<u64, Failed>, stat: &[u8]) {
    match went {
        Ok(number) => {
            line.put(what);
            line.put_number(number);
            line.put(b", stat=");
            line.put(stat);
        }
        Err(Failed) => line.put(b", stat=failed"),
    }
}

// Tells how a child ended, unless it runs.
fn tell_poll(log: Log, child: u64, went: Result<Option<i32>, Failed>) {
    match went {
        Ok(None) => {}
        Ok(Some(status)) => {
            let mut line = child_line(log, child);
            line.put(b"exit ");
            line.put_number(u64::from(status.unsigned_abs()));
            log.tell(line);
        }
        Err(Failed) => {
            let mut line = child_line(log, child);
            line.put(b"failed");
            log.tell(line);
        }
    }
}

fn child_line(log: Log, child: u64) -> Line {
    let mut line = log.line();
    line.put(b"NOQUEUE: child=");
    line.put_number(child);
    line.put(b", stat=");
    line
}

fn tell_line(log: Log, number: u64, stat: &[u8]) {
    let mut line = log.line();
    line.put(b"NOQUEUE: line=");
    line.put_number(number);
    line.put(b", stat=");
    line.put(stat);
    log.tell(line);
}
