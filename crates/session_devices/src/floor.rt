// The real floor: standard input and output, or a port. It tells nothing but how it was begun
// and its counts.
ghost use Rattle.std.specs.Prelude.{◌≡◌, ◌≤◌, IfOk, None, length};
ghost use Rattle.link_edge.specs.Turns.{Fits};

use crate::limits::Limits;
use crate::port::Port;
use crate::standard::{Standard, Wires};
use link_edge::{Begun, Floor, Place, Turn};
use mail_base::{Failed, Text};
use shared_devices::{Motion, counted};
use std::io;
use std::io::{ErrorKind, Read, Write};

/// One session on a reader and a writer, or, once it began at a port, many there. A floor at a port
/// that shares what moves with the devices of deliveries waits while these work as long as they let
/// it. What is sent behind a change of the queue waits until that is on the disk, which several
/// sessions wait for together; a turn fails where it doesn't get there. A change for which nothing
/// waits gets there in the same time.
pub struct SystemFloor<'a, R, W> {
    site: Site<'a, R, W>,
    begun: Begun,
    faults: u64,
    send_faults: u64,
}

/// Where the sessions are.
#[derive(Drop)]
struct Site<'a, R, W> {
    rt: HostRuntime,
    limits: Limits,
    motion: Option<&'a Motion>,
    /// How many changes of the queue there were at the last turn.
    changes: u64,
    standard: Standard<R, W>,
    port: Option<Port>,
}

// Written out, since a caller's proof goes through the parts of a derived drop at each way out.
impl<R: Drop, W: Drop> Drop for SystemFloor<'_, R, W> {
    fn drop(self) {
        let SystemFloor {
            site: _,
            begun: _,
            faults: _,
            send_faults: _,
        } = self;
    }
}

impl<'a, R: Read, W: Write> SystemFloor<'a, R, W> {
    /// A floor that didn't begin. A session on a reader and a writer that have no descriptors is
    /// never silent.
    pub fn new(
        rt: HostRuntime,
        reader: R,
        writer: W,
        wires: Option<Wires>,
        limits: Limits,
        motion: Option<&'a Motion>,
    ) -> SystemFloor<'a, R, W> {
        SystemFloor {
            site: Site {
                rt,
                limits,
                motion,
                changes: 0,
                standard: Standard::new(reader, writer, wires, limits.silence),
                port: None,
            },
            begun: Begun::never(),
            faults: 0,
            send_faults: 0,
        }
    }

    /// Ends all sessions, and writes what waits, for a while.
    pub fn finish(&mut self) {
        let rt = self.site.rt;
        let settled = settle(self.site.motion);
        if let Some(port) = &mut self.site.port {
            match settled {
                Ok(()) => port.release(),
                Err(Failed) => port.drop_held(),
            }
            // The run is over, and nobody is left to be told.
            let _ = port.finish(&rt);
        }
    }

    /// How often `begin` and `turn` failed.
    pub fn faults(&self) -> u64
        ensures { result ≡ self.now.faults }
    {
        self.faults
    }

    /// The port that is listened at; `NotConnected` where none is.
    pub fn port(&self) -> io::Result<u16> {
        match &self.site.port {
            Some(port) => Ok(port.address()?.port()),
            None => Err(io::Error::from(ErrorKind::NotConnected)),
        }
    }

    /// How many sessions at the port were hung up and aren't over yet.
    pub fn parting(&self) -> usize {
        match &self.site.port {
            Some(port) => port.parting(),
            None => 0,
        }
    }
}

impl<R: Read, W: Write> Site<'_, R, W> {
    fn begin(&mut self, place: &Place, most: u64) -> io::Result<()> {
        match place {
            Place::Standard => match self.standard.begin() {
                Ok(()) => Ok(()),
                Err(Failed) => Err(io::Error::from(ErrorKind::NotConnected)),
            },
            Place::Port { address, port } => {
                let address = str::from_utf8(address.bytes()).map_err(|_| io::Error::from(
                    ErrorKind::InvalidInput,
                ))?;
                self.port = Some(Port::bind(&self.rt, address, *port, most, self.limits)?);
                lead(self.motion);
                Ok(())
            }
        }
    }

    fn turn(&mut self, buf: &mut [u8]) -> Result<Turn, Failed>
        requires { 64 ≤ length buf.old }
        ensures { IfOk result (λ turn. Fits turn buf.new) }
    {
        let turn = match &mut self.port {
            None => {
                settle(self.motion)?;
                self.standard.turn(buf)?
            }
            Some(port) => port_turn(&self.rt, port, self.motion, buf)?,
        };
        self.changes = changes_of(self.motion);
        Ok(turn)
    }

    fn send(&mut self, session: u64, bytes: &Text) -> Result<(), Failed> {
        match &mut self.port {
            None => {
                settle(self.motion)?;
                self.standard.send(session, bytes)
            }
            Some(port) => {
                let is_held = changes_of(self.motion) != self.changes && !is_clear(self.motion);
                port.send(session, bytes.bytes(), is_held)
            }
        }
    }

    fn hang_up(&mut self, session: u64) {
        match &mut self.port {
            None => self.standard.hang_up(session),
            Some(port) => port.hang_up(session),
        }
    }
}

impl<R: Read, W: Write> Floor for SystemFloor<'_, R, W> {
    ghost seen = { λ f. record {
      told = None;
      begun = f.begun;
      faults = f.faults;
      session_faults = λ _. f.send_faults;
    } };

    fn begin(&mut self, place: &Place, most: u64) -> Result<(), Failed> {
        self.begun.note(place, most);
        counted(&mut self.faults, self.site.begin(place, most))
    }

    fn turn(&mut self, buf: &mut [u8]) -> Result<Turn, Failed> {
        counted(&mut self.faults, self.site.turn(buf))
    }

    fn send(&mut self, session: u64, bytes: &Text) -> Result<(), Failed> {
        counted(&mut self.send_faults, self.site.send(session, bytes))
    }

    fn hang_up(&mut self, session: u64) {
        self.site.hang_up(session);
    }
}

// A turn at a port. What waits for the disk is brought there before it, where it is due, and behind
// it, where it brought nothing, so that no reply waits for a delivery; and in any case behind a
// Stop, since no turn may follow.
fn port_turn(
    rt: &HostRuntime,
    port: &mut Port,
    motion: Option<&Motion>,
    buf: &mut [u8],
) -> Result<Turn, Failed>
    requires { 64 ≤ length buf.old }
    ensures { IfOk result (λ turn. Fits turn buf.new) }
{
    if port.is_due() || (port.is_held() && is_clear(motion)) {
        bring(rt, port, motion)?;
    } else if !is_clear(motion) {
        port.gather();
    }
    if let Some(millis) = pause_of(motion) {
        port.hasten(millis);
    }
    let turn = port.turn(rt, buf).map_err(|_| Failed)?;
    note(motion, turn);
    if is_time(port, turn) {
        bring(rt, port, motion)?;
    }
    Ok(turn)
}

// Whether it is time to bring to the disk what waits for it, behind such a turn.
fn is_time(port: &Port, turn: Turn) -> bool {
    match turn {
        Turn::Stop => true,
        Turn::Idle => port.is_held() || port.is_still(),
        _ => false,
    }
}

// Brings to the disk what was changed in the queue, and lets go what waits for it.
fn bring(rt: &HostRuntime, port: &mut Port, motion: Option<&Motion>) -> Result<(), Failed> {
    if !is_clear(motion) {
        let begun = port.moment(rt).map_err(|_| Failed)?;
        settle(motion)?;
        let ended = port.moment(rt).map_err(|_| Failed)?;
        port.note_pace(ended.saturating_sub(begun));
    }
    port.release();
    Ok(())
}

// Brings to the disk what was changed in the queue.
fn settle(motion: Option<&Motion>) -> Result<(), Failed> {
    match motion {
        Some(motion) => motion.unsynced().settle(),
        None => Ok(()),
    }
}

// Whether nothing of the queue waits for the disk.
fn is_clear(motion: Option<&Motion>) -> bool {
    match motion {
        Some(motion) => motion.unsynced().is_clear(),
        None => true,
    }
}

// How many changes of the queue there were.
fn changes_of(motion: Option<&Motion>) -> u64 {
    match motion {
        Some(motion) => motion.unsynced().changes(),
        None => 0,
    }
}

// How many milliseconds a turn may wait where the devices of deliveries worked since this was last
// asked.
fn pause_of(motion: Option<&Motion>) -> Option<u32> {
    match motion {
        Some(motion) => motion.take_work(),
        None => None,
    }
}

// Tells the devices of deliveries that the floor waits for all.
fn lead(motion: Option<&Motion>) {
    if let Some(motion) = motion {
        motion.note_floor();
    }
}

// Tells the devices of deliveries of a turn that brought something.
fn note(motion: Option<&Motion>, turn: Turn) {
    match (motion, turn) {
        (None, _) | (_, Turn::Idle) => {}
        (Some(motion), _) => motion.note_move(),
    }
}
