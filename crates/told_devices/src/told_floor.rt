// A floor whose sessions' ends are told to the log. What is seen of it is the floor's.
ghost use Rattle.std.specs.Prelude.{◌≡◌};

use crate::log::Log;
use arrayvec::ArrayVec;
use link_edge::{Floor, Place, Turn};
use mail_base::{Failed, Text};
use std::alloc::Global;

/// How the reply begins behind a message that was taken; the rest of its id comes next.
const TAKEN: &[u8] = b"250 2.0.0 w";

/// A floor with its log, where there is one. Of a session its peer is told, how many messages were
/// taken, and the bytes that came and went.
pub struct ToldFloor<L> {
    pub device: L,
    log: Option<Log>,
    guests: Vec<Guest>,
}

/// A session that is open.
#[derive(Drop)]
struct Guest {
    session: u64,
    peer: ArrayVec<u8, 64>,
    messages: u64,
    heard: u64,
    sent: u64,
}

// Written out, since a caller's proof goes through the parts of a derived drop at each way out.
impl<L: Drop> Drop for ToldFloor<L> {
    fn drop(self) {
        let ToldFloor {
            device: _,
            log: _,
            guests: _,
        } = self;
    }
}

impl<L> ToldFloor<L> {
    pub fn new(alloc: Global, device: L, log: Option<Log>) -> ToldFloor<L>
        ensures { result.device ≡ device }
    {
        ToldFloor {
            device,
            log,
            guests: Vec::new(alloc),
        }
    }

    /// Tells of the sessions that are open as a run ends.
    pub fn finish(&mut self)
        ensures { self.new.device ≡ self.old.device }
    {
        if let Some(log) = self.log {
            for guest in &self.guests {
                guest.tell(log);
            }
        }
        self.guests.clear();
    }
}

impl Guest {
    // Tells that its session is over.
    fn tell(&self, log: Log) {
        let mut line = log.line();
        line.put(b"NOQUEUE: disconnect from ");
        if self.peer.is_empty() {
            line.put(b"stdin");
        } else {
            line.put(b"[");
            line.put(&self.peer);
            line.put(b"]");
        }
        line.put(b", messages=");
        line.put_number(self.messages);
        line.put(b", in=");
        line.put_number(self.heard);
        line.put(b", out=");
        line.put_number(self.sent);
        log.tell(line);
    }
}

impl<L: Floor> Floor for ToldFloor<L> {
    ghost seen = { λ t. L.seen t.device };

    fn begin(&mut self, place: &Place, most: u64) -> Result<(), Failed> {
        self.device.begin(place, most)
    }

    fn turn(&mut self, buf: &mut [u8]) -> Result<Turn, Failed> {
        let turn = self.device.turn(buf);
        if let (Some(log), Ok(turn)) = (self.log, turn) {
            note(&mut self.guests, log, turn, buf);
        }
        turn
    }

    fn send(&mut self, session: u64, bytes: &Text) -> Result<(), Failed> {
        let went = self.device.send(session, bytes);
        if went.is_ok() && self.log.is_some() {
            note_sent(&mut self.guests, session, bytes.bytes());
        }
        went
    }

    fn hang_up(&mut self, session: u64) {
        self.device.hang_up(session);
        if let Some(log) = self.log {
            end(&mut self.guests, log, session);
        }
    }
}

// Goes on behind a turn.
fn note(guests: &mut Vec<Guest>, log: Log, turn: Turn, buf: &[u8]) {
    match turn {
        Turn::Opened(session, count) => open(guests, session, buf.get(..count).unwrap_or(b"")),
        Turn::Piece(session, count) => note_heard(guests, session, count),
        Turn::Closed(session) => end(guests, log, session),
        Turn::Idle | Turn::Stop => {}
    }
}

// A session begins. Without memory for it nothing is told of it.
fn open(guests: &mut Vec<Guest>, session: u64, address: &[u8]) {
    let mut peer = ArrayVec::new();
    let _ = peer.try_extend_from_slice(address);
    let _ = guests.push(Guest {
        session,
        peer,
        messages: 0,
        heard: 0,
        sent: 0,
    });
}

fn note_heard(guests: &mut Vec<Guest>, session: u64, count: usize) {
    if let Some(guest) = guests.iter_mut().find(|guest| guest.session == session) {
        let count = u64::try_from(count).unwrap_or(u64::MAX);
        guest.heard = guest.heard.saturating_add(count);
    }
}

fn note_sent(guests: &mut Vec<Guest>, session: u64, bytes: &[u8]) {
    if let Some(guest) = guests.iter_mut().find(|guest| guest.session == session) {
        let count = u64::try_from(bytes.len()).unwrap_or(u64::MAX);
        guest.sent = guest.sent.saturating_add(count);
        if bytes.starts_with(TAKEN) {
            guest.messages = guest.messages.saturating_add(1);
        }
    }
}

// A session is over.
fn end(guests: &mut Vec<Guest>, log: Log, session: u64) {
    if let Some(place) = guests.iter().position(|guest| guest.session == session) {
        if place < guests.len() {
            let guest = guests.remove(place);
            guest.tell(log);
        }
    }
}
