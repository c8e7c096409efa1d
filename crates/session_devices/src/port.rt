// Many sessions at a port, in one thread.
ghost use Rattle.std.specs.Prelude.{◌≡◌, ◌≤◌, IfOk, IfSome, length};
ghost use Rattle.link_edge.specs.Turns.{Fits};

use crate::gathering::Gathering;
use crate::limits::Limits;
use crate::link::Link;
use crate::listening::{is_over, lacks_room, listen};
use crate::parting::Parting;
use crate::peer::put_peer;
use crate::waiting::{asking, is_ready, longer, millis_since, turned};
use libc::net::POLLIN;
use libc::types::pollfd;
use link_edge::Turn;
use mail_base::Failed;
use std::alloc::Global;
use std::io;
use std::net::{IpAddr, SocketAddr, TcpListener, TcpStream};
use std::os::fd::AsRawFd;
use std::time::Instant;

/// What a session that was silent for too long is told.
pub const SILENT: &[u8] = b"421 4.4.2 Nothing came for too long, closing connection\r\n";

/// How many milliseconds a turn waits at most while runners work.
const STILL: i32 = 5;

/// A session with a peer.
#[derive(Drop)]
struct Session {
    number: u64,
    link: Link,
}

/// A listener and its sessions, which are served in turn: each turn begins behind the place that
/// the last one served, so that none waits for ever. No call waits for a peer, and what fails with
/// one peer ends that peer's session alone.
pub struct Port {
    listener: TcpListener,
    limits: Limits,
    sessions: Vec<Session>,
    parting: Vec<Parting>,
    /// What was looked for last, the listener first, and what of it was found and isn't served.
    asked: Vec<pollfd>,
    /// The place that is looked at first: 0 is the listener, and each other the session before it.
    first: usize,
    /// The number of the last session that was opened.
    opened: u64,
    closed: u64,
    most: u64,
    start: Instant,
    /// The moment of the turn, in milliseconds since the start.
    now: u64,
    /// How long the next turn waits at most.
    wait: i32,
    /// How many turns in a row brought something.
    busy: u32,
    /// Until when nobody is let in.
    rested: u64,
    /// What waits for the disk.
    held: Gathering,
}

// Written out, since a caller's proof goes through the parts of a derived drop at each way out.
impl Drop for Port {
    fn drop(self) {
        let Port {
            listener: _,
            limits: _,
            sessions: _,
            parting: _,
            asked: _,
            first: _,
            opened: _,
            closed: _,
            most: _,
            start: _,
            now: _,
            wait: _,
            busy: _,
            rested: _,
            held: _,
        } = self;
    }
}

impl Port {
    /// Listens at an address and a port; 0 is any port. After `most` sessions were closed nothing
    /// comes any more, unless it is 0.
    pub fn bind(
        rt: &HostRuntime,
        address: &str,
        port: u16,
        most: u64,
        limits: Limits,
    ) -> io::Result<Port> {
        let listener = listen(rt, address, port)?;
        listener.set_nonblocking(true)?;
        let alloc = rt.alloc();
        Ok(Port {
            start: Instant::now(rt)?,
            listener,
            limits,
            sessions: Vec::new(alloc),
            parting: Vec::new(alloc),
            asked: Vec::new(alloc),
            first: 0,
            opened: 0,
            closed: 0,
            most,
            now: 0,
            wait: 0,
            busy: 0,
            rested: 0,
            held: Gathering::new(),
        })
    }

    /// The address that is listened at.
    pub fn address(&self) -> io::Result<SocketAddr> {
        self.listener.local_addr()
    }

    /// How many sessions were hung up and aren't over yet.
    pub fn parting(&self) -> usize {
        self.parting.len()
    }

    /// The next turn waits so many milliseconds at most.
    pub fn hasten(&mut self, millis: u32) {
        self.wait = i32::try_from(millis).unwrap_or(0);
    }

    /// What one of those brings that were ready when it was last looked. Where none of them is left
    /// it is looked again, and waited a little for something to come, unless the turn before had
    /// something. Behind several turns that brought something one is idle, whatever waits; while
    /// output waits for the disk these are put off.
    pub fn turn(&mut self, rt: &HostRuntime, buf: &mut [u8]) -> io::Result<Turn>
        requires { 64 ≤ length buf.old }
        ensures { IfOk result (λ turn. Fits turn buf.new) }
    {
        if self.most > 0 && self.closed >= self.most {
            return Ok(Turn::Stop);
        }
        if self.busy >= self.limits.busy && !self.is_held() {
            self.busy = self.busy.saturating_sub(self.limits.busy.max(1));
            return Ok(Turn::Idle);
        }
        self.now = millis_since(rt, self.start)?;
        let mut turn = self.serve(rt.alloc(), buf)?;
        if turn.is_none() {
            self.look(rt)?;
            if let Some(session) = self.end_overdue() {
                return Ok(Turn::Closed(session));
            }
            turn = self.serve(rt.alloc(), buf)?;
        }
        match turn {
            Some(turn) => {
                self.wait = 0;
                self.busy = self.busy.saturating_add(1);
                Ok(turn)
            }
            None => {
                self.busy = 0;
                self.wait = longer(self.wait, self.limits.wait);
                Ok(Turn::Idle)
            }
        }
    }

    /// Sends bytes to a session: what doesn't go now waits, at most so many bytes. Where they rest
    /// on what isn't on the disk they wait for that too, and all behind them.
    pub fn send(&mut self, session: u64, bytes: &[u8], is_held: bool) -> Result<(), Failed> {
        let (now, most) = (self.now, self.limits.backlog);
        let Some(open) = self.sessions.iter_mut().find(|open| open.number == session) else {
            return Err(Failed);
        };
        if is_held {
            self.held.begin_output(now);
            open.link.hold(bytes, most)
        } else {
            open.link.send(bytes, now, most)
        }
    }

    /// From now on a change of the queue waits for the disk, where nothing did.
    pub fn gather(&mut self) {
        self.held.begin(self.now);
    }

    /// Whether output, or a change of the queue, waits for the disk long enough.
    pub fn is_due(&self) -> bool {
        self.held.is_due(self.now, self.limits.held)
    }

    /// Whether nothing moves: several turns in a row brought nothing.
    pub fn is_still(&self) -> bool {
        self.wait > STILL
    }

    /// All is on the disk that waited for it: output goes out, also where no turn follows.
    pub fn release(&mut self) {
        if self.held.end() {
            let now = self.now;
            for session in &mut self.sessions {
                if session.link.release() {
                    // What fails is found when it is next looked.
                    let _ = session.link.flush(now);
                }
            }
            for parting in &mut self.parting {
                parting.release();
            }
        }
        self.let_go();
    }

    /// The sessions whose output waits for the disk end without it.
    pub fn drop_held(&mut self) {
        self.held.end();
        self.sessions.retain(|session| !session.link.is_held());
        self.parting.retain(|parting| !parting.link().is_held());
    }

    /// Whether output waits for the disk.
    pub fn is_held(&self) -> bool {
        self.held.has_output()
    }

    /// The moment, in milliseconds since the start.
    pub fn moment(&self, rt: &HostRuntime) -> io::Result<u64> {
        millis_since(rt, self.start)
    }

    /// Tells how many milliseconds the disk took.
    pub fn note_pace(&mut self, millis: u64) {
        self.held.note_pace(millis);
    }

    /// Ends a session. What waits is written in later turns.
    pub fn hang_up(&mut self, session: u64) {
        if let Some(place) = self.sessions.iter().position(|open| open.number == session) {
            if self.parting.len() >= self.limits.parting && !self.parting.is_empty() {
                self.parting.remove(0);
            }
            self.part(place);
        }
    }

    /// Ends all sessions, and writes what waits, for a while.
    pub fn finish(&mut self, rt: &HostRuntime) -> io::Result<()> {
        for _ in 0..self.sessions.len() {
            self.part(0);
        }
        self.look(rt)?;
        let until = self.now.saturating_add(self.limits.farewell);
        for _ in 0..u64::MAX {
            if self.parting.is_empty() || self.now >= until {
                break;
            }
            self.wait = longer(self.wait, self.limits.wait);
            self.look(rt)?;
        }
        Ok(())
    }

    // Waits until something is ready or the time is up, and lets go of the sessions that are over.
    fn look(&mut self, rt: &HostRuntime) -> io::Result<()> {
        self.ask()?;
        let wait = self.patience();
        let ready = is_ready(&mut self.asked, wait);
        self.now = millis_since(rt, self.start)?;
        self.let_go();
        match ready {
            Ok(_) => Ok(()),
            Err(Failed) => Err(io::Error::from(io::ErrorKind::Other)),
        }
    }

    // Lets go of the sessions that part and are over, and leaves those in the list that may be
    // served.
    fn let_go(&mut self) {
        let first = self.sessions.len().saturating_add(1);
        for (at, parting) in self.parting.iter_mut().enumerate() {
            let asked = self.asked.get(first.saturating_add(at));
            parting.note_ready(asked.is_some_and(|asked| asked.revents != 0));
        }
        let (now, limits) = (self.now, self.limits);
        self.parting
            .retain_mut(|parting| !parting.is_over(now, &limits));
        self.asked.truncate(first);
    }

    // How long is waited for something to come: while output waits for a slow disk a little, unless
    // all sessions wait for that.
    fn patience(&self) -> i32 {
        if !self.is_held() {
            return self.wait;
        }
        if self.sessions.iter().all(|session| session.link.is_held()) {
            return 0;
        }
        self.held.patience(self.limits.held)
    }

    // Makes the list of what is waited for: the listener, the sessions, and those that part.
    fn ask(&mut self) -> io::Result<()> {
        self.asked.clear();
        let listener = if self.now < self.rested {
            -1
        } else {
            self.listener.as_raw_fd()
        };
        self.asked.push(asking(listener, POLLIN))?;
        for session in &self.sessions {
            let link = &session.link;
            self.asked.push(asking(link.descriptor(), link.events()))?;
        }
        for parting in &self.parting {
            let link = parting.link();
            self.asked.push(asking(link.descriptor(), link.events()))?;
        }
        Ok(())
    }

    fn is_ready(&self, place: usize) -> bool {
        self.asked
            .get(place)
            .is_some_and(|asked| asked.revents != 0)
    }

    // Ends a session that was silent for too long, or reads nothing, and gives its number.
    fn end_overdue(&mut self) -> Option<u64> {
        let place = (0..self.sessions.len()).find(|place| self.is_overdue(*place))?;
        let session = self.sessions.get_mut(place)?;
        let number = session.number;
        if session.link.is_waiting() {
            self.close(place);
        } else {
            // Nobody can be told that this one line doesn't arrive.
            let _ = session.link.send(SILENT, self.now, self.limits.backlog);
            self.hang_up(number);
        }
        Some(number)
    }

    fn is_overdue(&self, place: usize) -> bool {
        let Some(session) = self.sessions.get(place) else {
            return false;
        };
        let longest = if session.link.is_waiting() {
            self.limits.stall
        } else {
            self.limits.silence
        };
        session.link.stillness(self.now) > longest && !self.is_ready(place.saturating_add(1))
    }

    // What is at the first place that was ready and has something.
    fn serve(&mut self, alloc: Global, buf: &mut [u8]) -> io::Result<Option<Turn>>
        requires { 64 ≤ length buf.old }
        ensures room { length buf.new ≡ length buf.old }
        ensures fits { IfOk result (λ turn. IfSome turn (λ turn. Fits turn buf.new)) }
    {
        let places = self.sessions.len().saturating_add(1);
        for step in 0..places {
            let place = turned(self.first, step, places);
            if self.is_ready(place) {
                self.first = place.saturating_add(1);
                let turn = self.serve_place(alloc, place, buf)?;
                // More may wait at the listener.
                if place > 0 || turn.is_none() {
                    self.note_served(place);
                }
                if turn.is_some() {
                    return Ok(turn);
                }
            }
        }
        Ok(None)
    }

    // Until it is looked again, nothing is at that place.
    fn note_served(&mut self, place: usize) {
        if let Some(asked) = self.asked.get_mut(place) {
            asked.revents = 0;
        }
    }

    // What is at a place that is ready, or `None` where there is nothing after all.
    fn serve_place(
        &mut self,
        alloc: Global,
        place: usize,
        buf: &mut [u8],
    ) -> io::Result<Option<Turn>>
        requires { 64 ≤ length buf.old }
        ensures room { length buf.new ≡ length buf.old }
        ensures fits { IfOk result (λ turn. IfSome turn (λ turn. Fits turn buf.new)) }
    {
        match place.checked_sub(1) {
            None => self.accept(alloc, buf),
            Some(session) => Ok(self.hear(session, buf)),
        }
    }

    // Lets a peer in. An error of one that doesn't come in ends nothing else.
    fn accept(&mut self, alloc: Global, buf: &mut [u8]) -> io::Result<Option<Turn>>
        requires { 64 ≤ length buf.old }
        ensures room { length buf.new ≡ length buf.old }
        ensures fits { IfOk result (λ turn. IfSome turn (λ turn. Fits turn buf.new)) }
    {
        match self.listener.accept() {
            Ok((stream, peer)) => Ok(self.open(alloc, stream, peer.ip(), buf)),
            Err(error) if is_over(&error) => Err(error),
            Err(error) => {
                if lacks_room(&error) {
                    self.rested = self.now.saturating_add(self.limits.rest);
                }
                Ok(None)
            }
        }
    }

    fn open(
        &mut self,
        alloc: Global,
        stream: TcpStream,
        peer: IpAddr,
        buf: &mut [u8],
    ) -> Option<Turn>
        requires { 64 ≤ length buf.old }
        ensures room { length buf.new ≡ length buf.old }
        ensures fits { IfSome result (λ turn. Fits turn buf.new) }
    {
        if self.room().is_err() {
            self.rested = self.now.saturating_add(self.limits.rest);
            return None;
        }
        let number = self.opened.saturating_add(1);
        let link = Link::new(alloc, stream, self.now).ok()?;
        self.sessions.push(Session { number, link }).ok()?;
        self.opened = number;
        Some(Turn::Opened(number, put_peer(Some(peer), buf)))
    }

    // Makes room for one more session, until it is over.
    fn room(&mut self) -> io::Result<()> {
        self.sessions.reserve(1)?;
        self.parting.reserve(self.sessions.len().saturating_add(1))?;
        let places = self.sessions.len().saturating_add(self.parting.len());
        self.asked.reserve(places.saturating_add(2))?;
        Ok(())
    }

    // What a session that is ready brings.
    fn hear(&mut self, place: usize, buf: &mut [u8]) -> Option<Turn>
        requires { 64 ≤ length buf.old }
        ensures room { length buf.new ≡ length buf.old }
        ensures fits { IfSome result (λ turn. Fits turn buf.new) }
    {
        let now = self.now;
        let session = self.sessions.get_mut(place)?;
        let number = session.number;
        if session.link.is_waiting() {
            if session.link.flush(now).is_ok() {
                return None;
            }
        } else {
            match session.link.read(buf, now) {
                Ok(Some(count)) => return Some(Turn::Piece(number, count)),
                Ok(None) => return None,
                Err(Failed) => {}
            }
        }
        self.close(place);
        Some(Turn::Closed(number))
    }

    // Lets the session at a place go. The others' places change, so that it is looked again.
    fn close(&mut self, place: usize) {
        if place < self.sessions.len() {
            self.asked.clear();
            self.sessions.remove(place);
            self.closed = self.closed.saturating_add(1);
        }
    }

    // Puts the session at a place among those that part. With no memory for that it ends at once.
    fn part(&mut self, place: usize) {
        if place < self.sessions.len() {
            self.asked.clear();
            let Session { number: _, link } = self.sessions.remove(place);
            self.closed = self.closed.saturating_add(1);
            // Without room it parts at once.
            let _ = self.parting.push(Parting::new(link));
        }
    }
}
