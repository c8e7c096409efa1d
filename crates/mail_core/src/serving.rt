ghost use Rattle.std.specs.Prelude.{◌≡◌, ◌≢◌, ◌∷◌, ◌<◌, [], Bool, false, true, IfOk, All, None, Some, is_ok, length, nat_le, remove, vec_capacity, vec_len};
ghost use Rattle.mail_base.specs.Histories.{Gains};
ghost use Rattle.mail_edge.specs.Seen.{ClockSeen};
ghost use Rattle.link_edge.specs.Heard.{Heard, IsSoundAt};
ghost use Rattle.link_edge.specs.Turns.{Fits};
ghost use Rattle.link_edge.specs.declared.event.Event.TheVariants.{Brings, Rests, Stops};
ghost use Rattle.smtp_receive.specs.Replies.{greeting_text, shown_host};
ghost use Rattle.spawn_edge.specs.Spawned.{Spawned};
ghost use Rattle.spool_disk.specs.Disk.{FileMap};
ghost use Rattle.queue_table.specs.Calls.{Tallies};
ghost use Rattle.queue_run.specs.Backs.{drawer};
ghost use Rattle.mail_core.specs.Causes.{IsDrawn, is_judge_fault, is_well, lifted, stop_of};
ghost use Rattle.mail_core.specs.Crews.{IsManned};
ghost use Rattle.mail_core.specs.Effects.{HangsUp, Sends, heard_of};
ghost use Rattle.mail_core.specs.Events.{IsHeardAt, IsTaken, Turns, event_of};
ghost use Rattle.mail_core.specs.Guests.{newcomer, without};
ghost use Rattle.mail_core.specs.Judges.{IsAsked, drawing, judging};
ghost use Rattle.mail_core.specs.Machine.{most_guests};
ghost use Rattle.mail_core.specs.Plans.{OfFloor, Origin, comes_from, is_own, reading_of};
ghost use Rattle.mail_core.specs.Seen.{Beside, Hands, beside, hands, seen};
ghost use Rattle.mail_core.specs.Sites.{IsUnder, Site};
ghost use Rattle.mail_core.specs.Standing.{IsStanding, Keeps, MayGoOn, Stands, table_of};
ghost use Rattle.mail_core.specs.States.{State};
ghost use Rattle.mail_core.specs.declared.serving.CoreStop.TheVariants.{SpoolFault as SpoolStop};
ghost use Rattle.mail_core.specs.inner.Handling.{Behaves, HasAt, IsOpened, IsPlaceOf, Steps};

use crate::act::Act;
use crate::caller::Caller;
use crate::crew::Crew;
use crate::intake::{Intake, part};
use crate::speech::say;
use link_edge::{Dialer, Floor, Turn};
use mail_base::{Config, Draws, NoMemory, Text};
use map_tables::Maps;
use queue_run::RunStop;
use smtp_lines::Lines;
use smtp_receive::{Judge, Session};
use spawn_edge::Spawner;
use spool_disk::Spool;
use spool_store::SpoolFault;
use std::alloc::Global;

/// Why a run can't go on.
#[derive(Clone, Copy, Debug, PartialEq, Eq)]
pub enum CoreStop {
    /// The spool failed.
    SpoolFault,
    /// A message needs an id above 999,999,999,999.
    IdsSpent,
    /// Files failed that the judge reads.
    FilesFault,
    /// There was no memory for a runner.
    NoMemory,
}

impl From<SpoolFault> for CoreStop {
    ghost from_gives = { λ _ stop. stop ≡ SpoolStop };

    fn from(_fault: SpoolFault) -> CoreStop {
        CoreStop::SpoolFault
    }
}

impl CoreStop {
    // The error that a runner's is.
    fn of_runner(stop: RunStop) -> CoreStop
        ensures { result ≡ stop_of stop }
    {
        match stop {
            RunStop::SpoolFault => CoreStop::SpoolFault,
            RunStop::IdsSpent => CoreStop::IdsSpent,
            RunStop::FilesFault => CoreStop::FilesFault,
            RunStop::NoMemory => CoreStop::NoMemory,
        }
    }
}

// A turn of the crew, as the core's.
fn turn_of(went: Result<Act, RunStop>) -> Result<Act, CoreStop>
    ensures { result ≡ lifted went }
{
    match went {
        Ok(act) => Ok(act),
        Err(stop) => Err(CoreStop::of_runner(stop)),
    }
}

/// The most sessions that are open at once.
const MOST_SESSIONS: usize = 64;

/// The sessions that are open, at most 64, in the order of their openings; the message table; and
/// those who hold its entries.
pub struct Core {
    pub(crate) alloc: Global,
    pub(crate) host: Text,
    /// The text of 421.
    pub(crate) full: Text,
    pub(crate) callers: Vec<Caller>,
    pub(crate) intake: Intake,
    pub(crate) crew: Crew,
    /// Whether a Stop came.
    pub(crate) stopping: bool,
}

// Written out, since a caller's proof goes through the parts of a derived drop at each way out.
impl Drop for Core {
    fn drop(self) {
        let Core {
            alloc: _,
            host: _,
            full: _,
            callers: _,
            intake: _,
            crew: _,
            stopping: _,
        } = self;
    }
}

impl Core {
    /// Whether a Stop came: then each turn is one that the run makes itself. It takes no memory.
    pub fn is_stopping(&self) -> bool
        ensures { result ≡ self.now.stopping }
    {
        self.stopping
    }

    /// A turn of a session: it opens, brings a piece, or closes. The turn was taken and the clock
    /// read before the call. Session numbers are never used twice by a floor that tells. While 64
    /// sessions are open, one more is told 421 4.3.2 and hung up. A piece of a session that isn't
    /// open is dropped.
    ///
    /// Want of memory is answered by 452 4.3.1, or ends the session. After an error nothing more is
    /// done. A fault of the spool ends the run with it: its count stays with every other answer,
    /// and the floor's own with each.
    pub fn turn<F: Floor, D: Spool, J: Judge>(
        &mut self,
        floor: &mut F,
        spool: &mut D,
        config: &Config,
        maps: &Maps,
        judge: &mut J,
        reading: u64,
        turn: Turn,
        buf: &[u8],
    ) -> Result<Act, CoreStop>
        requires fits { Fits turn buf.now }
        requires sound { IsHeardAt (F.seen floor.old) turn }
        requires session { is_own (event_of turn buf.now) ≡ false }
        requires standing { IsStanding self.old config.now maps.now }
        requires tallied { Tallies (table_of self.old) (D.seen spool.old) }
        ensures turns { (site : Site) (m : State) (before : Heard) (clock read : ClockSeen)
            (hands : Hands) → IsUnder site config.now maps.now → Stands site self.old m
            → comes_from site.plan m.stopping (OfFloor reading) (event_of turn buf.now) ≡ true
            → IsTaken (OfFloor reading) before (F.seen floor.old) clock read (event_of turn buf.now)
            → Turns (judging (J.seen judge.old) (J.answers judge.old)) site m
            (event_of turn buf.now) (OfFloor reading)
            (seen before (D.seen spool.old) (beside clock hands))
            (seen (F.seen floor.new) (D.seen spool.new) (beside read hands))
            self.new result }
        ensures asked { IsAsked (judging (J.seen judge.old) (J.answers judge.old))
            (judging (J.seen judge.new) (J.answers judge.new)) (is_judge_fault result) }
        ensures fixed { J.fixed judge.new ≡ J.fixed judge.old }
        ensures own { (F.seen floor.new).faults ≡ (F.seen floor.old).faults }
        ensures begun { (F.seen floor.new).begun ≡ (F.seen floor.old).begun }
        ensures calm { is_well result ≡ true
            → (D.seen spool.new).faults ≡ (D.seen spool.old).faults }
        ensures able { (spawner : Spawned) → is_ok result ≡ true
            → MayGoOn self.old (D.seen spool.old) spawner
            → MayGoOn self.new (D.seen spool.new) spawner }
    {
        self.intake.at(reading);
        self.handle(floor, spool, config, maps, judge, turn, buf)
    }

    /// A turn in which nothing came: the next entry that may be claimed is claimed, and its first
    /// step taken; or else the first of those who hold entries takes a step, and stands behind the
    /// others then, unless its entry was let go. The clock was read before the call.
    ///
    /// It ends where nobody holds an entry and nothing is left of the list of a run over the queue.
    /// Of the causes for which it fails, `NoMemory` also comes where there is none for a claim.
    pub fn rest<D: Spool, S: Spawner, N: Dialer, W: Draws>(
        &mut self,
        spool: &mut D,
        spawner: &mut S,
        dialer: &mut N,
        config: &Config,
        maps: &Maps,
        draws: &mut W,
        reading: u64,
    ) -> Result<Act, CoreStop>
        requires standing { IsStanding self.old config.now maps.now }
        requires able { MayGoOn self.old (D.seen spool.old) (S.seen spawner.old) }
        ensures turns { (site : Site) (m : State) (origin : Origin) (before now : Heard)
            (clock read : ClockSeen) → IsUnder site config.now maps.now → Stands site self.old m
            → comes_from site.plan m.stopping origin Rests ≡ true → reading_of origin ≡ reading
            → IsTaken origin before now clock read Rests
            → Turns (drawing (W.seen draws.old) (W.answers draws.old)) site m Rests origin
            (seen before (D.seen spool.old)
            (beside clock (hands (S.seen spawner.old) (N.seen dialer.old))))
            (seen now (D.seen spool.new)
            (beside read (hands (S.seen spawner.new) (N.seen dialer.new))))
            self.new result }
        ensures drawn { IsDrawn (drawer (W.seen draws.old) (W.answers draws.old))
            (drawer (W.seen draws.new) (W.answers draws.new)) (is_judge_fault result) }
        ensures fixed { W.fixed draws.new ≡ W.fixed draws.old }
        ensures calm { is_well result ≡ true
            → (D.seen spool.new).faults ≡ (D.seen spool.old).faults }
        ensures able { is_ok result ≡ true
            → MayGoOn self.new (D.seen spool.new) (S.seen spawner.new) }
    {
        self.intake.at(reading);
        turn_of(
            self.crew.rest(
                self.alloc,
                &mut self.intake.table,
                spool,
                spawner,
                dialer,
                draws,
                config,
                maps,
                self.intake.moment,
            ),
        )
    }

    /// A Stop that the floor told, or one that the run makes behind it: the first of those whose
    /// child runs takes a step. It ends where no child runs any more. The clock was read before the
    /// call.
    pub fn stop<D: Spool, S: Spawner, N: Dialer, W: Draws>(
        &mut self,
        spool: &mut D,
        spawner: &mut S,
        dialer: &mut N,
        config: &Config,
        maps: &Maps,
        draws: &mut W,
        reading: u64,
    ) -> Result<Act, CoreStop>
        requires standing { IsStanding self.old config.now maps.now }
        requires able { MayGoOn self.old (D.seen spool.old) (S.seen spawner.old) }
        ensures turns { (site : Site) (m : State) (origin : Origin) (before now : Heard)
            (clock read : ClockSeen) → IsUnder site config.now maps.now → Stands site self.old m
            → comes_from site.plan m.stopping origin Stops ≡ true → reading_of origin ≡ reading
            → IsTaken origin before now clock read Stops
            → Turns (drawing (W.seen draws.old) (W.answers draws.old)) site m Stops origin
            (seen before (D.seen spool.old)
            (beside clock (hands (S.seen spawner.old) (N.seen dialer.old))))
            (seen now (D.seen spool.new)
            (beside read (hands (S.seen spawner.new) (N.seen dialer.new))))
            self.new result }
        ensures drawn { IsDrawn (drawer (W.seen draws.old) (W.answers draws.old))
            (drawer (W.seen draws.new) (W.answers draws.new)) (is_judge_fault result) }
        ensures fixed { W.fixed draws.new ≡ W.fixed draws.old }
        ensures calm { is_well result ≡ true
            → (D.seen spool.new).faults ≡ (D.seen spool.old).faults }
        ensures able { is_ok result ≡ true
            → MayGoOn self.new (D.seen spool.new) (S.seen spawner.new) }
    {
        self.intake.at(reading);
        self.stopping = true;
        turn_of(
            self.crew.stop(
                self.alloc,
                &mut self.intake.table,
                spool,
                spawner,
                dialer,
                draws,
                config,
                maps,
                self.intake.moment,
            ),
        )
    }

    // What a turn of a session asks for.
    fn handle<F: Floor, D: Spool, J: Judge>(
        &mut self,
        floor: &mut F,
        spool: &mut D,
        config: &Config,
        maps: &Maps,
        judge: &mut J,
        turn: Turn,
        buf: &[u8],
    ) -> Result<Act, CoreStop>
        requires fits { Fits turn buf.now }
        requires sound { IsHeardAt (F.seen floor.old) turn }
        requires session { is_own (event_of turn buf.now) ≡ false }
        requires standing { IsStanding self.old config.now maps.now }
        requires tallied { Tallies (table_of self.old) (D.seen spool.old) }
        ensures steps { (site : Site) (m : State) (side : Beside) → IsUnder site config.now maps.now
            → Stands site self.old m
            → Steps (judging (J.seen judge.old) (J.answers judge.old)) site m
            (event_of turn buf.now)
            (seen (F.seen floor.old) (D.seen spool.old) side)
            (seen (F.seen floor.new) (D.seen spool.new) side)
            self.new result }
        ensures behaves { Behaves (judging (J.seen judge.old) (J.answers judge.old))
            (judging (J.seen judge.new) (J.answers judge.new)) (F.seen floor.old)
            (F.seen floor.new) (D.seen spool.old) (D.seen spool.new) (table_of self.new) result }
        ensures fixed { J.fixed judge.new ≡ J.fixed judge.old }
        ensures manned { (spawner : Spawned) → is_ok result ≡ true
            → IsManned (table_of self.old) spawner self.old.crew
            → IsManned (table_of self.new) spawner self.new.crew }
    {
        match turn {
            Turn::Opened(session, count) => {
                self.open(floor, session, &buf[..count]);
                Ok(Act::Went)
            }
            Turn::Piece(session, count) => self.piece(
                floor,
                spool,
                config,
                maps,
                judge,
                session,
                &buf[..count],
            ),
            Turn::Closed(session) => {
                self.close(session);
                Ok(Act::Went)
            }
            Turn::Idle => unreachable!(),
            Turn::Stop => unreachable!(),
        }
    }

    // Greets a new session, or turns it away where as many are open as may be.
    fn open<F: Floor>(&mut self, floor: &mut F, session: u64, peer: &[u8])
        requires sound { IsSoundAt (F.seen floor.old) session }
        requires line { All (λ b. b ≢ 10) peer.now }
        ensures opens { (site : Site) (m : State) → Stands site self.old m
            → IsOpened site m session peer.now (F.seen floor.old) (F.seen floor.new) self.new }
        ensures intake { self.new.intake ≡ self.old.intake }
        ensures crew { self.new.crew ≡ self.old.crew }
        ensures own { (F.seen floor.new).faults ≡ (F.seen floor.old).faults }
        ensures begun { (F.seen floor.new).begun ≡ (F.seen floor.old).begun }
    {
        if self.place_of(session).is_some() {
            return;
        }
        if self.is_full() {
            self.turn_away(floor, session);
            return;
        }
        match self.caller_of(session, peer) {
            Ok((caller, greeting)) => {
                if say(floor, session, &greeting) {
                    self.callers.push_reserved(caller);
                }
            }
            Err(_no_memory) => floor.hang_up(session),
        }
    }

    // Whether as many sessions are open as may be.
    #[tactic(auto, unfolding(crate::specs::Machine::most_guests))]
    fn is_full(&self) -> bool
        ensures { result ≡ nat_le most_guests (length self.now.callers.items) }
    {
        self.callers.len() >= MOST_SESSIONS
    }

    // Says 421 to a session more than may be open, and hangs it up. It takes no memory.
    fn turn_away<F: Floor>(&self, floor: &mut F, session: u64)
        requires sound { IsSoundAt (F.seen floor.old) session }
        ensures told { (whole : Bool)
            × Gains (F.seen floor.old).told (F.seen floor.new).told
            (heard_of (Sends session self.now.full whole ∷ HangsUp session ∷ [])) }
        ensures own { (F.seen floor.new).faults ≡ (F.seen floor.old).faults }
        ensures begun { (F.seen floor.new).begun ≡ (F.seen floor.old).begun }
    {
        // Whether it was told changes nothing: the session ends.
        let _told = part(floor, session, &self.full);
    }

    // A session of which nothing has come, and its greeting, and room for it among the others.
    fn caller_of(&mut self, session: u64, peer: &[u8]) -> Result<(Caller, Text), NoMemory>
        requires line { All (λ b. b ≢ 10) peer.now }
        ensures keeps { IfOk result
            (λ pair. (site : Site) → self.old.host ≡ site.host
            → Keeps site pair.0 (newcomer site.config session peer.now)) }
        ensures greeting { IfOk result
            (λ pair. (site : Site) → self.old.host ≡ site.host
            → pair.1 ≡ greeting_text (shown_host site.host)) }
        ensures room { IfOk result (λ _. vec_len self.new.callers < vec_capacity self.new.callers) }
        ensures same { self.new ≡ record self.old { callers = self.new.callers } }
        ensures callers { self.new.callers.items ≡ self.old.callers.items }
    {
        self.callers.reserve(1)?;
        let peer = Text::of(self.alloc, peer)?;
        let caller = Caller {
            number: session,
            session: Session::new(self.alloc, &self.host, &peer)?,
            lines: Lines::new(self.alloc),
        };
        let greeting = caller.session.greeting()?;
        Ok((caller, greeting))
    }

    // Where the session of that number is, if it is open. There are too few for an index.
    fn place_of(&self, session: u64) -> Option<usize>
        ensures { IsPlaceOf session self.now.callers.items result }
    {
        for (place, caller) in self.callers.iter().enumerate() {
            if caller.number == session {
                return Some(place);
            }
        }
        None
    }

    // Lets go of the session of that number, if it is open.
    fn close(&mut self, session: u64)
        ensures closes { (site : Site) (m : State) → Stands site self.old m
            → Stands site self.new (record m { guests = without session m.guests }) }
        ensures intake { self.new.intake ≡ self.old.intake }
        ensures crew { self.new.crew ≡ self.old.crew }
    {
        if let Some(place) = self.place_of(session) {
            self.leave(place);
        }
    }

    // Lets go of the session at a place.
    fn leave(&mut self, place: usize)
        requires { place < length self.old.callers.items }
        ensures callers { self.new.callers.items ≡ remove self.old.callers.items place }
        ensures same { self.new ≡ record self.old { callers = self.new.callers } }
    {
        // It is over.
        let _caller = self.callers.remove(place);
    }

    // Takes a piece of a session's bytes; one of a session that isn't open is dropped.
    fn piece<F: Floor, D: Spool, J: Judge>(
        &mut self,
        floor: &mut F,
        spool: &mut D,
        config: &Config,
        maps: &Maps,
        judge: &mut J,
        session: u64,
        piece: &[u8],
    ) -> Result<Act, CoreStop>
        requires sound { IsSoundAt (F.seen floor.old) session }
        requires standing { IsStanding self.old config.now maps.now }
        requires tallied { Tallies (table_of self.old) (D.seen spool.old) }
        ensures steps { (site : Site) (m : State) (side : Beside) → IsUnder site config.now maps.now
            → Stands site self.old m
            → Steps (judging (J.seen judge.old) (J.answers judge.old)) site m
            (Brings session piece.now)
            (seen (F.seen floor.old) (D.seen spool.old) side)
            (seen (F.seen floor.new) (D.seen spool.new) side)
            self.new result }
        ensures behaves { Behaves (judging (J.seen judge.old) (J.answers judge.old))
            (judging (J.seen judge.new) (J.answers judge.new)) (F.seen floor.old)
            (F.seen floor.new) (D.seen spool.old) (D.seen spool.new) (table_of self.new) result }
        ensures fixed { J.fixed judge.new ≡ J.fixed judge.old }
        ensures manned { (spawner : Spawned) → is_ok result ≡ true
            → IsManned (table_of self.old) spawner self.old.crew
            → IsManned (table_of self.new) spawner self.new.crew }
    {
        let Some(place) = self.place_of(session) else {
            return Ok(Act::Went);
        };
        let caller = &mut self.callers[place];
        let next = self
            .intake
            .feed(floor, spool, config, maps, judge, caller, piece)?;
        self.crew.wake();
        if !next.stays_open() {
            self.leave(place);
            return Ok(Act::Went);
        }
        Ok(Act::Went)
    }
}
