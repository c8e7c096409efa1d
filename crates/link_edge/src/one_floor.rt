ghost use Rattle.std.specs.Prelude.{◌≡◌, ◌≢◌, ◌≤◌, ◌<◌, ℕ, [], length, take, Option, None, IfOk, IsOk, OnOk, OnErr, IsErr, nat_eq, if◌then◌else◌, ◌-◌, ◌^◌};
ghost use Rattle.mail_base.specs.Histories.{Gains, HasCause};
ghost use Rattle.mail_edge.specs.Moves.{GainsPart};
ghost use Rattle.link_edge.specs.Begins.{Never, begun_after};
ghost use Rattle.link_edge.specs.Single.{Hears, one_heard};
ghost use Rattle.link_edge.specs.Turns.{Fits};
ghost use Rattle.link_edge.specs.declared.one_floor.Stage.TheVariants.{Before, During, After};
ghost use Rattle.link_edge.specs.declared.turn.Turn.TheVariants.{Closed};

use crate::{Begun, Floor, Place, Turn};
use mail_base::{Failed, Text};
use mail_edge::{Sink, Source};

/// How far the one session of a [`OneFloor`] is.
#[derive(Clone, Copy, Debug, PartialEq, Eq)]
pub enum Stage {
    /// It is not opened yet.
    Before,
    /// It is open.
    During,
    /// It was ended by its peer or hung up.
    After,
}

/// One session, number 1, over a source and a sink: its opening, the bytes that the source gives,
/// whole and in order, its end, and then `Stop` alone. A source that ends or fails ends the
/// session. Its own count of faults is 0, and its session's is the sink's. A send to any other
/// number fails and writes nothing; the count of those stands at the greatest `u64`. It tells
/// nothing, and takes no memory.
#[derive(Drop)]
pub struct OneFloor<I, O> {
    pub source: I,
    pub sink: O,
    pub stage: Stage,
    begun: Begun,
}

impl<I: Source, O: Sink> OneFloor<I, O> {
    /// A floor whose session is not opened yet.
    pub fn new(source: I, sink: O) -> OneFloor<I, O>
        ensures { result ≡ record { source = source; sink = sink; stage = Before; begun = Never } }
    {
        OneFloor {
            source,
            sink,
            stage: Stage::Before,
            begun: Begun::never(),
        }
    }

    /// The source and the sink, as they are now.
    pub fn into_parts(self) -> (I, O)
        ensures { result ≡ record { 0 = self.source; 1 = self.sink } }
    {
        (self.source, self.sink)
    }

    // A turn of the open session.
    fn hear(&mut self, buf: &mut [u8]) -> Turn
        requires during { self.old.stage ≡ During }
        requires room { 0 < length buf.old }
        ensures sink { self.new.sink ≡ self.old.sink }
        ensures begun { self.new.begun ≡ self.old.begun }
        ensures fits { Fits result buf.new }
        ensures heard { Hears self.old.stage self.new.stage result (I.seen self.old.source)
            (I.seen self.new.source) buf.new }
    {
        let Ok(count) = self.source.take(buf) else {
            self.stage = Stage::After;
            return Turn::Closed(1);
        };
        if count == 0 {
            self.stage = Stage::After;
            return Turn::Closed(1);
        }
        Turn::Piece(1, count)
    }
}

impl<I: Source, O: Sink> Floor for OneFloor<I, O> {
    ghost seen = { λ f. one_heard f.begun (O.seen f.sink) };

    fn begin(&mut self, place: &Place, most: u64) -> Result<(), Failed>
        ensures sure { IsOk result }
        ensures same { self.new
            ≡ record self.old { begun = begun_after self.old.begun place.now most } }
    {
        self.begun.note(place, most);
        Ok(())
    }

    fn turn(&mut self, buf: &mut [u8]) -> Result<Turn, Failed>
        requires { 64 ≤ length buf.old }
        ensures sure { IsOk result }
        ensures sink { self.new.sink ≡ self.old.sink }
        ensures begun { self.new.begun ≡ self.old.begun }
        ensures fits { IfOk result (λ turn. Fits turn buf.new) }
        ensures heard { IfOk result
            (λ turn. Hears self.old.stage self.new.stage turn (I.seen self.old.source)
            (I.seen self.new.source) buf.new) }
    {
        match self.stage {
            Stage::Before => {
                self.stage = Stage::During;
                Ok(Turn::Opened(1, 0))
            }
            Stage::During => Ok(self.hear(buf)),
            Stage::After => Ok(Turn::Stop),
        }
    }

    fn send(&mut self, session: u64, bytes: &Text) -> Result<(), Failed>
        ensures stage { self.new.stage ≡ self.old.stage }
        ensures begun { self.new.begun ≡ self.old.begun }
        ensures source { self.new.source ≡ self.old.source }
        ensures written { session ≡ 1
            → OnOk result (Gains (O.seen self.old.sink).written
            (O.seen self.new.sink).written bytes.now) }
        ensures part { session ≡ 1
            → OnErr result (GainsPart (O.seen self.old.sink).written
            (O.seen self.new.sink).written bytes.now) }
        ensures cause { HasCause
            ((one_heard self.old.begun (O.seen self.old.sink)).session_faults session)
            ((one_heard self.new.begun (O.seen self.new.sink)).session_faults session) result }
        ensures calm { OnOk result
            ((one_heard self.new.begun (O.seen self.new.sink)).session_faults session
            ≡ (one_heard self.old.begun (O.seen self.old.sink)).session_faults session) }
        ensures others { (other : ℕ)
            → (one_heard self.old.begun (O.seen self.old.sink)).session_faults other
            ≤ (one_heard self.new.begun (O.seen self.new.sink)).session_faults other }
        ensures strange { session ≢ 1 → self.new.sink ≡ self.old.sink }
        ensures refused { session ≢ 1 → IsErr result }
    {
        if session != 1 {
            return Err(Failed);
        }
        self.sink.give(bytes.bytes())
    }

    fn hang_up(&mut self, session: u64)
        ensures over { session ≡ 1 → self.new ≡ record self.old { stage = After } }
        ensures strange { session ≢ 1 → self.new ≡ self.old }
    {
        if session == 1 {
            self.stage = Stage::After;
        }
    }
}
