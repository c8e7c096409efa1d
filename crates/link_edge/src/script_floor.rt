ghost use Rattle.std.specs.Prelude.{◌≡◌, ◌≤◌, ◌++◌, ◌∷◌, [], ℕ, List, length, take, drop, Some, true, false, not, ◌&&◌, is_ok, is_err, IfOk, IsErr, OnOk, OnErr, if◌then◌else◌};
ghost use Rattle.mail_base.specs.Histories.{HasCause};
ghost use Rattle.mail_base.specs.Scripts.{is_listed, after_call, one_more};
ghost use Rattle.link_edge.specs.Begins.{Never, begun_after};
ghost use Rattle.link_edge.specs.Heard.{KeepsCounts};
ghost use Rattle.link_edge.specs.Sessions.{Follows, is_open, is_sound, send_event};
ghost use Rattle.link_edge.specs.Steps.{IsHeard, later_steps, next_event, script_heard, session_count, unsaid};
ghost use Rattle.link_edge.specs.Turns.{Fits, GainsTurn, told_of};
ghost use Rattle.link_edge.specs.declared.event.FloorEvent.TheVariants.{HungUp, Sent, Unsent};

use crate::hearing::hear;
use crate::telling::Telling;
use crate::{Begun, Event, Floor, FloorEvent, Place, Step, Turn};
use mail_base::{Failed, NoMemory, Script, Seq, Text, TryCopy};
use std::alloc::Global;

/// A floor in memory, whose turns are a list of steps; after the last of them comes `Stop` alone.
/// It numbers its sessions itself, from 1. A step that can't be, as bytes of a session that is not
/// open or to which a send has failed, is an idle turn. It tells what happened.
///
/// Some of its calls fail: those of `begin` and `turn`, which are counted together from 0, as
/// `turns` lists them, and those of `send` as `sends` does. A call also fails where it finds no
/// memory, and `starved` counts those. A call that fails takes no step and sends nothing. The count
/// of a session is the number of sends to it that failed.
pub struct ScriptFloor {
    steps: Seq<Step>,
    at: usize,
    said: usize,
    told: Telling,
    begun: Begun,
    pub turns: Script,
    pub sends: Script,
    pub starved: u64,
}

// Written out, since a caller's proof goes through the parts of a derived drop at each way out.
impl Drop for ScriptFloor {
    fn drop(self) {
        let ScriptFloor {
            steps: _,
            at: _,
            said: _,
            told: _,
            begun: _,
            turns: _,
            sends: _,
            starved: _,
        } = self;
    }
}

impl ScriptFloor {
    /// A floor of these steps, and which of its calls are to fail: of `begin` and `turn`, and of
    /// `send`, each counted from 0. It takes no memory.
    pub fn new(
        alloc: Global,
        steps: Seq<Step>,
        failing_turns: Seq<u64>,
        failing_sends: Seq<u64>,
    ) -> ScriptFloor
        ensures steps { unsaid result.said (drop result.at result.steps) ≡ unsaid 0 steps }
        ensures told { result.told ≡ [] }
        ensures begun { result.begun ≡ Never }
        ensures turns { result.turns ≡ record { failing = failing_turns; calls = 0; faults = 0 } }
        ensures sends { result.sends ≡ record { failing = failing_sends; calls = 0; faults = 0 } }
        ensures starved { result.starved ≡ 0 }
    {
        ScriptFloor {
            steps,
            at: 0,
            said: 0,
            told: Telling::new(alloc),
            begun: Begun::never(),
            turns: Script::new(failing_turns),
            sends: Script::new(failing_sends),
            starved: 0,
        }
    }

    /// What happened so far, in order. It takes no memory.
    pub fn seen(&self) -> &[FloorEvent]
        ensures { result.now ≡ self.now.told }
    {
        self.told.events()
    }

    /// Whether a session is open. It takes no memory.
    pub fn is_open(&self, session: u64) -> bool
        ensures { result ≡ is_open session self.now.told }
    {
        self.told.is_open(session)
    }

    /// Whether a session is open and no send to it has failed. It takes no memory.
    pub fn is_sound(&self, session: u64) -> bool
        ensures { result ≡ is_sound session self.now.told }
    {
        self.told.is_sound(session)
    }

    // The turn of the next step. Where there is no memory to tell it, it is taken by the next turn.
    fn next(&mut self, buf: &mut [u8]) -> Result<Turn, NoMemory>
        requires { 64 ≤ length buf.old }
        ensures heard { IfOk result
            (λ turn. IsHeard self.old.told self.new.told
            (next_event self.old.told (length buf.old)
            (unsaid self.old.said (drop self.old.at self.old.steps))) turn buf.new) }
        ensures later { OnOk result
            (unsaid self.new.said (drop self.new.at self.new.steps)
            ≡ later_steps self.old.told (length buf.old)
            (unsaid self.old.said (drop self.old.at self.old.steps))) }
        ensures kept { OnErr result (self.new ≡ self.old) }
        ensures turns { self.new.turns ≡ self.old.turns }
        ensures sends { self.new.sends ≡ self.old.sends }
        ensures starved { self.new.starved ≡ self.old.starved }
        ensures begun { self.new.begun ≡ self.old.begun }
    {
        // Only its range is used: the place behind a step fits.
        let _bound = self.steps.len();
        let Some(step) = self.steps.get(self.at) else {
            self.told.pass(FloorEvent::Took(Event::Stops))?;
            return Ok(Turn::Stop);
        };
        let (turn, count) = hear(&mut self.told, step, self.said, buf)?;
        match count {
            Some(count) => self.said = count,
            None => {
                self.at += 1;
                self.said = 0;
            }
        }
        Ok(turn)
    }
}

impl ScriptFloor {
    // Takes a turn that isn't listed to fail.
    fn fed_turn(&mut self, buf: &mut [u8]) -> Result<Turn, Failed>
        requires { 64 ≤ length buf.old }
        ensures heard { IfOk result
            (λ turn. IsHeard self.old.told self.new.told
            (next_event self.old.told (length buf.old)
            (unsaid self.old.said (drop self.old.at self.old.steps))) turn buf.new) }
        ensures later { OnOk result
            (unsaid self.new.said (drop self.new.at self.new.steps)
            ≡ later_steps self.old.told (length buf.old)
            (unsaid self.old.said (drop self.old.at self.old.steps))) }
        ensures kept { OnErr result
            (unsaid self.new.said (drop self.new.at self.new.steps)
            ≡ unsaid self.old.said (drop self.old.at self.old.steps)) }
        ensures silent { OnErr result (self.new.told ≡ self.old.told) }
        ensures turns { self.new.turns
            ≡ record self.old.turns {
              faults = if is_err result then one_more self.old.turns.faults
                  else self.old.turns.faults;
            } }
        ensures sends { self.new.sends ≡ self.old.sends }
        ensures starved { self.new.starved
            ≡ (if is_err result then one_more self.old.starved else self.old.starved) }
        ensures begun { self.new.begun ≡ self.old.begun }
        ensures cause { HasCause self.old.turns.faults self.new.turns.faults result }
    {
        match self.next(buf) {
            Ok(turn) => Ok(turn),
            Err(NoMemory) => {
                self.turns.fail();
                self.starved = self.starved.saturating_add(1);
                Err(Failed)
            }
        }
    }

    // Takes a send that isn't listed to fail.
    fn fed_send(&mut self, session: u64, bytes: &Text) -> Result<(), Failed>
        requires sound { is_sound session self.old.told ≡ true }
        ensures told { self.new.told
            ≡ self.old.told ++ send_event session bytes.now (is_ok result) ∷ [] }
        ensures steps { self.new.steps ≡ self.old.steps }
        ensures at { self.new.at ≡ self.old.at }
        ensures said { self.new.said ≡ self.old.said }
        ensures turns { self.new.turns ≡ self.old.turns }
        ensures sends { self.new.sends
            ≡ record self.old.sends {
              faults = if is_err result then one_more self.old.sends.faults
                  else self.old.sends.faults;
            } }
        ensures starved { self.new.starved
            ≡ (if is_err result then one_more self.old.starved else self.old.starved) }
        ensures begun { self.new.begun ≡ self.old.begun }
    {
        if tell_sent(&mut self.told, session, bytes).is_err() {
            self.sends.fail();
            self.starved = self.starved.saturating_add(1);
            self.told.lose(session);
            return Err(Failed);
        }
        Ok(())
    }

    // Takes a send that is listed to fail.
    fn lose(&mut self, session: u64)
        requires sound { is_sound session self.old.told ≡ true }
        ensures told { self.new.told ≡ self.old.told ++ Unsent session ∷ [] }
        ensures steps { self.new.steps ≡ self.old.steps }
        ensures at { self.new.at ≡ self.old.at }
        ensures said { self.new.said ≡ self.old.said }
        ensures turns { self.new.turns ≡ self.old.turns }
        ensures sends { self.new.sends ≡ self.old.sends }
        ensures starved { self.new.starved ≡ self.old.starved }
        ensures begun { self.new.begun ≡ self.old.begun }
    {
        self.told.lose(session);
    }
}

// Tells that all of these bytes were sent.
fn tell_sent(told: &mut Telling, session: u64, bytes: &Text) -> Result<(), NoMemory>
    ensures told { OnOk result (told.new ≡ told.old ++ Sent session bytes.now ∷ []) }
    ensures kept { OnErr result (told.new ≡ told.old) }
{
    let bytes = bytes.copy()?;
    told.pass(FloorEvent::Sent(session, bytes))
}

impl Floor for ScriptFloor {
    ghost seen = { λ f. script_heard f.told f.begun f.turns.faults };

    fn begin(&mut self, place: &Place, most: u64) -> Result<(), Failed>
        ensures fails { is_err result ≡ is_listed self.old.turns }
        ensures counted { self.new
            ≡ record self.old {
              begun = begun_after self.old.begun place.now most;
              turns = after_call self.old.turns (is_err result);
            } }
        ensures cause { HasCause self.old.turns.faults self.new.turns.faults result }
        ensures calm { OnOk result (self.new.turns.faults ≡ self.old.turns.faults) }
    {
        self.begun.note(place, most);
        self.turns.call()
    }

    fn turn(&mut self, buf: &mut [u8]) -> Result<Turn, Failed>
        requires { 64 ≤ length buf.old }
        ensures listed { is_listed self.old.turns ≡ true → IsErr result }
        ensures counted { self.new.turns ≡ after_call self.old.turns (is_err result) }
        ensures starved { self.new.starved
            ≡ (if is_err result && not (is_listed self.old.turns) then one_more self.old.starved
            else self.old.starved) }
        ensures begun { self.new.begun ≡ self.old.begun }
        ensures heard { IfOk result
            (λ turn. IsHeard self.old.told self.new.told
            (next_event self.old.told (length buf.old)
            (unsaid self.old.said (drop self.old.at self.old.steps))) turn buf.new) }
        ensures later { OnOk result
            (unsaid self.new.said (drop self.new.at self.new.steps)
            ≡ later_steps self.old.told (length buf.old)
            (unsaid self.old.said (drop self.old.at self.old.steps))) }
        ensures kept { OnErr result
            (unsaid self.new.said (drop self.new.at self.new.steps)
            ≡ unsaid self.old.said (drop self.old.at self.old.steps)) }
        ensures silent { OnErr result (self.new.told ≡ self.old.told) }
        ensures sends { self.new.sends ≡ self.old.sends }
        ensures told { GainsTurn (Some self.old.told) (Some self.new.told) result buf.new }
        ensures fits { IfOk result (λ turn. Fits turn buf.new) }
        ensures follows { IfOk result (λ turn. Follows self.old.told (told_of turn buf.new)) }
        ensures cause { HasCause self.old.turns.faults self.new.turns.faults result }
        ensures calm { OnOk result (self.new.turns.faults ≡ self.old.turns.faults) }
        ensures counts { KeepsCounts
            (script_heard self.old.told self.old.begun self.old.turns.faults)
            (script_heard self.new.told self.new.begun self.new.turns.faults) }
    {
        self.turns.call()?;
        self.fed_turn(buf)
    }

    fn send(&mut self, session: u64, bytes: &Text) -> Result<(), Failed>
        requires sound { is_sound session self.old.told ≡ true }
        ensures listed { is_listed self.old.sends ≡ true → IsErr result }
        ensures counted { self.new.sends ≡ after_call self.old.sends (is_err result) }
        ensures starved { self.new.starved
            ≡ (if is_err result && not (is_listed self.old.sends) then one_more self.old.starved
            else self.old.starved) }
        ensures begun { self.new.begun ≡ self.old.begun }
        ensures told { self.new.told
            ≡ self.old.told ++ send_event session bytes.now (is_ok result) ∷ [] }
        ensures steps { unsaid self.new.said (drop self.new.at self.new.steps)
            ≡ unsaid self.old.said (drop self.old.at self.old.steps) }
        ensures turns { self.new.turns ≡ self.old.turns }
        ensures cause { HasCause (session_count self.old.told session)
            (session_count self.new.told session) result }
        ensures calm { OnOk result
            (session_count self.new.told session ≡ session_count self.old.told session) }
        ensures others { (other : ℕ)
            → session_count self.old.told other ≤ session_count self.new.told other }
    {
        if self.sends.call().is_err() {
            self.lose(session);
            return Err(Failed);
        }
        self.fed_send(session, bytes)
    }

    fn hang_up(&mut self, session: u64)
        requires live { is_open session self.old.told ≡ true }
        ensures told { self.new.told ≡ self.old.told ++ HungUp session ∷ [] }
        ensures steps { unsaid self.new.said (drop self.new.at self.new.steps)
            ≡ unsaid self.old.said (drop self.old.at self.old.steps) }
        ensures turns { self.new.turns ≡ self.old.turns }
        ensures sends { self.new.sends ≡ self.old.sends }
        ensures starved { self.new.starved ≡ self.old.starved }
        ensures begun { self.new.begun ≡ self.old.begun }
        ensures counts { KeepsCounts
            (script_heard self.old.told self.old.begun self.old.turns.faults)
            (script_heard self.new.told self.new.begun self.new.turns.faults) }
    {
        self.told.hang_up(session);
    }
}
