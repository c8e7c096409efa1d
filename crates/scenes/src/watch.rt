// What the devices of a run tell each other: how far its steps are, and in which order programs and
// peers are begun.
ghost use Rattle.std.specs.Prelude.{None};

use crate::place::Place;
use link_edge::{Floor, Place as Door, Step, Turn};
use mail_base::{Failed, NoMemory, Seq, Text};
use mail_edge::Clock;
use scene_text::put_number;
use std::alloc::Global;
use std::cell::Cell;

/// How many steps of a floor began, at how many of them nothing came, and how many programs and
/// peers were begun.
#[derive(Drop)]
pub(crate) struct Watch {
    steps: Cell<usize>,
    rests: Cell<usize>,
    begun: Cell<u64>,
}

impl Watch {
    pub(crate) fn new() -> Watch {
        Watch {
            steps: Cell::new(0),
            rests: Cell::new(0),
            begun: Cell::new(0),
        }
    }

    /// How many steps began.
    pub(crate) fn steps(&self) -> usize {
        self.steps.get()
    }

    /// The place of a program or a peer among all that are begun.
    pub(crate) fn begin(&self) -> u64 {
        let place = self.begun.get();
        self.begun.set(place.saturating_add(1));
        place
    }

    fn take_step(&self, steps: usize, rests: bool) {
        self.steps.set(steps);
        if rests {
            self.rests.set(self.rests.get().saturating_add(1));
        }
    }
}

/// A floor of which others learn how far its steps are. It keeps where it was begun last, for how
/// many sessions.
#[derive(Drop)]
pub(crate) struct Watched<'a, L> {
    pub floor: L,
    pub steps: &'a Seq<Step>,
    pub place: Place,
    pub watch: &'a Watch,
    pub door: Text,
}

// A place, and how many sessions are wanted there.
fn door_of(alloc: Global, place: &Door, most: u64) -> Result<Text, NoMemory> {
    let mut text = Text::new(alloc);
    match place {
        Door::Standard => text.extend(b"standard ")?,
        Door::Port { address, port } => {
            text.extend(b"port ")?;
            if !address.is_empty() {
                text.extend(address.bytes())?;
                text.push(b' ')?;
            }
            put_number(&mut text, u64::from(*port))?;
            text.push(b' ')?;
        }
    }
    put_number(&mut text, most)?;
    Ok(text)
}

// Goes on behind a turn.
fn pass(place: &mut Place, steps: &Seq<Step>, watch: &Watch, turn: Turn) {
    let before = place.step;
    let brought = match turn {
        Turn::Piece(_session, count) => Some(count),
        _ => None,
    };
    *place = place.behind(steps, brought);
    let is_new = place.step != before;
    let step = steps.get(place.step.saturating_sub(1));
    let rests = is_new && matches!(step, Some(Step::Rest));
    watch.take_step(place.step, rests);
}

impl<L: Floor> Floor for Watched<'_, L> {
    ghost seen = { λ w. L.seen w.floor };

    fn begin(&mut self, place: &Door, most: u64) -> Result<(), Failed> {
        if let Ok(door) = door_of(self.door.allocator(), place, most) {
            self.door = door;
        }
        self.floor.begin(place, most)
    }

    fn turn(&mut self, buf: &mut [u8]) -> Result<Turn, Failed> {
        let turn = self.floor.turn(buf);
        if let Ok(turn) = &turn {
            pass(&mut self.place, self.steps, self.watch, *turn);
        }
        turn
    }

    fn send(&mut self, session: u64, bytes: &Text) -> Result<(), Failed> {
        self.floor.send(session, bytes)
    }

    fn hang_up(&mut self, session: u64) {
        self.floor.hang_up(session);
    }
}

/// A clock whose first reading is the start, and each later one a step above the one before, and
/// that goes on besides while nothing comes: by so many seconds at each of these rests.
#[derive(Drop)]
pub(crate) struct RunClock<'a> {
    pub start: u64,
    pub step: u64,
    pub readings: u64,
    pub rests: &'a [u64],
    pub watch: &'a Watch,
}

impl RunClock<'_> {
    // How long the rests were so far.
    fn rested(&self) -> u64 {
        let mut seconds = 0u64;
        for rest in self.rests.iter().take(self.watch.rests.get()) {
            seconds = seconds.saturating_add(*rest);
        }
        seconds
    }
}

impl Clock for RunClock<'_> {
    ghost seen = { λ c. record { told = None; readings = c.readings } };

    fn now(&mut self) -> u64 {
        let passed = self.step.saturating_mul(self.readings);
        let rested = self.rested();
        self.readings += 1;
        self.start.saturating_add(passed).saturating_add(rested)
    }
}
