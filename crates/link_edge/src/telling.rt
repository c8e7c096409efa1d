ghost use Rattle.std.specs.Prelude.{◌≡◌, ◌≤◌, ◌<◌, ◌+◌, ◌++◌, ◌∷◌, [], true, List, ℕ, length, count_by, vec_capacity, IfOk, OnOk, OnErr};
ghost use Rattle.link_edge.specs.Sessions.{is_open, is_sound, is_among, without, opens};
ghost use Rattle.link_edge.specs.Tellings.{next_number};
ghost use Rattle.link_edge.specs.inner.Kept.{is_quiet};
ghost use Rattle.link_edge.specs.declared.event.Event.TheVariants.{Opens, Closes};
ghost use Rattle.link_edge.specs.declared.event.FloorEvent.TheVariants.{Took, Unsent, HungUp};

use crate::{Event, FloorEvent};
use mail_base::{NoMemory, Text};
use std::alloc::Global;
use std::marker::Model;

/// The history of a floor in memory. It keeps room for what can't fail: a hang-up of each open
/// session, and a failed send to each to which none has failed. A contract sees the history.
#[derive(Drop)]
pub(crate) struct Telling {
    told: Vec<FloorEvent>,
    live: Vec<u64>,
    sound: Vec<u64>,
    opened: u64,
}

impl Model for Telling {
    ghost use Rattle.std.specs.Prelude.{List, vec_capacity};
    ghost use Rattle.link_edge.specs.declared.event.FloorEvent.{FloorEvent};
    ghost use Rattle.link_edge.specs.inner.Kept.{IsKept};

    ghost Value = { List FloorEvent };

    ghost view = { λ t. t.told.items };

    ghost invariant = { λ t. IsKept t.told.items t.live.items t.sound.items t.opened
        (vec_capacity t.told) };
}

impl Telling {
    // A history with nothing in it. It takes no memory.
    pub(crate) fn new(alloc: Global) -> Telling
        ensures { result ≡ [] }
    {
        Telling {
            told: Vec::new(alloc),
            live: Vec::new(alloc),
            sound: Vec::new(alloc),
            opened: 0,
        }
    }

    pub(crate) fn events(&self) -> &[FloorEvent]
        ensures { result.now ≡ self.now }
    {
        &self.told
    }

    pub(crate) fn is_open(&self, session: u64) -> bool
        ensures { result ≡ is_open session self.now }
    {
        self.live.contains(&session)
    }

    pub(crate) fn is_sound(&self, session: u64) -> bool
        ensures { result ≡ is_sound session self.now }
    {
        self.sound.contains(&session)
    }

    // Tells that a session was opened, and gives it its number.
    pub(crate) fn open(&mut self, peer: &[u8]) -> Result<u64, NoMemory>
        ensures told { IfOk result
            (λ session. self.new ≡ self.old ++ Took (Opens session peer.now) ∷ []) }
        ensures number { IfOk result (λ session. session ≡ next_number self.old) }
        ensures unused { IfOk result (λ session. count_by (opens session) self.old ≡ 0) }
        ensures kept { OnErr result (self.new ≡ self.old) }
    {
        let peer = Text::of(*self.told.allocator(), peer)?;
        self.live.reserve(1)?;
        self.sound.reserve(1)?;
        let number = number_after(self.opened, &self.told);
        let owed = owed(&self.told, &self.live, &self.sound);
        add(
            &mut self.told,
            owed,
            2,
            FloorEvent::Took(Event::Opens(number, peer)),
        )?;
        self.live.push_reserved(number);
        self.sound.push_reserved(number);
        self.opened = number;
        Ok(number)
    }

    // Tells an event that leaves each session as it is.
    pub(crate) fn pass(&mut self, event: FloorEvent) -> Result<(), NoMemory>
        requires { is_quiet event ≡ true }
        ensures told { OnOk result (self.new ≡ self.old ++ event ∷ []) }
        ensures kept { OnErr result (self.new ≡ self.old) }
    {
        let owed = owed(&self.told, &self.live, &self.sound);
        add(&mut self.told, owed, 0, event)?;
        Ok(())
    }

    // Tells that a session was ended by its peer.
    pub(crate) fn close(&mut self, session: u64) -> Result<(), NoMemory>
        ensures told { OnOk result (self.new ≡ self.old ++ Took (Closes session) ∷ []) }
        ensures kept { OnErr result (self.new ≡ self.old) }
    {
        let owed = owed(&self.told, &self.live, &self.sound);
        add(
            &mut self.told,
            owed,
            0,
            FloorEvent::Took(Event::Closes(session)),
        )?;
        leave(&mut self.live, session);
        leave(&mut self.sound, session);
        Ok(())
    }

    // Tells that a send failed.
    pub(crate) fn lose(&mut self, session: u64)
        requires { is_sound session self.old ≡ true }
        ensures { self.new ≡ self.old ++ Unsent session ∷ [] }
    {
        leave(&mut self.sound, session);
        self.told.push_reserved(FloorEvent::Unsent(session));
    }

    // Tells that a session was hung up.
    pub(crate) fn hang_up(&mut self, session: u64)
        requires { is_open session self.old ≡ true }
        ensures { self.new ≡ self.old ++ HungUp session ∷ [] }
    {
        leave(&mut self.live, session);
        leave(&mut self.sound, session);
        self.told.push_reserved(FloorEvent::HungUp(session));
    }
}

// The number after that one, where no more sessions were opened than events are told.
fn number_after(number: u64, told: &[FloorEvent]) -> u64
    requires { number ≤ length told.now }
    ensures { result ≡ number + 1 }
{
    // Only its range is used: the number after it fits.
    let _bound = told.len();
    number + 1
}

// How many entries are kept room for.
fn owed(told: &Vec<FloorEvent>, live: &[u64], sound: &[u64]) -> usize
    requires { length told.now.items + length live.now + length sound.now ≤ vec_capacity told.now }
    ensures { result ≡ length live.now + length sound.now }
{
    // Only its range is used: the sum of what is in it fits.
    let _room = told.capacity();
    live.len() + sound.len()
}

// Adds an event, and keeps room for what is owed and more.
fn add(
    told: &mut Vec<FloorEvent>,
    owed: usize,
    more: usize,
    event: FloorEvent,
) -> Result<(), NoMemory>
    ensures told { OnOk result (told.new.items ≡ told.old.items ++ event ∷ []) }
    ensures room { OnOk result (length told.new.items + owed + more ≤ vec_capacity told.new) }
    ensures kept { OnErr result (told.new.items ≡ told.old.items) }
    ensures capacity { vec_capacity told.old ≤ vec_capacity told.new }
{
    let Some(entries) = owed.checked_add(more) else {
        return Err(NoMemory);
    };
    let Some(entries) = entries.checked_add(1) else {
        return Err(NoMemory);
    };
    told.reserve(entries)?;
    told.push_reserved(event);
    Ok(())
}

// Takes a number out, wherever it stands.
pub(crate) fn leave(sessions: &mut Vec<u64>, session: u64)
    ensures without { sessions.new.items ≡ without session sessions.old.items }
    ensures fewer { length sessions.new.items ≤ length sessions.old.items }
    ensures one_less { is_among session sessions.old.items ≡ true
        → length sessions.new.items + 1 ≤ length sessions.old.items }
{
    sessions.retain(|other| *other != session);
}
