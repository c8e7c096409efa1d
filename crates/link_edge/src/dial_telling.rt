ghost use Rattle.std.specs.Prelude.{◌≡◌, ◌≤◌, ◌+◌, ◌++◌, ◌∷◌, [], true, length, count_by, vec_capacity, IfOk, OnOk, OnErr};
ghost use Rattle.link_edge.specs.Lines.{gives, is_open, is_sound};
ghost use Rattle.link_edge.specs.Pieces.{next_line};
ghost use Rattle.link_edge.specs.inner.KeptLines.{is_quiet};
ghost use Rattle.link_edge.specs.declared.dial_event.DialEvent.TheVariants.{Dialled, Unread, Unwritten, Closed};

use crate::telling::leave;
use crate::{DialEvent, Peer};
use mail_base::{NoMemory, TryCopy};
use std::alloc::Global;
use std::marker::Model;

/// The history of a dialer in memory. It keeps room for what can't fail: a close of each open line,
/// and a failed read or write of each of which none has failed. A contract sees the history.
#[derive(Drop)]
pub(crate) struct DialTelling {
    told: Vec<DialEvent>,
    live: Vec<u64>,
    sound: Vec<u64>,
    given: u64,
}

impl Model for DialTelling {
    ghost use Rattle.std.specs.Prelude.{List, vec_capacity};
    ghost use Rattle.link_edge.specs.declared.dial_event.DialEvent.{DialEvent};
    ghost use Rattle.link_edge.specs.inner.KeptLines.{IsKept};

    ghost Value = { List DialEvent };

    ghost view = { λ t. t.told.items };

    ghost invariant = { λ t. IsKept t.told.items t.live.items t.sound.items t.given
        (vec_capacity t.told) };
}

impl DialTelling {
    // A history with nothing in it. It takes no memory.
    pub(crate) fn new(alloc: Global) -> DialTelling
        ensures { result ≡ [] }
    {
        DialTelling {
            told: Vec::new(alloc),
            live: Vec::new(alloc),
            sound: Vec::new(alloc),
            given: 0,
        }
    }

    pub(crate) fn events(&self) -> &[DialEvent]
        ensures { result.now ≡ self.now }
    {
        &self.told
    }

    pub(crate) fn is_open(&self, line: u64) -> bool
        ensures { result ≡ is_open line self.now }
    {
        self.live.contains(&line)
    }

    pub(crate) fn is_sound(&self, line: u64) -> bool
        ensures { result ≡ is_sound line self.now }
    {
        self.sound.contains(&line)
    }

    // Tells that a peer was dialled, and gives the line its number.
    pub(crate) fn dial(&mut self, peer: &Peer, missed: u64) -> Result<u64, NoMemory>
        ensures told { IfOk result
            (λ line. self.new ≡ self.old ++ Dialled peer.now line missed ∷ []) }
        ensures number { IfOk result (λ line. line ≡ next_line self.old) }
        ensures unused { IfOk result (λ line. count_by (gives line) self.old ≡ 0) }
        ensures kept { OnErr result (self.new ≡ self.old) }
    {
        let peer = peer.copy()?;
        self.live.reserve(1)?;
        self.sound.reserve(1)?;
        let line = number_after(self.given, &self.told);
        let owed = owed(&self.told, &self.live, &self.sound);
        let event = DialEvent::Dialled { peer, line, missed };
        add(&mut self.told, owed, 2, event)?;
        self.live.push_reserved(line);
        self.sound.push_reserved(line);
        self.given = line;
        Ok(line)
    }

    // Tells an event that leaves each line as it is.
    pub(crate) fn pass(&mut self, event: DialEvent) -> Result<(), NoMemory>
        requires { is_quiet event ≡ true }
        ensures told { OnOk result (self.new ≡ self.old ++ event ∷ []) }
        ensures kept { OnErr result (self.new ≡ self.old) }
    {
        let owed = owed(&self.told, &self.live, &self.sound);
        add(&mut self.told, owed, 0, event)?;
        Ok(())
    }

    // Tells that a read failed.
    pub(crate) fn lose_read(&mut self, line: u64)
        requires { is_sound line self.old ≡ true }
        ensures { self.new ≡ self.old ++ Unread line ∷ [] }
    {
        leave(&mut self.sound, line);
        self.told.push_reserved(DialEvent::Unread(line));
    }

    // Tells that a write failed.
    pub(crate) fn lose_write(&mut self, line: u64)
        requires { is_sound line self.old ≡ true }
        ensures { self.new ≡ self.old ++ Unwritten line ∷ [] }
    {
        leave(&mut self.sound, line);
        self.told.push_reserved(DialEvent::Unwritten(line));
    }

    // Tells that a line was closed.
    pub(crate) fn close(&mut self, line: u64)
        requires { is_open line self.old ≡ true }
        ensures { self.new ≡ self.old ++ Closed line ∷ [] }
    {
        leave(&mut self.live, line);
        leave(&mut self.sound, line);
        self.told.push_reserved(DialEvent::Closed(line));
    }
}

// The number after that one, where no more lines were given than events are told.
fn number_after(number: u64, told: &[DialEvent]) -> u64
    requires { number ≤ length told.now }
    ensures { result ≡ number + 1 }
{
    // Only its range is used: the number after it fits.
    let _bound = told.len();
    number + 1
}

// How many entries are kept room for.
fn owed(told: &Vec<DialEvent>, live: &[u64], sound: &[u64]) -> usize
    requires { length told.now.items + length live.now + length sound.now ≤ vec_capacity told.now }
    ensures { result ≡ length live.now + length sound.now }
{
    // Only its range is used: the sum of what is in it fits.
    let _room = told.capacity();
    live.len() + sound.len()
}

// Adds an event, and keeps room for what is owed and more.
fn add(
    told: &mut Vec<DialEvent>,
    owed: usize,
    more: usize,
    event: DialEvent,
) -> Result<(), NoMemory>
    ensures told { OnOk result (told.new.items ≡ told.old.items ++ event ∷ []) }
    ensures room { OnOk result (length told.new.items + owed + more ≤ vec_capacity told.new) }
    ensures kept { OnErr result (told.new.items ≡ told.old.items) }
    ensures capacity { vec_capacity told.old ≤ vec_capacity told.new }
{
    let Some(entries) = owed.checked_add(more) else {
        return Err(NoMemory);
    };
    let Some(entries) = entries.checked_add(1) else {
        return Err(NoMemory);
    };
    told.reserve(entries)?;
    told.push_reserved(event);
    Ok(())
}
