ghost use Rattle.std.specs.Prelude.{◌≡◌, ◌≤◌, ◌+◌, ◌++◌, ◌∷◌, [], true, length, count_by, vec_capacity, IfOk, OnOk, OnErr};
ghost use Rattle.spawn_edge.specs.Children.{begins, is_among, is_running, without};
ghost use Rattle.spawn_edge.specs.Lives.{next_child};
ghost use Rattle.spawn_edge.specs.inner.Kept.{end_of};
ghost use Rattle.spawn_edge.specs.declared.event.Poll.TheVariants.{Runs};
ghost use Rattle.spawn_edge.specs.declared.event.SpawnEvent.TheVariants.{Began, Unbegun, Polled};

use crate::{Poll, SpawnEvent, Start};
use mail_base::NoMemory;
use std::alloc::Global;
use std::marker::Model;

/// The history of a spawner in memory. It keeps room for what can't fail: the end of each child
/// that runs. A contract sees the history.
#[derive(Drop)]
pub(crate) struct Telling {
    told: Vec<SpawnEvent>,
    running: Vec<u64>,
    given: u64,
}

impl Model for Telling {
    ghost use Rattle.std.specs.Prelude.{List, vec_capacity};
    ghost use Rattle.spawn_edge.specs.declared.event.SpawnEvent.{SpawnEvent};
    ghost use Rattle.spawn_edge.specs.inner.Kept.{IsKept};

    ghost Value = { List SpawnEvent };

    ghost view = { λ t. t.told.items };

    ghost invariant = { λ t. IsKept t.told.items t.running.items t.given (vec_capacity t.told) };
}

impl Telling {
    // A history with nothing in it. It takes no memory.
    pub(crate) fn new(alloc: Global) -> Telling
        ensures { result ≡ [] }
    {
        Telling {
            told: Vec::new(alloc),
            running: Vec::new(alloc),
            given: 0,
        }
    }

    pub(crate) fn events(&self) -> &[SpawnEvent]
        ensures { result.now ≡ self.now }
    {
        &self.told
    }

    pub(crate) fn is_running(&self, child: u64) -> bool
        ensures { result ≡ is_running child self.now }
    {
        self.running.contains(&child)
    }

    // Tells that a program was started, and gives its child's number.
    pub(crate) fn begin(&mut self, start: Start, missed: u64) -> Result<u64, NoMemory>
        ensures told { IfOk result (λ child. self.new ≡ self.old ++ Began start child missed ∷ []) }
        ensures number { IfOk result (λ child. child ≡ next_child self.old) }
        ensures unused { IfOk result (λ child. count_by (begins child) self.old ≡ 0) }
        ensures kept { OnErr result (self.new ≡ self.old) }
    {
        self.running.reserve(1)?;
        let child = number_after(self.given, &self.told);
        let owed = owed(&self.told, &self.running);
        let event = SpawnEvent::Began {
            start,
            child,
            missed,
        };
        add(&mut self.told, owed, 1, event)?;
        self.running.push_reserved(child);
        self.given = child;
        Ok(child)
    }

    // Tells that a program couldn't be started.
    pub(crate) fn fail(&mut self, start: Start, missed: u64) -> Result<(), NoMemory>
        ensures told { OnOk result (self.new ≡ self.old ++ Unbegun start missed ∷ []) }
        ensures kept { OnErr result (self.new ≡ self.old) }
    {
        let owed = owed(&self.told, &self.running);
        add(
            &mut self.told,
            owed,
            0,
            SpawnEvent::Unbegun { start, missed },
        )?;
        Ok(())
    }

    // Tells that a child was found to run.
    pub(crate) fn pass(&mut self, child: u64) -> Result<(), NoMemory>
        ensures told { OnOk result (self.new ≡ self.old ++ Polled child Runs ∷ []) }
        ensures kept { OnErr result (self.new ≡ self.old) }
    {
        let owed = owed(&self.told, &self.running);
        add(
            &mut self.told,
            owed,
            0,
            SpawnEvent::Polled(child, Poll::Runs),
        )?;
        Ok(())
    }

    // Tells that a child was found to have ended with a status, or, without one, was lost.
    pub(crate) fn end(&mut self, child: u64, status: Option<i32>)
        requires { is_running child self.old ≡ true }
        ensures { self.new ≡ self.old ++ Polled child (end_of status) ∷ [] }
    {
        leave(&mut self.running, child);
        self.told
            .push_reserved(SpawnEvent::Polled(child, ended(status)));
    }
}

// A poll that finds a child ended, or lost it.
fn ended(status: Option<i32>) -> Poll
    ensures { result ≡ end_of status }
{
    match status {
        Some(status) => Poll::Over(status),
        None => Poll::Lost,
    }
}

// The number after that one, where no more children were started than events are told.
fn number_after(number: u64, told: &[SpawnEvent]) -> u64
    requires { number ≤ length told.now }
    ensures { result ≡ number + 1 }
{
    // Only its range is used: the number after it fits.
    let _bound = told.len();
    number + 1
}

// How many entries are kept room for.
fn owed(told: &Vec<SpawnEvent>, running: &[u64]) -> usize
    requires { length told.now.items + length running.now ≤ vec_capacity told.now }
    ensures { result ≡ length running.now }
{
    // Only its range is used: the sum of what is in it fits.
    let _room = told.capacity();
    running.len()
}

// Adds an event, and keeps room for what is owed and more.
fn add(
    told: &mut Vec<SpawnEvent>,
    owed: usize,
    more: usize,
    event: SpawnEvent,
) -> Result<(), NoMemory>
    ensures told { OnOk result (told.new.items ≡ told.old.items ++ event ∷ []) }
    ensures room { OnOk result (length told.new.items + owed + more ≤ vec_capacity told.new) }
    ensures kept { OnErr result (told.new.items ≡ told.old.items) }
    ensures capacity { vec_capacity told.old ≤ vec_capacity told.new }
{
    let Some(entries) = owed.checked_add(more) else {
        return Err(NoMemory);
    };
    let Some(entries) = entries.checked_add(1) else {
        return Err(NoMemory);
    };
    told.reserve(entries)?;
    told.push_reserved(event);
    Ok(())
}

// Takes a number out, wherever it stands.
fn leave(children: &mut Vec<u64>, child: u64)
    ensures without { children.new.items ≡ without child children.old.items }
    ensures one_less { is_among child children.old.items ≡ true
        → length children.new.items + 1 ≤ length children.old.items }
{
    children.retain(|other| *other != child);
}
