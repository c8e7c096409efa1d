ghost use Rattle.std.specs.Prelude.{◌≡◌, ◌≤◌, ◌<◌, ◌++◌, ◌∷◌, [], count_by, Some, true, false, not, ◌&&◌, is_err, IfOk, IsErr, OnOk, OnErr, if◌then◌else◌};
ghost use Rattle.std.specs.Option.{option_copied};
ghost use Rattle.mail_base.specs.Histories.{HasCause, Rose};
ghost use Rattle.mail_base.specs.Scripts.{is_listed, after_call, one_more};
ghost use Rattle.spawn_edge.specs.Children.{begins, is_running, poll_of, start_events, start_of};
ghost use Rattle.spawn_edge.specs.Lives.{finds_running, next_child, script_spawned, status_at, status_in};
ghost use Rattle.spawn_edge.specs.Spawned.{KeepsMissed};
ghost use Rattle.spawn_edge.specs.declared.event.SpawnEvent.TheVariants.{Began, Unbegun, Polled};

use crate::telling::Telling;
use crate::{Life, Poll, SpawnEvent, Spawner, Start};
use mail_base::{Failed, NoMemory, Script, Seq, Text, TryCopy};
use std::alloc::Global;

/// A spawner in memory, which starts nothing. It numbers its children itself, from 1, in the order
/// in which they are started, and they have these lives; those behind the last life end at once,
/// with the status 0. It tells what happened.
///
/// Its calls are counted together from 0, and those that are listed fail. A call also fails where
/// it finds no memory, and `starved` counts those. A start that failed for want of memory isn't
/// told, nor is one that was listed and found no memory for its texts: `missed` counts both until
/// the next start that is told. A poll that failed loses its child, for which no memory is taken.
pub struct ScriptSpawner {
    lives: Seq<Life>,
    told: Telling,
    pub missed: u64,
    pub calls: Script,
    pub starved: u64,
}

// Written out, since a caller's proof goes through the parts of a derived drop at each way out.
impl Drop for ScriptSpawner {
    fn drop(self) {
        let ScriptSpawner {
            lives: _,
            told: _,
            missed: _,
            calls: _,
            starved: _,
        } = self;
    }
}

impl ScriptSpawner {
    /// A spawner whose children have these lives, and which of its calls are to fail. It takes no
    /// memory.
    pub fn new(alloc: Global, lives: Seq<Life>, failing: Seq<u64>) -> ScriptSpawner
        ensures lives { result.lives ≡ lives }
        ensures told { result.told ≡ [] }
        ensures missed { result.missed ≡ 0 }
        ensures calls { result.calls ≡ record { failing = failing; calls = 0; faults = 0 } }
        ensures starved { result.starved ≡ 0 }
    {
        ScriptSpawner {
            lives,
            told: Telling::new(alloc),
            missed: 0,
            calls: Script::new(failing),
            starved: 0,
        }
    }

    /// What happened so far, in order. It takes no memory.
    pub fn seen(&self) -> &[SpawnEvent]
        ensures { result.now ≡ self.now.told }
    {
        self.told.events()
    }

    /// Whether a child was given and isn't over. It takes no memory.
    pub fn is_running(&self, child: u64) -> bool
        ensures { result ≡ is_running child self.now.told }
    {
        self.told.is_running(child)
    }

    // What a poll of a child finds.
    fn status(&self, child: u64) -> Option<i32>
        ensures { result ≡ status_at self.now.lives self.now.told child }
    {
        let place = child.saturating_sub(1) as usize;
        let polls = polls_of(self.told.events(), child);
        status_of(self.lives.get(place), polls)
    }

    // Counts want of memory as a fault of the last call.
    fn starve(&mut self)
        ensures counted { self.new ≡ record self.old {
          calls = record self.old.calls { faults = one_more self.old.calls.faults };
          starved = one_more self.old.starved;
        } }
        ensures later { self.old.calls.faults ≤ self.new.calls.faults }
        ensures rose { Rose self.old.calls.faults self.new.calls.faults }
    {
        self.calls.fail();
        self.starved = self.starved.saturating_add(1);
    }

    // Counts a start that failed and isn't told.
    fn miss(&mut self)
        ensures { self.new ≡ record self.old { missed = one_more self.old.missed } }
    {
        self.missed = self.missed.saturating_add(1);
    }
}

// What a poll finds of a child with that life, behind so many that found it running.
fn status_of(life: Option<&Life>, polls: usize) -> Option<i32>
    ensures { result ≡ status_in (option_copied life.entry) polls }
{
    match life {
        Some(life) => {
            if (polls as u64) < life.polls {
                None
            } else {
                Some(life.status)
            }
        }
        None => Some(0),
    }
}

// How many polls found that child running.
fn polls_of(events: &[SpawnEvent], child: u64) -> usize
    ensures { result ≡ count_by (finds_running child) events.now }
{
    events
        .iter()
        .filter(|event| finds_running(event, child))
        .count()
}

// Whether an event is a poll that found that child running.
fn finds_running(event: &SpawnEvent, child: u64) -> bool
    ensures { result ≡ finds_running child event.now }
{
    match event {
        SpawnEvent::Polled(other, Poll::Runs) => *other == child,
        _ => false,
    }
}

// A program with its arguments and its input, as they are told.
fn start_of(program: &Text, args: &Seq<Text>, input: &Text) -> Result<Start, NoMemory>
    ensures { IfOk result (λ start. start ≡ start_of program.now args.now input.now) }
{
    let program = program.copy()?;
    let args = args.copy()?;
    let input = input.copy()?;
    Ok(Start {
        program,
        args,
        input,
    })
}

// Tells that a program was started, and gives its child's number.
fn begin(
    told: &mut Telling,
    program: &Text,
    args: &Seq<Text>,
    input: &Text,
    missed: u64,
) -> Result<u64, NoMemory>
    ensures told { IfOk result (λ child. told.new
        ≡ told.old ++ Began (start_of program.now args.now input.now) child missed ∷ []) }
    ensures number { IfOk result (λ child. child ≡ next_child told.old) }
    ensures unused { IfOk result (λ child. count_by (begins child) told.old ≡ 0) }
    ensures kept { OnErr result (told.new ≡ told.old) }
{
    let start = start_of(program, args, input)?;
    told.begin(start, missed)
}

// Tells that a program couldn't be started.
fn fail(
    told: &mut Telling,
    program: &Text,
    args: &Seq<Text>,
    input: &Text,
    missed: u64,
) -> Result<(), NoMemory>
    ensures told { OnOk result (told.new
        ≡ told.old ++ Unbegun (start_of program.now args.now input.now) missed ∷ []) }
    ensures kept { OnErr result (told.new ≡ told.old) }
{
    let start = start_of(program, args, input)?;
    told.fail(start, missed)
}

impl Spawner for ScriptSpawner {
    ghost seen = { λ s. script_spawned s.told s.missed s.calls.faults };

    fn start(&mut self, program: &Text, args: &Seq<Text>, input: &Text) -> Result<u64, Failed>
        ensures listed { is_listed self.old.calls ≡ true → IsErr result }
        ensures counted { self.new.calls ≡ after_call self.old.calls (is_err result) }
        ensures starved { self.new.starved
            ≡ (if is_err result && not (is_listed self.old.calls) then one_more self.old.starved
            else self.old.starved) }
        ensures number { IfOk result (λ child. child ≡ next_child self.old.told) }
        ensures untold { is_listed self.old.calls ≡ false → IsErr result → 0 < self.new.missed }
        ensures lives { self.new.lives ≡ self.old.lives }
        ensures told { self.new.told
            ≡ self.old.told ++ start_events program.now args.now input.now self.old.missed
            self.new.missed result }
        ensures missed { KeepsMissed self.old.missed self.new.missed result }
        ensures once { IfOk result (λ child. count_by (begins child) self.old.told ≡ 0) }
        ensures cause { HasCause self.old.calls.faults self.new.calls.faults result }
        ensures calm { OnOk result (self.new.calls.faults ≡ self.old.calls.faults) }
    {
        if self.calls.call().is_err() {
            match fail(&mut self.told, program, args, input, self.missed) {
                Ok(()) => self.missed = 0,
                Err(NoMemory) => self.miss(),
            }
            return Err(Failed);
        }
        match begin(&mut self.told, program, args, input, self.missed) {
            Ok(child) => {
                self.missed = 0;
                Ok(child)
            }
            Err(NoMemory) => {
                self.starve();
                self.miss();
                Err(Failed)
            }
        }
    }

    fn finished(&mut self, child: u64) -> Result<Option<i32>, Failed>
        requires running { is_running child self.old.told ≡ true }
        ensures listed { is_listed self.old.calls ≡ true → IsErr result }
        ensures counted { self.new.calls ≡ after_call self.old.calls (is_err result) }
        ensures starved { self.new.starved
            ≡ (if is_err result && not (is_listed self.old.calls) then one_more self.old.starved
            else self.old.starved) }
        ensures status { IfOk result
            (λ status. status ≡ status_at self.old.lives self.old.told child) }
        ensures lives { self.new.lives ≡ self.old.lives }
        ensures told { self.new.told ≡ self.old.told ++ Polled child (poll_of result) ∷ [] }
        ensures missed { self.new.missed ≡ self.old.missed }
        ensures cause { HasCause self.old.calls.faults self.new.calls.faults result }
        ensures calm { OnOk result (self.new.calls.faults ≡ self.old.calls.faults) }
    {
        if self.calls.call().is_err() {
            self.told.end(child, None);
            return Err(Failed);
        }
        match self.status(child) {
            Some(status) => {
                self.told.end(child, Some(status));
                Ok(Some(status))
            }
            None => {
                if self.told.pass(child).is_err() {
                    self.starve();
                    self.told.end(child, None);
                    return Err(Failed);
                }
                Ok(None)
            }
        }
    }
}
