//! How a run is told: what devices were asked, what each step answered, and what entries say.

use link_edge::{DialEvent, Peer, ScriptDialer};
use mail_base::{Id, NoMemory, State, Text};
use queue_run::{Did, RunStop};
use queue_table::Table;
use spawn_edge::{Poll, ScriptSpawner, SpawnEvent, Start};
use spool_store::Held;
use std::alloc::{AllocError, Global};
use std::str;

/// What was told so far of a run, and of which events.
pub(crate) struct Teller {
    pub told: String,
    /// Whether besides what each step answers, and the calls that fail, it tells what devices are
    /// asked, and the states of the rows of an entry that changed.
    is_whole: bool,
    spawned: usize,
    dialled: usize,
}

impl Drop for Teller {
    fn drop(self) {
        let Teller {
            told: _,
            is_whole: _,
            spawned: _,
            dialled: _,
        } = self;
    }
}

impl Teller {
    pub(crate) fn new(alloc: Global, is_whole: bool) -> Teller {
        Teller {
            told: String::new(alloc),
            is_whole,
            spawned: 0,
            dialled: 0,
        }
    }

    /// Tells from now on of other devices.
    pub(crate) fn turn(&mut self) {
        self.spawned = 0;
        self.dialled = 0;
    }

    /// Tells that a spool can't be opened.
    pub(crate) fn unopened(&mut self) -> Result<(), NoMemory> {
        Ok(self.told.push_str("not opened ")?)
    }

    /// Tells what devices were asked in a step, its answer, and what it made of the rows of an entry
    /// that had this revision before.
    pub(crate) fn step(
        &mut self,
        spawner: &ScriptSpawner,
        dialer: &ScriptDialer,
        answer: &Result<Did, RunStop>,
        entry: Option<&Held>,
        before: u64,
    ) -> Result<(), AllocError> {
        for event in spawner.seen().get(self.spawned..).unwrap_or(&[]) {
            tell_spawned(&mut self.told, self.is_whole, event)?;
        }
        for event in dialer.seen().get(self.dialled..).unwrap_or(&[]) {
            tell_dialled(&mut self.told, self.is_whole, event)?;
        }
        self.spawned = spawner.seen().len();
        self.dialled = dialer.seen().len();
        self.told.push_str(word_of(answer))?;
        if self.is_whole && revision_of(entry) > before {
            self.told.push_str(":")?;
            tell_rows(&mut self.told, entry)?;
            self.told.push_str(";")?;
        }
        self.told.push_str(" ")
    }

    /// Tells each entry in short: id, revision and marks, and the states of its rows.
    pub(crate) fn entries(&mut self, table: &Table) -> Result<(), AllocError> {
        self.told.push_str("=")?;
        for held in table.entries() {
            tell_entry(&mut self.told, held)?;
        }
        Ok(())
    }
}

/// The entry of an id.
pub(crate) fn entry_of<'a>(table: &'a Table, id: &Id) -> Option<&'a Held> {
    for held in table.entries() {
        if held.entry.id == *id {
            return Some(held);
        }
    }
    None
}

/// The revision of an entry.
pub(crate) fn revision_of(entry: Option<&Held>) -> u64 {
    match entry {
        Some(held) => held.entry.control.revision,
        None => 0,
    }
}

fn str_of(bytes: &[u8]) -> &str {
    str::from_utf8(bytes).unwrap_or("?")
}

fn word_of(answer: &Result<Did, RunStop>) -> &'static str {
    match answer {
        Ok(Did::Began) => "began",
        Ok(Did::Waits) => "waits",
        Ok(Did::Recorded) => "recorded",
        Ok(Did::Gave) => "gave",
        Ok(Did::Free) => "free",
        Err(RunStop::SpoolFault) => "!spool",
        Err(RunStop::FilesFault) => "!files",
        Err(RunStop::IdsSpent) => "!ids",
        Err(RunStop::NoMemory) => "!memory",
    }
}

fn tell_start(told: &mut String, start: &Start) -> Result<(), AllocError> {
    told.push_str(str_of(start.program.bytes()))?;
    for arg in start.args.items() {
        let arg = str_of(arg.bytes());
        write!(told, "<{arg}>")?;
    }
    told.push_str(" ")
}

fn tell_spawned(told: &mut String, is_whole: bool, event: &SpawnEvent) -> Result<(), AllocError> {
    match event {
        SpawnEvent::Unbegun { .. } => told.push_str("!start "),
        SpawnEvent::Polled(_, Poll::Lost) => told.push_str("!poll "),
        SpawnEvent::Began { start, .. } if is_whole => tell_start(told, start),
        _ => Ok(()),
    }
}

fn tell_peer(told: &mut String, peer: &Peer) -> Result<(), AllocError> {
    match peer {
        Peer::Host { address, port } => {
            let address = str_of(address.bytes());
            write!(told, "{address}:{port} ")
        }
        Peer::Path(path) => {
            let path = str_of(path.bytes());
            write!(told, "{path} ")
        }
    }
}

// A line is told without its end, and a text of several as `..`.
fn tell_line(told: &mut String, bytes: &Text) -> Result<(), AllocError> {
    match str_of(bytes.bytes()).strip_suffix("\r\n") {
        Some(line) if line.contains('\n') => told.push_str("..|"),
        Some(line) => write!(told, "{line}|"),
        None => told.push_str("?|"),
    }
}

fn tell_dialled(told: &mut String, is_whole: bool, event: &DialEvent) -> Result<(), AllocError> {
    match event {
        DialEvent::Undialled { .. } => told.push_str("!dial "),
        DialEvent::Unread(_) => told.push_str("!read "),
        DialEvent::Unwritten(_) => told.push_str("!write "),
        DialEvent::Dialled { peer, .. } if is_whole => tell_peer(told, peer),
        DialEvent::Wrote(_, bytes) if is_whole => tell_line(told, bytes),
        DialEvent::Closed(_) if is_whole => told.push_str("closed "),
        _ => Ok(()),
    }
}

fn tell_entry(told: &mut String, held: &Held) -> Result<(), AllocError> {
    let id = held.entry.id.number();
    let revision = held.entry.control.revision;
    let marks = &held.entry.control.marks;
    write!(told, " {id}.{revision}")?;
    told.push_str(if marks.bounce { "b" } else { "" })?;
    told.push_str(if marks.double { "d" } else { "" })?;
    told.push_str(if marks.warned { "w" } else { "" })?;
    tell_rows(told, Some(held))?;
    told.push_str(";")
}

fn tell_rows(told: &mut String, entry: Option<&Held>) -> Result<(), AllocError> {
    let Some(held) = entry else {
        return told.push_str(" gone");
    };
    for row in held.entry.control.rows.items() {
        told.push_str(" ")?;
        tell_state(told, &row.state)?;
    }
    Ok(())
}

fn tell_state(told: &mut String, state: &State) -> Result<(), AllocError> {
    match state {
        State::Queued(None) => told.push_str("Q"),
        State::Queued(Some(note)) => tell_note(told, "Q(", "", note.bytes()),
        State::Sent => told.push_str("S"),
        State::Failed(status, note) => {
            tell_note(told, "F(", str_of(status.bytes()), note.bytes())
        }
        State::Returned(id) => {
            let number = id.number();
            write!(told, "R{number}")
        }
        State::Dead(status, note) => tell_note(told, "D(", str_of(status.bytes()), note.bytes()),
    }
}

fn tell_note(told: &mut String, letter: &str, status: &str, note: &[u8]) -> Result<(), AllocError> {
    let blank = if status.is_empty() { "" } else { " " };
    let note = str_of(note);
    write!(told, "{letter}{status}{blank}{note})")
}
