ghost use Rattle.std.specs.Prelude.{◌≡◌};
ghost use Rattle.mail_base.specs.States.{has_failed, has_queued, is_dead, is_failed, is_finished, is_open, is_queued, needs_body, wants_bounce};

use crate::{Id, Kept, Marks, NoMemory, Note, Seq, Status, Text, TryCopy};

/// What became of a row.
#[derive(Drop)]
pub enum State {
    /// It is still tried; the note is that of its last attempt.
    Queued(Option<Note>),
    Sent,
    /// It awaits its return.
    Failed(Status, Note),
    /// It was returned by the entry of this id.
    Returned(Id),
    /// It failed as a row of a double bounce.
    Dead(Status, Note),
}

/// A recipient of an entry.
#[derive(Drop)]
pub struct Row {
    pub address: Text,
    pub primary: bool,
    pub state: State,
}

/// The entry that an entry is a child of, at a revision.
#[derive(Clone, Copy, Debug, PartialEq, Eq)]
pub struct Parent {
    pub id: Id,
    pub revision: u64,
}

/// What the control file of an entry says.
pub struct Control {
    pub revision: u64,
    /// `None` where the entry is no child.
    pub parent: Option<Parent>,
    pub group: Text,
    /// The moment of its creation.
    pub created: u64,
    /// The moment of the last try, or 0.
    pub last_try: u64,
    pub tries: u64,
    pub priority: i128,
    pub class: i64,
    pub marks: Marks,
    /// Whether it was declared as 8BITMIME.
    pub eight: bool,
    /// The sender, with its brackets.
    pub sender: Text,
    pub kept: Kept,
    pub rows: Seq<Row>,
    /// Each with its continuation lines, without the last line's end.
    pub headers: Seq<Text>,
}

// Written out, since a caller's proof goes through the parts of a derived drop at each way out.
impl Drop for Control {
    fn drop(self) {
        let Control {
            revision: _,
            parent: _,
            group: _,
            created: _,
            last_try: _,
            tries: _,
            priority: _,
            class: _,
            marks: _,
            eight: _,
            sender: _,
            kept: _,
            rows: _,
            headers: _,
        } = self;
    }
}

/// An entry of the queue.
#[derive(Drop)]
pub struct Entry {
    pub id: Id,
    pub dir: Text,
    pub control: Control,
}

/// An entry that is to be written.
#[derive(Drop)]
pub struct Draft {
    /// `None` for a new entry.
    pub id: Option<Id>,
    pub dir: Text,
    pub control: Control,
}

/// A file that the queue leaves alone.
#[derive(Drop)]
pub struct Stray {
    pub dir: Text,
    pub name: Text,
}

impl State {
    /// Whether something is still to be done for the row: it is tried, or awaits its return.
    pub fn is_open(&self) -> bool
        ensures { result ≡ is_open self.now }
    {
        matches!(self, State::Queued(_) | State::Failed(_, _))
    }

    /// Whether it is still tried.
    pub fn is_queued(&self) -> bool
        ensures { result ≡ is_queued self.now }
    {
        matches!(self, State::Queued(_))
    }

    /// Whether it awaits its return.
    pub fn is_failed(&self) -> bool
        ensures { result ≡ is_failed self.now }
    {
        matches!(self, State::Failed(_, _))
    }

    /// Whether it failed as a row of a double bounce.
    pub fn is_dead(&self) -> bool
        ensures { result ≡ is_dead self.now }
    {
        matches!(self, State::Dead(_, _))
    }
}

impl Control {
    /// Whether every row is done. It takes no memory.
    pub fn is_finished(&self) -> bool
        ensures { result ≡ is_finished self.now }
    {
        self.rows.items().iter().all(|row| !row.state.is_open())
    }

    /// Whether a row is still tried. It takes no memory.
    pub fn has_queued(&self) -> bool
        ensures { result ≡ has_queued self.now }
    {
        self.rows.items().iter().any(|row| row.state.is_queued())
    }

    /// Whether a row awaits its return. It takes no memory.
    pub fn has_failed(&self) -> bool
        ensures { result ≡ has_failed self.now }
    {
        self.rows.items().iter().any(|row| row.state.is_failed())
    }

    /// Whether rows that failed are returned by a bounce, and not dead instead. It takes no
    /// memory.
    pub fn wants_bounce(&self) -> bool
        ensures { result ≡ wants_bounce self.now }
    {
        !self.marks.double
    }

    /// Whether the body is wanted: a row is open or dead. It takes no memory.
    pub fn needs_body(&self) -> bool
        ensures { result ≡ needs_body self.now }
    {
        self.rows
            .items()
            .iter()
            .any(|row| row.state.is_open() || row.state.is_dead())
    }
}

impl Entry {
    /// Whether the entry is finished: every row is done. It takes no memory.
    pub fn finished(&self) -> bool
        ensures { result ≡ is_finished self.now.control }
    {
        self.control.is_finished()
    }
}

impl TryCopy for State {
    fn copy(&self) -> Result<State, NoMemory> {
        match self {
            State::Queued(note) => Ok(State::Queued(note.copy()?)),
            State::Sent => Ok(State::Sent),
            State::Failed(status, note) => Ok(State::Failed(status.copy()?, note.copy()?)),
            State::Returned(id) => Ok(State::Returned(*id)),
            State::Dead(status, note) => Ok(State::Dead(status.copy()?, note.copy()?)),
        }
    }
}

impl TryCopy for Row {
    fn copy(&self) -> Result<Row, NoMemory> {
        Ok(Row {
            address: self.address.copy()?,
            primary: self.primary,
            state: self.state.copy()?,
        })
    }
}

impl TryCopy for Control {
    fn copy(&self) -> Result<Control, NoMemory> {
        Ok(Control {
            revision: self.revision,
            parent: self.parent,
            group: self.group.copy()?,
            created: self.created,
            last_try: self.last_try,
            tries: self.tries,
            priority: self.priority,
            class: self.class,
            marks: self.marks,
            eight: self.eight,
            sender: self.sender.copy()?,
            kept: self.kept.copy()?,
            rows: self.rows.copy()?,
            headers: self.headers.copy()?,
        })
    }
}

impl TryCopy for Entry {
    fn copy(&self) -> Result<Entry, NoMemory> {
        Ok(Entry {
            id: self.id,
            dir: self.dir.copy()?,
            control: self.control.copy()?,
        })
    }
}

impl TryCopy for Draft {
    fn copy(&self) -> Result<Draft, NoMemory> {
        Ok(Draft {
            id: self.id,
            dir: self.dir.copy()?,
            control: self.control.copy()?,
        })
    }
}

impl TryCopy for Stray {
    fn copy(&self) -> Result<Stray, NoMemory> {
        Ok(Stray {
            dir: self.dir.copy()?,
            name: self.name.copy()?,
        })
    }
}
