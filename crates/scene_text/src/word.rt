/// What an item of a scene says.
#[derive(Clone, Copy, PartialEq, Eq)]
pub enum Word {
    Words,
    Config,
    Front,
    Behind,
    File,
    Held,
    Clock,
    Fail,
    Stop,
    Session,
    In,
    Piece,
    Close,
    Rest,
    HungUp,
    /// A program that is started.
    Child,
    /// How often it is found running.
    Runs,
    Exit,
    Lost,
    NotStarted,
    /// A host or a socket that is dialled.
    Peer,
    Refused,
    Broken,
    /// A line that is said.
    Say,
    /// A line that has to come back.
    Told,
    /// `..`
    Any,
    /// A line that has to come back, of those below `replies`.
    Listed,
    Replies,
    RepliesFirst,
    RepliesAny,
    Status,
    Queue,
    Stays,
    There,
    Absent,
    Lines,
    Count,
    NothingElse,
    Calls,
    Begins,
}

/// A kind of items: a scene's own take the place of those that it took over.
#[derive(Clone, Copy, PartialEq, Eq)]
pub(crate) enum Kind {
    Single,
    Named,
    Transcript,
    Replies,
    Wants,
}

impl Word {
    pub(crate) fn kind(self) -> Kind {
        match self {
            Word::Words | Word::Config | Word::Front | Word::Behind => Kind::Single,
            Word::Clock | Word::Stop | Word::Status => Kind::Single,
            Word::File | Word::Held | Word::Fail => Kind::Named,
            Word::Listed | Word::Replies | Word::RepliesFirst | Word::RepliesAny => Kind::Replies,
            _ => self.later_kind(),
        }
    }

    fn later_kind(self) -> Kind {
        match self {
            Word::Queue
            | Word::Stays
            | Word::There
            | Word::Absent
            | Word::Lines
            | Word::Count
            | Word::NothingElse
            | Word::Calls
            | Word::Begins => Kind::Wants,
            _ => Kind::Transcript,
        }
    }

    /// Whether `|` lines may stand below it.
    pub(crate) fn takes_lines(self) -> bool {
        matches!(
            self,
            Word::Config
                | Word::Front
                | Word::Behind
                | Word::File
                | Word::Held
                | Word::Queue
                | Word::Lines
        )
    }

    /// Whether it is kept by `then`.
    pub(crate) fn stays(self) -> bool {
        matches!(
            self,
            Word::Words | Word::Config | Word::Front | Word::Behind | Word::File | Word::Clock
        )
    }

    /// Whether it is a case.
    pub fn is_case(self) -> bool {
        matches!(
            self,
            Word::Told | Word::Listed | Word::Child | Word::Peer | Word::Status
        ) || self.kind() == Kind::Wants
    }
}

/// A device.
#[derive(Clone, Copy, PartialEq, Eq)]
pub enum Device {
    Files,
    Spool,
    Turns,
    Sends,
    Reads,
    Writes,
    Children,
    Peers,
}

static DEVICES: [Device; 8] = [
    Device::Files,
    Device::Spool,
    Device::Turns,
    Device::Sends,
    Device::Reads,
    Device::Writes,
    Device::Children,
    Device::Peers,
];

impl Device {
    /// The device of that name.
    pub fn of(name: &[u8]) -> Option<Device> {
        for device in DEVICES.iter() {
            if device.name().as_bytes() == name {
                return Some(*device);
            }
        }
        None
    }

    pub fn name(self) -> &'static str {
        match self {
            Device::Files => "files",
            Device::Spool => "spool",
            Device::Turns => "turns",
            Device::Sends => "sends",
            Device::Reads => "reads",
            Device::Writes => "writes",
            Device::Children => "children",
            Device::Peers => "peers",
        }
    }
}
