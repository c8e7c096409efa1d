use mail_base::{EdgeFault, NoMemory};

/// Why a scene can't be read or played.
#[derive(Clone, Copy)]
pub enum Bad {
    NoMemory,
    NoFile,
    Large,
    Unknown,
    NotOpen,
    NoScene,
    NoLike,
    NoEnd,
    NoBlock,
    NoCount,
    NoArgument,
    Deep,
    Nested,
    Escape,
    Number,
    Name,
    Twice,
    Unwanted,
    NoSession,
    NoChild,
    NoPeer,
    NoHeld,
    NoImage,
    Fails,
    Stops,
    Stream,
}

impl Bad {
    /// What is told of it.
    pub fn text(self) -> &'static str {
        match self {
            Bad::NoMemory => "no memory",
            Bad::NoFile => "it or a file beside it can't be read",
            Bad::Large => "a text is too long, or there are too many lines",
            Bad::Unknown => "no line begins with this word",
            Bad::NotOpen => "nothing above takes this line",
            Bad::NoScene => "no scene begins above",
            Bad::NoLike => "no scene of this name stands above, or not right below `scene`",
            Bad::NoEnd => "no `end` stands below",
            Bad::NoBlock => "no block of this name stands above",
            Bad::NoCount => "nothing repeats this line",
            Bad::NoArgument => "this use has no such argument",
            Bad::Deep => "uses and repeats are too deep",
            Bad::Nested => "a repeat or a block stands in another one",
            Bad::Escape => "no sign is written so",
            Bad::Number => "a number is missing or wrong",
            Bad::Name => "a name is missing, or something is too much",
            Bad::Twice => "this is given above",
            Bad::Unwanted => "nothing takes this line here",
            Bad::NoSession => "there is no such session",
            Bad::NoChild => "this line speaks of a child, and none stands above",
            Bad::NoPeer => "this line speaks of a peer, and none stands above",
            Bad::NoHeld => "no such file is held",
            Bad::NoImage => "a call is stopped halfway that writes no file",
            Bad::Fails => "this play is of a scene without fails and stops",
            Bad::Stops => "this play is of a scene without stops",
            Bad::Stream => "this play is of a run with one session of an unknown peer",
        }
    }
}

impl From<NoMemory> for Bad {
    fn from(_error: NoMemory) -> Bad {
        Bad::NoMemory
    }
}

impl From<EdgeFault> for Bad {
    fn from(error: EdgeFault) -> Bad {
        match error {
            EdgeFault::NoMemory => Bad::NoMemory,
            EdgeFault::Failed => Bad::NoFile,
        }
    }
}

/// Why a file is refused, and at which line.
#[derive(Clone, Copy)]
pub struct Refusal {
    pub line: u32,
    pub why: Bad,
}
