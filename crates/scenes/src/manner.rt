//! What children and peers do.

use mail_base::{Seq, Text};

/// What comes of a child: so many polls find it running, and then this.
#[derive(Clone, Copy)]
pub(crate) struct Fate {
    pub polls: u64,
    pub end: End,
}

/// How a child ends.
#[derive(Clone, Copy)]
pub(crate) enum End {
    /// With a status.
    Exit(i32),
    /// The poll fails.
    Lost,
    /// The start fails.
    NotStarted,
}

impl Fate {
    /// A child that can't be started.
    pub(crate) fn none() -> Fate {
        Fate {
            polls: 0,
            end: End::NotStarted,
        }
    }

    /// A child that ends at once, in good order.
    pub(crate) fn usual() -> Fate {
        Fate {
            polls: 0,
            end: End::Exit(0),
        }
    }
}

/// What a peer does: whether it can't be reached, what it says, piece by piece, whether it ended
/// the line behind that, and where the line breaks.
pub(crate) struct Manner {
    pub refuses: bool,
    pub pieces: Seq<Text>,
    pub ends: bool,
    pub breaks: Option<Break>,
}

// Written out, since a caller's proof goes through the parts of a derived drop at each way out.
impl Drop for Manner {
    fn drop(self) {
        let Manner {
            refuses: _,
            pieces: _,
            ends: _,
            breaks: _,
        } = self;
    }
}

/// Where a line breaks: when so many pieces were read, and so many lines were written behind the
/// last of them; or, where the number of lines isn't said, when more is to be read.
#[derive(Clone, Copy)]
pub(crate) struct Break {
    pub pieces: usize,
    pub lines: Option<u64>,
}

impl Manner {
    /// A peer that says this.
    pub(crate) fn saying(pieces: Seq<Text>) -> Manner {
        Manner {
            refuses: false,
            pieces,
            ends: false,
            breaks: None,
        }
    }
}
