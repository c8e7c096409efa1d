use crate::Item;
use mail_base::Text;

/// A further way to play a scene.
#[derive(Clone, Copy)]
pub enum Play {
    /// In pieces of one byte.
    Cut,
    /// So many times in pieces of random sizes, by a seed.
    Random(u64, u64),
    /// Over a source and a sink.
    Stream,
    /// With each call of each device failing once.
    Failing,
    /// Stopped at each changing call of the queue, of which there are so many, and so many of them
    /// change what is there once the queue is opened again.
    Stopped(Option<u64>, Option<u64>),
}

/// A run of a scene.
#[derive(Drop)]
pub struct Run {
    pub items: Vec<Item>,
}

/// A scene: its runs, one at least, and the ways in which it is played besides.
pub struct Scene {
    pub name: Text,
    pub line: u32,
    pub runs: Vec<Run>,
    pub plays: Vec<Play>,
    /// Whether a `|` line may come next.
    pub(crate) is_open: bool,
    /// Whether nothing was said yet but its name.
    pub(crate) is_new: bool,
}

// Written out, since a caller's proof goes through the parts of a derived drop at each way out.
impl Drop for Scene {
    fn drop(self) {
        let Scene {
            name: _,
            line: _,
            runs: _,
            plays: _,
            is_open: _,
            is_new: _,
        } = self;
    }
}
