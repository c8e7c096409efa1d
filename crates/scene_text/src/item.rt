use crate::Word;
use mail_base::{NoMemory, Text, TryCopy};
use std::alloc::Global;

/// A line of a scene, with the `|` lines below it: a name, as of a file, letters or numbers that
/// stand beside it, and the bytes of the lines.
pub struct Item {
    pub word: Word,
    pub line: u32,
    /// Whether another scene, or the run before, said it.
    pub taken: bool,
    /// Whether a line has no line end.
    pub cut: bool,
    pub number: u64,
    pub session: u64,
    /// A time that stands beside a number.
    pub seconds: u64,
    pub name: Text,
    pub beside: Text,
    pub body: Text,
}

// Written out, since a caller's proof goes through the parts of a derived drop at each way out.
impl Drop for Item {
    fn drop(self) {
        let Item {
            word: _,
            line: _,
            taken: _,
            cut: _,
            number: _,
            session: _,
            seconds: _,
            name: _,
            beside: _,
            body: _,
        } = self;
    }
}

impl Item {
    /// An item of that word alone.
    pub(crate) fn new(alloc: Global, word: Word, line: u32) -> Item {
        Item {
            word,
            line,
            taken: false,
            cut: false,
            number: 0,
            session: 0,
            seconds: 0,
            name: Text::new(alloc),
            beside: Text::new(alloc),
            body: Text::new(alloc),
        }
    }

    /// A copy that another scene takes over.
    pub(crate) fn taken_over(&self) -> Result<Item, NoMemory> {
        Ok(Item {
            word: self.word,
            line: self.line,
            taken: true,
            cut: self.cut,
            number: self.number,
            session: self.session,
            seconds: self.seconds,
            name: self.name.copy()?,
            beside: self.beside.copy()?,
            body: self.body.copy()?,
        })
    }
}
