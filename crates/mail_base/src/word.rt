ghost use Rattle.std.specs.Prelude.{◌≡◌, ◌<◌, IfOk};
ghost use Rattle.mail_base.specs.Texts.{text_place};
ghost use Rattle.std.specs.Str.{str_eq_ignore_ascii_case};

use crate::mask::text_place;
use crate::{NoMemory, Text, TryCopy};
use std::alloc::Global;
use std::marker::Model;
use std::rc::Rc;

/// A text that its copies share, so that a copy takes no memory. A contract sees it as its list of
/// bytes.
#[derive(Debug, Drop)]
pub struct Word {
    shared: Rc<Spelled>,
}

// A text with its place in masks.
#[derive(Debug, Drop)]
struct Spelled {
    text: Text,
    place: u32,
}

impl Model for Word {
    ghost use Rattle.std.specs.Prelude.{List, ℕ};

    ghost Value = { List ℕ };

    ghost view = { λ w. w.shared.value.text };

    ghost use Rattle.std.specs.Prelude.{◌≡◌};
    ghost use Rattle.mail_base.specs.Texts.{text_place};

    ghost invariant = { λ w. w.shared.value.place ≡ text_place w.shared.value.text };
}

impl Word {
    /// The word of these bytes.
    pub fn of(alloc: Global, bytes: &[u8]) -> Result<Word, NoMemory>
        ensures { IfOk result (λ word. word ≡ bytes.now) }
    {
        Word::shared(alloc, Text::of(alloc, bytes)?)
    }

    /// The word of a text, whose memory it keeps.
    pub fn shared(alloc: Global, text: Text) -> Result<Word, NoMemory>
        ensures { IfOk result (λ word. word ≡ text) }
    {
        let place = text_place(text.bytes());
        Ok(Word {
            shared: Rc::new(alloc, Spelled { text, place })?,
        })
    }

    pub fn text(&self) -> &Text
        ensures { result.now ≡ self.now }
    {
        &self.shared.text
    }

    pub fn bytes(&self) -> &[u8]
        ensures { result.now ≡ self.now }
    {
        self.shared.text.bytes()
    }

    /// The place of the word in a mask of tokens, without ASCII case.
    pub(crate) fn place(&self) -> u32
        ensures value { result ≡ text_place self.now }
        ensures within { result < 64 }
    {
        self.shared.place
    }

    /// Whether the two are equal without ASCII case.
    pub fn is_folded(&self, other: &Word) -> bool
        ensures { result ≡ str_eq_ignore_ascii_case self.now other.now }
    {
        self.bytes().eq_ignore_ascii_case(other.bytes())
    }
}

impl TryCopy for Word {
    // The count of those that share a text has an end too, far beyond any memory.
    fn copy(&self) -> Result<Word, NoMemory> {
        Ok(Word {
            shared: self.shared.clone()?,
        })
    }
}
