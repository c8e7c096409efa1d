ghost use Rattle.std.specs.Prelude.{◌≡◌, ◌+◌, ◌≤◌, ◌++◌, [], length, OnOk, OnErr};
ghost use Rattle.mail_submit.specs.Inputs as spec;
ghost use Rattle.mail_submit.specs.Parts.{Parts};
ghost use Rattle.mail_submit.specs.inner.Fronts.{IsFront, whole};

use crate::line::counted;
use mail_base::{NoMemory, Text};
use std::alloc::Global;
use std::marker::Model;
use std::mem;

/// The text of whole lines, and behind it the bytes of one that isn't whole.
#[derive(Drop)]
pub(crate) struct Buffer {
    bytes: Vec<u8>,
    /// Where the line begins that isn't whole.
    start: usize,
}

impl Model for Buffer {
    ghost use Rattle.std.specs.Prelude.{◌≤◌, take, drop, vec_len};
    ghost use Rattle.mail_submit.specs.Parts.{Parts};

    ghost Value = { Parts };

    ghost view = { λ b. record { text = take b.start b.bytes.items; line = drop b.start b.bytes.items } };

    ghost invariant = { λ b. b.start ≤ vec_len b.bytes };
}

/// How much a buffer held at a moment.
#[derive(Clone, Copy, Drop)]
pub(crate) struct Mark {
    pub(crate) text: usize,
    pub(crate) whole: usize,
}

impl Buffer {
    /// It takes no memory.
    pub(crate) fn new(alloc: Global) -> Buffer
        ensures { result ≡ record { text = []; line = [] } }
    {
        Buffer {
            bytes: Vec::new(alloc),
            start: 0,
        }
    }

    /// How many bytes the whole lines have.
    pub(crate) fn text_len(&self) -> usize
        ensures { result ≡ length self.now.text }
    {
        self.start
    }

    /// The bytes of the line that isn't whole.
    pub(crate) fn line(&self) -> &[u8]
        ensures { result.now ≡ self.now.line }
    {
        &self.bytes[self.start..]
    }

    /// What is held counts so many bytes.
    pub(crate) fn size(&self) -> usize
        ensures { result ≡ length self.now.text + spec.counted self.now.line }
    {
        self.start + counted(self.line())
    }

    pub(crate) fn mark(&self) -> Mark
        ensures text { result.text ≡ length self.now.text }
        ensures whole { result.whole ≡ length (whole self.now) }
    {
        Mark {
            text: self.start,
            whole: self.bytes.len(),
        }
    }

    /// Adds bytes to the line. After `NoMemory` all is as before.
    pub(crate) fn extend(&mut self, bytes: &[u8]) -> Result<(), NoMemory>
        ensures ok { OnOk result (self.new ≡ record self.old { line = self.old.line ++ bytes.now }) }
        ensures err { OnErr result (self.new ≡ self.old) }
    {
        Ok(self.bytes.extend_from_slice(bytes)?)
    }

    /// Makes the line whole by an end. After `NoMemory` all is as before.
    pub(crate) fn close(&mut self, end: &[u8]) -> Result<(), NoMemory>
        ensures ok { OnOk result (self.new
            ≡ record { text = self.old.text ++ (self.old.line ++ end.now); line = [] }) }
        ensures err { OnErr result (self.new ≡ self.old) }
    {
        self.bytes.extend_from_slice(end)?;
        self.start = self.bytes.len();
        Ok(())
    }

    /// Takes out what came since a mark.
    pub(crate) fn back_to(&mut self, mark: Mark)
        ensures { (earlier : Parts) → IsFront earlier self.old → mark.text ≡ length earlier.text
            → mark.whole ≡ length (whole earlier) → self.new ≡ earlier }
    {
        self.bytes.truncate(mark.whole);
        self.start = mark.text.min(self.bytes.len());
    }

    /// The whole lines. Nothing is left, and no memory is taken.
    pub(crate) fn take_text(&mut self) -> Text
        ensures text { result ≡ self.old.text }
        ensures none { self.new ≡ record { text = []; line = [] } }
    {
        let alloc = *self.bytes.allocator();
        self.bytes.truncate(self.start);
        self.start = 0;
        Text::from_vec(mem::replace(&mut self.bytes, Vec::new(alloc)))
    }
}
