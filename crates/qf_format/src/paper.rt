ghost use Rattle.std.specs.Prelude.{◌≡◌, ◌≤◌, [], IfOk};
ghost use Rattle.qf_format.specs.Sheets.{Sheet, Fits, with_more};

use mail_base::{NoMemory, Text};
use std::alloc::Global;
use std::marker::Model;

/// Bytes with room that was reserved for them. A contract sees it as its bytes and its room, the
/// most bytes that it takes.
#[derive(Drop)]
pub struct Paper {
    bytes: Vec<u8>,
    room: usize,
}

impl Model for Paper {
    ghost use Rattle.std.specs.Prelude.{◌≤◌};
    ghost use Rattle.std.specs.Vec.{vec_capacity};
    ghost use Rattle.qf_format.specs.Sheets.{Sheet};

    ghost Value = { Sheet };

    ghost view = { λ p. record { bytes = p.bytes.items; room = p.room } };

    ghost invariant = { λ p. p.room ≤ vec_capacity p.bytes };
}

impl Paper {
    /// An empty paper with room for that many bytes.
    pub fn with_room(alloc: Global, room: usize) -> Result<Paper, NoMemory>
        ensures { IfOk result (λ paper. paper ≡ record { bytes = []; room = room }) }
    {
        Ok(Paper {
            bytes: Vec::with_capacity(alloc, room)?,
            room,
        })
    }

    /// Adds bytes at the end, for which there is room. It takes no memory.
    pub fn put(&mut self, more: &[u8])
        requires { Fits self.old more.now }
        ensures { self.new ≡ with_more self.old more.now }
    {
        let is_put = self.bytes.extend_from_slice(more).is_ok();
        prove!(is_put);
    }

    /// Takes all bytes out, and keeps their room.
    pub fn clear(&mut self)
        ensures { self.new ≡ record self.old { bytes = [] } }
    {
        self.bytes.clear();
    }

    pub fn bytes(&self) -> &[u8]
        ensures { result.now ≡ self.now.bytes }
    {
        &self.bytes
    }

    /// The most bytes that it takes.
    pub fn room(&self) -> usize
        ensures { result ≡ self.now.room }
    {
        self.room
    }

    /// The bytes as a text. It takes no memory.
    pub fn into_text(self) -> Text
        ensures { result ≡ self.bytes }
    {
        Text::from_vec(self.bytes)
    }
}
