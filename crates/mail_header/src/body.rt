ghost use Rattle.std.specs.Prelude.{◌≡◌, ◌++◌, [], List, ℕ, OnOk, OnErr};
ghost use Rattle.mail_header.specs.Headers.{with_end};

use crate::grown::push_both;
use mail_base::{NoMemory, Text};
use std::alloc::Global;
use std::marker::Model;

/// The body so far: its lines, each with its CR LF.
#[derive(Drop)]
pub(crate) struct Body {
    bytes: Vec<u8>,
}

impl Model for Body {
    ghost Value = { List ℕ };

    ghost view = { λ b. b.bytes.items };
}

impl Body {
    /// No lines. It takes no memory.
    pub(crate) fn new(alloc: Global) -> Body
        ensures { result ≡ [] }
    {
        Body {
            bytes: Vec::new(alloc),
        }
    }

    /// Adds a line with its end. After `NoMemory` it is as before.
    pub(crate) fn add(&mut self, line: &[u8]) -> Result<(), NoMemory>
        ensures ok { OnOk result (self.new ≡ self.old ++ with_end line.now) }
        ensures err { OnErr result (self.new ≡ self.old) }
    {
        push_both(&mut self.bytes, line, b"\r\n")
    }

    /// The lines as a text. It takes no memory.
    pub(crate) fn into_text(self) -> Text
        ensures { result ≡ self }
    {
        Text::from_vec(self.bytes)
    }
}
