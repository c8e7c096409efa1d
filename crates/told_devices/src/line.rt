ghost use Rattle.std.specs.Prelude.{◌≡◌, ◌≤◌, ◌+◌, ◌++◌, ◌∷◌, [], length, map};
ghost use Rattle.told_devices.specs.Lines.{shown, with_text};

use arrayvec::{ArrayString, ArrayVec};
use mail_base::first_bytes;
use std::fmt;
use std::fmt::Write;
use std::marker::Model;

/// The most bytes of a line without its end. A pipe takes one that is below 4,096 in one piece.
const LONGEST: usize = 1023;

/// A line that is made. A contract sees it as the list of its bytes, of which none is a control
/// character.
#[derive(Drop)]
pub(crate) struct Line {
    bytes: ArrayVec<u8, 1024>,
}

impl Model for Line {
    ghost use Rattle.std.specs.Prelude.{ℕ, List};
    ghost use Rattle.told_devices.specs.Lines.{IsLine};

    ghost Value = { List ℕ };

    ghost view = { λ l. l.bytes.items };

    ghost invariant = { λ l. IsLine l.bytes.items };
}

impl Line {
    /// One with nothing in it.
    pub(crate) fn new() -> Line
        ensures { result ≡ [] }
    {
        Line {
            bytes: ArrayVec::new(),
        }
    }

    /// Puts a text behind what stands there. What there is no room for is left out, and a control
    /// character is shown as `?`.
    pub(crate) fn put(&mut self, text: &[u8])
        ensures { self.new ≡ with_text self.old text.now }
    {
        let room = LONGEST - self.bytes.len();
        add(&mut self.bytes, first_bytes(text, room));
    }

    pub(crate) fn put_number(&mut self, number: u64) {
        if let Ok(digits) = spell(number) {
            self.put(digits.as_bytes());
        }
    }

    /// The line with its end.
    pub(crate) fn ended(self) -> ArrayVec<u8, 1024>
        ensures { result.items ≡ self ++ 10 ∷ [] }
    {
        let Line { bytes } = self;
        let mut bytes = bytes;
        bytes.push(b'\n');
        bytes
    }
}

// Puts a text for which there is room behind a line.
fn add(line: &mut ArrayVec<u8, 1024>, text: &[u8])
    requires { length line.old.items + length text.now ≤ 1023 }
    ensures { line.new.items ≡ line.old.items ++ map shown text.now }
{
    for byte in text {
        line.push(shown(*byte));
    }
}

fn shown(byte: u8) -> u8
    ensures { result ≡ shown byte }
{
    if byte < 32 || byte == 127 { b'?' } else { byte }
}

fn spell(number: u64) -> Result<ArrayString<20>, fmt::Error> {
    let mut digits = ArrayString::new();
    write!(digits, "{number}")?;
    Ok(digits)
}
