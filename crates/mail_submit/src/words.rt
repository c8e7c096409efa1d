ghost use Rattle.std.specs.Prelude.{◌≡◌, IfOk};
ghost use Rattle.mail_submit.specs.Said as spec;

use mail_base::{NoMemory, Seq, Text, without_angles};
use std::alloc::Global;

/// What the words of a run say of the mail that is handed over on its standard input.
#[derive(Debug, Drop, PartialEq, Eq)]
pub struct SubmitWords {
    /// `-t`: headers name the recipients.
    pub from_headers: bool,
    /// Neither `-i` nor `-oi`: the line `.` ends the input.
    pub dot: bool,
    /// `-f`: the sender, with one pair of brackets around it or without.
    pub sender: Option<Text>,
    /// The words that are addresses: the recipients, or with `-t` those that get nothing.
    pub addresses: Seq<Text>,
}

/// A text in angles, of which it has one pair already or none: the path of a sender.
pub fn bracketed(alloc: Global, text: &[u8]) -> Result<Text, NoMemory>
    ensures { IfOk result (λ all. all ≡ spec.bracketed text.now) }
{
    let mut all = Text::of(alloc, b"<")?;
    all.extend(without_angles(text))?;
    all.push(b'>')?;
    Ok(all)
}
