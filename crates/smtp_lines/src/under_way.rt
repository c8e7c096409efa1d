ghost use Rattle.std.specs.Prelude.{◌≡◌, ◌≤◌, ◌<◌, ◌+◌, ◌-◌, ℕ, List, [], ◌∷◌, ◌++◌, length, take, IfOk, OnOk, OnErr, IsTrue, false, true};
ghost use Rattle.mail_base.specs.Limits.{most_command};
ghost use Rattle.smtp_lines.specs.Stream.{ends_in_cr};
ghost use Rattle.smtp_lines.specs.Reader.{asked_after, most_kept, Under, Holds};
ghost use Rattle.smtp_lines.specs.inner.Readings.{cr_after, Takes};
ghost use Rattle.smtp_lines.specs.Views.{under};

use crate::line::{MOST_DATA, ends_in_cr};
use crate::reading::read;
use crate::{Line, Mode};
use mail_base::{MOST_COMMAND, NoMemory, Seq};
use std::alloc::Global;

/// What is kept of the line under way.
#[derive(Drop)]
pub(crate) struct Begun {
    mode: Mode,
    /// Whether the last line that was given asks, and the stream wasn't turned to a message since.
    may_turn: bool,
    kept: Vec<u8>,
    /// Whether its last byte is a CR.
    after_cr: bool,
}

impl Begun {
    pub(crate) fn new(alloc: Global) -> Begun
        ensures { under result
            ≡ record { mode = Mode.Commands; may_turn = false; kept = []; after_cr = false } }
    {
        Begun {
            mode: Mode::Commands,
            may_turn: false,
            kept: Vec::new(alloc),
            after_cr: false,
        }
    }

    pub(crate) fn may_turn(&self) -> bool
        ensures { result ≡ self.now.may_turn }
    {
        self.may_turn
    }

    /// Turns to a message.
    pub(crate) fn turn(&mut self)
        ensures { under self.new
            ≡ record (under self.old) { mode = Mode.Message; may_turn = false } }
    {
        self.mode = Mode::Message;
        self.may_turn = false;
    }

    /// Goes on with commands, and keeps no more of one under way than of any other. It takes no
    /// memory.
    #[tactic(auto, unfolding(mail_base::specs::Limits::most_command))]
    pub(crate) fn refuse(&mut self)
        ensures { under self.new
            ≡ record (under self.old) {
              may_turn = false;
              kept = take most_command (under self.old).kept;
            } }
    {
        self.kept.truncate(MOST_COMMAND);
        self.may_turn = false;
    }

    /// Takes the lines that end in bytes, up to one that asks, and tells how many of the bytes it
    /// took.
    pub(crate) fn take(&mut self, bytes: &[u8]) -> Result<(Seq<Line>, usize), NoMemory>
        ensures used { IfOk result (λ r. r.1 ≤ length bytes.now) }
        ensures some { IfOk result (λ r. IsTrue (asked_after false r.0) → 0 < r.1) }
        ensures all { IfOk result (λ r. asked_after false r.0 ≡ false → r.1 ≡ length bytes.now) }
        ensures turns { IfOk result
            (λ r. (under self.new).may_turn ≡ asked_after (under self.old).may_turn r.0) }
        ensures takes { (begun : List ℕ) → Holds (under self.old) begun
            → IfOk result (λ r. Takes (under self.old) (under self.new) begun bytes.now r.0 r.1) }
        ensures err { OnErr result (under self.new ≡ under self.old) }
    {
        let alloc = *self.kept.allocator();
        let gained = read(alloc, self.mode, &self.kept, self.after_cr, bytes)?;
        if gained.lines.is_empty() {
            self.go_on(bytes)?;
            return Ok((gained.lines, bytes.len()));
        }
        if gained.asks {
            self.begin(gained.mode, true, &[])?;
            return Ok((gained.lines, gained.used));
        }
        self.begin(gained.mode, false, &bytes[gained.used..])?;
        Ok((gained.lines, bytes.len()))
    }

    /// The line under way goes on with these bytes.
    fn go_on(&mut self, bytes: &[u8]) -> Result<(), NoMemory>
        ensures ok { OnOk result (under self.new ≡ record (under self.old) {
          kept = (under self.old).kept
              ++ take (most_kept (under self.old).mode (under self.old).may_turn
              - length (under self.old).kept) bytes.now;
          after_cr = cr_after (under self.old).after_cr bytes.now;
        }) }
        ensures err { OnErr result (under self.new ≡ under self.old) }
    {
        let room = most_kept(self.mode, self.may_turn).saturating_sub(self.kept.len());
        let more = room.min(bytes.len());
        self.kept.extend_from_slice(&bytes[..more])?;
        self.after_cr = cr_after(self.after_cr, bytes);
        Ok(())
    }

    /// A line begins with these bytes.
    fn begin(&mut self, mode: Mode, may_turn: bool, bytes: &[u8]) -> Result<(), NoMemory>
        ensures ok { OnOk result (under self.new ≡ record {
          mode = mode;
          may_turn = may_turn;
          kept = take (most_kept mode may_turn) bytes.now;
          after_cr = ends_in_cr bytes.now;
        }) }
        ensures err { OnErr result (under self.new ≡ under self.old) }
    {
        let most = most_kept(mode, may_turn).min(bytes.len());
        self.kept = Vec::from_slice(*self.kept.allocator(), &bytes[..most])?;
        self.mode = mode;
        self.may_turn = may_turn;
        self.after_cr = ends_in_cr(bytes);
        Ok(())
    }
}

#[tactic(auto, unfolding(crate::specs::Reader::most_kept, mail_base::specs::Limits::most_message, mail_base::specs::Limits::most_command))]
fn most_kept(mode: Mode, may_turn: bool) -> usize
    ensures { result ≡ most_kept mode may_turn }
{
    match mode {
        Mode::Message => MOST_DATA + 2,
        Mode::Commands => {
            if may_turn {
                MOST_DATA + 2
            } else {
                MOST_COMMAND
            }
        }
    }
}

fn cr_after(after_cr: bool, bytes: &[u8]) -> bool
    ensures { result ≡ cr_after after_cr bytes.now }
{
    if bytes.is_empty() {
        after_cr
    } else {
        ends_in_cr(bytes)
    }
}
