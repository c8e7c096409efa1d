ghost use Rattle.std.specs.Prelude.{◌≡◌, ◌≤◌, ◌<◌, ◌++◌, ◌∷◌, [], length, take, drop, count_by, true, false, not, ◌&&◌, is_ok, is_err, IfOk, IsErr, OnOk, OnErr, if◌then◌else◌};
ghost use Rattle.mail_base.specs.Histories.{HasCause, Rose};
ghost use Rattle.mail_base.specs.Scripts.{is_listed, after_call, one_more};
ghost use Rattle.link_edge.specs.Dials.{KeepsMissed};
ghost use Rattle.link_edge.specs.Lines.{dial_events, gives, is_open, is_sound, read_event, write_event};
ghost use Rattle.link_edge.specs.Pieces.{later_pieces, next_bytes, next_line, piece_rest, script_dials, without_read};
ghost use Rattle.link_edge.specs.inner.Parts.{piece_at};
ghost use Rattle.link_edge.specs.declared.dial_event.DialEvent.TheVariants.{Undialled, Read, Wrote, Closed};

use crate::dial_telling::DialTelling;
use crate::hearing::behind;
use crate::{DialEvent, Dialer, Peer};
use mail_base::{Failed, NoMemory, Script, Seq, Text, TryCopy, copy_front};
use std::alloc::Global;

/// A dialer in memory, which dials nobody. Its peers say these pieces, whatever is written to them:
/// one a read, or in more than one read where the buffer is too small; an empty piece is the end of
/// a line, and so is each read behind the last piece. It numbers its lines itself, from 1. It tells
/// what happened.
///
/// Its dials, reads and writes are counted together from 0, and those that are listed fail. A call
/// also fails where it finds no memory, and `starved` counts those. A call that fails reads and
/// writes nothing. A dial that failed for want of memory isn't told, nor is one that was listed and
/// found no memory for its peer: `missed` counts both until the next dial that is told.
pub struct ScriptDialer {
    pieces: Seq<Text>,
    at: usize,
    said: usize,
    told: DialTelling,
    pub missed: u64,
    pub calls: Script,
    pub starved: u64,
}

// Written out, since a caller's proof goes through the parts of a derived drop at each way out.
impl Drop for ScriptDialer {
    fn drop(self) {
        let ScriptDialer {
            pieces: _,
            at: _,
            said: _,
            told: _,
            missed: _,
            calls: _,
            starved: _,
        } = self;
    }
}

impl ScriptDialer {
    /// A dialer whose peers say these pieces, and which of its calls are to fail. It takes no
    /// memory.
    pub fn new(alloc: Global, pieces: Seq<Text>, failing: Seq<u64>) -> ScriptDialer
        ensures pieces { without_read result.said (drop result.at result.pieces)
            ≡ without_read 0 pieces }
        ensures told { result.told ≡ [] }
        ensures missed { result.missed ≡ 0 }
        ensures calls { result.calls ≡ record { failing = failing; calls = 0; faults = 0 } }
        ensures starved { result.starved ≡ 0 }
    {
        ScriptDialer {
            pieces,
            at: 0,
            said: 0,
            told: DialTelling::new(alloc),
            missed: 0,
            calls: Script::new(failing),
            starved: 0,
        }
    }

    /// What happened so far, in order. It takes no memory.
    pub fn seen(&self) -> &[DialEvent]
        ensures { result.now ≡ self.now.told }
    {
        self.told.events()
    }

    /// Whether a line is open. It takes no memory.
    pub fn is_open(&self, line: u64) -> bool
        ensures { result ≡ is_open line self.now.told }
    {
        self.told.is_open(line)
    }

    /// Whether a line is open and no read or write of it has failed. It takes no memory.
    pub fn is_sound(&self, line: u64) -> bool
        ensures { result ≡ is_sound line self.now.told }
    {
        self.told.is_sound(line)
    }

    // Counts want of memory as a fault of the last call.
    fn starve(&mut self)
        ensures counted { self.new ≡ record self.old {
          calls = record self.old.calls { faults = one_more self.old.calls.faults };
          starved = one_more self.old.starved;
        } }
        ensures later { self.old.calls.faults ≤ self.new.calls.faults }
        ensures rose { Rose self.old.calls.faults self.new.calls.faults }
    {
        self.calls.fail();
        self.starved = self.starved.saturating_add(1);
    }

    // Counts a dial that failed and isn't told.
    fn miss(&mut self)
        ensures { self.new ≡ record self.old { missed = one_more self.old.missed } }
    {
        self.missed = self.missed.saturating_add(1);
    }

    // Reads the next bytes. Where there is no memory to tell them, nothing changes but the buffer.
    fn hear(&mut self, line: u64, buf: &mut [u8]) -> Result<usize, NoMemory>
        ensures count { IfOk result (λ count. count ≤ length buf.new) }
        ensures heard { IfOk result
            (λ count. take count buf.new ≡ next_bytes (length buf.old)
            (without_read self.old.said (drop self.old.at self.old.pieces))) }
        ensures told { IfOk result
            (λ count. self.new.told ≡ self.old.told ++ Read line (take count buf.new) ∷ []) }
        ensures later { OnOk result
            (without_read self.new.said (drop self.new.at self.new.pieces)
            ≡ later_pieces (length buf.old)
            (without_read self.old.said (drop self.old.at self.old.pieces))) }
        ensures kept { OnErr result (self.new ≡ self.old) }
        ensures missed { self.new.missed ≡ self.old.missed }
        ensures calls { self.new.calls ≡ self.old.calls }
        ensures starved { self.new.starved ≡ self.old.starved }
    {
        // Only its range is used: the place behind a piece fits.
        let _bound = self.pieces.len();
        let Some(piece) = self.pieces.get(self.at) else {
            let none = Text::new(self.pieces.allocator());
            self.told.pass(DialEvent::Read(line, none))?;
            return Ok(0);
        };
        let (count, said) = read_piece(&mut self.told, line, piece, self.said, buf)?;
        match said {
            Some(said) => self.said = said,
            None => {
                self.at += 1;
                self.said = 0;
            }
        }
        Ok(count)
    }
}

// Reads bytes of a piece of which the first were read before, and how many were read by now where
// more are left. Where there is no memory to tell them, nothing changes but the buffer.
fn read_piece(
    told: &mut DialTelling,
    line: u64,
    piece: &Text,
    said: usize,
    buf: &mut [u8],
) -> Result<(usize, Option<usize>), NoMemory>
    ensures count { IfOk result (λ read. read.0 ≤ length buf.new) }
    ensures heard { IfOk result
        (λ read. take read.0 buf.new ≡ take (length buf.old) (drop said piece.now)) }
    ensures told { IfOk result
        (λ read. told.new ≡ told.old ++ Read line (take read.0 buf.new) ∷ []) }
    ensures left { IfOk result
        (λ read. piece_at piece.now read.1 ≡ piece_rest (length buf.old) (drop said piece.now)) }
    ensures kept { OnErr result (told.new ≡ told.old) }
{
    let left = behind(piece.bytes(), said);
    let count = copy_front(left, buf);
    let bytes = Text::of(piece.allocator(), &left[..count])?;
    told.pass(DialEvent::Read(line, bytes))?;
    if count < left.len() {
        Ok((count, Some(said + count)))
    } else {
        Ok((count, None))
    }
}

// Tells that all of these bytes were written.
fn tell_written(told: &mut DialTelling, line: u64, bytes: &Text) -> Result<(), NoMemory>
    ensures told { OnOk result (told.new ≡ told.old ++ Wrote line bytes.now ∷ []) }
    ensures kept { OnErr result (told.new ≡ told.old) }
{
    let bytes = bytes.copy()?;
    told.pass(DialEvent::Wrote(line, bytes))
}

// Tells that a dial failed.
fn tell_undialled(told: &mut DialTelling, peer: &Peer, missed: u64) -> Result<(), NoMemory>
    ensures told { OnOk result (told.new ≡ told.old ++ Undialled peer.now missed ∷ []) }
    ensures kept { OnErr result (told.new ≡ told.old) }
{
    let peer = peer.copy()?;
    told.pass(DialEvent::Undialled { peer, missed })
}

impl Dialer for ScriptDialer {
    ghost seen = { λ d. script_dials d.told d.missed d.calls.faults };

    fn dial(&mut self, peer: &Peer) -> Result<u64, Failed>
        ensures listed { is_listed self.old.calls ≡ true → IsErr result }
        ensures counted { self.new.calls ≡ after_call self.old.calls (is_err result) }
        ensures starved { self.new.starved
            ≡ (if is_err result && not (is_listed self.old.calls) then one_more self.old.starved
            else self.old.starved) }
        ensures number { IfOk result (λ line. line ≡ next_line self.old.told) }
        ensures untold { is_listed self.old.calls ≡ false → IsErr result → 0 < self.new.missed }
        ensures pieces { without_read self.new.said (drop self.new.at self.new.pieces)
            ≡ without_read self.old.said (drop self.old.at self.old.pieces) }
        ensures told { self.new.told
            ≡ self.old.told ++ dial_events peer.now self.old.missed self.new.missed result }
        ensures missed { KeepsMissed self.old.missed self.new.missed result }
        ensures once { IfOk result (λ line. count_by (gives line) self.old.told ≡ 0) }
        ensures cause { HasCause self.old.calls.faults self.new.calls.faults result }
        ensures calm { OnOk result (self.new.calls.faults ≡ self.old.calls.faults) }
    {
        if self.calls.call().is_err() {
            match tell_undialled(&mut self.told, peer, self.missed) {
                Ok(()) => self.missed = 0,
                Err(NoMemory) => self.miss(),
            }
            return Err(Failed);
        }
        match self.told.dial(peer, self.missed) {
            Ok(line) => {
                self.missed = 0;
                Ok(line)
            }
            Err(NoMemory) => {
                self.starve();
                self.miss();
                Err(Failed)
            }
        }
    }

    fn read(&mut self, line: u64, buf: &mut [u8]) -> Result<usize, Failed>
        requires sound { is_sound line self.old.told ≡ true }
        requires room { 0 < length buf.old }
        ensures listed { is_listed self.old.calls ≡ true → IsErr result }
        ensures counted { self.new.calls ≡ after_call self.old.calls (is_err result) }
        ensures starved { self.new.starved
            ≡ (if is_err result && not (is_listed self.old.calls) then one_more self.old.starved
            else self.old.starved) }
        ensures heard { IfOk result
            (λ count. take count buf.new ≡ next_bytes (length buf.old)
            (without_read self.old.said (drop self.old.at self.old.pieces))) }
        ensures later { OnOk result
            (without_read self.new.said (drop self.new.at self.new.pieces)
            ≡ later_pieces (length buf.old)
            (without_read self.old.said (drop self.old.at self.old.pieces))) }
        ensures kept { OnErr result
            (without_read self.new.said (drop self.new.at self.new.pieces)
            ≡ without_read self.old.said (drop self.old.at self.old.pieces)) }
        ensures count { IfOk result (λ count. count ≤ length buf.new) }
        ensures told { self.new.told ≡ self.old.told ++ read_event line result buf.new ∷ [] }
        ensures missed { self.new.missed ≡ self.old.missed }
        ensures cause { HasCause self.old.calls.faults self.new.calls.faults result }
        ensures calm { OnOk result (self.new.calls.faults ≡ self.old.calls.faults) }
    {
        if self.calls.call().is_err() {
            self.told.lose_read(line);
            return Err(Failed);
        }
        match self.hear(line, buf) {
            Ok(count) => Ok(count),
            Err(NoMemory) => {
                self.starve();
                self.told.lose_read(line);
                Err(Failed)
            }
        }
    }

    fn write(&mut self, line: u64, bytes: &Text) -> Result<(), Failed>
        requires sound { is_sound line self.old.told ≡ true }
        ensures listed { is_listed self.old.calls ≡ true → IsErr result }
        ensures counted { self.new.calls ≡ after_call self.old.calls (is_err result) }
        ensures starved { self.new.starved
            ≡ (if is_err result && not (is_listed self.old.calls) then one_more self.old.starved
            else self.old.starved) }
        ensures pieces { without_read self.new.said (drop self.new.at self.new.pieces)
            ≡ without_read self.old.said (drop self.old.at self.old.pieces) }
        ensures told { self.new.told
            ≡ self.old.told ++ write_event line bytes.now (is_ok result) ∷ [] }
        ensures missed { self.new.missed ≡ self.old.missed }
        ensures cause { HasCause self.old.calls.faults self.new.calls.faults result }
        ensures calm { OnOk result (self.new.calls.faults ≡ self.old.calls.faults) }
    {
        if self.calls.call().is_err() {
            self.told.lose_write(line);
            return Err(Failed);
        }
        if tell_written(&mut self.told, line, bytes).is_err() {
            self.starve();
            self.told.lose_write(line);
            return Err(Failed);
        }
        Ok(())
    }

    fn close(&mut self, line: u64)
        requires live { is_open line self.old.told ≡ true }
        ensures told { self.new.told ≡ self.old.told ++ Closed line ∷ [] }
        ensures pieces { without_read self.new.said (drop self.new.at self.new.pieces)
            ≡ without_read self.old.said (drop self.old.at self.old.pieces) }
        ensures missed { self.new.missed ≡ self.old.missed }
        ensures calls { self.new.calls ≡ self.old.calls }
        ensures starved { self.new.starved ≡ self.old.starved }
    {
        self.told.close(line);
    }
}
