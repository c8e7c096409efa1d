ghost use Rattle.std.specs.Prelude.{◌≡◌, ◌≤◌, ◌<◌, ◌-◌, ◌++◌, [], ◌∷◌, length, take, drop, vec_len, IfOk, IsOk, OnOk, OnErr, IsTrue, false, true};
ghost use Rattle.smtp_lines.specs.Views.{under};
ghost use Rattle.smtp_lines.specs.Reader.{Reader, fresh, Stream, empty_stream, Stands, received, given, granted, refused, refused_by, asked_after};

use crate::under_way::Begun;
use crate::{Line, Mode};
use mail_base::{NoMemory, Seq};
use std::alloc::Global;
use std::marker::Model;

/// A reader of a stream that comes in pieces. It keeps its allocator.
///
/// It holds at most 16,777,219 bytes of a line under way, and of a command at most 2,048, but for a
/// command right after one with the verb DATA, until that is refused: it may become a line of a
/// message. Beside these it holds the bytes of the pieces that [`Lines::more`] wasn't asked for
/// yet.
#[derive(Drop)]
pub struct Lines {
    begun: Begun,
    left: Vec<u8>,
    /// Where the bytes that weren't read yet begin.
    start: usize,
}

impl Model for Lines {
    ghost Value = { Reader };

    ghost view = { λ l. record { under = under l.begun; left = drop l.start l.left.items } };

    ghost invariant = { λ l. l.start ≤ vec_len l.left };
}

impl Lines {
    /// A reader of a stream of which nothing has come. It takes no memory.
    pub fn new(alloc: Global) -> Lines
        ensures fresh { result ≡ fresh }
        ensures stands { Stands result empty_stream }
    {
        Lines {
            begun: Begun::new(alloc),
            left: Vec::new(alloc),
            start: 0,
        }
    }

    /// Takes the next piece of the stream, and gives the lines that the stream completes, up to a
    /// command with the verb DATA; what is after that is kept for [`Lines::more`]. After `NoMemory`
    /// the reader is as before, and the piece isn't taken.
    ///
    /// Each byte is looked at once and copied once, but for those of a line that comes in several
    /// pieces, which are copied once more when it ends, and for those after a command with the verb
    /// DATA.
    pub fn feed(&mut self, piece: &[u8]) -> Result<Seq<Line>, NoMemory>
        ensures stands { IfOk result (λ lines. (s : Stream) → Stands self.old s
            → Stands self.new (given self.old.under.may_turn (received s piece.now) lines)) }
        // The last line that was given asks, and `data` wasn't called since.
        ensures turns { IfOk result (λ lines. self.new.under.may_turn
            ≡ asked_after self.old.under.may_turn lines) }
        // All lines are given, unless the last of them asks.
        ensures all { IfOk result (λ lines. asked_after false lines ≡ false → self.new.left ≡ []) }
        ensures less { IfOk result (λ lines. IsTrue (asked_after false lines)
            → length self.new.left < length (self.old.left ++ piece.now)) }
        ensures err { OnErr result (self.new ≡ self.old) }
    {
        if self.start == self.left.len() {
            return self.feed_alone(piece);
        }
        self.put(piece)?;
        match self.more() {
            Ok(lines) => Ok(lines),
            Err(error) => {
                self.take_back(piece.len());
                Err(error)
            }
        }
    }

    /// Gives the lines that what is kept completes, up to a command with the verb DATA. After
    /// `NoMemory` the reader is as before. Where nothing is left it takes no memory.
    pub fn more(&mut self) -> Result<Seq<Line>, NoMemory>
        ensures stands { IfOk result (λ lines. (s : Stream) → Stands self.old s
            → Stands self.new (given self.old.under.may_turn s lines)) }
        ensures turns { IfOk result (λ lines. self.new.under.may_turn
            ≡ asked_after self.old.under.may_turn lines) }
        ensures all { IfOk result (λ lines. asked_after false lines ≡ false → self.new.left ≡ []) }
        ensures less { IfOk result (λ lines. IsTrue (asked_after false lines)
            → length self.new.left < length self.old.left) }
        ensures none { self.old.left ≡ [] → IsOk result }
        ensures err { OnErr result (self.new ≡ self.old) }
    {
        if self.start == self.left.len() {
            return Ok(Seq::new(*self.left.allocator()));
        }
        let (lines, used) = self.begun.take(&self.left[self.start..])?;
        self.start += used;
        Ok(lines)
    }

    /// Turns to a message, which follows the command with the verb DATA that was given last.
    pub fn data(&mut self)
        requires { IsTrue self.old.under.may_turn }
        ensures turned { self.new
            ≡ record self.old {
              under = record self.old.under { mode = Mode.Message; may_turn = false };
            } }
        ensures stands { (s : Stream) → Stands self.old s → Stands self.new (granted s) }
    {
        self.begun.turn();
    }

    /// Refuses the message that the command with the verb DATA asks for which was given last:
    /// commands go on. Of one that is under way no more is kept than of any other.
    pub fn refuse(&mut self)
        requires { IsTrue self.old.under.may_turn }
        ensures refused { self.new ≡ refused_by self.old }
        ensures stands { (s : Stream) → Stands self.old s → Stands self.new (refused s) }
    {
        self.begun.refuse();
    }

    /// Takes a piece where nothing is left unread. The piece is read where it is, and room for what
    /// may be left of it is made before.
    fn feed_alone(&mut self, piece: &[u8]) -> Result<Seq<Line>, NoMemory>
        requires { self.old.left ≡ [] }
        ensures stands { IfOk result (λ lines. (s : Stream) → Stands self.old s
            → Stands self.new (given self.old.under.may_turn (received s piece.now) lines)) }
        ensures turns { IfOk result (λ lines. self.new.under.may_turn
            ≡ asked_after self.old.under.may_turn lines) }
        ensures all { IfOk result (λ lines. asked_after false lines ≡ false → self.new.left ≡ []) }
        ensures less { IfOk result (λ lines. IsTrue (asked_after false lines)
            → length self.new.left < length (self.old.left ++ piece.now)) }
        ensures err { OnErr result (self.new ≡ self.old) }
    {
        self.left.clear();
        self.start = 0;
        self.left.reserve(piece.len())?;
        let (lines, used) = self.begun.take(piece)?;
        self.left.extend_from_slice(&piece[used..]).unwrap();
        Ok(lines)
    }

    /// Whether the last line that was given is a command with the verb DATA, and [`Lines::data`]
    /// wasn't called since.
    pub fn may_turn(&self) -> bool
        ensures { result ≡ self.now.under.may_turn }
    {
        self.begun.may_turn()
    }

    fn put(&mut self, piece: &[u8]) -> Result<(), NoMemory>
        ensures ok { OnOk result
            (self.new ≡ record self.old { left = self.old.left ++ piece.now }) }
        ensures err { OnErr result (self.new ≡ self.old) }
    {
        self.left.extend_from_slice(piece)?;
        Ok(())
    }

    fn take_back(&mut self, count: usize)
        requires { count ≤ length self.old.left }
        ensures { self.new
            ≡ record self.old { left = take (length self.old.left - count) self.old.left } }
    {
        self.left.truncate(self.left.len() - count);
    }
}
