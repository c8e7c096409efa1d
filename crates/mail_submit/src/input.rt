ghost use Rattle.std.specs.Prelude.{◌≡◌, ◌+◌, ◌<◌, ◌≤◌, ◌++◌, [], ℕ, List, Bool, length, IfOk, IfErr, OnOk, OnErr};
ghost use Rattle.mail_submit.specs.Inputs.{Holds, message_of, read, size_of};
ghost use Rattle.mail_submit.specs.declared.fault.InputFault.TheVariants.{TooLarge};

use crate::InputFault;
use crate::held::Held;
use mail_base::Text;
use std::alloc::Global;
use std::marker::Model;

/// The lines of a message on standard input, which comes in pieces. A line ends at LF or CR LF. It
/// keeps its allocator.
///
/// It holds the lines with CR LF and the bytes behind them, which is at most the limit and two
/// bytes, and while it takes a piece at most twice the piece's bytes more. What a `Vec` reserves
/// beyond its bytes isn't counted.
#[derive(Drop)]
pub struct Input {
    held: Held,
}

impl Model for Input {
    ghost use Rattle.mail_submit.specs.declared.held.Held.{Held};

    ghost Value = { Held };

    ghost view = { λ i. i.held };
}

impl Input {
    /// Nothing of input yet, which a line `.` ends or doesn't. It takes no memory.
    pub fn new(alloc: Global, dot: bool) -> Input
        ensures { Holds result dot [] }
    {
        Input {
            held: Held::new(alloc, dot),
        }
    }

    /// Takes the next piece of input, of a message that may have so many bytes, and answers whether
    /// the line `.` was read, behind which nothing is taken.
    ///
    /// It is too large where the lines, each with CR LF, and the bytes that no LF ended yet are
    /// together above the limit; of these neither a CR at their end nor a lone `.` is counted, and
    /// the line `.` that ends input isn't. After a fault all is as before.
    pub fn feed(&mut self, piece: &[u8], most: u64) -> Result<bool, InputFault>
        ensures ok { (dot : Bool) (bytes : List ℕ) → Holds self.old dot bytes
            → OnOk result (Holds self.new dot (bytes ++ piece.now)) }
        ensures ended { (dot : Bool) (bytes : List ℕ) → Holds self.old dot bytes
            → IfOk result (λ ended. ended ≡ (read dot (bytes ++ piece.now)).ended) }
        ensures within { (dot : Bool) (bytes : List ℕ) → Holds self.old dot bytes
            → OnOk result (size_of (read dot (bytes ++ piece.now)) ≤ most) }
        ensures large { (dot : Bool) (bytes : List ℕ) → Holds self.old dot bytes
            → IfErr result (λ fault. fault ≡ TooLarge
            → most < size_of (read dot (bytes ++ piece.now))) }
        ensures small { OnOk result
            (length self.new.buffer.text + length self.new.buffer.line ≤ most + 2) }
        ensures err { OnErr result (self.new ≡ self.old) }
    {
        let mark = self.held.buffer.mark();
        let ended = self.held.ended;
        match self.held.take_within(piece, most) {
            Ok(()) => Ok(self.held.ended),
            Err(fault) => {
                self.held.buffer.back_to(mark);
                self.held.ended = ended;
                Err(fault)
            }
        }
    }

    /// The text of the message at the end of input, each line with CR LF. Bytes that no LF ended
    /// are a line, as if one did, so that a lone `.` among them ends input where it counts. The
    /// message may have so many bytes. Nothing of it is left. After a fault all is as before.
    pub fn end(&mut self, most: u64) -> Result<Text, InputFault>
        ensures text { (dot : Bool) (bytes : List ℕ) → Holds self.old dot bytes
            → IfOk result (λ text. text ≡ message_of dot (read dot bytes)) }
        ensures within { IfOk result (λ text. length text ≤ most) }
        ensures large { (dot : Bool) (bytes : List ℕ) → Holds self.old dot bytes
            → IfErr result (λ fault. fault ≡ TooLarge
            → most < length (message_of dot (read dot bytes))) }
        ensures none { (dot : Bool) (bytes : List ℕ) → Holds self.old dot bytes
            → OnOk result (Holds self.new dot []) }
        ensures err { OnErr result (self.new ≡ self.old) }
    {
        let mark = self.held.buffer.mark();
        match self.held.end_within(most) {
            Ok(()) => {
                self.held.ended = false;
                Ok(self.held.buffer.take_text())
            }
            Err(fault) => {
                self.held.buffer.back_to(mark);
                Err(fault)
            }
        }
    }
}
