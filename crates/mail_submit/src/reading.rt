ghost use Rattle.std.specs.Prelude.{◌≡◌, ◌+◌, ◌<◌, ◌≤◌, ◌++◌, ◌&&◌, [], ℕ, List, Bool, false, length, take, fold, IfOk, IfErr, OnOk};
ghost use Rattle.std.specs.Str.Lines.{strip_carriage_return};
ghost use Rattle.mail_header.specs.Headers.{with_end};
ghost use Rattle.mail_submit.specs.Inputs as spec;
ghost use Rattle.mail_submit.specs.Inputs.{Reading, Stands, counted, message_of, nothing, size_of, with_byte, with_feed};
ghost use Rattle.mail_submit.specs.declared.fault.InputFault.TheVariants.{TooLarge};
ghost use Rattle.mail_submit.specs.inner.Behind.{IsBehind};

use crate::InputFault;
use crate::buffer::Buffer;
use crate::held::Held;
use crate::line::{is_dot, line_end};
use bstr::ByteSlice;
use mail_base::{NoMemory, Text};
use std::alloc::Global;

impl Held {
    /// Nothing of input. It takes no memory.
    pub(crate) fn new(alloc: Global, dot: bool) -> Held
        ensures { Stands result dot nothing }
    {
        Held {
            dot,
            ended: false,
            buffer: Buffer::new(alloc),
        }
    }

    /// Takes a piece within a limit. After a fault bytes may stand behind those that were held.
    pub(crate) fn take_within(&mut self, piece: &[u8], most: u64) -> Result<(), InputFault>
        ensures ok { OnOk result ((dot : Bool) (r : Reading) → Stands self.old dot r
            → Stands self.new dot (fold (with_byte dot) r piece.now)) }
        ensures within { OnOk result
            (length self.new.buffer.text + counted self.new.buffer.line ≤ most) }
        ensures large { (dot : Bool) (r : Reading) → Stands self.old dot r
            → IfErr result (λ fault. fault ≡ TooLarge
            → most < size_of (fold (with_byte dot) r piece.now)) }
        ensures behind { IsBehind self.old self.new }
    {
        self.take(piece)?;
        if self.buffer.size() as u64 > most {
            return Err(InputFault::TooLarge);
        }
        Ok(())
    }

    /// Takes bytes, up to the line `.` where that ends input.
    fn take(&mut self, piece: &[u8]) -> Result<(), NoMemory>
        ensures ok { OnOk result ((dot : Bool) (r : Reading) → Stands self.old dot r
            → Stands self.new dot (fold (with_byte dot) r piece.now)) }
        ensures behind { IsBehind self.old self.new }
    {
        let mut place = 0;
        'lines: while place < piece.len() {
            if self.ended {
                return Ok(());
            }
            let taken = self.take_line(&piece[place..])?;
            place += taken;
        }
        Ok(())
    }

    /// Takes bytes up to the first LF and with it, or all where there is none. Answers how many
    /// these are.
    fn take_line(&mut self, bytes: &[u8]) -> Result<usize, NoMemory>
        requires some { 0 < length bytes.now }
        requires goes_on { self.old.ended ≡ false }
        ensures some { IfOk result (λ taken. 0 < taken) }
        ensures all { IfOk result (λ taken. taken ≤ length bytes.now) }
        ensures ok { IfOk result (λ taken. (dot : Bool) (r : Reading) → Stands self.old dot r
            → Stands self.new dot (fold (with_byte dot) r (take taken bytes.now))) }
        ensures behind { IsBehind self.old self.new }
    {
        match bytes.find_byte(b'\n') {
            Some(end) => {
                self.buffer.extend(&bytes[..end])?;
                self.end_line()?;
                Ok(end + 1)
            }
            None => {
                self.buffer.extend(bytes)?;
                Ok(bytes.len())
            }
        }
    }

    /// Takes an LF.
    fn end_line(&mut self) -> Result<(), NoMemory>
        ensures ok { OnOk result ((dot : Bool) (r : Reading) → Stands self.old dot r
            → r.ended ≡ false → Stands self.new dot (with_feed dot r)) }
        ensures behind { IsBehind self.old self.new }
    {
        if self.is_dot_line() {
            self.ended = true;
            return Ok(());
        }
        self.close()
    }

    /// Whether what no LF ended is the line `.` and this counts.
    fn is_dot_line(&self) -> bool
        ensures { result ≡ (self.now.dot && spec.is_dot self.now.buffer.line) }
    {
        self.dot && is_dot(self.buffer.line())
    }

    /// Whether what no LF ended is a line at the end of input.
    fn is_last_line(&self) -> bool
        ensures { result ≡ spec.is_last self.now.dot self.now.buffer.line }
    {
        !self.buffer.line().is_empty() && !self.is_dot_line()
    }

    /// Makes what no LF ended a line.
    fn close(&mut self) -> Result<(), NoMemory>
        ensures ok { OnOk result (self.new ≡ record self.old {
          buffer = record {
            text = self.old.buffer.text ++ with_end (strip_carriage_return self.old.buffer.line);
            line = [];
          };
        }) }
        ensures behind { IsBehind self.old self.new }
        ensures ended { self.new.ended ≡ self.old.ended }
    {
        let end = line_end(self.buffer.line());
        self.buffer.close(end)
    }

    /// Makes the message whole at the end of input, within a limit. After a fault bytes may stand
    /// behind those that were held.
    pub(crate) fn end_within(&mut self, most: u64) -> Result<(), InputFault>
        ensures text { (dot : Bool) (r : Reading) → Stands self.old dot r
            → OnOk result (self.new.buffer.text ≡ message_of dot r) }
        ensures within { OnOk result (length self.new.buffer.text ≤ most) }
        ensures large { (dot : Bool) (r : Reading) → Stands self.old dot r
            → IfErr result (λ fault. fault ≡ TooLarge → most < length (message_of dot r)) }
        ensures behind { IsBehind self.old self.new }
        ensures ended { self.new.ended ≡ self.old.ended }
    {
        self.close_last()?;
        if self.buffer.text_len() as u64 > most {
            return Err(InputFault::TooLarge);
        }
        Ok(())
    }

    /// Makes what no LF ended a line, if it is one at the end of input.
    fn close_last(&mut self) -> Result<(), NoMemory>
        ensures text { (dot : Bool) (r : Reading) → Stands self.old dot r
            → OnOk result (self.new.buffer.text ≡ message_of dot r) }
        ensures behind { IsBehind self.old self.new }
        ensures ended { self.new.ended ≡ self.old.ended }
    {
        if self.is_last_line() {
            return self.close();
        }
        Ok(())
    }
}
