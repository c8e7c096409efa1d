ghost use Rattle.std.specs.Prelude.{◌≡◌, ◌<◌, ◌^◌, length, IfSome};
ghost use Rattle.cf_reader.specs.Configuration.{configuration};
ghost use Rattle.cf_reader.specs.Faults.{fault};
ghost use Rattle.cf_reader.specs.Letters.{after_line, ignored};
ghost use Rattle.mail_edge.specs.Asking.{Asks};
ghost use Rattle.cf_reader.specs.Reads.{Gives, is_failed};
ghost use Rattle.cf_reader.specs.inner.Readings.{is_files_fault};
ghost use Rattle.cf_reader.specs.inner.Steps as spec;
ghost use Rattle.cf_reader.specs.inner.Steps.{Goes, Seeks, Steps, fault_at, fault_of_other};

use crate::fault::{CfFault, Fault, LineStop};
use crate::logical::{Logical, next_line};
use crate::state::State;
use mail_base::{Config, Text};
use mail_edge::Files;
use std::alloc::Global;

/// The configuration that the text of a file says, or the first line that is refused, by its number
/// from 1, with its first fault. Where the files fail that F lines name, that may come in place of
/// the fault of a line. Nothing is given of a configuration that is refused (Sendmail Installation
/// and Operation Guide, "The Whole Scoop on the Configuration File").
pub fn read<F: Files>(alloc: Global, text: &Text, files: &mut F) -> Result<Config, CfFault>
    requires { length text.now < 2 ^ 32 }
    ensures told { IfSome (F.seen files.old).map
        (λ map. Gives result (configuration map text.now)) }
    ensures asks { Asks (F.seen files.old) (F.seen files.new) (is_failed result) }
{
    let mut state = State::new(alloc)?;
    let mut number = 0;
    let mut rest = text.bytes();
    while let Some((line, after)) = next_line(alloc, number, rest)? {
        step(alloc, files, &line, &mut state)?;
        number = line.number;
        rest = after;
    }
    Ok(state.finish(alloc)?)
}

// Takes a line, or says at which one reading stops.
fn step<F: Files>(
    alloc: Global,
    files: &mut F,
    line: &Logical,
    state: &mut State,
) -> Result<(), CfFault>
    ensures told { IfSome (F.seen files.old).map
        (λ map. Goes result line.now.number (fault map state.old line.now.text)
        (after_line map line.now state.old) state.new) }
    ensures asks { Asks (F.seen files.old) (F.seen files.new) (is_failed result) }
{
    match state.take(alloc, files, line) {
        Ok(()) => Ok(()),
        Err(stop) => Err(stopped(line.number, stop)),
    }
}

fn stopped(line: u32, stop: LineStop) -> CfFault
    ensures { result ≡ fault_at line stop }
{
    match stop {
        LineStop::Refused(fault) => CfFault::Refused { line, fault },
        LineStop::FilesFault => CfFault::FilesFault,
        LineStop::NoMemory => CfFault::NoMemory,
    }
}

impl State {
    // Takes a line, or says why it isn't taken.
    fn take<F: Files>(
        &mut self,
        alloc: Global,
        files: &mut F,
        line: &Logical,
    ) -> Result<(), LineStop>
        ensures told { IfSome (F.seen files.old).map
            (λ map. Seeks result (fault map self.old line.now.text)
            (after_line map line.now self.old) self.new) }
        ensures asks { Asks (F.seen files.old) (F.seen files.new) (is_files_fault result) }
    {
        let Some((letter, text)) = line.text.bytes().split_first() else {
            return Err(LineStop::Refused(Fault::UnknownLine));
        };
        match *letter {
            b'D' => self.take_define(alloc, text),
            b'C' => self.take_class(alloc, text),
            b'F' => self.take_file(alloc, files, text),
            b'K' => self.take_map(alloc, text),
            b'M' => self.take_mailer(alloc, text),
            b'O' => self.take_option(alloc, line.number, text),
            b'P' => self.take_precedence(alloc, text),
            b'Q' => self.take_group(alloc, text),
            b'S' => self.take_set(alloc, text),
            b'R' => self.take_rule(alloc, text),
            b'H' => self.take_header(alloc, line.number, text),
            other => self.take_other(line.number, other),
        }
    }

    // A line of another letter is ignored, or refused where no line begins so.
    fn take_other(&mut self, number: u32, letter: u8) -> Result<(), LineStop>
        ensures { Steps result (fault_of_other letter) (ignored number self.old) self.new }
    {
        if !is_ignored(letter) {
            return Err(LineStop::Refused(Fault::UnknownLine));
        }
        self.ignore(number)
    }
}

fn is_ignored(letter: u8) -> bool
    ensures { result ≡ spec.is_ignored letter }
{
    match letter {
        b'V' => true,
        b'T' => true,
        b'E' => true,
        b'L' => true,
        b'X' => true,
        _ => false,
    }
}
