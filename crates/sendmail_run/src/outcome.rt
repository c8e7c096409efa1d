ghost use Rattle.std.specs.Prelude.{◌≡◌};
ghost use Rattle.sendmail_run.specs.Outcomes as spec;

use crate::address_test::TestEnd;
use crate::fault::{AliasesFault, ConfigFault, MapsFault};
use crate::list_mode::ListEnd;
use crate::serving_mode::ServeEnd;
use crate::submit_mode::SubmitModeEnd;
use cf_reader::Fault;
use command_line::WordFault;
use mail_base::{RouteError, Text};
use mail_core::CoreStop;
use submit_run::SubmitEnd;

/// How a run ends.
#[derive(Drop)]
pub enum Outcome {
    /// The input came to its end, or to the line `/quit`; the listing was written; the queue was
    /// run; or the floor told that nothing comes any more.
    Done,
    /// The words are refused at this place, counted from 0; a word that is missing stands at their
    /// number.
    Usage(u32),
    /// There is no file of this name: that of the configuration, that of a map without `-o`, or an
    /// alias file.
    NoFile(Text),
    NoMemory,
    /// A file could not be read.
    FilesFault,
    /// The output could not be written.
    WriteFault,
    /// The input could not be read.
    ReadFault,
    /// The input has 2^32 bytes or more.
    InputLarge,
    /// The configuration's line of this number, counted from 1, is refused.
    ConfigLine(u32, Fault),
    /// The line of this number, counted from 1, is refused of the alias file of this name.
    AliasLine(Text, u32),
    /// The floor could not begin, or a turn of it failed; one that fails to send only ends that
    /// session.
    FloorFault,
    /// So many turns were served, which are all that a run takes, and none of them ended it.
    TurnsSpent(u64),
    /// A call of the spool failed: the queue could not be opened, a body of it could not be read,
    /// or a message or what became of an entry could not be kept.
    SpoolFault,
    /// A message came, or one was to be returned, that needs an id above 999,999,999,999.
    IdsSpent,
    /// The message that was handed over is refused with this code: 552 where it or its header block
    /// is too large, 554 where it has passed too many hosts.
    MessageRefused(u16),
    /// The message that was handed over has no recipient.
    NoRecipient,
    /// The recipient of this number, counted from 0, is refused with this error.
    BadRecipient(u64, RouteError),
}

impl Outcome {
    /// The status that the program ends with, as sysexits has it.
    pub fn status(&self) -> u8
        ensures { result ≡ spec.status_of self.now }
    {
        match self {
            Outcome::Done => 0,
            Outcome::Usage(_) => 64,
            Outcome::AliasLine(..) => 65,
            Outcome::NoFile(_) => 66,
            Outcome::NoMemory => 71,
            Outcome::FilesFault => 72,
            Outcome::WriteFault => 73,
            Outcome::ReadFault => 74,
            Outcome::InputLarge => 76,
            Outcome::ConfigLine(..) => 78,
            Outcome::FloorFault => 69,
            Outcome::TurnsSpent(_) => 70,
            Outcome::SpoolFault => 75,
            Outcome::IdsSpent => 77,
            Outcome::MessageRefused(_) => 80,
            Outcome::NoRecipient => 79,
            Outcome::BadRecipient(..) => 67,
        }
    }

    /// That of a run whose words are refused.
    pub(crate) fn of_words(fault: WordFault) -> Outcome
        ensures { result ≡ spec.of_words fault }
    {
        match fault {
            WordFault::At(place) => Outcome::Usage(place),
            WordFault::NoMemory => Outcome::NoMemory,
        }
    }

    /// That of a run that has no configuration.
    pub(crate) fn of_config(fault: ConfigFault) -> Outcome
        ensures { result ≡ spec.of_config fault }
    {
        match fault {
            ConfigFault::NoFile(name) => Outcome::NoFile(name),
            ConfigFault::FilesFault => Outcome::FilesFault,
            ConfigFault::Refused { line, fault } => Outcome::ConfigLine(line, fault),
            ConfigFault::NoMemory => Outcome::NoMemory,
        }
    }

    /// That of a run that has no maps.
    pub(crate) fn of_maps(fault: MapsFault) -> Outcome
        ensures { result ≡ spec.of_maps fault }
    {
        match fault {
            MapsFault::NoFile(name) => Outcome::NoFile(name),
            MapsFault::FilesFault => Outcome::FilesFault,
            MapsFault::NoMemory => Outcome::NoMemory,
        }
    }

    /// That of a run that has no aliases.
    pub(crate) fn of_aliases(fault: AliasesFault) -> Outcome
        ensures { result ≡ spec.of_aliases fault }
    {
        match fault {
            AliasesFault::NoFile(name) => Outcome::NoFile(name),
            AliasesFault::Refused { name, line } => Outcome::AliasLine(name, line),
            AliasesFault::FilesFault => Outcome::FilesFault,
            AliasesFault::NoMemory => Outcome::NoMemory,
        }
    }

    /// That of a run of address test mode.
    pub(crate) fn of_test(how: TestEnd) -> Outcome
        ensures { result ≡ spec.of_test how }
    {
        match how {
            TestEnd::Done => Outcome::Done,
            TestEnd::ReadFault => Outcome::ReadFault,
            TestEnd::WriteFault => Outcome::WriteFault,
            TestEnd::InputLarge => Outcome::InputLarge,
            TestEnd::NoMemory => Outcome::NoMemory,
        }
    }

    /// That of a run that lists the queue.
    pub(crate) fn of_list(how: ListEnd) -> Outcome
        ensures { result ≡ spec.of_list how }
    {
        match how {
            ListEnd::Done => Outcome::Done,
            ListEnd::WriteFault => Outcome::WriteFault,
            ListEnd::SpoolFault => Outcome::SpoolFault,
            ListEnd::NoMemory => Outcome::NoMemory,
        }
    }

    /// That of a run that opened the queue to serve it.
    pub(crate) fn of_serving(how: ServeEnd) -> Outcome
        ensures { result ≡ spec.of_serving how }
    {
        match how {
            ServeEnd::NotOpened => Outcome::SpoolFault,
            ServeEnd::NoMemory => Outcome::NoMemory,
            ServeEnd::FloorFault => Outcome::FloorFault,
            ServeEnd::Finished => Outcome::Done,
            ServeEnd::Over(CoreStop::SpoolFault) => Outcome::SpoolFault,
            ServeEnd::Over(CoreStop::IdsSpent) => Outcome::IdsSpent,
            ServeEnd::Over(CoreStop::FilesFault) => Outcome::FilesFault,
            ServeEnd::Over(CoreStop::NoMemory) => Outcome::NoMemory,
            ServeEnd::TurnsSpent(count) => Outcome::TurnsSpent(count),
        }
    }
    /// That of a run that opened the queue to take a message of a program.
    pub(crate) fn of_submitting(how: SubmitModeEnd) -> Outcome
        ensures { result ≡ spec.of_submitting how }
    {
        match how {
            SubmitModeEnd::NotOpened => Outcome::SpoolFault,
            SubmitModeEnd::NoMemory => Outcome::NoMemory,
            SubmitModeEnd::Over(end) => Outcome::of_submission(end),
        }
    }

    // That of one over the opened queue.
    fn of_submission(end: SubmitEnd) -> Outcome
        ensures { result ≡ spec.of_submission end }
    {
        match end {
            SubmitEnd::Done => Outcome::Done,
            SubmitEnd::MessageRefused(code) => Outcome::MessageRefused(code),
            SubmitEnd::NoRecipient => Outcome::NoRecipient,
            SubmitEnd::BadRecipient(place, error) => Outcome::BadRecipient(place, error),
            SubmitEnd::ReadFault => Outcome::ReadFault,
            SubmitEnd::SpoolFault => Outcome::SpoolFault,
            SubmitEnd::FilesFault => Outcome::FilesFault,
            SubmitEnd::IdsSpent => Outcome::IdsSpent,
            SubmitEnd::NoMemory => Outcome::NoMemory,
        }
    }
}
