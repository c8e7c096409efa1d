ghost use Rattle.std.specs.Prelude.{◌≡◌};
ghost use Rattle.cf_reader.specs.declared.fault.CfFault.TheVariants as whole;
ghost use Rattle.cf_reader.specs.declared.fault.LineStop.TheVariants as line;

use mail_base::NoMemory;
use thiserror::Error;

/// What is wrong with a line of a configuration file, in the order in which a line is tried.
#[derive(Clone, Copy, Debug, PartialEq, Eq, Error)]
pub enum Fault {
    /// The first byte is no letter that begins a line.
    #[error("UnknownLine")]
    UnknownLine,
    /// A rule has no tab after a left side that isn't empty.
    #[error("NoTab")]
    NoTab,
    /// A side of a rule or a C line can't be expanded or cut, or a construct stands where it can't.
    #[error("BadPattern")]
    BadPattern,
    /// A left side has more than 20 items that begin with `$`.
    #[error("TooManyMetas")]
    TooManyMetas,
    /// A right side has `$0`, or a `$n` above the number of the left side's items that bind.
    #[error("BadReference")]
    BadReference,
    /// A field of a mailer has a name that mailers don't have.
    #[error("UnknownMailerField")]
    UnknownMailerField,
    /// A mailer has no P or no A.
    #[error("NoPath")]
    NoPath,
    /// A Q line had this name before.
    #[error("DuplicateGroup")]
    DuplicateGroup,
    /// A value isn't in the grammar of its option or field.
    #[error("BadOption")]
    BadOption,
    /// A K line has no name or no class, a column that is none, or a member that no K line named.
    #[error("BadMap")]
    BadMap,
    /// An H line has no colon, or a `?` that nothing closes.
    #[error("BadHeader")]
    BadHeader,
    /// OperatorChars is set behind an S or R line.
    #[error("OperatorsLate")]
    OperatorsLate,
    /// An F line without `-o` names a file that isn't there.
    #[error("NoSuchFile")]
    NoSuchFile,
}

/// Why no configuration was read.
#[derive(Clone, Copy, Debug, PartialEq, Eq)]
pub enum CfFault {
    /// The first line that is refused, by its number from 1, and its first fault.
    Refused { line: u32, fault: Fault },
    /// A file that an F line names could not be read.
    FilesFault,
    NoMemory,
}

impl From<NoMemory> for CfFault {
    ghost from_gives = { λ _ e. e ≡ whole.NoMemory };

    fn from(_error: NoMemory) -> CfFault {
        CfFault::NoMemory
    }
}

/// Why a line wasn't taken.
#[derive(Clone, Copy)]
pub enum LineStop {
    Refused(Fault),
    FilesFault,
    NoMemory,
}

impl From<NoMemory> for LineStop {
    ghost from_gives = { λ _ e. e ≡ line.NoMemory };

    fn from(_error: NoMemory) -> LineStop {
        LineStop::NoMemory
    }
}
