ghost use Rattle.std.specs.Prelude.{◌≡◌};
ghost use Rattle.sendmail_run.specs.declared.fault.AliasesFault.TheVariants as aliases;
ghost use Rattle.sendmail_run.specs.declared.fault.MapsFault.TheVariants as maps;

use cf_reader::Fault;
use mail_base::{NoMemory, Text};

/// Why the file that the words name gives no configuration.
#[derive(Drop)]
pub enum ConfigFault {
    /// There is no file of this name.
    NoFile(Text),
    /// It could not be read, or a file that it names couldn't.
    FilesFault,
    /// The first line that is refused, by its number from 1, and its first fault.
    Refused { line: u32, fault: Fault },
    NoMemory,
}

/// Why the files of maps give none.
#[derive(Drop)]
pub enum MapsFault {
    /// A K line without `-o` names a file that isn't there.
    NoFile(Text),
    /// One of them could not be read.
    FilesFault,
    NoMemory,
}

impl From<NoMemory> for MapsFault {
    ghost from_gives = { λ _ e. e ≡ maps.NoMemory };

    fn from(_error: NoMemory) -> MapsFault {
        MapsFault::NoMemory
    }
}

/// Why the alias files and the file of homes give no names.
#[derive(Drop)]
pub enum AliasesFault {
    /// There is no alias file of this name.
    NoFile(Text),
    /// The first line that is refused of the alias file of this name, by its number from 1.
    Refused { name: Text, line: u32 },
    /// One of the files could not be read.
    FilesFault,
    NoMemory,
}

impl From<NoMemory> for AliasesFault {
    ghost from_gives = { λ _ e. e ≡ aliases.NoMemory };

    fn from(_error: NoMemory) -> AliasesFault {
        AliasesFault::NoMemory
    }
}
