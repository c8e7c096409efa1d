ghost use Rattle.std.specs.Prelude.{◌≡◌, IfOk};
ghost use Rattle.queue_table.specs.Directories.{dir_of, main_dir, terms_of};
ghost use Rattle.queue_table.specs.Results.{is_old};

use crate::Factors;
use mail_base::{Catalog, Config, Group, NoMemory, Text, TryCopy};

/// What commands take from the configuration of a run.
#[derive(Drop)]
pub struct Terms {
    pub factors: Factors,
    /// The queue groups by their names.
    pub groups: Catalog<Group>,
    pub queue_directory: Text,
    /// After this time a row that was deferred fails.
    pub queue_return: u64,
}

impl Terms {
    /// The terms of a configuration.
    pub fn of(config: &Config) -> Result<Terms, NoMemory>
        ensures { IfOk result (λ terms. terms ≡ terms_of config.now) }
    {
        Ok(Terms {
            groups: config.groups.copy()?,
            queue_directory: config.options.queue_directory.copy()?,
            factors: Factors::of(&config.options),
            queue_return: config.options.queue_return,
        })
    }

    /// The directory of the group of a name.
    pub fn dir(&self, group: &Text) -> Result<Text, NoMemory>
        ensures { IfOk result (λ dir. dir ≡ dir_of self.now group.now) }
    {
        match self.groups.get(group) {
            Some(group) => group.path.copy(),
            None => self.main_dir(),
        }
    }

    // The directory of mqueue.
    pub(crate) fn main_dir(&self) -> Result<Text, NoMemory>
        ensures { IfOk result (λ dir. dir ≡ main_dir self.now) }
    {
        let name = Text::of(self.groups.allocator(), b"mqueue")?;
        match self.groups.get(&name) {
            Some(group) => group.path.copy(),
            None => self.queue_directory.copy(),
        }
    }

    // Whether an entry of that creation is too old at a moment to be tried further.
    pub(crate) fn is_old(&self, created: u64, moment: u64) -> bool
        ensures { result ≡ is_old self.now created moment }
    {
        created <= moment && self.queue_return <= moment - created
    }
}
