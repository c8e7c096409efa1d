ghost use Rattle.std.specs.Prelude.{◌≡◌, IfOk, Some, None};
ghost use Rattle.sendmail_run.specs.Tasks as spec;

use link_edge::Place;
use mail_base::{Config, NoMemory, Text, TryCopy};
use std::alloc::Global;

/// What a run that opens the queue is made for.
#[derive(Drop)]
pub enum Task {
    /// One session at the standard place, and the queue between its turns.
    Session,
    /// Sessions at the port of the configuration, and the queue between their turns, where `wait`
    /// is the interval, in seconds, of a queue group that says none.
    Daemon { wait: Option<u64> },
    /// The queue once, or one group of it.
    Run { group: Option<Text> },
}

impl Task {
    /// Whether it is a run over the queue alone.
    pub(crate) fn is_run(&self) -> bool
        ensures { result ≡ spec.is_run self.now }
    {
        match self {
            Task::Session => false,
            Task::Daemon { wait: _ } => false,
            Task::Run { group: _ } => true,
        }
    }

    /// Where the floor is begun for it, and for how many sessions, if it is.
    pub(crate) fn door(
        &self,
        alloc: Global,
        config: &Config,
    ) -> Result<Option<(Place, u64)>, NoMemory>
        ensures { IfOk result (λ door. door ≡ spec.door_of config.now self.now) }
    {
        match self {
            Task::Session => Ok(Some((Place::Standard, 1))),
            Task::Daemon { wait: _ } => {
                let port = &config.options.daemon_port;
                let address = match &port.address {
                    Some(address) => address.copy()?,
                    None => Text::new(alloc),
                };
                let place = Place::Port {
                    address,
                    port: port.port,
                };
                Ok(Some((place, config.options.max_daemon_sessions)))
            }
            Task::Run { group: _ } => Ok(None),
        }
    }
}
