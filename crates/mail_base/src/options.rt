ghost use Rattle.std.specs.Prelude.{◌≡◌, IfOk};
ghost use Rattle.mail_base.specs.Configs.{default_options};
ghost use Rattle.mail_base.specs.Limits.{message_limit, recipient_limit};

use crate::limits::{MOST_MESSAGE, MOST_RECIPIENTS};
use crate::{NoMemory, Seq, Text, TryCopy};
use std::alloc::Global;

// The queue directory where no O line sets it.
pub(crate) const QUEUE_DIRECTORY: &[u8] = b"/var/spool/mqueue";

/// Where the daemon listens.
#[derive(Drop)]
pub struct DaemonPort {
    pub port: u16,
    /// `None` for every address.
    pub address: Option<Text>,
}

/// The options. Times are in seconds.
pub struct Options {
    pub queue_directory: Text,
    /// The alias files, in order.
    pub alias_files: Seq<Text>,
    pub hosts_file: Text,
    pub homes_file: Option<Text>,
    pub operator_chars: Text,
    pub daemon_port: DaemonPort,
    /// 0 is no limit.
    pub max_daemon_sessions: u64,
    /// After this time a row that was deferred fails.
    pub queue_return: u64,
    /// After this time a warning is sent; `None` is never.
    pub queue_warn: Option<u64>,
    pub min_queue_age: u64,
    pub max_hop_count: u64,
    pub max_alias_recursion: u64,
    /// 0 is no limit of its own.
    pub max_message_size: u64,
    /// 0 is no limit of its own.
    pub max_recipients_per_message: u64,
    pub recipient_factor: u64,
    pub class_factor: u64,
    pub retry_factor: u64,
    pub double_bounce_address: Text,
}

// Written out, since a caller's proof goes through the parts of a derived drop at each way out.
impl Drop for Options {
    fn drop(self) {
        let Options {
            queue_directory: _,
            alias_files: _,
            hosts_file: _,
            homes_file: _,
            operator_chars: _,
            daemon_port: _,
            max_daemon_sessions: _,
            queue_return: _,
            queue_warn: _,
            min_queue_age: _,
            max_hop_count: _,
            max_alias_recursion: _,
            max_message_size: _,
            max_recipients_per_message: _,
            recipient_factor: _,
            class_factor: _,
            retry_factor: _,
            double_bounce_address: _,
        } = self;
    }
}

impl Options {
    /// The options where no O line sets them.
    pub fn new(alloc: Global) -> Result<Options, NoMemory>
        ensures { IfOk result (λ options. options ≡ default_options) }
    {
        Ok(Options {
            queue_directory: Text::of(alloc, QUEUE_DIRECTORY)?,
            alias_files: Seq::new(alloc),
            hosts_file: Text::of(alloc, b"/etc/hosts")?,
            homes_file: None,
            operator_chars: Text::of(alloc, b".:@[]")?,
            daemon_port: DaemonPort {
                port: 25,
                address: None,
            },
            max_daemon_sessions: 0,
            queue_return: 432_000,
            queue_warn: None,
            min_queue_age: 0,
            max_hop_count: 25,
            max_alias_recursion: 10,
            max_message_size: 0,
            max_recipients_per_message: 0,
            recipient_factor: 30_000,
            class_factor: 1_800,
            retry_factor: 90_000,
            double_bounce_address: Text::of(alloc, b"postmaster")?,
        })
    }

    /// The most bytes of a message. It takes no memory.
    #[tactic(auto, unfolding(crate::specs::Limits::most_message))]
    pub fn message_limit(&self) -> u64
        ensures { result ≡ message_limit self.now }
    {
        if self.max_message_size == 0 {
            return MOST_MESSAGE;
        }
        self.max_message_size.min(MOST_MESSAGE)
    }

    /// The most recipients of a message. It takes no memory.
    #[tactic(auto, unfolding(crate::specs::Limits::most_recipients))]
    pub fn recipient_limit(&self) -> u64
        ensures { result ≡ recipient_limit self.now }
    {
        if self.max_recipients_per_message == 0 {
            return MOST_RECIPIENTS;
        }
        self.max_recipients_per_message
    }
}

impl TryCopy for DaemonPort {
    fn copy(&self) -> Result<DaemonPort, NoMemory> {
        Ok(DaemonPort {
            port: self.port,
            address: self.address.copy()?,
        })
    }
}

impl TryCopy for Options {
    fn copy(&self) -> Result<Options, NoMemory> {
        Ok(Options {
            queue_directory: self.queue_directory.copy()?,
            alias_files: self.alias_files.copy()?,
            hosts_file: self.hosts_file.copy()?,
            homes_file: self.homes_file.copy()?,
            operator_chars: self.operator_chars.copy()?,
            daemon_port: self.daemon_port.copy()?,
            max_daemon_sessions: self.max_daemon_sessions,
            queue_return: self.queue_return,
            queue_warn: self.queue_warn,
            min_queue_age: self.min_queue_age,
            max_hop_count: self.max_hop_count,
            max_alias_recursion: self.max_alias_recursion,
            max_message_size: self.max_message_size,
            max_recipients_per_message: self.max_recipients_per_message,
            recipient_factor: self.recipient_factor,
            class_factor: self.class_factor,
            retry_factor: self.retry_factor,
            double_bounce_address: self.double_bounce_address.copy()?,
        })
    }
}
