//! The program `sendmail`, as a function of its devices.
#![tactic(auto)]

mod address_test;
mod aliases;
mod buffer;
mod fault;
mod input;
mod law;
mod list_mode;
mod maps;
mod opening;
mod outcome;
mod program;
mod queue_listing;
mod serving_mode;
mod site;
mod submit_mode;
mod task;
mod warning;

pub use cf_reader::Fault;
pub use command_line::{DEFAULT_FILE, Job, Mode, WordFault, words, words_are_taken_or_refused};
pub use law::{one_text, some_text};
pub use outcome::Outcome;
pub use program::sendmail;
pub use queue_listing::listing;
