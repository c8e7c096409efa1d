//! The spool: named files in directories, the model of the disk that they lie on, and forms of it
//! in memory. A spool counts its faults, and may tell its files and what a stop may leave of them.
#![tactic(auto)]

mod attempt;
mod change;
mod file;
mod folder;
mod folders;
mod listing;
mod mem_spool;
mod spool;
mod stop_spool;

pub use attempt::Attempt;
pub use change::Change;
pub use file::File;
pub use listing::{find, sorted_names};
pub use mem_spool::MemSpool;
pub use spool::Spool;
pub use stop_spool::StopSpool;
