//! The real queue: directories of a disk as a spool, and the same looked at alone. They tell nothing
//! but how often they failed.
#![tactic(auto)]

mod directory;
mod queue_dirs;
mod queue_view;
mod refusal;

pub use queue_dirs::QueueDirs;
pub use queue_view::QueueView;
pub use refusal::cause_of;
