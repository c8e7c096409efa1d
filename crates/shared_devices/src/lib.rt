//! What the real devices of one run share: descriptors and paths, what tells which of them has work,
//! and what was changed in the queue and hasn't reached the disk.
#![tactic(auto)]

mod books;
mod change;
mod complaining;
mod counting;
mod descriptor;
mod joint;
mod motion;
mod path;
mod unsynced;

pub use change::Move;
pub use complaining::{complain, complaint, meaning};
pub use counting::{counted, counted_edge};
pub use descriptor::Descriptor;
pub use joint::{Joint, SYNC};
pub use motion::Motion;
pub use path::{Path, dir_path, is_dots, path_of};
pub use unsynced::Unsynced;
