//! What a message becomes on its way into the queue: [`made`] gives it the header `Received` and the
//! parts of its rows (`specs/Messages.antt`), and [`planned`] makes it ready to be taken into a table
//! (`specs/Planned.antt`).
#![tactic(auto)]

mod message;
mod moment;
mod plan;

pub use message::{has_class, made};
pub use moment::moment_of;
pub use plan::planned;
