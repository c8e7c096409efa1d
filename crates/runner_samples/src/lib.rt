//! Calls of a runner over a table that is opened here, for tests and measurements alone.
#![tactic(auto)]

mod opening;
mod stepping;

pub use opening::{id_of, opened};
pub use stepping::{advance, claimed};
