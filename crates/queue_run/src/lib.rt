//! Queue runners: [`Runner::claim`] takes an entry of the queue, and each [`Runner::step`] does the
//! first thing that is to be done for it. `specs/Steps.antt` says what a step is.
#![tactic(auto)]

mod attempting;
mod backs;
mod batch;
mod claiming;
mod course;
mod ending;
mod handing;
mod law;
mod letter;
mod peers;
mod putting;
mod results;
mod runner;
mod sending;
mod settling;
mod splitting;
mod starting;
mod stepping;
mod talking;
mod waiting;

pub use batch::{Batch, Routed};
pub use course::Course;
pub use law::{
    a_step_asks_at_most_one_command, an_end_is_recorded_at_once, deeds_are_of_the_holder,
};
pub use letter::Letter;
pub use runner::{Did, RunStop, Runner, Running};
