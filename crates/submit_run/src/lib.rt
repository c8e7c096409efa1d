//! What a run does that hands one message over on its standard input: [`submit`] reads it, finds who
//! gets it, draws their rows and takes it into the queue by one command, or says why not
//! (`specs/Ends.antt`).
#![tactic(auto)]

mod drawing;
mod end;
mod handing;
mod law;
mod message;
mod parties;
mod reading;
mod storing;
mod submitting;

pub use end::SubmitEnd;
pub use law::{one_outcome, the_text_is_that_of_the_whole_input};
pub use submitting::submit;
