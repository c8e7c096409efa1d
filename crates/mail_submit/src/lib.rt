//! Mail that a program hands over on standard input. [`Input`] is fed its pieces in turn, and gives
//! the message's text (`specs/Inputs.antt`). [`submitted`] says what of it is sent, and to whom
//! (`specs/Submissions.antt`).
#![tactic(auto)]

mod addresses;
mod buffer;
mod fault;
mod held;
mod input;
mod law;
mod line;
mod reading;
mod submission;
mod submitting;
mod words;

pub use fault::InputFault;
pub use input::Input;
pub use law::{one_submission, worked_example};
pub use submission::Submission;
pub use submitting::submitted;
pub use words::{SubmitWords, bracketed};
