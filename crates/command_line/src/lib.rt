//! The words of a run: [`words`] says what they ask for, or at which word they are refused
//! (`specs/CommandLines.antt`).
#![tactic(auto)]

mod fault;
mod law;
mod mail;
mod mode;
mod reading;
mod saying;
mod word;

pub use fault::WordFault;
pub use law::{submitted_words_are_lines, words_are_taken_or_refused};
pub use mode::{DEFAULT_FILE, Job, Mode};
pub use reading::words;
