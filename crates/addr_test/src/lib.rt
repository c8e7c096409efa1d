//! The lines of address test mode: what each is answered with, and what it changes. The forms of
//! lines are in `specs/Forms.antt`, and what is printed for each is in `specs/Answers.antt`.
#![tactic(auto)]

mod answers;
mod books;
mod changes;
mod form;
mod law;
mod members;
mod name;
mod printing;
mod routes;
mod runs;
mod words;

pub use answers::{Reply, answer};
pub use law::{one_answer, one_text, some_answer, some_text};
