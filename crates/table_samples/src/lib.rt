//! Messages and their cuts, made of control texts, and calls of the message table on entries by
//! their places, for tests and measurements alone.
#![tactic(auto)]

mod calls;
mod mails;
mod reserving;

pub use calls::{accept, finish_done, opened, record};
pub use mails::{add_cut, message_of, one_cut};
