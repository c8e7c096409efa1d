//! The runs of rulesets over the tokens of an address, with their look-ups and calls. [`through`]
//! takes tokens through several rulesets, and [`rewrite`] an address.
#![tactic(auto)]

mod book;
mod calls;
mod fault;
mod filler;
mod law;
mod looking;
mod parts;
mod passing;
mod refusal;
mod rewritten;
mod runner;
mod sets;
mod values;

pub use fault::RunFault;
pub use law::{
    candidates_lose_no_match, each_run_ends, one_outcome, one_rewriting, some_rewriting,
};
pub use passing::{passed, through};
pub use refusal::Refusal;
pub use rewritten::{Rewritten, rewrite};
pub use runner::{Ran, run};
pub use sets::{
    header_recipient_sets, header_sender_sets, recipient_sets, sender_sets, sets_of, user_sets,
};
