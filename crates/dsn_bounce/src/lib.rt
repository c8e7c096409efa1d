//! Returned mail and warnings as whole messages: [`bounce`] and [`warning`] make them, and
//! [`receiver`] tells to whom they go. `specs/Returned.antt` says what each is.
#![tactic(auto)]

mod law;
mod notice;
mod reasons;
mod topic;

pub use law::rows_are_told_in_order;
pub use notice::{bounce, receiver, warning};
