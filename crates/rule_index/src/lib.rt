//! The rules of a ruleset by their anchors: the index that is built of them, and the next rule that
//! may match a list of tokens.
#![tactic(auto)]

mod builder;
mod candidate;

pub use builder::build;
pub use candidate::next;
