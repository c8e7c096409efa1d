//! The left sides of rules: which match a rule takes, and what each of its items takes in it.
#![tactic(auto)]

mod cuts;
mod law;
mod matcher;
mod meeting;
mod row;
mod rows;
mod trial;
mod walk;

pub use cuts::{Cut, Cuts};
pub use law::{each_choice, no_fit_uncovered, one_choice, put_in};
pub use matcher::{find, find_into, lists_wanted};
pub use trial::find_by_trial;
