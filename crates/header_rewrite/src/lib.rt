//! Headers with the addresses that a mailer shows: [`rewritten`] takes each address in them through
//! the mailer's rulesets for headers (`specs/Rewriting.antt`), and all other bytes stay.
#![tactic(auto)]

mod filling;
mod headers;
mod law;
mod names;

pub use headers::rewritten;
pub use law::{one_header, only_joins, some_header};
