//! The values of macros in a text, and the dates that macros have. `specs/Expansion.antt` says what
//! [`expand`] gives and what [`expand_rule`] gives of a side of a rule, and `specs/Dates.antt` what
//! [`date`] gives. [`split_name`] takes the name of a macro or a class from the front of a text,
//! and [`session_macros`] gives the macros of a session.
#![tactic(auto)]

mod construct;
mod dates;
mod expansion;
mod fault;
mod form;
mod law;
mod level;
mod name;
mod run;
mod scan;
mod scope;
mod session;
mod steps;

pub use dates::date;
pub use expansion::{expand, expand_rule, expanded, host_name};
pub use fault::ExpandFault;
pub use form::Form;
pub use law::{rule_values_by_first_construct, values_by_first_construct};
pub use name::split_name;
pub use session::{macros_with, session_macros};
