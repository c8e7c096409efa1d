//! Program mailers: what a program is started with ([`begin`]), and what its end makes of the rows
//! of its batch ([`end`]). `specs/Arguments.antt` says what its arguments are, `specs/Starts.antt`
//! what is seen of a start, and `specs/Ends.antt` what a status means.
#![tactic(auto)]

mod arguments;
mod child;
mod exit;
mod fault;
mod law;

pub use arguments::{are_arguments, is_argument, takes_users};
pub use child::begin;
pub use exit::{end, no_argument};
pub use fault::PipeFault;
pub use law::users_stay_whole;
