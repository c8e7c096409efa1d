//! Mail handed over to a peer by SMTP (RFC 5321) or LMTP (RFC 2033), and what becomes of each of
//! its recipients. [`deliver`] is the one call. What is written for what is read, and what each
//! row becomes, stand in `specs/Plans.antt` and `specs/Talks.antt`.
#![tactic(auto)]

mod converse;
mod delivery;
mod dots;
mod hear;
mod inbox;
mod kit;
mod law;
mod letter;
mod rows;
mod texts;
mod verdict;

pub use delivery::deliver;
pub use kit::{Kit, Speech};
pub use law::{commands_are_lines, one_delivery};
pub use letter::Letter;
pub use verdict::{Verdict, Wants};
