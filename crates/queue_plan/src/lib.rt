//! How the rows of a message become entries of the queue: [`distinct`] keeps equal rows once,
//! [`group_of`] gives the queue group of a row, and [`parts`] cuts the rows into entries by sender
//! and group; [`cuts`] does both for all rows. `specs/Groups.antt`, `specs/Rows.antt`,
//! `specs/Parts.antt` and `specs/Cuts.antt` say what each gives.
#![tactic(auto)]

mod asking;
mod buckets;
mod cutting;
mod group;
mod heading;
mod law;
mod parting;
mod rows;
mod target;

pub use cutting::cuts;
pub use group::{group_of, mailer_of};
pub use heading::Heading;
pub use law::{one_group, rows_have_parts, rows_stay_once, some_group};
pub use parting::parts;
pub use rows::distinct;
