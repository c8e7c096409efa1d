//! Maps: the tables of the K lines of a configuration, the host table, and what a look-up answers.
//! What each class answers is said in `specs/`.
#![tactic(auto)]

mod answer;
mod answering;
mod arith;
mod files;
mod found;
mod host_table;
mod hosts;
mod law;
mod lines;
mod maps;
mod members;
mod named;
mod percent;
mod quotes;
mod table;
mod texts;

pub use files::{MapFile, wanted};
pub use found::{Found, MapFault, MapReply};
pub use hosts::{HostLine, before_comment};
pub use law::{each_lookup_is_told, sequence_hands_on};
pub use maps::{Maps, macro_name};
pub use named::Named;
pub use table::{Table, first_line_counts, put_pair};
