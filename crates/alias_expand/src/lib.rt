//! Aliases and home files, and the rows that an address comes to: [`Aliases`] has the lines of alias
//! files, [`Homes`] those of a file of homes, and [`members_of`] reads an include or forward file.
//! What a line and a member are is said in `specs/Lines.antt`, `Members.antt` and `Aliases.antt`.
#![tactic(auto)]

mod alias_line;
mod aliases;
mod expansion;
mod fault;
mod file_reads;
mod frame;
mod homes;
mod law;
mod lead;
mod leaf;
mod lines;
mod member;
mod members;
mod owner;
mod reading;
mod refusal;
mod site;
mod stand;
mod tree;
mod triples;

pub use aliases::{Alias, Aliases};
pub use expansion::expand;
pub use fault::AliasFault;
pub use homes::Homes;
pub use law::{null_sender_stays, one_expansion, some_expansion};
pub use members::{Member, members_of};
pub use refusal::ExpandRefusal;
