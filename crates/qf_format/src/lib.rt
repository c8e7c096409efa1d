//! The control text of an entry of the queue, printed and parsed. What a text is stands in
//! `specs/Spelling.antt`, and which controls have one in `specs/Valid.antt`.
#![tactic(auto)]

mod field;
mod header;
mod law;
mod lengths;
mod line;
mod number;
mod paper;
mod parsing;
mod part;
mod printing;
mod row;
mod state;
mod stop;

pub use law::one_spelling;
pub use lengths::room;
pub use paper::Paper;
pub use parsing::parse;
pub use printing::{print, print_into};
