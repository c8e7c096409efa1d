//! The tokens of an address: [`tokens`] cuts a text into its tokens, and [`join`] joins tokens to a
//! text. [`typed_tokens`] reads an address that is typed, and [`lexemes`] a side of a rule, with
//! its dollar signs; [`members`] cuts the words of a class, and [`pieces`] gives the pieces of a text
//! with their places. `specs/Pieces.antt` says what a cutting is, and `specs/Scans.antt` which fault
//! is the first. [`Separator`] parts a list of addresses.
#![tactic(auto)]

mod construct;
mod ending;
mod fault;
mod front;
mod gathering;
mod given;
mod joining;
mod law;
mod lexeme;
mod member;
mod operators;
mod piece;
mod place;
mod scan;
mod span;
mod table;
mod taking;

pub use fault::ScanFault;
pub use joining::{join, push_token};
pub use law::{computed, cut_again, lexemes_are_tokens, one_answer, one_cutting, spans_computed};
pub use lexeme::{Dollars, Lexeme};
pub use member::{any_refused, members};
pub use operators::default_operators;
pub use piece::pieces;
pub use place::{Place, Separator};
pub use scan::{cut, lexemes, tokens, typed_tokens};
pub use span::{PieceKind, PieceSpan};
