//! The types that every crate shares: texts and lists, tokens and rules, the configuration, mail,
//! the queue, and faults. A contract sees a [`Text`] as its list of bytes and a [`Seq`] as the
//! list of its items.
#![tactic(auto)]

mod book;
mod bounded;
mod buckets;
mod byte;
mod catalog;
mod class;
mod classes;
mod command;
mod config;
mod control;
mod cutting;
mod draw;
mod ends;
mod exit;
mod fault;
mod id;
mod law;
mod limits;
mod lines;
mod literals;
mod macros;
mod mailer;
mod mask;
mod message;
mod note;
mod options;
mod outcome;
mod places;
mod route;
mod rule;
mod script;
mod seq;
mod status;
mod text;
mod token;
mod try_copy;
mod word;

// Bytes, texts and lists.
pub use byte::{blanked, is_blank, is_white};
pub use cutting::{
    copy_front, first_bytes, push_words, split_line, texts_of, without_quotes, without_return,
    words, words_of,
};
pub use ends::{
    stripped, trimmed, whites_length, without_angles, without_blanks, without_ends, without_whites,
    word_length,
};
pub use id::{Id, Kind, Name};
pub use note::Note;
pub use seq::Seq;
pub use status::Status;
pub use text::Text;
pub use try_copy::TryCopy;
pub use word::Word;

// The configuration: rules, classes, maps and options.
pub use book::Book;
pub use buckets::Buckets;
pub use catalog::Catalog;
pub use class::{Class, Member};
pub use classes::Classes;
pub use config::Config;
pub use law::one_place;
pub use lines::{HeaderLine, MapClass, MapLine, Precedence};
pub use literals::literal;
pub use macros::Macros;
pub use mailer::{Group, Mailer};
pub use mask::mask_of;
pub use options::{DaemonPort, Options};
pub use places::{Named, Places};
pub use rule::{Go, Item, Lookup, Numbered, Pattern, Piece, Query, Rule, RuleSet, Step, Template};
pub use token::{Mark, Token};

// Mail, the queue, and what may fail.
pub use command::{Command, LineFault, Verb};
pub use control::{Control, Draft, Entry, Parent, Row, State, Stray};
pub use draw::{Draw, Draws};
pub use exit::{exit_status, numbered_status};
pub use fault::{EdgeFault, Failed, JudgeFault, NoMemory, StoreFault};
pub use limits::{
    MOST_COMMAND, MOST_DOMAIN, MOST_HEADERS, MOST_LINE, MOST_LOCAL_PART, MOST_MESSAGE, MOST_PATH,
    MOST_PIECE, MOST_RECIPIENTS, MOST_REPLY_LINE, MOST_REPLY_LINES, MOST_ROWS, MOST_SESSIONS,
};
pub use message::{Back, Cut, Kept, Marks, Message, Split};
pub use outcome::{Outcomes, Result1};
pub use route::{Cause, Resolved, RouteError, Triple};
pub use script::Script;
