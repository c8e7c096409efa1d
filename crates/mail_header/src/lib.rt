//! The headers and the body of a message. [`split`] takes a whole text, [`Gathering`] line by
//! line, both by the grammar of `specs/Headers.antt`. What a message's headers say is told by
//! [`date_of`], [`class_of`] and [`hops`], and [`received`] makes the one that is put first on
//! receipt (`specs/Fields.antt`, `specs/Made.antt`). [`added`] gives the headers of a message on
//! delivery, and [`outgoing`] the text that a mailer is handed (`specs/Outgoing.antt`). [`places`]
//! says where addresses stand in a header (`specs/Places.antt`).
#![tactic(auto)]

mod adding;
mod body;
mod fields;
mod gathered;
mod gathering;
mod grown;
mod header_lines;
mod law;
mod made;
mod member;
mod moment;
mod outgoing_text;
mod part;
mod placing;
mod span;
mod whole;

pub use adding::added;
pub use fields::{class_of, date_of, first_line, hops, is_named, name_of, value_of};
pub use gathering::Gathering;
pub use law::one_split;
pub use made::received;
pub use moment::dated;
pub use outgoing_text::{is_network, outgoing};
pub use placing::places;
pub use span::Span;
pub use whole::split;
