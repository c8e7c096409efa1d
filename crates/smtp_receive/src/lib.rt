//! One SMTP session, line by line: what is replied to each line, and the message at the end of
//! data. What [`Session::line`] answers is what `specs/Dialogue.antt` says of all lines so far and
//! of what a [`Judge`] says of their paths.
#![tactic(auto)]

mod content;
mod did;
mod ending;
mod envelope;
mod judge;
mod law;
mod path;
mod reply;
mod request;
mod session;
mod steps;

pub use did::Did;
pub use ending::has_looped;
pub use judge::{Judge, Verdict};
pub use law::{
    a_final_reply_tells_its_message, lines_are_split_by_the_grammar, messages_are_split,
    messages_have_forms, no_other_reply_is_final, one_exchange_a_line, one_reply_a_line,
};
pub use reply::{out_of_memory, too_many_sessions};
pub use session::Session;
