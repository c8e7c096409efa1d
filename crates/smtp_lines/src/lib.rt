//! The lines of an SMTP stream, however it is cut into pieces; the commands that such lines are;
//! and the replies of a peer. [`Lines`] is fed the pieces in turn. What it gives are the lines
//! that `specs/Stream.antt` reads off the whole stream. [`command`] reads a line by the grammar
//! of `specs/Commands.antt`, and [`reply`] a peer's reply by that of `specs/Replies.antt`.
#![tactic(auto)]

mod command_law;
mod command_line;
mod digits;
mod line;
mod lines;
mod parameter;
mod path;
mod reading;
mod replies;
mod reply_law;
mod stream;
mod under_way;

pub use command_law::{one_command, one_path};
pub use command_line::command;
pub use line::{Line, Mode};
pub use lines::Lines;
pub use replies::{Seen, reply};
pub use reply_law::one_reply;
pub use stream::{
    all_given, given_lines_stand_first, grants_are_told, last_asks, one_reading, only_last_asks,
    read_stream,
};
