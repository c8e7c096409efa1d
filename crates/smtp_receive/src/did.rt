use mail_base::{Message, Text};

/// What a session did at a line.
#[derive(Drop)]
pub enum Did {
    /// It replies this.
    Reply(Text),
    /// It replies this, 354, and lines of a message follow.
    Granted(Text),
    /// It has received a message, without a header `Received` of its own. The reply is that of
    /// [`crate::Session::stored`].
    Message(Message),
    /// It took a line of data, to which nothing is replied.
    Taken,
    /// It replies this, and the session is over.
    Bye(Text),
}
