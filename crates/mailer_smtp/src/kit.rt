use mail_base::{Seq, Text};

/// The protocol that is spoken.
#[derive(Clone, Copy)]
pub enum Speech {
    /// RFC 5321.
    Smtp,
    /// RFC 2033: LHLO in place of EHLO, with no HELO behind it, and behind the text a reply for
    /// each recipient that was accepted.
    Lmtp,
}

/// All that may be said to a peer, each with its line end.
#[derive(Drop)]
pub struct Kit {
    /// EHLO or LHLO.
    pub hello: Text,
    /// HELO.
    pub again: Text,
    pub mail: Text,
    /// MAIL to a peer that lists 8BITMIME.
    pub mail_eight: Text,
    /// RCPT for each recipient; none where the address has a CR or an LF.
    pub rcpts: Seq<Option<Text>>,
    /// DATA.
    pub start: Text,
    /// The message with its dots doubled, and the dot that ends it.
    pub text: Text,
    pub quit: Text,
}
