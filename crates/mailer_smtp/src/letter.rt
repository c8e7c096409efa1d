use mail_base::{Seq, Text};

/// What a mailer is asked to hand over.
#[derive(Drop)]
pub struct Letter {
    /// The name of this host, for EHLO, LHLO and HELO.
    pub host: Text,
    /// The sender without angles; it is empty in returned mail.
    pub sender: Text,
    /// The recipients without angles, in order.
    pub users: Seq<Text>,
    /// The headers, an empty line and the body. Lines end in CR LF; the last one may lack it.
    pub message: Text,
    /// Whether it was declared to have bytes above 127.
    pub eight: bool,
}
