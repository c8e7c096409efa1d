use mail_base::{Seq, Text};

/// What a program handed over.
#[derive(Drop)]
pub struct Submission {
    /// The headers that are sent, each with its lines.
    pub headers: Seq<Text>,
    /// The lines of the body, each with CR LF.
    pub body: Text,
    /// The bytes of the message that is sent, with the end of each line and the line between headers
    /// and body.
    pub size: u64,
    /// The bytes of the header block that was handed over: its lines with CR LF.
    pub block: u64,
    /// The recipients that headers name, in order and as often as they are there.
    pub recipients: Seq<Text>,
    /// The first address of the first `From` header, if it has one.
    pub first_from: Option<Text>,
}
