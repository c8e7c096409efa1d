use mail_base::Text;

/// What comes in a turn of a [`ScriptFloor`](crate::ScriptFloor). Its sessions have the numbers 1,
/// 2 and so on, in the order in which they are opened.
#[derive(Drop)]
pub enum Step {
    /// A session is opened by the peer of that address: at most 64 bytes, none of them LF.
    Open(Text),
    /// These bytes of a session come, in more than one turn where the buffer is too small for them.
    Say(u64, Text),
    /// A session is ended by its peer.
    Close(u64),
    /// Nothing comes.
    Rest,
}
