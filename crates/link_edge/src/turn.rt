/// What a turn of a floor brought. A session is named by a number that is never used twice; a count
/// is of the bytes that stand at the front of the buffer.
#[derive(Clone, Copy, Debug, PartialEq, Eq)]
pub enum Turn {
    /// A session was opened, and so many bytes are its peer's address: at most 64, none of them LF.
    Opened(u64, usize),
    /// So many bytes of a session came, one at least.
    Piece(u64, usize),
    /// A session was ended by its peer, or its reading broke.
    Closed(u64),
    /// Nothing came for a while.
    Idle,
    /// Nothing comes any more.
    Stop,
}
