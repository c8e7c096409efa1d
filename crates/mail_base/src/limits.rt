//! The limits of mail. Each bounds what one peer or one line may take.

/// The bytes of a message, where `MaxMessageSize` isn't less.
pub const MOST_MESSAGE: u64 = 16_777_216;

/// The bytes of a message's header block.
pub const MOST_HEADERS: u64 = 65_536;

/// The bytes of a command line with its end.
pub const MOST_COMMAND: usize = 2_048;

/// The bytes of a path with its angles.
pub const MOST_PATH: usize = 256;

/// The bytes of a path's local part.
pub const MOST_LOCAL_PART: usize = 64;

/// The bytes of a path's domain.
pub const MOST_DOMAIN: usize = 255;

/// The recipients of a message, where `MaxRecipientsPerMessage` is 0.
pub const MOST_RECIPIENTS: u64 = 10_000;

/// The rows of a message, and of an entry of the queue.
pub const MOST_ROWS: usize = 10_000;

/// The sessions that are open at one time.
pub const MOST_SESSIONS: usize = 64;

/// The lines of a peer's reply.
pub const MOST_REPLY_LINES: usize = 100;

/// The bytes of a line of a peer's reply, with its end.
pub const MOST_REPLY_LINE: usize = 2_048;

/// The bytes of a piece of input.
pub const MOST_PIECE: usize = 65_536;

/// The bytes of a line of address test mode, without its end.
pub const MOST_LINE: usize = 65_536;
