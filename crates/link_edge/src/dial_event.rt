use crate::Peer;
use mail_base::Text;

/// What happened with lines to peers. The number of dials that failed and aren't told, as where
/// there was no memory for their peers, stands with the next dial that is told.
#[derive(Drop)]
pub enum DialEvent {
    /// A peer was dialled, and the line has that number.
    Dialled { peer: Peer, line: u64, missed: u64 },
    /// A peer couldn't be dialled.
    Undialled { peer: Peer, missed: u64 },
    /// These bytes were read from a line; none are its end.
    Read(u64, Text),
    /// A read from a line failed.
    Unread(u64),
    /// All of these bytes were written to a line.
    Wrote(u64, Text),
    /// A write to a line failed. How many of its bytes went out isn't known, and none are told.
    Unwritten(u64),
    /// A line was closed.
    Closed(u64),
}
