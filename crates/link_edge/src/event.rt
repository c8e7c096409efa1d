use mail_base::Text;

/// What came in a turn of a floor, with its bytes.
#[derive(Drop)]
pub enum Event {
    /// A session was opened, by the peer of that address.
    Opens(u64, Text),
    /// These bytes of a session came.
    Brings(u64, Text),
    /// A session was ended by its peer, or its reading broke.
    Closes(u64),
    /// Nothing came for a while.
    Rests,
    /// Nothing comes any more.
    Stops,
}

/// What happened on a floor.
#[derive(Drop)]
pub enum FloorEvent {
    /// A turn was taken.
    Took(Event),
    /// All of these bytes were sent to a session.
    Sent(u64, Text),
    /// A send to a session failed. How many of its bytes went out isn't known, and none are told.
    Unsent(u64),
    /// A session was hung up.
    HungUp(u64),
}
