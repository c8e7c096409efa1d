// The times and bounds of a floor.

/// Times, in milliseconds, and bounds of a floor.
#[derive(Clone, Copy)]
pub struct Limits {
    /// How long a turn waits at most for something to come.
    pub wait: i32,
    /// Behind how many turns that brought something one is idle, since runners step then.
    pub busy: u32,
    /// How long a session may bring nothing.
    pub silence: u64,
    /// How long output may wait without a byte of it going out.
    pub stall: u64,
    /// How many bytes of output may wait.
    pub backlog: usize,
    /// How long it is drained what a peer still sends to a session that was hung up.
    pub drain: u64,
    /// How many sessions that were hung up may still be written and drained.
    pub parting: usize,
    /// How long nobody is let in after there were no descriptors or no memory for one more.
    pub rest: u64,
    /// How long anything waits at most for the disk while sessions bring something.
    pub held: u64,
    /// How long what waits is written at the run's end.
    pub farewell: u64,
}

/// The limits of the program.
pub const LIMITS: Limits = Limits {
    wait: 50,
    busy: 2,
    silence: 300_000,
    stall: 60_000,
    backlog: 262_144,
    drain: 2000,
    parting: 64,
    rest: 1000,
    held: 40,
    farewell: 2000,
};
