use mail_base::{Seq, Text};

/// A program that is started: its path, its arguments, and what it reads on its standard input. The
/// arguments are all that it gets, without its own name.
#[derive(Drop)]
pub struct Start {
    pub program: Text,
    pub args: Seq<Text>,
    pub input: Text,
}

/// What a poll says of a child.
#[derive(Clone, Copy, Debug, PartialEq, Eq)]
pub enum Poll {
    /// It runs.
    Runs,
    /// It ended with this status.
    Over(i32),
    /// The poll failed. Nothing more is known of the child, and it counts as over.
    Lost,
}

/// What happened with child programs. The numbers of starts that failed and aren't told, as where
/// there was no memory for their texts, stand with the next start that is told.
#[derive(Drop)]
pub enum SpawnEvent {
    /// A program was started, as the child of that number.
    Began {
        start: Start,
        child: u64,
        missed: u64,
    },
    /// A program couldn't be started.
    Unbegun {
        start: Start,
        missed: u64,
    },
    /// A child was polled.
    Polled(u64, Poll),
}
