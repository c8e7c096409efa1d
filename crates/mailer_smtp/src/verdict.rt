use mail_base::Note;

/// What reply is wanted.
#[derive(Clone, Copy)]
pub enum Wants {
    /// A 2xx.
    Done,
    /// A 354, behind which the text is to follow.
    Go,
}

/// What a reply is to what was asked.
#[derive(Drop)]
pub enum Verdict {
    /// The wanted one, and whether the peer lists 8BITMIME.
    Yes(bool),
    /// A 4xx.
    Later(Note),
    /// A 5xx.
    No(Note),
    /// No whole reply in the grammar, or a code of no use here.
    Broken(Note),
}
