/// What a piece of a text is.
#[derive(Clone, Copy, Debug, Drop)]
pub enum PieceKind {
    /// A byte of white space.
    White,
    /// A comment with its parentheses, others in it.
    Comment,
    /// A quoted string with its double quotes.
    Quotation,
    /// An operator.
    Operator(u8),
    /// A run of other bytes.
    Run,
}

/// A piece of a text by its place.
#[derive(Clone, Copy, Debug, Drop)]
pub struct PieceSpan {
    pub kind: PieceKind,
    /// How many bytes stand before it.
    pub start: usize,
    /// How many bytes it has; at least one.
    pub length: usize,
}
