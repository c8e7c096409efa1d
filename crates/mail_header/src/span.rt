/// A stretch of a text.
#[derive(Clone, Copy, Debug, Drop, PartialEq, Eq)]
pub struct Span {
    /// How many bytes stand before it.
    pub start: usize,
    /// How many bytes it has.
    pub length: usize,
}
