use thiserror::Error;

/// A value is out of form. The place is that of the first byte that isn't in the grammar, counted
/// from 0. Where there is no such byte, the text is empty or its number is too large, and the place
/// is the text's length.
#[derive(Clone, Copy, Debug, PartialEq, Eq, Error)]
#[error("bad value at {place}")]
pub struct Bad {
    pub place: u64,
}
