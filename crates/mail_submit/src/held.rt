use crate::buffer::Buffer;

/// What is held of input.
#[derive(Drop)]
pub(crate) struct Held {
    /// Whether the line `.` ends it.
    pub(crate) dot: bool,
    /// Whether that line came.
    pub(crate) ended: bool,
    pub(crate) buffer: Buffer,
}
