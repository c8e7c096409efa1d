use crate::Change;

/// A call that changes a spool, and whether it was done. One that wasn't done was cut short by a
/// stop.
#[derive(Drop)]
pub struct Attempt {
    pub change: Change,
    pub done: bool,
}
