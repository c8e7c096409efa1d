/// How a turn went.
#[derive(Clone, Copy, Debug, PartialEq, Eq)]
pub enum Act {
    /// The run goes on.
    Went,
    /// It ended, since all was done that it was made for, or a Stop came and no child runs.
    Ended,
}
