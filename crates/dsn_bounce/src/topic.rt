/// What a message to a sender is about.
#[derive(Clone, Copy)]
pub(crate) enum Topic {
    /// The rows that failed, which it returns.
    Bounce,
    /// The rows that are still tried.
    Warning,
}
