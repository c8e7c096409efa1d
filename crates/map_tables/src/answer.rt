use mail_base::Text;

/// What a map answers.
#[derive(Drop)]
pub(crate) enum Answer {
    /// The key is found, with this value.
    Finds(Text),
    /// The key is found, with this value, and names a macro that changes.
    Sets(Text),
    Lacks,
    /// The map's class isn't supported.
    Refuses,
}
