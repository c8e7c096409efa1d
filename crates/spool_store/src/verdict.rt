/// What an opening does with a control file: it leaves it alone, removes it, or keeps its entry.
#[derive(Clone, Copy)]
pub(crate) enum Verdict {
    Strange,
    Dead,
    /// The entry's revision.
    Live(u64),
}
