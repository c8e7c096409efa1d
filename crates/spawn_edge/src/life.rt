/// The life of a child of a [`ScriptSpawner`](crate::ScriptSpawner): so many polls find it running,
/// and the next one finds that it ended with this status.
#[derive(Clone, Copy)]
pub struct Life {
    pub polls: u64,
    pub status: i32,
}
