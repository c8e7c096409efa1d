use crate::level::{Given, Level};

/// An expansion under way.
#[derive(Drop)]
pub(crate) struct Run<'a> {
    /// The levels that wait for those above them, the text that is expanded first.
    pub(crate) below: Vec<Level<'a>>,
    pub(crate) level: Level<'a>,
    pub(crate) given: Given,
    /// How many references were followed.
    pub(crate) followed: usize,
}
