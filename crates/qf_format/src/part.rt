use mail_base::{Marks, Parent, Text};

/// Which entry a control is of: the lines v, p and g.
#[derive(Drop)]
pub(crate) struct Place {
    pub(crate) revision: u64,
    pub(crate) parent: Option<Parent>,
    pub(crate) group: Text,
}

/// What its order in the queue comes from: the lines T, K, N, P and c.
#[derive(Drop)]
pub(crate) struct Order {
    pub(crate) created: u64,
    pub(crate) last_try: u64,
    pub(crate) tries: u64,
    pub(crate) priority: i128,
    pub(crate) class: i64,
}

/// What its message is: the lines F, B and S.
#[derive(Drop)]
pub(crate) struct Envelope {
    pub(crate) marks: Marks,
    pub(crate) eight: bool,
    pub(crate) sender: Text,
}
