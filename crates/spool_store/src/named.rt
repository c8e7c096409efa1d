use mail_base::{Control, Id, Kind};

/// A file of the queue: the number of its directory in the list of them, its kind and its id.
#[derive(Clone, Copy)]
pub(crate) struct Named {
    pub(crate) dir: usize,
    pub(crate) kind: Kind,
    pub(crate) id: Id,
}

/// A control file, with what it says, or `None` where it says no control.
#[derive(Drop)]
pub(crate) struct Found {
    pub(crate) named: Named,
    pub(crate) control: Option<Control>,
}
