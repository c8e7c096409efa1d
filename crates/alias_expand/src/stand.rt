use mail_base::{Text, Triple};

/// Where members stand.
#[derive(Drop)]
pub(crate) struct Stand {
    /// How many aliases and forward files they are under.
    pub level: u128,
    /// The sender of the rows that they come to.
    pub sender: Text,
    /// Where the alias or the user goes that names them.
    pub namer: Triple,
}

/// An address where it stands.
#[derive(Clone, Copy)]
pub(crate) struct Spot<'a> {
    /// How many aliases and forward files it is under.
    pub level: u128,
    /// The sender of the rows that it comes to.
    pub sender: &'a Text,
    pub text: &'a Text,
}
