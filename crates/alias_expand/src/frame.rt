use crate::Member;
use crate::stand::Stand;
use mail_base::{NoMemory, Seq, TryCopy};

/// Members that are read in the place of the one that names them.
#[derive(Drop)]
pub(crate) struct Opened {
    pub stand: Stand,
    pub members: Seq<Member>,
}

/// Members of which some were read.
#[derive(Drop)]
pub(crate) struct Frame {
    pub stand: Stand,
    pub members: Seq<Member>,
    /// How many of them were read.
    pub next: usize,
}

impl TryCopy for Member {
    fn copy(&self) -> Result<Member, NoMemory> {
        match self {
            Member::Address(text) => Ok(Member::Address(text.copy()?)),
            Member::Include(file) => Ok(Member::Include(file.copy()?)),
        }
    }
}
