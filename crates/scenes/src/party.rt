//! Whom a run speaks with.

use mail_base::{NoMemory, Seq};
use scene_text::Item;
use std::alloc::Global;

/// With whom something is said, or where it comes back.
#[derive(Clone, Copy, PartialEq, Eq)]
pub(crate) enum Party {
    /// Standard input and output.
    Standard,
    /// The session of that number.
    Session(u64),
    /// All starts of programs and all dials of peers, in their order.
    Begun,
    /// The program that was started as that one.
    Child(u64),
    /// The peer that was dialled as that one.
    Peer(u64),
}

/// How many there are.
#[derive(Clone, Copy)]
pub(crate) struct Counts {
    pub sessions: u64,
    pub children: u64,
    pub peers: u64,
}

impl Counts {
    pub(crate) fn none() -> Counts {
        Counts {
            sessions: 0,
            children: 0,
            peers: 0,
        }
    }

    /// All of them, one after the other.
    pub(crate) fn parties(self, alloc: Global) -> Result<Seq<Party>, NoMemory> {
        let mut parties = Seq::new(alloc);
        parties.push(Party::Standard)?;
        for session in 0..self.sessions {
            parties.push(Party::Session(session.saturating_add(1)))?;
        }
        parties.push(Party::Begun)?;
        for child in 0..self.children {
            parties.push(Party::Child(child.saturating_add(1)))?;
        }
        for peer in 0..self.peers {
            parties.push(Party::Peer(peer.saturating_add(1)))?;
        }
        Ok(parties)
    }
}

/// The end of a line that is said to a party or comes from it.
pub(crate) fn end_of(item: &Item, party: Party) -> &'static [u8] {
    if item.cut {
        return b"";
    }
    match party {
        Party::Session(_) | Party::Peer(_) => b"\r\n",
        Party::Standard | Party::Begun | Party::Child(_) => b"\n",
    }
}
