use mail_base::{NoMemory, Text, TryCopy};

/// Whom a dialer dials.
#[derive(Drop)]
pub enum Peer {
    /// A port of a host's address.
    Host { address: Text, port: u16 },
    /// A Unix socket of this machine, by its path.
    Path(Text),
}

impl TryCopy for Peer {
    fn copy(&self) -> Result<Peer, NoMemory> {
        match self {
            Peer::Host { address, port } => Ok(Peer::Host {
                address: address.copy()?,
                port: *port,
            }),
            Peer::Path(path) => Ok(Peer::Path(path.copy()?)),
        }
    }
}
