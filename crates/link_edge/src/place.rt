use mail_base::{NoMemory, Text, TryCopy};

/// Where a floor is to listen.
#[derive(Drop)]
pub enum Place {
    /// The standard place of the device: one session on its input and output.
    Standard,
    /// A port of an address; the empty address is every one.
    Port { address: Text, port: u16 },
}

impl TryCopy for Place {
    fn copy(&self) -> Result<Place, NoMemory> {
        match self {
            Place::Standard => Ok(Place::Standard),
            Place::Port { address, port } => Ok(Place::Port {
                address: address.copy()?,
                port: *port,
            }),
        }
    }
}
