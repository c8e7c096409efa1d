//! The real devices of sessions: a floor on standard streams or at a port, files of a disk, a reader
//! and a writer, and the system's clock. They tell nothing but their counts, and the floor how it
//! was begun.
#![tactic(auto)]

mod clock;
mod disk;
mod floor;
mod gathering;
mod limits;
mod link;
mod listening;
mod parting;
mod peer;
mod port;
mod standard;
mod stream;
mod waiting;

pub use clock::SystemClock;
pub use disk::DiskFiles;
pub use floor::SystemFloor;
pub use limits::{LIMITS, Limits};
pub use peer::put_peer;
pub use standard::Wires;
pub use stream::{InputStream, OutputStream};
