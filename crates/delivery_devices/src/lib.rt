//! The real devices of deliveries: programs of the system as children, and lines to peers over its
//! sockets. They tell nothing but how often they failed.
#![tactic(auto)]

mod dialer;
mod line;
mod patience;
mod spawner;

pub use dialer::SystemDialer;
pub use patience::{HASTE, PATIENCE, Patience, haste_of};
pub use spawner::{SystemSpawner, ignores_ends};
