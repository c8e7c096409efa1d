//! Devices whose calls are told to a log, a line each: wrappers of a queue, a floor, a spawner and a
//! dialer. What is seen of each is what is seen of the device in it.
#![tactic(auto)]

mod control_text;
mod line;
mod log;
mod look;
mod told;
mod told_floor;
mod told_queue;

pub use log::Log;
pub use look::Look;
pub use told::Told;
pub use told_floor::ToldFloor;
pub use told_queue::ToldQueue;
