//! The floor of the program: sessions with those who connect, as turns, sends and hang-ups. And its
//! dialer: lines to the peers that it connects to, as dials, reads, writes and closes. Both count
//! their faults and may tell what happened, as the forms in memory do.
#![tactic(auto)]

mod begun;
mod dial_event;
mod dial_law;
mod dial_telling;
mod dialer;
mod event;
mod floor;
mod hearing;
mod law;
mod one_floor;
mod peer;
mod place;
mod script_dialer;
mod script_floor;
mod step;
mod telling;
mod turn;

pub use begun::Begun;
pub use dial_event::DialEvent;
pub use dial_law::lines_follow_events;
pub use dialer::Dialer;
pub use event::{Event, FloorEvent};
pub use floor::Floor;
pub use law::{numbers_are_used_once, sessions_follow_events};
pub use one_floor::{OneFloor, Stage};
pub use peer::Peer;
pub use place::Place;
pub use script_dialer::ScriptDialer;
pub use script_floor::ScriptFloor;
pub use step::Step;
pub use turn::Turn;
