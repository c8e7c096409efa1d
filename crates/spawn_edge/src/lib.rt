//! Child programs: starts, polls and their ends. A spawner counts its faults and may tell what
//! happened, as the form in memory does.
#![tactic(auto)]

mod event;
mod law;
mod life;
mod script_spawner;
mod spawner;
mod telling;

pub use event::{Poll, SpawnEvent, Start};
pub use law::children_follow_events;
pub use life::Life;
pub use script_spawner::ScriptSpawner;
pub use spawner::Spawner;
