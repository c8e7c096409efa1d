//! Tests of the devices in memory, as tables. They stand apart from the libraries, which a check
//! would else prove twice.
#![tactic(auto)]

#[cfg(test)]
mod again;
#[cfg(test)]
mod dialers;
#[cfg(test)]
mod edges;
#[cfg(test)]
mod events;
#[cfg(test)]
mod floors;
pub mod once;
#[cfg(test)]
mod spawners;
#[cfg(test)]
mod spools;
