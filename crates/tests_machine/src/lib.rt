//! Tests of the whole program over devices in memory: many sessions and many runners in one run.
//! They stand apart from the libraries, which a check would else prove twice.
#![tactic(auto)]

#[cfg(test)]
mod alone;
#[cfg(test)]
mod attempts;
#[cfg(test)]
mod chance;
#[cfg(test)]
mod delivered;
#[cfg(test)]
mod letters;
#[cfg(test)]
mod lives;
#[cfg(test)]
mod machines;
#[cfg(test)]
mod mixing;
#[cfg(test)]
mod rows;
#[cfg(test)]
mod told;
