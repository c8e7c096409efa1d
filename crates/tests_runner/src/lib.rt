//! Tests of a runner's steps over devices in memory. They stand apart from the library, which a
//! check would else prove twice.
#![tactic(auto)]

#[cfg(test)]
mod ends;
#[cfg(test)]
mod entries;
#[cfg(test)]
mod faults;
#[cfg(test)]
mod peers;
#[cfg(test)]
mod programs;
#[cfg(test)]
mod runs;
#[cfg(test)]
mod stops;
#[cfg(test)]
mod telling;
#[cfg(test)]
mod worlds;
