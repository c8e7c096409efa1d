//! Tests of the store of the queue, as tables. They stand apart from the library, which a check
//! would else prove twice.
#![tactic(auto)]

#[cfg(test)]
mod changes;
#[cfg(test)]
mod faults;
#[cfg(test)]
mod openings;
#[cfg(test)]
mod stops;
