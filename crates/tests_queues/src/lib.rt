//! Tests of the real queue: directories of a disk as a spool, and the same looked at alone.
#![tactic(auto)]

#[cfg(test)]
mod late;
#[cfg(test)]
mod queues;
#[cfg(test)]
mod views;
