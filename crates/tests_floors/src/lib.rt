//! Tests of the real devices of sessions: floors at a port and on pipes, streams, files and the clock.
#![tactic(auto)]

#[cfg(test)]
mod floors;
#[cfg(test)]
mod held;
#[cfg(test)]
mod standard;
#[cfg(test)]
mod streams;
