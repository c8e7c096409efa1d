//! Tests of the devices of the system for deliveries: child programs and lines to peers, and of
//! what is told of devices.
#![tactic(auto)]

#[cfg(test)]
mod children;
#[cfg(test)]
mod lines;
#[cfg(test)]
mod times;
#[cfg(test)]
mod told;
