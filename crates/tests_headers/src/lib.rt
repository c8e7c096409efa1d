//! Tests of headers with rewritten addresses, under configurations that are read from texts. They
//! stand apart from the libraries, which a check would else prove twice.
#![tactic(auto)]

#[cfg(test)]
mod forms;
#[cfg(test)]
mod hidden;
#[cfg(test)]
mod rewriting;
#[cfg(test)]
mod samples;
