//! Tests of tokens, macros, values, matches, runs of rules, maps, routes and address test mode, of
//! what no scene shows. They stand apart from the libraries, which a check would else prove twice.
#![tactic(auto)]

#[cfg(test)]
mod address_test;
#[cfg(test)]
mod asking;
#[cfg(test)]
mod checks;
#[cfg(test)]
mod faults;
#[cfg(test)]
mod indexed;
#[cfg(test)]
mod macros;
#[cfg(test)]
mod maps;
#[cfg(test)]
mod matches;
#[cfg(test)]
mod route_rules;
#[cfg(test)]
mod route_shown;
#[cfg(test)]
mod route_world;
#[cfg(test)]
mod routes;
#[cfg(test)]
mod runs;
#[cfg(test)]
mod senders;
#[cfg(test)]
mod sets;
#[cfg(test)]
mod signs;
#[cfg(test)]
mod tokens;
#[cfg(test)]
mod values;
#[cfg(test)]
mod world;
