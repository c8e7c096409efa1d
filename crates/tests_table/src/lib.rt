//! Tests of the message table, as tables. They stand apart from the library, which a check would
//! else prove twice.
#![tactic(auto)]

#[cfg(test)]
mod commands;
#[cfg(test)]
mod counts;
#[cfg(test)]
mod mails;
#[cfg(test)]
mod runs;
#[cfg(test)]
mod samples;
#[cfg(test)]
mod scenes;
#[cfg(test)]
mod stops;
#[cfg(test)]
mod texts;
