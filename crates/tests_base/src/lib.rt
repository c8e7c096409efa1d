//! Tests of the shared types, as tables. They stand apart from the library, which a check would
//! else prove twice.
#![tactic(auto)]

#[cfg(test)]
mod books;
#[cfg(test)]
mod classes;
#[cfg(test)]
mod configs;
#[cfg(test)]
mod copies;
mod drawing;
#[cfg(test)]
mod fakes;
#[cfg(test)]
mod faults;
#[cfg(test)]
mod queue;
#[cfg(test)]
mod rules;
#[cfg(test)]
mod texts;

pub use drawing::Itself;
