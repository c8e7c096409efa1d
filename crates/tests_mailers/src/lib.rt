//! Tests of what mailers are handed and of what senders are told, byte by byte. They stand apart
//! from the libraries, which a check would else prove twice.
#![tactic(auto)]

#[cfg(test)]
mod dialogues;
#[cfg(test)]
mod ends;
#[cfg(test)]
mod examples;
#[cfg(test)]
mod programs;
#[cfg(test)]
mod replies;
#[cfg(test)]
mod returned;
