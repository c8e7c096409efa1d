//! Tests of the receipt of mail, of what programs hand over and what a mailer gets, and of control
//! texts, as tables. They stand apart from the libraries, which a check would else prove twice.
#![tactic(auto)]

#[cfg(test)]
mod cases;
#[cfg(test)]
mod commands;
#[cfg(test)]
mod control;
#[cfg(test)]
mod headers;
#[cfg(test)]
mod limits;
#[cfg(test)]
mod lines;
#[cfg(test)]
mod outgoing;
#[cfg(test)]
mod receive;
#[cfg(test)]
mod received;
#[cfg(test)]
mod replies;
#[cfg(test)]
mod submitted;
#[cfg(test)]
mod talk;
#[cfg(test)]
mod texts;
