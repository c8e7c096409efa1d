//! Tests of the top call and of the libraries below it that read configurations, plan queues, and
//! expand aliases: each public call once, and what no scene shows. They stand apart from the
//! libraries, which a check would else prove twice.
#![tactic(auto)]

#[cfg(test)]
mod asking;
#[cfg(test)]
mod conf;
#[cfg(test)]
mod drawn;
#[cfg(test)]
mod faults;
#[cfg(test)]
mod listed;
#[cfg(test)]
mod long;
#[cfg(test)]
mod many;
#[cfg(test)]
mod names;
#[cfg(test)]
mod plans;
#[cfg(test)]
mod queued;
#[cfg(test)]
mod returns;
#[cfg(test)]
mod rows;
#[cfg(test)]
mod samples;
#[cfg(test)]
mod shown;
#[cfg(test)]
mod top;
#[cfg(test)]
mod worlds;
