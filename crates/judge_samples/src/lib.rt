//! A judge of a session's paths, for tests and measurements alone.
#![tactic(auto)]

mod judge;

pub use judge::TestJudge;
