//! Where an address goes: [`route`] gives the mailer, host and user that the rules mean, or the
//! error that an address is refused with. [`check`] asks a check set of an address,
//! [`sender_for`] gives a mailer its sender, and [`rewrite`] of `ruleset_run` takes an address
//! through any sets.
//! `specs/Routes.antt` says each way in which an address is routed.
#![tactic(auto)]

mod aim;
mod checking;
mod error;
mod exit;
mod fault;
mod form;
mod law;
mod lead;
mod message;
mod routing;
mod sender;
mod triple;

pub use checking::check;
pub use law::{one_check, one_route, one_sender, some_route};
pub use routing::route;
pub use ruleset_run::{
    Rewritten, one_rewriting, recipient_sets, rewrite, sender_sets, some_rewriting,
};
pub use sender::sender_for;
