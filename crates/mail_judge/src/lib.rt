//! What judges the paths of sessions: [`Rules`] asks the check sets of a configuration of senders
//! and recipients, and gives each recipient that is accepted the rows of its aliases, as
//! `specs/Judged.antt` says. It draws the rows of receivers of returned mail too, as
//! `specs/Returned.antt` says.
#![tactic(auto)]

mod grounds;
mod judge;
mod law;
mod refused;
mod returns;

pub use grounds::Grounds;
pub use judge::Rules;
pub use law::{each_question_is_judged, each_receiver_has_rows, one_judgement, one_return};
pub use refused::{error_of, error_with, too_many};
