//! The store of the queue over a [`Spool`](spool_disk::Spool): an entry is committed whole or not
//! at all, at whatever call the run stops. Which files stand for a table is in
//! `specs/Settled.antt`.
#![tactic(auto)]

mod commit;
mod fault;
mod finishes;
mod held;
mod judged;
mod label;
mod listed;
mod looked;
mod looking;
mod making;
mod named;
mod opened;
mod parcel;
mod part;
mod parts;
mod plan;
mod queue;
mod queue_law;
mod raises;
mod recovery;
mod room;
mod shelf;
mod swept;
mod verdict;

pub use fault::SpoolFault;
pub use held::Held;
pub use opened::Opened;
pub use parcel::Parcel;
pub use part::Part;
pub use queue::Queue;
pub use queue_law::{
    a_commit_of_one, a_dead_child_may_come_alive, a_read_map_has_a_table, adding_leaves_strange,
    adding_settles, before_stands, commit_settles, files_alike, finish_settles, holding_goes_on,
    one_control, one_table, opening_settles, raised_alike, replace_settles, samples_settle,
    stages_follow, steps_tidy, tidied_settles, tidied_stands, verdicts_follow,
};
pub use recovery::recover;
pub use room::Room;
