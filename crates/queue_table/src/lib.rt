//! The message table over the store of the queue: its commands, and the order in which its entries
//! are tried.
#![tactic(auto)]

mod accepting;
mod asked_law;
mod dirs;
mod drafts;
mod factors;
mod law;
mod order;
mod planning;
mod recording;
mod results;
mod returning;
mod table;
mod terms;
mod waiting;

pub use accepting::Accepting;
pub use asked_law::{files_of_steps_join, stops_of_steps_join, tables_of_steps_follow};
pub use factors::{Factors, priority};
pub use law::{
    commands_follow, commands_keep_soundness, commands_leave_other_entries, entries_are_ordered,
    open_entries_may_be_asked, reserves_outlive_other_commands, revisions_stay_low, rows_go_on,
    the_store_has_what_the_table_has,
};
pub use order::{before, due};
pub use recording::Reserved;
pub use table::Table;
pub use terms::Terms;
pub use waiting::{Holder, Lane, Waiting, held_entries_may_change};
