//! The core: one turn of the machine of `specs/Machine.antt`. It answers the lines of sessions, and
//! takes their messages into the queue before it acknowledges them; in turns in which nothing came
//! runners step, who deliver or return what the queue holds.
#![tactic(auto)]

mod act;
mod beginning;
mod bound_law;
mod caller;
mod crew;
mod fixed;
mod history_law;
mod intake;
mod lanes;
mod law;
mod listing;
mod next;
mod serving;
mod speech;

pub use act::Act;
pub use bound_law::what_is_held_for_sessions_is_bounded;
pub use history_law::{
    a_history_ends_soundly, a_history_keeps_what_was_acknowledged, a_history_means_each_start,
    a_history_moves_rows_on, a_history_repeats_no_delivery, a_run_is_past,
};
pub use law::{
    a_list_that_ends_was_tried, a_session_is_sent_what_it_would_be_sent_alone,
    acknowledged_messages_are_in_the_table, each_turn_is_answered_before_the_next,
    every_change_is_of_one_who_holds, every_delivery_is_meant, every_end_is_recorded,
    every_start_is_meant, every_success_is_sent, holders_are_apart,
    no_delivered_row_is_tried_again, one_session_more_is_turned_away,
    open_sessions_are_sent_their_replies, opened_sessions_are_sent_their_replies,
    other_sessions_change_nothing, revisions_stay_low, rows_only_go_on,
    sessions_are_sent_their_replies, sessions_stay_few,
    sessions_that_are_not_open_are_sent_nothing, tables_stay_sound,
    the_table_is_that_of_the_commands, what_is_said_are_the_replies, what_waits_longest_is_claimed,
};
pub use serving::{Core, CoreStop};
