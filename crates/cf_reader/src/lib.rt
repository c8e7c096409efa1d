//! The reader of configuration files. What each line says, and which line is the first that is
//! refused, is said in `specs/`.
#![tactic(auto)]

mod alias_paths;
mod class_line;
mod cuts;
mod daemon_port;
mod define_line;
mod fault;
mod fields;
mod file_line;
mod finish;
mod group_line;
mod header_line;
mod law;
mod left_sides;
mod letters;
mod logical;
mod lookups;
mod mailer_field;
mod mailer_line;
mod map_line;
mod map_lines;
mod option_line;
mod option_value;
mod pieces;
mod precedence_line;
mod reader;
mod right_sides;
mod rules;
mod set_line;
mod setting;
mod signs;
mod state;
mod values;

pub use fault::{CfFault, Fault};
pub use law::fields_by_first_construct;
pub use reader::read;
