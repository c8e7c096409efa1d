//! The outside of the program: sources and sinks of bytes, files and a clock. Each counts its
//! faults or readings and may tell its content, as the forms in memory do.
#![tactic(auto)]

mod clock;
mod files;
mod law;
mod mem_clock;
mod mem_files;
mod mem_sink;
mod mem_source;
mod sink;
mod source;

pub use clock::Clock;
pub use files::{Files, LARGEST_FILE};
pub use law::files_are_asked_in_turn;
pub use mem_clock::MemClock;
pub use mem_files::{MemFiles, SureFiles};
pub use mem_sink::MemSink;
pub use mem_source::{MemSource, SureSource};
pub use sink::Sink;
pub use source::Source;
