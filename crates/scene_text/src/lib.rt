//! Scenes as they are written: the lines of a file, what repeats and uses make of them, and the
//! items of each scene. The document SCENES says what the lines mean.
#![tactic(auto)]

mod bad;
mod expanding;
mod item;
mod items;
mod number;
mod reading;
mod scene;
mod substitution;
mod taking;
mod text;
mod word;

pub use bad::{Bad, Refusal};
pub use expanding::{Line, expanded};
pub use item::Item;
pub use number::{number_of, put_number, put_padded};
pub use reading::{FIRST_READING, scenes_of};
pub use scene::{Play, Run, Scene};
pub use text::{parted, put_word};
pub use word::{Device, Word};
