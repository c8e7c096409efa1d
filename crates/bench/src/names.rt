//! Texts with a number in them.

use mail_base::{NoMemory, Text};
use std::alloc::Global;

/// That of the first of some names. All have seven digits, so that twice the names are twice the
/// bytes.
pub(crate) const FIRST: u32 = 1_000_000;

pub(crate) fn numbered(
    alloc: Global,
    front: &str,
    number: u32,
    back: &str,
) -> Result<Text, NoMemory> {
    let text = format!(in alloc; "{front}{number}{back}")?;
    Text::of(alloc, text.as_bytes())
}

/// Adds a number between two texts to a text.
pub(crate) fn add(text: &mut Text, front: &str, number: u32, back: &str) -> Result<(), NoMemory> {
    let name = numbered(text.allocator(), front, number, back)?;
    text.extend(name.bytes())
}
