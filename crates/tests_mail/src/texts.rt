// What tests add to texts.
use mail_base::{NoMemory, Text};

/// Adds bytes, each so many times.
pub(crate) fn add_often(text: &mut Text, parts: &[(&[u8], usize)]) -> Result<(), NoMemory> {
    for part in parts {
        for _ in 0..part.1 {
            text.extend(part.0)?;
        }
    }
    Ok(())
}

pub(crate) fn add(text: &mut Text, parts: &[&[u8]]) -> Result<(), NoMemory> {
    for part in parts {
        text.extend(part)?;
    }
    Ok(())
}

pub(crate) fn add_number(text: &mut Text, number: u128) -> Result<(), NoMemory> {
    let digits = format!(in text.allocator(); "{number}")?;
    text.extend(digits.as_bytes())
}
