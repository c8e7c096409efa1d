//! The rows of a queue, as its control files say them, as lines.

use crate::attempts::{str_of, user_in};
use spool_disk::File;
use std::alloc::{AllocError, Global};

/// What the rows of a queue are told by: the users of each message, and of each row that was sent,
/// has failed or was returned the same line as of its attempt.
#[derive(Drop)]
pub(crate) struct Rows {
    pub all: String,
    pub done: String,
}

impl Rows {
    // Adds the rows of a control text. A line of a row is followed by that of its state.
    fn put(&mut self, alloc: Global, control: &str) -> Result<(), AllocError> {
        let mut user = String::new(alloc);
        for line in control.split('\n') {
            if let Some(address) = line.strip_prefix("RPFD:") {
                user.clear();
                user.push_str(user_in(address))?;
                if !user.starts_with("s-") && user.as_str() != "postmaster" {
                    write!(&mut self.all, "{user}\n")?;
                }
            } else if line.starts_with("eS") {
                write!(&mut self.done, "{user} S\n")?;
            } else if line.starts_with("e") {
                write!(&mut self.done, "{user} F\n")?;
            }
        }
        Ok(())
    }

    /// Adds those of a queue in which all is done. A file that is left besides is a line too.
    pub(crate) fn put_all(&mut self, alloc: Global, files: &[File]) -> Result<(), AllocError> {
        for file in files {
            let name = str_of(&file.name);
            if name.starts_with("sf") {
                self.put(alloc, str_of(&file.bytes))?;
            } else {
                write!(&mut self.all, "{name}\n")?;
            }
        }
        Ok(())
    }
}

fn count_of(text: &str, line: &str) -> u64 {
    let mut count = 0u64;
    for other in text.split('\n') {
        if other == line {
            count = count.saturating_add(1);
        }
    }
    count
}

/// Adds each line that two texts don't have equally often, in any order.
pub(crate) fn put_unlike(out: &mut String, one: &str, other: &str) -> Result<(), AllocError> {
    for line in one.split('\n') {
        let (count, wanted) = (count_of(one, line), count_of(other, line));
        if count != wanted {
            write!(out, "{line}: {count} for {wanted}\n")?;
        }
    }
    out.push_str(if one.len() == other.len() {
        ""
    } else {
        "lines are missing, or there are more\n"
    })
}
