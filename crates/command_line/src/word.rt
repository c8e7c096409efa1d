ghost use Rattle.std.specs.Prelude.{◌≡◌, IfOk, MatchOption, None, Some};
ghost use Rattle.command_line.specs.inner.Words.{group_said, job_said, seconds_said, wait_said};

use crate::mode::Job;
use cf_values::time;
use mail_base::{NoMemory, Text};
use std::alloc::Global;

/// The mode that a word says.
pub(crate) fn job_of(alloc: Global, word: &[u8]) -> Result<Option<Job>, NoMemory>
    ensures { IfOk result (λ job. job ≡ job_said word.now) }
{
    match word {
        b"-bt" => Ok(Some(Job::Test)),
        b"-bs" => Ok(Some(Job::Session)),
        b"-bd" => Ok(Some(Job::Daemon { wait: None })),
        b"-bp" => Ok(Some(Job::List)),
        b"-q" => Ok(Some(Job::Run { group: None })),
        _ => match group_of(word) {
            Some(name) => Ok(Some(Job::Run {
                group: Some(Text::of(alloc, name)?),
            })),
            None => Ok(None),
        },
    }
}

// The name of the group in a `-qGname`.
fn group_of(word: &[u8]) -> Option<&[u8]>
    ensures { MatchOption result (group_said word.now ≡ None)
        (λ name. group_said word.now ≡ Some name.now) }
{
    let name = word.strip_prefix(b"-qG")?;
    if name.is_empty() {
        return None;
    }
    Some(name)
}

/// The seconds of a `-q` with a time.
pub(crate) fn wait_of(alloc: Global, word: &[u8]) -> Result<Option<u64>, NoMemory>
    ensures { IfOk result (λ wait. wait ≡ wait_said word.now) }
{
    match word.strip_prefix(b"-q") {
        Some(text) => Ok(seconds_of(&Text::of(alloc, text)?)),
        None => Ok(None),
    }
}

// The seconds of a time, if it is one of at most 2^60.
fn seconds_of(text: &Text) -> Option<u64>
    ensures { result ≡ seconds_said text.now }
{
    match time(text, b'm') {
        Ok(seconds) => Some(seconds),
        Err(_) => None,
    }
}
