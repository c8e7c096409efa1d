// Why a directory of the queue can't be had.
use mail_base::Failed;
use shared_devices::{complain, meaning};

/// What was answered of a directory of the queue. Where that is the number of an error, a line on
/// standard error says which: `EAGAIN` where another process owns it.
pub(crate) fn noted<T: Drop>(path: &[u8], answer: Result<T, i32>) -> Result<T, Failed> {
    match answer {
        Ok(value) => Ok(value),
        Err(error) => {
            complain(path, cause_of(error, &mut [0u8; 128]));
            Err(Failed)
        }
    }
}

/// What an error of this number means of a directory: `EAGAIN` has words of its own, and all others
/// those of the C library, in the room that is lent.
pub fn cause_of(error: i32, room: &mut [u8; 128]) -> &[u8] {
    if error == libc::EAGAIN {
        return b"owned by another process";
    }
    meaning(error, room)
}
