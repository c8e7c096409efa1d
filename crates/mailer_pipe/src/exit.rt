ghost use Rattle.std.specs.Prelude.{◌≡◌, ◌≤◌, ◌++◌, codes, length};
ghost use Rattle.mail_base.specs.Exits.{exit_status};
ghost use Rattle.mailer_pipe.specs.Ends as spec;

use arrayvec::ArrayVec;
use itoa::Buffer;
use mail_base::{Note, Result1, Status, exit_status};

/// What the status with which a program mailer ended makes of each of its rows: 0 is sent; 71, 74
/// and 75 are tried again; every other is a failure, with the status of its exit. The note is
/// `exit ` and the number (sysexits). It takes no memory.
pub fn end(status: i32) -> Result1
    ensures { result ≡ spec.ended_with status }
{
    match status {
        0 => Result1::Sent,
        71 | 74 | 75 => Result1::Deferred(note_of(status)),
        _ => Result1::Failed(status_of(status), note_of(status)),
    }
}

/// What becomes of a row whose user can't be an argument, since it has a NUL. It takes no memory.
pub fn no_argument() -> Result1
    ensures { result ≡ spec.no_argument }
{
    Result1::Failed(
        Status::of(b"5.1.3").unwrap(),
        Note::of(b"NUL in user").unwrap(),
    )
}

// The status of a mailer that failed.
fn status_of(status: i32) -> Status
    ensures { result ≡ exit_status (spec.named_exit status) }
{
    Status::of(exit_status(named_exit(status))).unwrap()
}

// The number of an exit that has a name.
fn named_exit(status: i32) -> Option<u8>
    ensures { result ≡ spec.named_exit status }
{
    if status >= 64 && status <= 78 {
        return Some(status as u8);
    }
    None
}

fn note_of(status: i32) -> Note
    ensures { result ≡ spec.note_of status }
{
    let mut buffer = Buffer::new();
    Note::of(line_of(buffer.format(status).as_bytes()).as_slice()).unwrap()
}

// The line of a number.
fn line_of(number: &[u8]) -> ArrayVec<u8, 64>
    requires { length number.now ≤ 40 }
    ensures { result.items ≡ codes "exit " ++ number.now }
{
    let mut line = ArrayVec::new();
    line.try_extend_from_slice(b"exit ").unwrap();
    line.try_extend_from_slice(number).unwrap();
    line
}
