// The log of a process.
use crate::line::Line;
use libc::STDERR_FILENO;
use libc::net::{POLLNVAL, POLLOUT};
use libc::types::pollfd;

/// The environment variable that asks for the log, by the value `1`.
const ASKED: &[u8] = b"SENDMAIL_LOG";

/// A log on a descriptor, of the process of that number: lines in syslog's form of mail.
#[derive(Clone, Copy)]
pub struct Log {
    fd: i32,
    pid: u32,
}

impl Log {
    /// That on standard error, where the environment asks for it and standard error is open.
    pub fn of_environment() -> Option<Log> {
        let mut value = [0u8; 2];
        let length = os::env(ASKED, &mut value).min(value.len());
        if value.get(..length) != Some(b"1".as_slice()) || !is_open(STDERR_FILENO) {
            return None;
        }
        Some(Log::to(STDERR_FILENO, libc::getpid().unsigned_abs()))
    }

    /// One on a descriptor, of the process of that number.
    pub fn to(fd: i32, pid: u32) -> Log {
        Log { fd, pid }
    }

    /// A line with the name and the number of the process.
    pub(crate) fn line(self) -> Line {
        let mut line = Line::new();
        line.put(b"sendmail[");
        line.put_number(u64::from(self.pid));
        line.put(b"]: ");
        line
    }

    /// Writes a line, where that goes at once. A log that nobody reads, or whose disk is full, holds
    /// up no mail.
    pub(crate) fn tell(self, line: Line) {
        if takes_more(self.fd) {
            // Nobody can be told that a line was lost.
            let _ = os::write_no_sigpipe(self.fd, &line.ended());
        }
    }
}

// Whether a descriptor is open, as the run begins: later its number may be that of a file.
fn is_open(fd: i32) -> bool {
    asked(fd) & POLLNVAL == 0
}

// Whether something can be written to a descriptor without a wait.
fn takes_more(fd: i32) -> bool {
    asked(fd) & POLLOUT != 0
}

// What is said of a descriptor that is asked whether it can be written to, now. It is asked again
// where a signal came.
fn asked(fd: i32) -> i16 {
    let mut asked = [pollfd {
        fd,
        events: POLLOUT,
        revents: 0,
    }];
    for _ in 0..u64::MAX {
        if libc::net::poll(&mut asked, 0) >= 0 {
            return asked[0].revents;
        }
        if os::errno() != libc::EINTR {
            break;
        }
    }
    0
}
