// Waits for descriptors to be ready, and how long.
use libc::types::pollfd;
use mail_base::Failed;
use std::io;
use std::time::Instant;

/// What is asked of a descriptor; nothing is asked of one below 0.
pub fn asking(fd: i32, events: i16) -> pollfd {
    pollfd {
        fd,
        events,
        revents: 0,
    }
}

/// Whether something is ready within so many milliseconds. It is asked again where a signal came.
pub fn is_ready(asked: &mut [pollfd], millis: i32) -> Result<bool, Failed> {
    for _ in 0..u64::MAX {
        let count = libc::net::poll(asked, millis);
        if count >= 0 {
            return Ok(count > 0);
        }
        if os::errno() != libc::EINTR {
            break;
        }
    }
    Err(Failed)
}

/// The milliseconds since a moment.
pub fn millis_since(rt: &HostRuntime, start: Instant) -> io::Result<u64> {
    Ok(u64::try_from(start.elapsed(rt)?.as_millis()).unwrap_or(u64::MAX))
}

/// How long is waited where nothing came: more each time, up to the longest.
pub fn longer(wait: i32, longest: i32) -> i32 {
    wait.saturating_mul(2).saturating_add(1).min(longest)
}

/// The place so many steps behind the first one, of so many places in a ring.
pub fn turned(first: usize, step: usize, places: usize) -> usize {
    first.saturating_add(step).checked_rem(places).unwrap_or(0)
}
