// The system's clock. It tells nothing but how often it was read.
ghost use Rattle.std.specs.Prelude.{◌≡◌, None};

use mail_edge::Clock;
use std::time::{SystemTime, UNIX_EPOCH};

/// The clock of the system. Where it can't be read, or stands before 1970, its last reading counts.
#[derive(Drop)]
pub struct SystemClock {
    rt: HostRuntime,
    readings: u64,
    last: u64,
}

impl SystemClock {
    /// One that wasn't read yet.
    pub fn new(rt: HostRuntime) -> SystemClock
        ensures { result.readings ≡ 0 }
    {
        SystemClock {
            rt,
            readings: 0,
            last: 0,
        }
    }
}

impl Clock for SystemClock {
    ghost seen = { λ s. record { told = None; readings = s.readings } };

    fn now(&mut self) -> u64 {
        self.readings += 1;
        if let Some(moment) = seconds(&self.rt) {
            self.last = moment;
        }
        self.last
    }
}

// The seconds since 1970.
fn seconds(rt: &HostRuntime) -> Option<u64> {
    let now = SystemTime::now(rt).ok()?;
    Some(now.duration_since(UNIX_EPOCH).ok()?.as_secs())
}
