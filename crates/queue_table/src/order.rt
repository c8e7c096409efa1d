ghost use Rattle.std.specs.Prelude.{◌≡◌, ◌<◌, ◌↔◌, ℕ, IsTrue, false};
ghost use Rattle.queue_table.specs.Order.{IsBefore, has_waited, is_due};

use mail_base::{Control, Entry};

/// Whether an entry is to be tried at a moment, where so many seconds are to pass between two
/// tries. It takes no memory.
pub fn due(control: &Control, moment: u64, wait: u64) -> bool
    ensures { result ≡ is_due control.now moment wait }
{
    if control.has_failed() {
        return true;
    }
    control.has_queued() && has_waited(control, moment, wait)
}

// Whether it was never tried, or long enough ago.
fn has_waited(control: &Control, moment: u64, wait: u64) -> bool
    ensures { result ≡ has_waited control.now moment wait }
{
    if control.tries == 0 {
        return true;
    }
    control.last_try <= moment && wait <= moment - control.last_try
}

/// A moment before which an entry isn't due.
pub(crate) fn due_from(control: &Control, wait: u64) -> u64
    ensures { (moment : ℕ) → moment < result → is_due control.now moment wait ≡ false }
{
    if control.has_failed() {
        return 0;
    }
    if !control.has_queued() {
        return u64::MAX;
    }
    if control.tries == 0 {
        return 0;
    }
    control.last_try.saturating_add(wait)
}

/// Whether an entry goes before another: the one of lower priority, and of two with the same the
/// one of lower id. It takes no memory.
pub fn before(a: &Entry, b: &Entry) -> bool
    ensures { IsTrue result ↔ IsBefore a.now b.now }
{
    if a.control.priority == b.control.priority {
        return a.id.number() < b.id.number();
    }
    a.control.priority < b.control.priority
}
