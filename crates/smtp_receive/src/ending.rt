ghost use Rattle.std.specs.Prelude.{◌≡◌, ◌≤◌, length, nat_lt, List, ℕ};
ghost use Rattle.mail_base.specs.Limits.{most_headers};
ghost use Rattle.mail_header.specs.Fields.{hops_of};
ghost use Rattle.mail_header.specs.Gatherings.{is_above};
ghost use Rattle.smtp_receive.specs.inner.Steps.{ending_of};

use crate::reply::Reply;
use mail_base::{MOST_HEADERS, Seq, Text};
use mail_header::{Gathering, hops};

/// What the end of data comes to.
pub(crate) enum End {
    /// No message is under way.
    Nothing,
    /// The message is refused.
    Refused(Reply),
    /// The message is whole, and may have passed too many hosts.
    Whole,
}

/// What the end of data comes to after the lines of a message that may have so many bytes.
pub(crate) fn ending(message: &Gathering, limit: u64) -> End
    ensures { result ≡ ending_of limit message.now }
{
    if message.size() > limit {
        return End::Refused(Reply::MessageTooLarge);
    }
    if message.is_large_block() {
        return End::Refused(Reply::HeaderTooLarge);
    }
    End::Whole
}

/// Whether a message has passed more hosts than it may, by its headers `Received` (RFC 5321,
/// section 6.3). More headers than a header block has bytes are none that were gathered.
#[tactic(auto, unfolding(mail_base::specs::Limits::most_headers))]
pub fn has_looped(headers: &Seq<Text>, most: u64) -> bool
    ensures { length headers.now ≤ most_headers
        → result ≡ is_above most (hops_of headers.now) }
{
    headers.len() as u64 > MOST_HEADERS || u64::from(hops(headers)) > most
}
