ghost use Rattle.std.specs.Prelude.{◌≡◌, ◌≤◌, ◌<◌, ◌+◌, ◌++◌, [], length, drop, vec_capacity, vec_len, IfOk, OnOk};
ghost use Rattle.link_edge.specs.Dials.{IsSoundAt};
ghost use Rattle.mail_base.specs.Histories.{HasCause};
ghost use Rattle.mailer_smtp.specs.inner.Inboxes.{most_held, Fills};

use link_edge::Dialer;
use mail_base::{Failed, NoMemory};
use std::alloc::Global;
use std::marker::Model;

// Room for the longest reply, of 100 lines of 2,048 bytes, and for a piece behind it.
const ROOM: usize = 208_896;

/// What was read from a line and not yet looked at. It takes no memory after it was made. A
/// contract sees it as the list of these bytes.
#[derive(Drop)]
pub(crate) struct Inbox {
    bytes: Vec<u8>,
}

impl Model for Inbox {
    ghost use Rattle.std.specs.Prelude.{◌≤◌, ℕ, List, vec_capacity};

    ghost Value = { List ℕ };

    ghost view = { λ i. i.bytes.items };

    ghost invariant = { λ i. 208896 ≤ vec_capacity i.bytes };
}

impl Inbox {
    pub(crate) fn new(alloc: Global) -> Result<Inbox, NoMemory>
        ensures { IfOk result (λ inbox. inbox ≡ []) }
    {
        Ok(Inbox {
            bytes: Vec::with_capacity(alloc, ROOM)?,
        })
    }

    pub(crate) fn clear(&mut self)
        ensures { self.new ≡ [] }
    {
        self.bytes.clear();
    }

    pub(crate) fn bytes(&self) -> &[u8]
        ensures { result.now ≡ self.now }
    {
        &self.bytes
    }

    pub(crate) fn drop_front(&mut self, count: usize)
        requires { count ≤ length self.old }
        ensures { self.new ≡ drop count self.old }
    {
        remove_front(&mut self.bytes, count);
    }

    /// Reads more, and says how much.
    pub(crate) fn read<N: Dialer>(&mut self, dialer: &mut N, line: u64) -> Result<usize, Failed>
        requires room { length self.old < most_held }
        requires sound { IsSoundAt (N.seen dialer.old) line }
        ensures fills { Fills line (N.seen dialer.old).told (N.seen dialer.new).told self.old
            self.new result }
        ensures missed { (N.seen dialer.new).missed ≡ (N.seen dialer.old).missed }
        ensures cause { HasCause (N.seen dialer.old).faults (N.seen dialer.new).faults result }
        ensures calm { OnOk result ((N.seen dialer.new).faults ≡ (N.seen dialer.old).faults) }
    {
        let mut piece = [0; 4096];
        match dialer.read(line, &mut piece) {
            Ok(count) => {
                append(&mut self.bytes, &piece[..count]);
                Ok(count)
            }
            Err(Failed) => Err(Failed),
        }
    }
}

fn append(buf: &mut Vec<u8>, bytes: &[u8])
    requires { vec_len buf.old + length bytes.now ≤ vec_capacity buf.old }
    ensures items { buf.new.items ≡ buf.old.items ++ bytes.now }
    ensures capacity { vec_capacity buf.old ≤ vec_capacity buf.new }
{
    let Ok(()) = buf.extend_from_slice(bytes) else {
        unreachable!()
    };
}

fn remove_front(buf: &mut Vec<u8>, n: usize)
    requires { n ≤ vec_len buf.old }
    ensures items { buf.new.items ≡ drop n buf.old.items }
    ensures capacity { vec_capacity buf.new ≡ vec_capacity buf.old }
{
    let len = buf.len();
    buf.as_mut_slice().copy_within(n..len, 0);
    buf.truncate(len - n);
}
