ghost use Rattle.std.specs.Prelude.{◌≡◌, ◌≤◌, length, vec_capacity, OnOk, OnErr, IsTrue};
ghost use Rattle.link_edge.specs.Dials.{IsOpenAt, IsSoundAt};
ghost use Rattle.mailer_smtp.specs.Deliveries.{Delivered};
ghost use Rattle.mailer_smtp.specs.inner.Steps.{Attempted, Parted, Tried};

use crate::converse::converse;
use crate::hear::broken;
use crate::inbox::Inbox;
use crate::rows::{fail_all, pass, refuse_all};
use crate::texts::{is_sayable, kit_of};
use crate::{Kit, Letter, Speech};
use link_edge::{Dialer, Peer};
use mail_base::{NoMemory, Outcomes, Result1, Seq, Text};
use std::alloc::Global;

/// Hands a letter over to the first of these peers that takes it up, and says what became of each
/// of its recipients, in order. It takes its memory before it dials: after `NoMemory` nothing was
/// dialled, and the outcomes are as before. What the dialer is asked is bounded by what it answers:
/// each peer is dialled once at most, and of a peer one reply is read behind each command, of 100
/// lines of 2,048 bytes at most. Beside the letter it holds its message once more, with the dots
/// doubled, some 210,000 bytes for replies, the commands and a result for each recipient.
///
/// Where the host's name, the sender or each recipient has a CR or an LF, nothing is dialled and
/// each row fails; where some recipient has one, that one fails and isn't asked for.
pub fn deliver<N: Dialer>(
    alloc: Global,
    dialer: &mut N,
    peers: &Seq<Peer>,
    speech: Speech,
    letter: &Letter,
    outcomes: &mut Outcomes,
) -> Result<(), NoMemory>
    ensures delivered { OnOk result (Delivered speech letter.now peers.now (N.seen dialer.old)
        (N.seen dialer.new) outcomes.new.results) }
    ensures each { OnOk result (length outcomes.new.results ≡ length letter.now.users) }
    ensures dialer { OnErr result (N.seen dialer.new ≡ N.seen dialer.old) }
    ensures outcomes { OnErr result (outcomes.new ≡ outcomes.old) }
{
    let mut rows = Vec::with_capacity(alloc, letter.users.len())?;
    if !is_sayable(letter) {
        refuse_all(&mut rows, letter.users.items());
        outcomes.results = Seq::from_vec(rows);
        return Ok(());
    }
    let mut inbox = Inbox::new(alloc)?;
    let kit = kit_of(alloc, speech, letter)?;
    attempt(dialer, peers.items(), &mut inbox, speech, &kit, &mut rows);
    outcomes.results = Seq::from_vec(rows);
    Ok(())
}

// Tries the peers in order.
fn attempt<N: Dialer>(
    dialer: &mut N,
    peers: &[Peer],
    inbox: &mut Inbox,
    speech: Speech,
    kit: &Kit,
    rows: &mut Vec<Result1>,
)
    requires room { length kit.now.rcpts ≤ vec_capacity rows.old }
    ensures attempted { Attempted speech kit.now peers.now (N.seen dialer.old)
        (N.seen dialer.new) rows.new.items }
{
    match peers {
        [] => fail_all(rows, b"5.1.2", b"no host known", kit.rcpts.items()),
        [peer] => {
            // There is no next host to go to.
            let _leaves = try_peer(dialer, peer, inbox, speech, kit, rows);
        }
        [peer, rest @ ..] => {
            if try_peer(dialer, peer, inbox, speech, kit, rows) {
                attempt(dialer, rest, inbox, speech, kit, rows);
            }
        }
    }
}

// Tries one peer, and says whether it is left for the next.
fn try_peer<N: Dialer>(
    dialer: &mut N,
    peer: &Peer,
    inbox: &mut Inbox,
    speech: Speech,
    kit: &Kit,
    rows: &mut Vec<Result1>,
) -> bool
    requires room { length kit.now.rcpts ≤ vec_capacity rows.old }
    ensures tried { Tried speech kit.now peer.now (N.seen dialer.old) (N.seen dialer.new) result
        rows.new.items }
    ensures capacity { vec_capacity rows.new ≡ vec_capacity rows.old }
{
    rows.clear();
    inbox.clear();
    match dialer.dial(peer) {
        Ok(line) => {
            let end = converse(dialer, line, inbox, speech, kit, rows);
            // The rows have their results already.
            let _said = part(dialer, line, &kit.quit, end.quits);
            end.leaves
        }
        Err(_fault) => {
            // A fault leaves the host for the next one, whatever rows it has.
            let _whole = pass(rows, &broken(b"device fault"), kit.rcpts.items());
            true
        }
    }
}

// Writes QUIT where it is to be written, and closes the line. Whether it could be written decides
// nothing.
fn part<N: Dialer>(dialer: &mut N, line: u64, quit: &Text, quits: bool) -> bool
    requires live { IsOpenAt (N.seen dialer.old) line }
    requires sound { IsTrue quits → IsSoundAt (N.seen dialer.old) line }
    ensures { Parted line quit.now quits (N.seen dialer.old) (N.seen dialer.new) }
{
    let mut said = true;
    if quits {
        said = dialer.write(line, quit).is_ok();
    }
    dialer.close(line);
    said
}
