//! How children and peers go, by chance: each line that is dialled is a dialogue of one recipient.

use crate::chance::drawn;
use mail_base::{NoMemory, Seq, Text};
use spawn_edge::Life;
use std::alloc::Global;

// Statuses of children. The first seven are those where nothing fails.
static STATUSES: [i32; 12] = [0, 0, 0, 0, 0, 0, 0, 75, 75, 71, 67, 67];

// How many pieces a peer says as one that takes the message, and the last one. The first seven are
// those where nothing fails: then the peer is busy, refuses the recipient, defers it, closes behind
// the final dot, or refuses the message.
static TALKS: [(usize, &str); 12] = [
    (5, "250 ok\r\n"),
    (5, "250 ok\r\n"),
    (5, "250 ok\r\n"),
    (5, "250 ok\r\n"),
    (5, "250 ok\r\n"),
    (5, "250 ok\r\n"),
    (5, "250 ok\r\n"),
    (0, "421 busy\r\n"),
    (3, "550 no such user\r\n"),
    (3, "451 later\r\n"),
    (5, ""),
    (5, "554 no\r\n"),
];

static TAKES: [&str; 5] = [
    "220 hi\r\n",
    "250 hi\r\n",
    "250 ok\r\n",
    "250 ok\r\n",
    "354 go\r\n",
];

/// Of how many places of a table one is drawn.
pub(crate) fn bound_of(fails: bool) -> u64 {
    if fails { 12 } else { 7 }
}

/// The lives of children, of which some run for a while.
pub(crate) fn lives_of(alloc: Global, seed: u64, fails: bool) -> Result<Seq<Life>, NoMemory> {
    let mut lives = Seq::new(alloc);
    for child in 0..1_000u64 {
        let place = child.saturating_mul(4);
        let polls = drawn(seed, place, 6);
        let kind = drawn(seed, place.saturating_add(1), bound_of(fails));
        if let Some(status) = STATUSES.get(kind as usize) {
            let status = *status;
            lives.push(Life { polls, status })?;
        }
    }
    Ok(lives)
}

/// The calls of a spawner that fail: each twentieth, if any do.
pub(crate) fn failing_of(alloc: Global, seed: u64, fails: bool) -> Result<Seq<u64>, NoMemory> {
    let mut failing = Seq::new(alloc);
    for call in 0..2_000u64 {
        if fails && drawn(seed, call.saturating_mul(4).saturating_add(2), 20) == 0 {
            failing.push(call)?;
        }
    }
    Ok(failing)
}

fn put_talk(pieces: &mut Seq<Text>, count: usize, last: &str) -> Result<(), NoMemory> {
    let alloc = pieces.allocator();
    for piece in TAKES.get(..count).unwrap_or(&[]) {
        pieces.push(Text::of(alloc, piece.as_bytes())?)?;
    }
    pieces.push(Text::of(alloc, last.as_bytes())?)
}

/// What peers say on their lines. Lines behind the last dialogue are closed at once.
pub(crate) fn pieces_of(alloc: Global, seed: u64, fails: bool) -> Result<Seq<Text>, NoMemory> {
    let mut pieces = Seq::new(alloc);
    for line in 0..300u64 {
        let place = line.saturating_mul(4).saturating_add(3);
        let kind = drawn(seed, place, bound_of(fails)) as usize;
        if let Some((count, last)) = TALKS.get(kind) {
            put_talk(&mut pieces, *count, last)?;
        }
    }
    Ok(pieces)
}
