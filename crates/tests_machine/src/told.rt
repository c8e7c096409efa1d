//! What was said to sessions, as a floor tells it.

use link_edge::FloorEvent;
use mail_base::{NoMemory, Text};

// The twelve digits of the id that a final 250 names, and what stands behind them.
fn id_in(reply: &Text) -> Option<(&[u8], &[u8])> {
    let rest = reply.bytes().strip_prefix(b"250 2.0.0 w")?;
    rest.split_at_checked(12)
}

fn put_reply(said: &mut Text, reply: &Text) -> Result<(), NoMemory> {
    match id_in(reply) {
        Some((_digits, behind)) => {
            said.extend(b"250 2.0.0 #")?;
            said.extend(behind)
        }
        None => said.extend(reply.bytes()),
    }
}

/// Adds all that was said to a session, and that it was hung up. In the place of each id stands a
/// `#`.
pub(crate) fn put_said(
    said: &mut Text,
    events: &[FloorEvent],
    session: u64,
) -> Result<(), NoMemory> {
    for event in events {
        match event {
            FloorEvent::Sent(to, reply) if *to == session => put_reply(said, reply)?,
            FloorEvent::HungUp(to) if *to == session => said.extend(b"hung up")?,
            _ => {}
        }
    }
    Ok(())
}

/// How many messages of a session are among these.
pub(crate) fn count_of(names: &[(u64, u64)], session: u64) -> u64 {
    let mut count = 0u64;
    for name in names {
        if name.0 == session {
            count = count.saturating_add(1);
        }
    }
    count
}

/// Adds the messages that were acknowledged, in the order of their 250s, each by its session and
/// its number there; and the ids that were told.
pub(crate) fn put_acks(
    names: &mut Vec<(u64, u64)>,
    ids: &mut Text,
    events: &[FloorEvent],
) -> Result<(), NoMemory> {
    for event in events {
        if let FloorEvent::Sent(session, reply) = event {
            if let Some((digits, _behind)) = id_in(reply) {
                ids.extend(digits)?;
                let number = count_of(names, *session).saturating_add(1);
                names.push((*session, number))?;
            }
        }
    }
    Ok(())
}
