//! What was tried, from what the spawner and the dialer tell: a line for each attempt by which a row
//! was sent (`user S`) or failed (`user F`).

use crate::letters::Letter;
use link_edge::DialEvent;
use mail_base::Text;
use spawn_edge::{Poll, SpawnEvent, Start};
use std::alloc::{AllocError, Global};
use std::str;

/// The bytes of a text in ASCII.
pub(crate) fn str_of(text: &Text) -> &str {
    str::from_utf8(text.bytes()).unwrap_or("?")
}

/// The user of an address, with its brackets and host or without.
pub(crate) fn user_in(address: &str) -> &str {
    let bare = address.strip_prefix("<").unwrap_or(address);
    match bare.split_once('@') {
        Some((user, _host)) => user,
        None => bare,
    }
}

// Adds a line for a user who was given a text that isn't, or doesn't end with, the message that the
// name says, each line with that end and a dot at its front behind these words.
fn check(
    alloc: Global,
    out: &mut String,
    seed: u64,
    user: &str,
    text: &str,
    dot: &str,
    end: &str,
) -> Result<(), AllocError> {
    let mut wanted = String::new(alloc);
    if let Some(letter) = Letter::named(seed, user) {
        letter.put_text(&mut wanted, dot, end)?;
    }
    if !text.ends_with(wanted.as_str()) {
        write!(out, "{user} was given the mail of others\n")?;
    }
    Ok(())
}

// The user for whom a program was started.
fn user_of(start: &Start) -> &str {
    match start.args.get(1) {
        Some(user) => str_of(user),
        None => "?",
    }
}

// The user for whom a child was started.
fn user_by(events: &[SpawnEvent], number: u64) -> &str {
    for event in events {
        if let SpawnEvent::Began { start, child, .. } = event {
            if *child == number {
                return user_of(start);
            }
        }
    }
    "?"
}

/// Adds what was tried by programs.
pub(crate) fn put_children(
    alloc: Global,
    out: &mut String,
    seed: u64,
    events: &[SpawnEvent],
) -> Result<(), AllocError> {
    for event in events {
        match event {
            SpawnEvent::Began { start, .. } | SpawnEvent::Unbegun { start, .. } => {
                let text = str_of(&start.input);
                check(alloc, out, seed, user_of(start), text, "", "\n")?;
            }
            SpawnEvent::Polled(child, Poll::Over(0)) => {
                let user = user_by(events, *child);
                write!(out, "{user} S\n")?;
            }
            SpawnEvent::Polled(child, Poll::Over(67)) => {
                let user = user_by(events, *child);
                write!(out, "{user} F\n")?;
            }
            SpawnEvent::Polled(_, _) => {}
        }
    }
    Ok(())
}

/// Adds what was tried by peers, whose dialogues follow each other, each of one recipient: it is
/// refused by a 5yz behind its address or behind the text, and sent by a 2yz that is read next
/// behind the text.
pub(crate) fn put_peers(
    alloc: Global,
    out: &mut String,
    seed: u64,
    events: &[DialEvent],
) -> Result<(), AllocError> {
    let mut user = String::new(alloc);
    let mut is_given = false;
    for event in events {
        match event {
            DialEvent::Wrote(_, bytes) => {
                let bytes = str_of(bytes);
                if let Some(address) = bytes.strip_prefix("RCPT TO:") {
                    user.clear();
                    user.push_str(user_in(address))?;
                }
                is_given = bytes.ends_with("\r\n.\r\n");
                if let (true, Some(text)) = (is_given, bytes.strip_suffix(".\r\n")) {
                    check(alloc, out, seed, user.as_str(), text, ".", "\r\n")?;
                }
            }
            DialEvent::Read(_, bytes) => {
                let reply = str_of(bytes);
                if reply.starts_with("5") {
                    write!(out, "{user} F\n")?;
                } else if is_given && reply.starts_with("2") {
                    write!(out, "{user} S\n")?;
                }
                is_given = false;
            }
            _ => {}
        }
    }
    Ok(())
}

/// The most children that ran at once. Each poll is of the one that was started or polled the
/// longest ago of those that run, or else there is no number.
pub(crate) fn most_in_turn(
    alloc: Global,
    events: &[SpawnEvent],
) -> Result<Option<usize>, AllocError> {
    let mut running = Vec::new(alloc);
    let mut most = 0usize;
    for event in events {
        match event {
            SpawnEvent::Began { child, .. } => running.push(*child)?,
            SpawnEvent::Polled(child, poll) => {
                if running.is_empty() || running.remove(0) != *child {
                    return Ok(None);
                }
                if *poll == Poll::Runs {
                    running.push(*child)?;
                }
            }
            SpawnEvent::Unbegun { .. } => {}
        }
        most = most.max(running.len());
    }
    Ok(Some(most))
}
