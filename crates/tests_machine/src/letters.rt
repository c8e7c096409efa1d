//! What a client says in a session, by chance: one message or more, with errors among them.

use crate::chance::drawn;
use std::alloc::AllocError;

/// A message of a session, which has its like nowhere: each address, the subject and each line of
/// the body name session and number.
#[derive(Clone, Copy)]
pub(crate) struct Letter {
    session: u64,
    number: u64,
    /// The host of its sender, to whom programs or peers bring what is returned.
    host: &'static str,
    /// How many recipients it has at this host, and whether one more elsewhere.
    here: u64,
    far: bool,
    /// How many lines of its body stand behind the first, which begins with a dot.
    lines: u64,
}

// The first of the eight places at which the numbers of a message are drawn, or with 0 of a session.
fn place_of(session: u64, number: u64) -> u64 {
    session
        .saturating_mul(64)
        .saturating_add(number.saturating_mul(8))
}

impl Letter {
    /// The message of that number of a session.
    pub(crate) fn of(seed: u64, session: u64, number: u64) -> Letter {
        let place = place_of(session, number);
        let here = drawn(seed, place, 4);
        let is_here = drawn(seed, place.saturating_add(1), 6) > 0;
        Letter {
            session,
            number,
            host: if is_here { "mx.example" } else { "c.example" },
            here,
            far: here == 0 || drawn(seed, place.saturating_add(2), 3) == 0,
            lines: drawn(seed, place.saturating_add(3), 5),
        }
    }

    /// The message that a user is the sender or a recipient of, by the name.
    pub(crate) fn named(seed: u64, user: &str) -> Option<Letter> {
        let mut words = user.split('-');
        let _kind = words.next()?;
        let session = words.next()?.parse().unwrap_or(0);
        let number = words.next()?.parse().unwrap_or(0);
        Some(Letter::of(seed, session, number))
    }

    /// Adds its recipients, each behind these words and before those of its host.
    pub(crate) fn put_rows(
        self,
        out: &mut String,
        front: &str,
        here: &str,
        far: &str,
    ) -> Result<(), AllocError> {
        let (session, number) = (self.session, self.number);
        for place in 0..self.here {
            write!(out, "{front}u-{session}-{number}-{place}{here}")?;
        }
        if self.far {
            write!(out, "{front}f-{session}-{number}{far}")?;
        }
        Ok(())
    }

    /// Adds its header and its body, each line with that end, and the dot at the front of one
    /// behind these words.
    pub(crate) fn put_text(self, out: &mut String, dot: &str, end: &str) -> Result<(), AllocError> {
        let (session, number) = (self.session, self.number);
        write!(
            out,
            "Subject: {session}-{number}{end}{end}{dot}.first of {session}-{number}{end}"
        )?;
        for line in 0..self.lines {
            write!(out, "{line} of {session}-{number}{end}")?;
        }
        Ok(())
    }

    /// Adds the lines by which a client sends it, up to the final dot.
    pub(crate) fn put_lines(self, out: &mut String) -> Result<(), AllocError> {
        let (session, number, host) = (self.session, self.number, self.host);
        write!(out, "MAIL FROM:<s-{session}-{number}@{host}>\r\n")?;
        self.put_rows(out, "RCPT TO:<", "@mx.example>\r\n", "@far.example>\r\n")?;
        out.push_str("DATA\r\n")?;
        self.put_text(out, ".", "\r\n")
    }
}

/// The client of a session: how many messages it begins, how many of them it brings to their final
/// dots, whether it says QUIT then, and else whether its peer closes it.
#[derive(Clone, Copy)]
pub(crate) struct Client {
    seed: u64,
    session: u64,
    begun: u64,
    pub finished: u64,
    quits: bool,
    pub closes: bool,
}

// Lines that are refused, or that change nothing.
static ERRORS: [&str; 8] = [
    "FOO\r\n",
    "RCPT TO:<early@mx.example>\r\n",
    "MAIL FROM:<no\r\n",
    "DATA\r\n",
    "MAIL FROM:<bob@c.example>\r\nMAIL FROM:<bob@c.example>\r\nRSET\r\n",
    "MAIL FROM:<bob@c.example>\r\nRCPT TO:<no@mx.example>\r\nDATA\r\nRSET\r\n",
    "MAIL FROM:<bob@c.example> SIZE=99999999\r\n",
    "VRFY ann\r\nHELP\r\nNOOP\r\n",
];

impl Client {
    /// The client of a session: of eight one stays and one closes in the midst of its last message,
    /// one stays and one closes behind it, and four quit.
    pub(crate) fn of(seed: u64, session: u64) -> Client {
        let place = place_of(session, 0);
        let begun = drawn(seed, place, 3).saturating_add(1);
        let end = drawn(seed, place.saturating_add(1), 8);
        Client {
            seed,
            session,
            begun,
            finished: if end < 2 {
                begun.saturating_sub(1)
            } else {
                begun
            },
            quits: end > 3,
            closes: end == 1 || end == 3,
        }
    }

    /// Adds all that it says.
    pub(crate) fn put(self, out: &mut String) -> Result<(), AllocError> {
        let session = self.session;
        write!(out, "EHLO c{session}.example\r\n")?;
        for number in 1..=self.begun {
            let place = place_of(session, number).saturating_add(4);
            if let Some(error) = ERRORS.get(drawn(self.seed, place, 20) as usize) {
                out.push_str(error)?;
            }
            Letter::of(self.seed, session, number).put_lines(out)?;
            out.push_str(if number <= self.finished { ".\r\n" } else { "" })?;
        }
        out.push_str(if self.quits { "QUIT\r\n" } else { "" })
    }
}
