// Sessions that were hung up, until what they were sent has arrived.
use crate::limits::Limits;
use crate::link::Link;
use mail_base::Failed;

/// The bytes that are drained in one reading, and the most readings at once.
const PIECE: usize = 8192;

const READINGS: u32 = 16;

/// A session that was hung up: what waits is written, then the peer is told that nothing more
/// comes, and what it still sends is drained for a while, so that it isn't reset before it has read
/// all.
#[derive(Drop)]
pub struct Parting {
    link: Link,
    /// Until when it is drained, where all is written.
    until: Option<u64>,
    /// Whether something was there when it was last looked.
    is_ready: bool,
}

impl Parting {
    pub fn new(link: Link) -> Parting {
        Parting {
            link,
            until: None,
            is_ready: false,
        }
    }

    pub fn link(&self) -> &Link {
        &self.link
    }

    /// All is on the disk that what waits had to wait for.
    pub fn release(&mut self) {
        self.link.release();
    }

    /// Tells whether something is there.
    pub fn note_ready(&mut self, is_ready: bool) {
        self.is_ready = is_ready;
    }

    /// Does what can be done now, and says whether it is over.
    pub fn is_over(&mut self, now: u64, limits: &Limits) -> bool {
        if self.link.is_held() {
            return false;
        }
        if self.link.flush(now).is_err() {
            return true;
        }
        if self.link.is_waiting() {
            return self.link.stillness(now) > limits.stall;
        }
        let until = match self.until {
            Some(until) => until,
            None => {
                if self.link.finish().is_err() {
                    return true;
                }
                now.saturating_add(limits.drain)
            }
        };
        self.until = Some(until);
        now >= until || (self.is_ready && self.drain(now))
    }

    // Drops what came, and says whether nothing comes any more.
    fn drain(&mut self, now: u64) -> bool {
        let mut piece = [0u8; PIECE];
        for _ in 0..READINGS {
            match self.link.read(&mut piece, now) {
                Ok(Some(_)) => {}
                Ok(None) => return false,
                Err(Failed) => return true,
            }
        }
        false
    }
}
