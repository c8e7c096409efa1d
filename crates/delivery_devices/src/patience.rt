// How long peers may take.

/// How long a peer may take, in milliseconds.
#[derive(Clone, Copy, Debug, PartialEq, Eq)]
pub struct Patience {
    /// Until it has answered a dial.
    pub dial: u64,
    /// Until something more of it comes, or it takes more.
    pub reply: u64,
    /// The same behind the end of a message's text, which a peer may have to deliver first.
    pub text: u64,
    /// For the whole dialogue, from the dial on.
    pub whole: u64,
}

/// The times of the program.
pub const PATIENCE: Patience = Patience {
    dial: 10_000,
    reply: 300_000,
    text: 600_000,
    whole: 900_000,
};

/// The environment variable that shortens them: a number by which they are divided.
pub const HASTE: &[u8] = b"SENDMAIL_HASTE";

impl Patience {
    /// The times of the program, divided by the number that `HASTE` has.
    pub fn of_environment() -> Patience {
        let mut value = [0u8; 8];
        let length = os::env(HASTE, &mut value).min(value.len());
        PATIENCE.divided(haste_of(&value[..length]))
    }

    /// Each of these times divided by a number, and at least a millisecond.
    pub fn divided(self, haste: u64) -> Patience {
        let shorter = |time: u64| time.checked_div(haste).unwrap_or(time).max(1);
        Patience {
            dial: shorter(self.dial),
            reply: shorter(self.reply),
            text: shorter(self.text),
            whole: shorter(self.whole),
        }
    }
}

/// The number from 1 to 10,000 that these bytes spell in decimal digits; 1 where they spell none.
pub fn haste_of(value: &[u8]) -> u64 {
    let Ok(text) = str::from_utf8(value) else {
        return 1;
    };
    match text.parse::<u64>() {
        Ok(haste) if 1 <= haste && haste <= 10_000 => haste,
        _ => 1,
    }
}
