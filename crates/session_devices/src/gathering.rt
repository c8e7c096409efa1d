// Output of several sessions, and changes of the queue, that wait for the disk together.

/// How many milliseconds one waits for others, however fast the disk is.
const SHORT: u64 = 2;

/// Since when something waits for the disk, if anything does, whether output is among it, and how
/// long the disk last took. Times are milliseconds of one clock.
#[derive(Clone, Copy)]
pub struct Gathering {
    since: Option<u64>,
    has_output: bool,
    pace: u64,
}

impl Gathering {
    /// Nothing waits.
    pub fn new() -> Gathering {
        Gathering {
            since: None,
            has_output: false,
            pace: 0,
        }
    }

    /// Whether output waits.
    pub fn has_output(&self) -> bool {
        self.has_output
    }

    /// From now on something waits, where nothing did.
    pub fn begin(&mut self, now: u64) {
        self.since = Some(self.since.unwrap_or(now));
    }

    /// The same of output.
    pub fn begin_output(&mut self, now: u64) {
        self.begin(now);
        self.has_output = true;
    }

    /// Nothing waits any more. It says whether output did.
    pub fn end(&mut self) -> bool {
        let had_output = self.has_output;
        self.since = None;
        self.has_output = false;
        had_output
    }

    /// Tells how many milliseconds the disk took.
    pub fn note_pace(&mut self, millis: u64) {
        self.pace = millis;
    }

    /// Whether something waits longer than a few milliseconds, and four times as long as the disk
    /// last took; at most so long.
    pub fn is_due(&self, now: u64, most: u64) -> bool {
        let longest = self.pace.saturating_mul(4).max(SHORT).min(most);
        self.since
            .is_some_and(|since| now.saturating_sub(since) > longest)
    }

    /// How many milliseconds are waited for more to come; less than so many.
    pub fn patience(&self, most: u64) -> i32 {
        i32::try_from(self.pace.min(most) / 4).unwrap_or(0)
    }
}
