ghost use Rattle.std.specs.Prelude.{◌≡◌, ◌*◌, pos, ◌+ℤ◌, ◌-ℤ◌, ◌*ℤ◌, FitsSigned};
ghost use Rattle.std.specs.Int.{w128};
ghost use Rattle.queue_table.specs.Priorities.{factors_of, priority_of, retried, within_128};

use mail_base::Options;

/// What class, recipients and tries make of a priority.
#[derive(Clone, Copy, Debug, PartialEq, Eq)]
pub struct Factors {
    pub class: u64,
    pub recipient: u64,
    pub retry: u64,
}

impl Factors {
    /// The factors of these options.
    pub fn of(options: &Options) -> Factors
        ensures { result ≡ factors_of options.now }
    {
        Factors {
            class: options.class_factor,
            recipient: options.recipient_factor,
            retry: options.retry_factor,
        }
    }

    /// The priority of an entry of so many bytes and rows, of this class, after so many tries.
    pub fn priority(self, size: u64, class: i64, rows: u32, tries: u64) -> i128
        ensures { result ≡ priority_of self size class rows tries }
    {
        let bonus = bonus_of(class, self.class);
        let first = less(size, bonus);
        let load = product(u64::from(rows), self.recipient);
        let loaded = more(first, load);
        let tried = product(tries, self.retry);
        more(loaded, tried)
    }

    /// What a try makes of a priority.
    pub fn retried(self, priority: i128) -> i128
        ensures { result ≡ retried self priority }
    {
        more(priority, u128::from(self.retry))
    }
}

/// The priority of an entry of so many bytes and rows, of this class, after so many tries. A lower
/// one goes first. It takes no memory.
pub fn priority(size: u64, class: i64, rows: u32, tries: u64, options: &Options) -> i128
    ensures { result ≡ priority_of (factors_of options.now) size class rows tries }
{
    Factors::of(options).priority(size, class, rows, tries)
}

// What a class takes off a priority.
fn bonus_of(class: i64, factor: u64) -> i128
    ensures value { result ≡ class *ℤ pos factor }
    ensures fits { FitsSigned w128 (class *ℤ pos factor) }
{
    i128::from(class) * i128::from(factor)
}

fn product(count: u64, factor: u64) -> u128
    ensures { result ≡ count * factor }
{
    u128::from(count) * u128::from(factor)
}

fn less(size: u64, bonus: i128) -> i128
    ensures { result ≡ within_128 (pos size -ℤ bonus) }
{
    i128::from(size).saturating_sub(bonus)
}

fn more(priority: i128, count: u128) -> i128
    ensures { result ≡ within_128 (priority +ℤ pos count) }
{
    priority.saturating_add_unsigned(count)
}
