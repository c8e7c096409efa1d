ghost use Rattle.std.specs.Prelude.{◌≡◌, IfOk};

use mail_base::{Buckets, NoMemory, Rule, Seq, TryCopy};

/// The index of rules, which holds copies of them. `NoMemory` is answered for 2^32 rules and more
/// too.
pub fn build(rules: &Seq<Rule>) -> Result<Buckets, NoMemory>
    ensures { IfOk result (λ buckets. buckets ≡ rules.now) }
{
    let mut buckets = Buckets::new(rules.allocator());
    for rule in rules.items() {
        buckets.push(rule.copy()?)?;
    }
    Ok(buckets)
}
