// Calls whose failures are counted.
ghost use Rattle.std.specs.Prelude.{◌≡◌, IfOk, Ok, OnOk, false, is_err};
ghost use Rattle.mail_base.specs.Causes.{HasEdgeCause, has_failed};
ghost use Rattle.mail_base.specs.Histories.{HasCause};

use mail_base::{EdgeFault, Failed};

/// What a call gave; where it failed one fault more is counted.
pub fn counted<T: Drop, E: Drop>(faults: &mut u64, went: Result<T, E>) -> Result<T, Failed>
    ensures failed { is_err result ≡ is_err went }
    ensures value { IfOk result (λ value. went ≡ Ok value) }
    ensures cause { HasCause faults.old faults.new result }
    ensures calm { OnOk result (faults.new ≡ faults.old) }
{
    match went {
        Ok(value) => Ok(value),
        Err(_) => {
            *faults = faults.saturating_add(1);
            Err(Failed)
        }
    }
}

/// What a call gave that takes memory; where it failed one fault more is counted.
pub fn counted_edge<T: Drop>(faults: &mut u64, went: Result<T, EdgeFault>) -> Result<T, EdgeFault>
    ensures same { result ≡ went }
    ensures cause { HasEdgeCause faults.old faults.new result }
    ensures calm { has_failed result ≡ false → faults.new ≡ faults.old }
{
    match went {
        Ok(value) => Ok(value),
        Err(EdgeFault::NoMemory) => Err(EdgeFault::NoMemory),
        Err(EdgeFault::Failed) => {
            *faults = faults.saturating_add(1);
            Err(EdgeFault::Failed)
        }
    }
}
