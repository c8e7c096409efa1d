ghost use Rattle.std.specs.Prelude.{◌≡◌};
ghost use Rattle.ruleset_run.specs.declared.refusal.Refusal.TheVariants.{NoMemory as Memory};
ghost use Rattle.ruleset_run.specs.Refusals as spec;

use crate::fault::RunFault;
use addr_tokens::ScanFault;
use mail_base::{Cause, NoMemory};

/// Why rulesets give no tokens.
#[derive(Drop)]
pub enum Refusal {
    Because(Cause),
    NoMemory,
}

/// A fault of a run as a refusal.
pub(crate) fn of_run(fault: RunFault) -> Refusal
    ensures { result ≡ spec.of_run fault }
{
    match fault {
        RunFault::Loop => Refusal::Because(Cause::Loop),
        RunFault::Work => Refusal::Because(Cause::Work),
        RunFault::Deep => Refusal::Because(Cause::Deep),
        RunFault::Long => Refusal::Because(Cause::Long),
        RunFault::NoRuleset(name) => Refusal::Because(Cause::NoRuleset(name)),
        RunFault::MapClass(name) => Refusal::Because(Cause::MapClass(name)),
        RunFault::NoSuchMap(name) => Refusal::Because(Cause::NoSuchMap(name)),
        RunFault::BadScan => Refusal::Because(Cause::BadScan),
        RunFault::NoMemory => Refusal::NoMemory,
    }
}

/// A fault of an address that is cut as a refusal.
pub(crate) fn of_scan(fault: ScanFault) -> Refusal
    ensures { result ≡ spec.of_scan fault }
{
    match fault {
        ScanFault::Unbalanced(_) => Refusal::Because(Cause::BadAddress),
        ScanFault::BadQuote(_) => Refusal::Because(Cause::BadAddress),
        ScanFault::BadDollar(_) => Refusal::Because(Cause::BadAddress),
        ScanFault::Long => Refusal::Because(Cause::LongAddress),
        ScanFault::NoMemory => Refusal::NoMemory,
    }
}

impl From<NoMemory> for Refusal {
    ghost from_gives = { λ _ e. e ≡ Memory };

    fn from(_error: NoMemory) -> Refusal {
        Refusal::NoMemory
    }
}
