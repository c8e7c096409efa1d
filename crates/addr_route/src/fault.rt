ghost use Rattle.std.specs.Prelude.{◌≡◌};
ghost use Rattle.addr_route.specs.declared.fault.Stop.TheVariants.{NoMemory as StopMemory};
ghost use Rattle.addr_route.specs.inner.Answers as spec;

use mail_base::{Cause, NoMemory, RouteError};
use ruleset_run::Refusal;

/// Why an address goes nowhere.
#[derive(Drop)]
pub enum Stop {
    Because(Cause),
    /// What the mailer `error` says.
    Says(RouteError),
    NoMemory,
}

impl From<NoMemory> for Stop {
    ghost from_gives = { λ _ e. e ≡ StopMemory };

    fn from(_error: NoMemory) -> Stop {
        Stop::NoMemory
    }
}

impl From<Refusal> for Stop {
    ghost from_gives = { λ refusal stop. stop ≡ spec.of_refusal refusal };

    fn from(refusal: Refusal) -> Stop {
        match refusal {
            Refusal::Because(cause) => Stop::Because(cause),
            Refusal::NoMemory => Stop::NoMemory,
        }
    }
}
