ghost use Rattle.std.specs.Prelude.{◌≡◌};
ghost use Rattle.mail_base.specs.declared.fault.EdgeFault.TheVariants.{NoMemory as EdgeMemory, Failed as EdgeFailed};
ghost use Rattle.mail_base.specs.declared.fault.StoreFault.TheVariants.{NoMemory as StoreMemory, SpoolFault as StoreSpool};

use mail_base::{EdgeFault, StoreFault};
use thiserror::Error;

/// A call of the spool failed, in this call or in an earlier one that left the store broken.
#[derive(Clone, Copy, Debug, PartialEq, Eq, Error)]
#[error("the spool failed")]
pub struct SpoolFault;

// What a call of the spool that gives memory back failed for.
pub(crate) fn store_fault(fault: EdgeFault) -> StoreFault
    ensures memory { fault ≡ EdgeMemory → result ≡ StoreMemory }
    ensures failed { fault ≡ EdgeFailed → result ≡ StoreSpool }
{
    match fault {
        EdgeFault::Failed => StoreFault::SpoolFault,
        EdgeFault::NoMemory => StoreFault::NoMemory,
    }
}
