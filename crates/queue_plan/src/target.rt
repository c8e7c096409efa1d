ghost use Rattle.std.specs.Prelude.{◌≡◌, IfOk};
ghost use Rattle.queue_plan.specs.inner.Targets as spec;

use mail_base::{Draw, NoMemory, Resolved, Text, TryCopy};

/// What equal rows have in common.
#[derive(PartialEq, Eq, Hash, Drop)]
pub enum Target {
    /// The mailer, host and user to which a row goes.
    Goes(Text, Text, Text),
    /// The address of a row whose route is an error.
    Refused(Text),
}

/// The target of a row.
pub fn target_of(row: &Draw) -> Result<Target, NoMemory>
    ensures { IfOk result (λ target. target ≡ spec.target_of row.now) }
{
    match &row.resolved {
        Resolved::Goes(triple) => Ok(Target::Goes(
            triple.mailer.copy()?,
            triple.host.copy()?,
            triple.user.copy()?,
        )),
        Resolved::Refuses(_error) => Ok(Target::Refused(row.address.copy()?)),
    }
}
