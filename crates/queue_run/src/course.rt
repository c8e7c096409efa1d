ghost use Rattle.std.specs.Prelude.{◌≡◌, IfOk};
ghost use Rattle.queue_run.specs.Batches.{course_of};

use mail_base::{NoMemory, Resolved, Text, TryCopy};
use mailer_pipe::is_argument;

/// A mailer and a host.
#[derive(PartialEq, Eq, Hash, Drop)]
pub struct Course {
    pub mailer: Text,
    pub host: Text,
}

impl Course {
    // Where a row goes that may stand in a batch with others.
    pub(crate) fn of(resolved: &Resolved) -> Result<Option<Course>, NoMemory>
        ensures { IfOk result (λ course. course ≡ course_of resolved.now) }
    {
        match resolved {
            Resolved::Goes(triple) => {
                if !is_argument(&triple.user) {
                    return Ok(None);
                }
                Ok(Some(Course {
                    mailer: triple.mailer.copy()?,
                    host: triple.host.copy()?,
                }))
            }
            Resolved::Refuses(_error) => Ok(None),
        }
    }
}
