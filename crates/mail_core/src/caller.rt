ghost use Rattle.std.specs.Prelude.{◌≡◌, IsTrue};
ghost use Rattle.mail_core.specs.inner.Going.{begins_data};
ghost use Rattle.smtp_lines.specs.Runs.{granted_by};

use crate::next::Next;
use smtp_lines::Lines;
use smtp_receive::Session;

/// An open session, as the core keeps it.
#[derive(Drop)]
pub struct Caller {
    pub(crate) number: u64,
    pub(crate) session: Session,
    pub(crate) lines: Lines,
}

impl Caller {
    /// Turns to the lines of a message, if one was granted to the last line, or goes on with
    /// commands.
    pub(crate) fn turn(&mut self, next: Next)
        requires { IsTrue self.old.lines.under.may_turn }
        ensures { self.new
            ≡ record self.old { lines = granted_by (begins_data next) self.old.lines } }
    {
        if next == Next::BeginData {
            self.lines.data();
        } else {
            self.lines.refuse();
        }
    }
}
