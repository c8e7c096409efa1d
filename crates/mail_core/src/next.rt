ghost use Rattle.std.specs.Prelude.{◌≡◌};
ghost use Rattle.mail_core.specs.inner.Going as spec;

/// How a session goes on after what was done for it.
#[derive(Clone, Copy, Debug, PartialEq, Eq)]
pub(crate) enum Next {
    /// With commands, or with the line that is next.
    Continue,
    /// With the lines of a message.
    BeginData,
    /// It was hung up.
    Closed,
}

impl Next {
    pub(crate) fn stays_open(self) -> bool
        ensures { result ≡ spec.stays_open self }
    {
        matches!(self, Next::Continue | Next::BeginData)
    }
}
