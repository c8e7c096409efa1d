ghost use Rattle.mail_core.specs.Bounds.{AreSmall};
ghost use Rattle.mail_core.specs.States.{State};
ghost use Rattle.mail_core.specs.Sites.{Site};
ghost use Rattle.mail_core.specs.Standing.{Stands};
ghost use Rattle.mail_core.specs.declared.serving.Core.{Core as TheCore};

/// What a core holds for those who connect is bounded between two turns, whatever they send: it has
/// at most 64 sessions, and of each the rows, the message and the line under way are within their
/// limits.
pub fn what_is_held_for_sessions_is_bounded()
    ensures { (site : Site) (core : TheCore) (m : State) → Stands site core m
        → AreSmall site.config core }
{}
