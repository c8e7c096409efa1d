ghost use Rattle.std.specs.Prelude.{Bool, false};
ghost use Rattle.mail_edge.specs.Asking.{Asks};
ghost use Rattle.mail_edge.specs.Seen.{FilesSeen};

/// Calls that read files, one behind the other, leave them as one call does: the last may have
/// failed, and none before it.
pub fn files_are_asked_in_turn()
    ensures none { (files : FilesSeen) → Asks files files false }
    ensures join { (before between after : FilesSeen) (failed : Bool)
        → Asks before between false → Asks between after failed → Asks before after failed }
{}
