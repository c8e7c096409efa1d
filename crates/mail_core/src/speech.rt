ghost use Rattle.std.specs.Prelude.{◌≡◌, ◌≤◌, IsTrue};
ghost use Rattle.mail_base.specs.Histories.{Gains};
ghost use Rattle.link_edge.specs.Heard.{IsSoundAt};
ghost use Rattle.mail_core.specs.Effects.{heard_of, speech};

use link_edge::Floor;
use mail_base::Text;

/// Sends a text to a session, and hangs it up where that fails. Whether all was sent.
pub(crate) fn say<F: Floor>(floor: &mut F, session: u64, text: &Text) -> bool
    requires sound { IsSoundAt (F.seen floor.old) session }
    ensures told { Gains (F.seen floor.old).told (F.seen floor.new).told
        (heard_of (speech session text.now result)) }
    ensures sound { IsTrue result → IsSoundAt (F.seen floor.new) session }
    ensures own { (F.seen floor.new).faults ≡ (F.seen floor.old).faults }
    ensures begun { (F.seen floor.new).begun ≡ (F.seen floor.old).begun }
{
    if floor.send(session, text).is_err() {
        floor.hang_up(session);
        return false;
    }
    true
}
