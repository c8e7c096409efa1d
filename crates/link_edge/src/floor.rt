ghost use Rattle.std.specs.Prelude.{◌≡◌, ◌≤◌, ◌∷◌, [], ℕ, length, IfOk, IfSome, OnOk, is_ok};
ghost use Rattle.mail_base.specs.Histories.{Gains, HasCause};
ghost use Rattle.link_edge.specs.Begins.{begun_after};
ghost use Rattle.link_edge.specs.Heard.{Heard, IsOpenAt, IsSoundAt, KeepsCounts};
ghost use Rattle.link_edge.specs.Sessions.{Follows, send_event};
ghost use Rattle.link_edge.specs.Turns.{Fits, GainsTurn, told_of};
ghost use Rattle.link_edge.specs.declared.event.FloorEvent.TheVariants.{HungUp};

use crate::{Place, Turn};
use mail_base::{Failed, Text};

/// Sessions with those who connect, at a port, on standard input and output, or in memory. It may
/// tell what happened, in order; whether it does never changes. It has a count of faults of its
/// own, which `begin` and `turn` raise, and one for each session, which `send` raises; no count
/// ever falls. A `begin` or `turn` that doesn't fail leaves its count as it was, and so does a send
/// of a floor that tells. A floor may keep one count for several sessions; then a send raises those
/// of others too.
pub trait Floor {
    /// All that is seen of it.
    ghost seen: { Self → Heard };

    /// Begins at that place. `most` is how many sessions are wanted, and 0 is no limit: a floor at
    /// a port answers `Stop` once so many were closed, and those in memory end by themselves. It is
    /// no event of the history: each floor, also one that tells nothing, has how it was begun in a
    /// record of its own, whatever the answer was.
    fn begin(&mut self, place: &Place, most: u64) -> Result<(), Failed>
        ensures told { (seen self.new).told ≡ (seen self.old).told }
        ensures begun { (seen self.new).begun ≡ begun_after (seen self.old).begun place.now most }
        ensures cause { HasCause (seen self.old).faults (seen self.new).faults result }
        ensures calm { OnOk result ((seen self.new).faults ≡ (seen self.old).faults) }
        ensures counts { KeepsCounts (seen self.old) (seen self.new) };

    /// Waits a little for something to come. The buffer has at least 64 bytes; a peer's address, or
    /// the bytes that came, are put at its front, and what stands behind them is not spoken of. A
    /// turn that failed tells nothing. Where content is told, no session number is opened twice,
    /// ends are of sessions that are open, and pieces of those to which no send has failed.
    fn turn(&mut self, buf: &mut [u8]) -> Result<Turn, Failed>
        requires { 64 ≤ length buf.old }
        ensures told { GainsTurn (seen self.old).told (seen self.new).told result buf.new }
        ensures begun { (seen self.new).begun ≡ (seen self.old).begun }
        ensures fits { IfOk result (λ turn. Fits turn buf.new) }
        ensures follows { IfOk result
            (λ turn. IfSome (seen self.old).told
            (λ history. Follows history (told_of turn buf.new))) }
        ensures cause { HasCause (seen self.old).faults (seen self.new).faults result }
        ensures calm { OnOk result ((seen self.new).faults ≡ (seen self.old).faults) }
        ensures counts { KeepsCounts (seen self.old) (seen self.new) };

    /// Sends all of the bytes to a session. After `Failed` a part of them was sent, at their front.
    /// It is told with its answer. Of a floor that tells, the session is open and no send to it has
    /// failed.
    fn send(&mut self, session: u64, bytes: &Text) -> Result<(), Failed>
        requires sound { IsSoundAt (seen self.old) session }
        ensures told { Gains (seen self.old).told (seen self.new).told
            (send_event session bytes.now (is_ok result) ∷ []) }
        ensures begun { (seen self.new).begun ≡ (seen self.old).begun }
        ensures cause { HasCause ((seen self.old).session_faults session)
            ((seen self.new).session_faults session) result }
        ensures calm { OnOk result
            (IfSome (seen self.old).told
            (λ _. (seen self.new).session_faults session
            ≡ (seen self.old).session_faults session)) }
        ensures others { (other : ℕ)
            → (seen self.old).session_faults other ≤ (seen self.new).session_faults other }
        ensures own { (seen self.new).faults ≡ (seen self.old).faults };

    /// Ends a session. It can't fail, and takes no memory. Of a floor that tells, the session is
    /// open.
    fn hang_up(&mut self, session: u64)
        requires live { IsOpenAt (seen self.old) session }
        ensures told { Gains (seen self.old).told (seen self.new).told (HungUp session ∷ []) }
        ensures begun { (seen self.new).begun ≡ (seen self.old).begun }
        ensures own { (seen self.new).faults ≡ (seen self.old).faults }
        ensures counts { KeepsCounts (seen self.old) (seen self.new) };
}
