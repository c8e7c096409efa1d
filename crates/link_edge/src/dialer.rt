ghost use Rattle.std.specs.Prelude.{◌≡◌, ◌≤◌, ◌<◌, ◌∷◌, [], length, count_by, IfOk, IfSome, OnOk, is_ok};
ghost use Rattle.mail_base.specs.Histories.{Gains, HasCause};
ghost use Rattle.link_edge.specs.Lines.{dial_events, gives, read_event, write_event};
ghost use Rattle.link_edge.specs.Dials.{DialSeen, IsOpenAt, IsSoundAt, KeepsMissed};
ghost use Rattle.link_edge.specs.declared.dial_event.DialEvent.TheVariants.{Closed};

use crate::Peer;
use mail_base::{Failed, Text};

/// Lines to peers that take mail. It may tell what happened, in order; whether it does never
/// changes. It has one count of faults, which never falls, and rises where a call fails and in no
/// other.
pub trait Dialer {
    /// All that is seen of it.
    ghost seen: { Self → DialSeen };

    /// Dials a peer, and gives the number of the line. Where content is told, no number is given
    /// twice. A dial that failed is told with its peer too, or, where there is no memory for that,
    /// it counts as missed: that number stands with the next dial that is told, and is 0 again.
    fn dial(&mut self, peer: &Peer) -> Result<u64, Failed>
        ensures told { Gains (seen self.old).told (seen self.new).told
            (dial_events peer.now (seen self.old).missed (seen self.new).missed result) }
        ensures missed { KeepsMissed (seen self.old).missed (seen self.new).missed result }
        ensures once { IfOk result
            (λ line. IfSome (seen self.old).told
            (λ history. count_by (gives line) history ≡ 0)) }
        ensures cause { HasCause (seen self.old).faults (seen self.new).faults result }
        ensures calm { OnOk result ((seen self.new).faults ≡ (seen self.old).faults) };

    /// Puts bytes of a line at the front of the buffer, which isn't empty, and gives how many; 0 is
    /// the line's end. What stands behind them is not spoken of. Of a dialer that tells, the line
    /// is open and no read or write of it has failed.
    fn read(&mut self, line: u64, buf: &mut [u8]) -> Result<usize, Failed>
        requires sound { IsSoundAt (seen self.old) line }
        requires room { 0 < length buf.old }
        ensures count { IfOk result (λ count. count ≤ length buf.new) }
        ensures told { Gains (seen self.old).told (seen self.new).told
            (read_event line result buf.new ∷ []) }
        ensures missed { (seen self.new).missed ≡ (seen self.old).missed }
        ensures cause { HasCause (seen self.old).faults (seen self.new).faults result }
        ensures calm { OnOk result ((seen self.new).faults ≡ (seen self.old).faults) };

    /// Writes all of the bytes to a line. After `Failed` a part of them was written, at their
    /// front. Of a dialer that tells, the line is open and no read or write of it has failed.
    fn write(&mut self, line: u64, bytes: &Text) -> Result<(), Failed>
        requires sound { IsSoundAt (seen self.old) line }
        ensures told { Gains (seen self.old).told (seen self.new).told
            (write_event line bytes.now (is_ok result) ∷ []) }
        ensures missed { (seen self.new).missed ≡ (seen self.old).missed }
        ensures cause { HasCause (seen self.old).faults (seen self.new).faults result }
        ensures calm { OnOk result ((seen self.new).faults ≡ (seen self.old).faults) };

    /// Ends a line. It can't fail, and takes no memory. Of a dialer that tells, the line is open.
    fn close(&mut self, line: u64)
        requires live { IsOpenAt (seen self.old) line }
        ensures told { Gains (seen self.old).told (seen self.new).told (Closed line ∷ []) }
        ensures missed { (seen self.new).missed ≡ (seen self.old).missed }
        ensures own { (seen self.new).faults ≡ (seen self.old).faults };
}
