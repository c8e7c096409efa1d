ghost use Rattle.std.specs.Prelude.{◌≡◌, OnOk, OnErr};
ghost use Rattle.mail_base.specs.Histories.{Gains, HasCause};
ghost use Rattle.mail_edge.specs.Moves.{GainsPart};
ghost use Rattle.mail_edge.specs.Seen.{SinkSeen};

use mail_base::Failed;

/// Where bytes go: a file, a socket or memory. It may tell what was written, and whether it does
/// never changes. Its count of faults never falls, and rises where a call answers `Failed` and in
/// no other.
pub trait Sink {
    /// All that is seen of it.
    ghost seen: { Self → SinkSeen };

    /// Writes all of the bytes. After `Failed` a part of them was written, at their front.
    fn give(&mut self, bytes: &[u8]) -> Result<(), Failed>
        ensures written { OnOk result
            (Gains (seen self.old).written (seen self.new).written bytes.now) }
        ensures part { OnErr result
            (GainsPart (seen self.old).written (seen self.new).written bytes.now) }
        ensures cause { HasCause (seen self.old).faults (seen self.new).faults result }
        ensures calm { OnOk result ((seen self.new).faults ≡ (seen self.old).faults) };
}
