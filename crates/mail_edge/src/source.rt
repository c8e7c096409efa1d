ghost use Rattle.std.specs.Prelude.{◌≡◌, ◌<◌, ◌≤◌, ◌↔◌, [], length, take, IfOk, OnOk, OnErr, IfSome};
ghost use Rattle.mail_base.specs.Histories.{HasCause};
ghost use Rattle.mail_edge.specs.Moves.{Loses};
ghost use Rattle.mail_edge.specs.Seen.{SourceSeen};

use mail_base::Failed;

/// Bytes to take, from a file, a socket or memory. It may tell what is left, and whether it does
/// never changes. Its count of faults never falls, and rises where a call answers `Failed` and in
/// no other.
pub trait Source {
    /// All that is seen of it.
    ghost seen: { Self → SourceSeen };

    /// Puts bytes at the front of the buffer, and answers how many: 0 at the end, and only there.
    /// After `Failed` what is left is as before.
    fn take(&mut self, buf: &mut [u8]) -> Result<usize, Failed>
        requires { 0 < length buf.old }
        ensures bound { IfOk result (λ count. count ≤ length buf.new) }
        ensures taken { IfOk result
            (λ count. Loses (seen self.old).left (seen self.new).left (take count buf.new)) }
        ensures end { IfOk result
            (λ count. IfSome (seen self.old).left (λ bytes. (count ≡ 0) ↔ (bytes ≡ []))) }
        ensures kept { OnErr result ((seen self.new).left ≡ (seen self.old).left) }
        ensures cause { HasCause (seen self.old).faults (seen self.new).faults result }
        ensures calm { OnOk result ((seen self.new).faults ≡ (seen self.old).faults) };
}
