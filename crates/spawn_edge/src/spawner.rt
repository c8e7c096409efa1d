ghost use Rattle.std.specs.Prelude.{◌≡◌, ◌∷◌, [], OnOk, IfOk, IfSome, count_by};
ghost use Rattle.mail_base.specs.Histories.{Gains, HasCause};
ghost use Rattle.spawn_edge.specs.Children.{begins, poll_of, start_events};
ghost use Rattle.spawn_edge.specs.Spawned.{IsRunningAt, KeepsMissed, Spawned};
ghost use Rattle.spawn_edge.specs.declared.event.SpawnEvent.TheVariants.{Polled};

use mail_base::{Failed, Seq, Text};

/// What starts programs as children, and says how they ended. It may tell what happened, in order;
/// whether it does never changes. Its count of faults never falls, and rises where a call fails and
/// in no other.
pub trait Spawner {
    /// All that is seen of it.
    ghost seen: { Self → Spawned };

    /// Starts a program with these arguments and that input, and gives its child's number. Where
    /// content is told, no number is given twice. A start that failed is told with its texts too,
    /// or, where there is no memory for them, it counts as missed: that number stands with the next
    /// start that is told, and is 0 again.
    fn start(&mut self, program: &Text, args: &Seq<Text>, input: &Text) -> Result<u64, Failed>
        ensures told { Gains (seen self.old).told (seen self.new).told
            (start_events program.now args.now input.now (seen self.old).missed
            (seen self.new).missed result) }
        ensures missed { KeepsMissed (seen self.old).missed (seen self.new).missed result }
        ensures once { IfOk result
            (λ child. IfSome (seen self.old).told
            (λ history. count_by (begins child) history ≡ 0)) }
        ensures cause { HasCause (seen self.old).faults (seen self.new).faults result }
        ensures calm { OnOk result ((seen self.new).faults ≡ (seen self.old).faults) };

    /// The status with which a child ended, or `None` while it runs; it doesn't wait. After
    /// `Failed` the child is lost: it counts as over, and is never polled again. Of a spawner that
    /// tells, the child was given and isn't over.
    fn finished(&mut self, child: u64) -> Result<Option<i32>, Failed>
        requires running { IsRunningAt (seen self.old) child }
        ensures told { Gains (seen self.old).told (seen self.new).told
            (Polled child (poll_of result) ∷ []) }
        ensures missed { (seen self.new).missed ≡ (seen self.old).missed }
        ensures cause { HasCause (seen self.old).faults (seen self.new).faults result }
        ensures calm { OnOk result ((seen self.new).faults ≡ (seen self.old).faults) };
}
