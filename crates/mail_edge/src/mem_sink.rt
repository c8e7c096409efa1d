ghost use Rattle.std.specs.Prelude.{◌≡◌, ◌<◌, ◌+◌, [], ◌++◌, length, vec_capacity, OnOk, OnErr, IsErr, Some, true, false, is_err};
ghost use Rattle.mail_base.specs.Histories.{HasCause};
ghost use Rattle.mail_edge.specs.Moves.{GainsPart};
ghost use Rattle.mail_base.specs.Scripts.{is_listed, after_call};

use crate::sink::Sink;
use mail_base::{Failed, Script, Seq};
use std::alloc::Global;

/// What was written, in memory, some of whose calls fail. It grows, and where its growth finds no
/// memory, that call fails too. A call that fails writes nothing.
#[derive(Drop)]
pub struct MemSink {
    pub written: Vec<u8>,
    pub script: Script,
}

impl MemSink {
    /// An empty sink, and which of its calls, counted from 0, are to fail. It takes no memory.
    pub fn new(alloc: Global, failing: Seq<u64>) -> MemSink
        ensures written { result.written.items ≡ [] }
        ensures script { result.script ≡ record { failing = failing; calls = 0; faults = 0 } }
    {
        MemSink {
            written: Vec::new(alloc),
            script: Script::new(failing),
        }
    }

    /// What was written so far. It takes no memory.
    pub fn seen(&self) -> &[u8]
        ensures { result.now ≡ self.now.written.items }
    {
        &self.written
    }
}

impl Sink for MemSink {
    ghost seen = { λ s. record { written = Some s.written.items; faults = s.script.faults } };

    fn give(&mut self, bytes: &[u8]) -> Result<(), Failed>
        ensures listed { is_listed self.old.script ≡ true → IsErr result }
        ensures unlisted { OnErr result
            (is_listed self.old.script ≡ false
            → vec_capacity self.old.written
            < length self.old.written.items + length bytes.now) }
        ensures counted { self.new.script ≡ after_call self.old.script (is_err result) }
        ensures written { OnOk result
            (self.new.written.items ≡ self.old.written.items ++ bytes.now) }
        ensures kept { OnErr result (self.new.written.items ≡ self.old.written.items) }
        ensures part { OnErr result
            (GainsPart (Some self.old.written.items) (Some self.new.written.items) bytes.now) }
        ensures cause { HasCause self.old.script.faults self.new.script.faults result }
        ensures calm { OnOk result (self.new.script.faults ≡ self.old.script.faults) }
    {
        self.script.call()?;
        if self.written.extend_from_slice(bytes).is_err() {
            self.script.fail();
            return Err(Failed);
        }
        Ok(())
    }
}
