ghost use Rattle.std.specs.Prelude.{◌≡◌, ◌<◌, ◌≤◌, ◌↔◌, ◌++◌, [], List, ℕ, length, take, drop, min, IfOk, OnOk, OnErr, Some, Ok, is_err};
ghost use Rattle.mail_base.specs.Histories.{HasCause};
ghost use Rattle.mail_base.specs.Scripts.{is_listed, after_call};

use crate::source::Source;
use mail_base::{Failed, Script, Seq, Text, copy_front};
use std::marker::Model;

/// Bytes in memory, given as they stand, as many in a call as the buffer holds. It never fails, and
/// its count of faults is 0. A contract sees what is left.
#[derive(Drop)]
pub struct SureSource {
    bytes: Text,
    at: usize,
}

impl Model for SureSource {
    ghost Value = { List ℕ };

    ghost view = { λ s. drop s.at s.bytes };

    ghost invariant = { λ s. s.at ≤ length s.bytes };
}

impl SureSource {
    /// A source of these bytes. It takes no memory.
    pub fn new(bytes: Text) -> SureSource
        ensures { result ≡ bytes }
    {
        SureSource { bytes, at: 0 }
    }
}

impl Source for SureSource {
    ghost seen = { λ s. record { left = Some s; faults = 0 } };

    fn take(&mut self, buf: &mut [u8]) -> Result<usize, Failed>
        requires { 0 < length buf.old }
        ensures answer { result ≡ Ok (min (length self.old) (length buf.old)) }
        ensures bound { IfOk result (λ count. count ≤ length buf.new) }
        ensures taken { IfOk result (λ count. self.old ≡ take count buf.new ++ self.new) }
        ensures end { IfOk result (λ count. (count ≡ 0) ↔ (self.old ≡ [])) }
    {
        let count = copy_front(&self.bytes.bytes()[self.at..], buf);
        self.at += count;
        Ok(count)
    }
}

/// Bytes in memory, some of whose calls fail. A call that fails takes nothing.
#[derive(Drop)]
pub struct MemSource {
    pub source: SureSource,
    pub script: Script,
}

impl MemSource {
    /// A source of these bytes, and which of its calls, counted from 0, are to fail. It takes no
    /// memory.
    pub fn new(bytes: Text, failing: Seq<u64>) -> MemSource
        ensures left { result.source ≡ bytes }
        ensures script { result.script ≡ record { failing = failing; calls = 0; faults = 0 } }
    {
        MemSource {
            source: SureSource::new(bytes),
            script: Script::new(failing),
        }
    }
}

impl Source for MemSource {
    ghost seen = { λ s. record { left = Some s.source; faults = s.script.faults } };

    fn take(&mut self, buf: &mut [u8]) -> Result<usize, Failed>
        requires { 0 < length buf.old }
        ensures fails { is_err result ≡ is_listed self.old.script }
        ensures counted { self.new.script ≡ after_call self.old.script (is_err result) }
        ensures answer { IfOk result
            (λ count. count ≡ min (length self.old.source) (length buf.old)) }
        ensures bound { IfOk result (λ count. count ≤ length buf.new) }
        ensures taken { IfOk result
            (λ count. self.old.source ≡ take count buf.new ++ self.new.source) }
        ensures end { IfOk result (λ count. (count ≡ 0) ↔ (self.old.source ≡ [])) }
        ensures kept { OnErr result (self.new.source ≡ self.old.source) }
        ensures cause { HasCause self.old.script.faults self.new.script.faults result }
        ensures calm { OnOk result (self.new.script.faults ≡ self.old.script.faults) }
    {
        self.script.call()?;
        self.source.take(buf)
    }
}
