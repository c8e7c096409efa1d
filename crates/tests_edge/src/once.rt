// Calls of any device, each made once: where it answers, its count of faults is as before. The
// edits in must-fail/ make a call that failed once more, as no body over a device can do without a
// trace in that count.
ghost use Rattle.std.specs.Prelude.{◌≡◌, ◌<◌, ◌≤◌, OnOk, length};

use link_edge::{Floor, Turn};
use mail_base::{Failed, Text};
use mail_edge::Source;
use spool_disk::Spool;

/// Takes a turn of a floor.
pub fn turn<L: Floor>(floor: &mut L, buf: &mut [u8]) -> Result<Turn, Failed>
    requires { 64 ≤ length buf.old }
    ensures { OnOk result ((L.seen floor.new).faults ≡ (L.seen floor.old).faults) }
{
    match floor.turn(buf) {
        Ok(turn) => Ok(turn),
        Err(lost) => Err(lost),
    }
}

/// Takes bytes of a source.
pub fn take<I: Source>(source: &mut I, buf: &mut [u8]) -> Result<usize, Failed>
    requires { 0 < length buf.old }
    ensures { OnOk result ((I.seen source.new).faults ≡ (I.seen source.old).faults) }
{
    match source.take(buf) {
        Ok(count) => Ok(count),
        Err(cut) => Err(cut),
    }
}

/// Writes a file of a spool.
pub fn write<D: Spool>(spool: &mut D, dir: &Text, name: &Text, bytes: &Text) -> Result<(), Failed>
    ensures { OnOk result ((D.seen spool.new).faults ≡ (D.seen spool.old).faults) }
{
    match spool.write_new(dir, name, bytes) {
        Ok(()) => Ok(()),
        Err(full) => Err(full),
    }
}
