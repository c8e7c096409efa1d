ghost use Rattle.std.specs.Prelude.{◌≡◌, ◌<◌, ◌-◌, ◌^◌, ◌≤◌, false};
ghost use Rattle.mail_edge.specs.Asking.{Asks};
ghost use Rattle.spool_disk.specs.Disk.{FileMap};
ghost use Rattle.spool_store.specs.Entries.{Table as Entries};
ghost use Rattle.spool_store.specs.Moves.{Moves};
ghost use Rattle.spool_store.specs.Stores.{KeepsOthers};
ghost use Rattle.queue_table.specs.Calls.{HoldsTable, IsSame, Stays, Tallies, store};
ghost use Rattle.submit_run.specs.Ends.{Ends, seen};
ghost use Rattle.submit_run.specs.Taken.{Counts, IsReadAtMostOnce, MayTake, is_committed, is_files_fault};
ghost use Rattle.submit_run.specs.Inputs.{TakesSome};
ghost use Rattle.mail_submit.specs.Said.{AreSaid};
ghost use Rattle.submit_run.specs.declared.end.SubmitEnd.TheVariants.{ReadFault, SpoolFault};

use crate::SubmitEnd;
use crate::handing::handed_over;
use crate::reading::{ReadEnd, text_of_input};
use crate::storing::stored;
use mail_edge::{Clock, Files, Source};
use mail_judge::Grounds;
use mail_submit::SubmitWords;
use queue_table::Table;
use spool_disk::Spool;
use std::alloc::Global;

/// Reads the one message that is handed over on the input, and takes it into the queue as these
/// words say. Of the input 8,192 bytes are taken at once, and it is read to its end, or to the line
/// `.` where that ends it.
///
/// The first refusal ends it: a message above the configuration's limit, or a header block of more
/// than 65,536 bytes, is refused with 552; one that passed more hosts than MaxHopCount with 554; and
/// one that nobody gets. Then each recipient is drawn in turn, and the first is refused that begins
/// with `|`, or whose aliases give no rows, or that is one recipient or one row too many. The check
/// sets aren't asked. Only then is the clock read, once, and the message taken in by one command:
/// after a refusal the queue is as before.
pub fn submit<F: Files, D: Spool, C: Clock, I: Source>(
    alloc: Global,
    words: &SubmitWords,
    grounds: &Grounds,
    files: &mut F,
    table: &mut Table,
    spool: &mut D,
    clock: &mut C,
    input: &mut I,
) -> SubmitEnd
    requires words { AreSaid words.now }
    requires table { MayTake grounds.now.config table.old (D.seen spool.old) }
    requires readings { (C.seen clock.old).readings < 2 ^ 64 - 1 }
    ensures ends { (entries : Entries) → HoldsTable table.old entries → Ends grounds.now
        words.now (store table.old).dirs entries
        (seen (F.seen files.old) (I.seen input.old) (D.seen spool.old) (C.seen clock.old))
        (seen (F.seen files.new) (I.seen input.new) (D.seen spool.new) (C.seen clock.new))
        table.new result }
    ensures takes { TakesSome (I.seen input.old) (I.seen input.new) }
    ensures input { Counts ReadFault result (I.seen input.old).faults (I.seen input.new).faults }
    ensures asks { Asks (F.seen files.old) (F.seen files.new) (is_files_fault result) }
    ensures clock { IsReadAtMostOnce (C.seen clock.old) (C.seen clock.new) }
    ensures spool { Counts SpoolFault result (D.seen spool.old).faults (D.seen spool.new).faults }
    ensures untouched { is_committed result ≡ false → spool.new ≡ spool.old }
    ensures same { is_committed result ≡ false → IsSame table.old table.new }
    ensures stays { Stays table.old table.new }
    ensures tallied { Tallies table.new (D.seen spool.new) }
    ensures frame { (f : FileMap)
        → Moves (D.seen spool.old) (D.seen spool.new) (λ g. g ≡ f)
        (KeepsOthers (store table.old).dirs f) (KeepsOthers (store table.old).dirs f) }
{
    let config = grounds.config();
    let most = config.options.message_limit();
    let text = match text_of_input(alloc, words.dot, most, input) {
        Ok(text) => text,
        Err(ReadEnd::TooLarge) => return SubmitEnd::MessageRefused(552),
        Err(ReadEnd::ReadFault) => return SubmitEnd::ReadFault,
        Err(ReadEnd::NoMemory) => return SubmitEnd::NoMemory,
    };
    match handed_over(alloc, words, grounds, files, &text) {
        Ok(message) => stored(alloc, config, grounds.maps(), table, spool, clock, message),
        Err(end) => end,
    }
}
