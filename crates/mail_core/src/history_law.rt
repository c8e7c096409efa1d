//! Laws on histories: runs one after another, from an empty queue on, each over what the one before
//! it left, whatever their turns and choices were and wherever a stop or a fault of the spool ended
//! them. Any number of the first runs of a history are one, so that the table at the end is that
//! between any two runs.

ghost use Rattle.std.specs.Prelude.{◌≡◌, ◌⊎◌, ◌++◌, ◌∷◌, Bool, [], Contains, List, Option, ℕ, ℤ, slice_get, true};
ghost use Rattle.mail_base.specs.Limits.{IsId};
ghost use Rattle.mail_base.specs.declared.control.Row.{Row};
ghost use Rattle.mail_base.specs.declared.outcome.Result1.TheVariants.{Sent};
ghost use Rattle.mailer_pipe.specs.Ends.{ended_with};
ghost use Rattle.smtp_receive.specs.Replies.{stored_text};
ghost use Rattle.spawn_edge.specs.declared.event.Poll.TheVariants.{Over};
ghost use Rattle.spawn_edge.specs.declared.event.Start.{Start as Child};
ghost use Rattle.spool_disk.specs.Disk.{FileMap};
ghost use Rattle.spool_store.specs.Entries.{Stored, Table};
ghost use Rattle.spool_store.specs.Openings.{IsNext};
ghost use Rattle.spool_store.specs.Settled.{StandsFor};
ghost use Rattle.queue_table.specs.Asked.{Leaves};
ghost use Rattle.queue_table.specs.Commands.{Command};
ghost use Rattle.queue_table.specs.Soundness.{IsSound};
ghost use Rattle.queue_run.specs.Deeds.{Asks, Launch, Polls, Starts, Talk, Talks};
ghost use Rattle.mail_core.specs.Acks.{put_by};
ghost use Rattle.mail_core.specs.Attempts.{IsDelivery, IsStart, IsTryOfRow, WereSent};
ghost use Rattle.mail_core.specs.Beginning.{Start, beginning, run_over};
ghost use Rattle.mail_core.specs.Effects.{Does, Effect, Sends, commanded, table_after};
ghost use Rattle.mail_core.specs.Histories.{Chain, HandsOver, HasKept, HasRow, IsFree, IsRowAt, IsUnrecorded, LeavesPast, Past, all_of, left_by};
ghost use Rattle.mail_core.specs.Judges.{untold};
ghost use Rattle.mail_core.specs.Lasting.{IsSentAt, Lasts};
ghost use Rattle.mail_core.specs.Machine.{Turn};
ghost use Rattle.mail_core.specs.Meant.{IsRunMeant};
ghost use Rattle.mail_core.specs.Runs.{IsLeft};
ghost use Rattle.mail_core.specs.Sites.{Site};

/// What was acknowledged in any run is in the last table: where a run sent a final 250 before it
/// ended, one of its commands put in a message whose first entry has the id that the 250 names, and
/// of each entry of that message the last table has what became of it. So it has of each entry of a
/// message that a program handed over in a run that took it in, and of each entry that was in the
/// queue at any moment of any run.
pub fn a_history_keeps_what_was_acknowledged()
    ensures acknowledged { (before : List Past) (p : Past) (later : List Past) (last : Table)
        (session id : ℕ) → Chain [] (before ++ p ∷ later) last → IsId id
        → Contains p.done (Sends session (stored_text id) true)
        → HasKept p.start.table p.done last id }
    ensures handed { (before : List Past) (p : Past) (later : List Past) (last : Table)
        (command : Command) (s : Stored) → Chain [] (before ++ p ∷ later) last
        → p.done ≡ Does (Asks command) ∷ [] → Contains (put_by p.start.table command) s
        → Lasts last s }
    ensures entries { (before : List Past) (p : Past) (later : List Past) (last : Table)
        (done rest : List Effect) (s : Stored) → Chain [] (before ++ p ∷ later) last
        → p.done ≡ done ++ rest → Contains (table_after p.start.table done).entries s
        → Lasts last s }
{}

/// Rows only go on: what is a row of an entry at any moment of any run is one in the last table, at
/// its place and of its address, and its state is the same or one to which it may come. What was
/// sent once is sent.
pub fn a_history_moves_rows_on()
    ensures rows { (before : List Past) (p : Past) (later : List Past) (last : Table)
        (done rest : List Effect) (id place : ℕ) (row : Row)
        → Chain [] (before ++ p ∷ later) last → p.done ≡ done ++ rest
        → IsRowAt (table_after p.start.table done) id place row → HasRow last id place row }
    ensures sent { (before : List Past) (p : Past) (later : List Past) (last : Table)
        (done rest : List Effect) (id place : ℕ) → Chain [] (before ++ p ∷ later) last
        → p.done ≡ done ++ rest → IsSentAt (table_after p.start.table done) id place
        → IsSentAt last id place }
{}

/// Each program that any run started was started for rows that were still tried, by the mailer and
/// to the host where the rules led them, with the letter that is made for them; and so was each
/// delivery to peers, whose results the run asked to record at once.
pub fn a_history_means_each_start()
    ensures programs { (before : List Past) (p : Past) (later : List Past) (last : Table)
        (done : List Effect) (id : ℕ) (places : List ℕ) (start : Child) (launch : Launch)
        (rest : List Effect) → Chain [] (before ++ p ∷ later) last
        → all_of p ≡ done ++ Does (Starts id places start launch) ∷ rest
        → IsStart p.site p.start.table done id places start }
    ensures peers { (before : List Past) (p : Past) (later : List Past) (last : Table)
        (done : List Effect) (id : ℕ) (places : List ℕ) (talk : Talk) (rest : List Effect)
        → Chain [] (before ++ p ∷ later) last
        → all_of p ≡ done ++ Does (Talks id places talk) ∷ rest
        → IsDelivery p.site p.start.table done id places talk rest }
{}

/// A row that was sent in one run is in no attempt of a later one. Where a success was read, of a
/// program or of a peer, the rows are sent in the table that the run left, but where to record it
/// was the last that the run asked for, and came to nothing, as a stop or a fault of the spool ended
/// the run in it. So that alone may come again.
pub fn a_history_repeats_no_delivery()
    ensures sent { (before : List Past) (p : Past) (between : List Past) (q : Past)
        (later : List Past) (last : Table) (sooner rest : List Effect) (id place : ℕ)
        (done : List Effect) (effect : Effect) (more : List Effect)
        → Chain [] (before ++ p ∷ (between ++ q ∷ later)) last
        → p.done ≡ sooner ++ rest → IsSentAt (table_after p.start.table sooner) id place
        → all_of q ≡ done ++ effect ∷ more → IsTryOfRow effect id place → ⊥ }
    ensures programs { (before : List Past) (p : Past) (later : List Past) (last : Table)
        (done : List Effect) (id child : ℕ) (status : ℤ) (rest : List Effect)
        → Chain [] (before ++ p ∷ later) last
        → all_of p ≡ done ++ Does (Polls id child (Over status)) ∷ rest
        → ended_with status ≡ Sent
        → WereSent (left_by p) done id child ⊎ IsUnrecorded p rest }
    ensures peers { (before : List Past) (p : Past) (later : List Past) (last : Table)
        (done : List Effect) (id : ℕ) (places : List ℕ) (talk : Talk) (rest : List Effect)
        (at place : ℕ) → Chain [] (before ++ p ∷ later) last
        → all_of p ≡ done ++ Does (Talks id places talk) ∷ rest
        → slice_get places at ≡ Some place → slice_get talk.results at ≡ Some Sent
        → IsSentAt (left_by p) id place ⊎ IsUnrecorded p rest }
{}

/// The last table is sound.
pub fn a_history_ends_soundly()
    ensures { (runs : List Past) (last : Table) → Chain [] runs last → IsSound last }
{}

/// Each run over a queue is such a past, however it ends. `Headline` says of it what is asked here:
/// its field `meant`, since what a judge says is what one may say, and its field `exit`; and the
/// first free id that an opening finds is above each id of a table for which the files stand. The
/// files at the end stand for the table that the past left: after all that the run did, or, where
/// the spool failed in its last command, before it.
///
/// A stop of the machine at a call of the spool is no end of a run. What it leaves is what is left
/// by the run over a spool of which this call fails, and each one after it: so the past that goes
/// with an image of the files is that run's, and has what was done until the stop, and no more.
///
/// A run that takes one message of a program is a past too, whether it was refused, taken in, or
/// lost in a fault of the spool.
pub fn a_run_is_past()
    ensures past { (site : Site) (start : Start) (turns : List Turn) (well : Bool)
        (told : Option FileMap) → IsRunMeant untold site (beginning start) turns
        → IsFree start.table
        → IsLeft site start.table (run_over site start turns).effects well told
        → LeavesPast site start turns told }
    ensures handed { (site : Site) (start : Start) (effects : List Effect) (well : Bool)
        (told : Option FileMap) (files : FileMap) → HandsOver site start.table effects
        → IsFree start.table → told ≡ Some files
        → Leaves commanded site.dirs start.table effects well files
        → LeavesPast site start [] told }
    ensures free { (dirs : List (List ℕ)) (files : FileMap) (table : Table) (next : ℕ)
        → StandsFor dirs table files → IsNext dirs files next
        → IsFree (record { entries = table.entries; next = next }) }
{}
