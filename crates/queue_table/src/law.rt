ghost use Rattle.std.specs.Prelude.{◌≡◌, ◌≢◌, ◌⊎◌, ◌+◌, ◌-◌, ◌^◌, ◌<◌, ◌++◌, ◌∷◌, [], ℕ, All, List, Contains, Some, length, map, true};
ghost use Rattle.mail_base.specs.States.{has_failed, has_queued, wants_bounce};
ghost use Rattle.mail_base.specs.declared.control.Entry.{Entry};
ghost use Rattle.mail_base.specs.declared.message.Back.{Back};
ghost use Rattle.spool_store.specs.Entries.{Stored, Table};
ghost use Rattle.spool_store.specs.Stores.{HasId, refinished};
ghost use Rattle.spool_store.specs.declared.held.Held.{Held};
ghost use Rattle.queue_table.specs.Asked.{AllStop, AreLow, IsStoppable};
ghost use Rattle.queue_table.specs.Calls.{HasSame, HoldsTable, IsAsked, IsHeldIn, IsStoredIn, MayStop, store};
ghost use Rattle.queue_table.specs.Commands.{Command, Return, Warn, after, applied, changed_by, control_at};
ghost use Rattle.queue_table.specs.Order.{IsBefore};
ghost use Rattle.queue_table.specs.Reserves.{CanReserve, IsReserved};
ghost use Rattle.queue_table.specs.Soundness.{AreBounces, AreCuts, CanDo, HasEntry, IsSound, IsTried, TableGoes};
ghost use Rattle.queue_table.specs.declared.recording.Reserved.{Reserved};
ghost use Rattle.queue_table.specs.declared.table.Table.{Table as Kept};
ghost use Rattle.queue_table.specs.declared.terms.Terms.{Terms};

/// The order of entries is a strict total one: of two with different ids one goes before the
/// other.
pub fn entries_are_ordered()
    ensures apart { (a : Entry) → IsBefore a a → ⊥ }
    ensures follows { (a b c : Entry) → IsBefore a b → IsBefore b c → IsBefore a c }
    ensures total { (a b : Entry) → a.id ≢ b.id → IsBefore a b ⊎ IsBefore b a }
{}

/// Commands after commands: a table after both lists is that of the second after the first.
pub fn commands_follow()
    ensures { (table : Table) (some more : List Command)
        → applied table (some ++ more) ≡ applied (applied table some) more }
{}

/// Each command that may be asked keeps a table sound.
pub fn commands_keep_soundness()
    ensures { (table : Table) (command : Command) → IsSound table → CanDo table command
        → IsSound (after table command) }
{}

/// In a command no entry or row is taken out, each row goes only where it may, and new entries have
/// the ids from the first free one on.
pub fn rows_go_on()
    ensures { (table : Table) (command : Command) → IsSound table → CanDo table command
        → TableGoes table (after table command) }
{}

/// A command leaves each entry but the one that it changes: it is in the table after it, an entry
/// whose id was not free was there before, and the control of each such id is the same.
pub fn commands_leave_other_entries()
    ensures stays { (table : Table) (command : Command) (s : Stored) → Contains table.entries s
        → changed_by command ≢ Some s.id → Contains (after table command).entries s }
    ensures came { (table : Table) (command : Command) (s : Stored)
        → Contains (after table command).entries s → s.id < table.next
        → changed_by command ≢ Some s.id → Contains table.entries s }
    ensures found { (table : Table) (command : Command) (id : ℕ) → id < table.next
        → changed_by command ≢ Some id
        → control_at id (after table command).entries ≡ control_at id table.entries }
{}

/// So the store after a command has each other entry as before, and what was reserved for the
/// record of an attempt goes on to be so, also while an entry is finished.
pub fn reserves_outlive_other_commands()
    ensures entries { (old new : Kept) (table : Table) (command : Command) (h : Held)
        → HoldsTable old table → HoldsTable new (after table command)
        → Contains (store old).entries h → changed_by command ≢ Some h.entry.id
        → HasSame (store new).entries h }
    ensures reserved { (old new : Kept) (table : Table) (command : Command) (reserved : Reserved)
        → HoldsTable old table → HoldsTable new (after table command)
        → changed_by command ≢ Some reserved.room.id
        → IsReserved (store old).entries reserved → IsReserved (store new).entries reserved }
    ensures finish { (entries : List Held) (id : ℕ) (reserved : Reserved)
        → IsReserved entries reserved → IsReserved (map (refinished id) entries) reserved }
{}

/// What a table has of an id the store has that holds it, and back.
pub fn the_store_has_what_the_table_has()
    ensures held { (kept : Kept) (table : Table) (s : Stored) → HoldsTable kept table
        → Contains table.entries s → IsHeldIn (store kept).entries s }
    ensures stored { (kept : Kept) (table : Table) (h : Held) → HoldsTable kept table
        → Contains (store kept).entries h → IsStoredIn table.entries h }
    ensures has_id { (kept : Kept) (table : Table) (id : ℕ) → HoldsTable kept table
        → HasEntry table id → HasId (store kept).entries id }
    ensures has_entry { (kept : Kept) (table : Table) (id : ℕ) → HoldsTable kept table
        → HasId (store kept).entries id → HasEntry table id }
{}

/// What calls ask of an entry is what a table gives that the store holds: failed rows may be given
/// back by what the entry's mark wants, a warning may be sent where a row is still tried, and rows
/// that are may be reserved.
pub fn open_entries_may_be_asked()
    ensures returns { (kept : Kept) (table : Table) (s : Stored) (terms : Terms)
        (bounces : List Back) (moment : ℕ) → HoldsTable kept table → Contains table.entries s
        → has_failed s.control ≡ true → AreBounces (wants_bounce s.control) bounces
        → IsAsked kept (Return terms s.id bounces moment) }
    ensures warns { (kept : Kept) (table : Table) (s : Stored) (terms : Terms) (warning : Back)
        (moment : ℕ) → HoldsTable kept table → Contains table.entries s
        → has_queued s.control ≡ true → AreCuts warning.cuts
        → IsAsked kept (Warn terms s.id (warning ∷ []) moment) }
    ensures reserves { (kept : Kept) (table : Table) (s : Stored) (places : List ℕ)
        → HoldsTable kept table → Contains table.entries s → has_queued s.control ≡ true
        → All (IsTried s.control.rows) places → CanReserve (store kept).entries s.id places }
{}

/// No command raises a revision by more than one, so commands that are fewer than what is left up
/// to the last revision can all be stopped, over the store too.
pub fn revisions_stay_low()
    ensures command { (most : ℕ) (table : Table) (command : Command) → AreLow most table
        → AreLow (most + 1) (after table command) }
    ensures run { (most : ℕ) (table : Table) (commands : List Command) → AreLow most table
        → AreLow (most + length commands) (applied table commands) }
    ensures stops { (most : ℕ) (table : Table) (commands : List Command) → AreLow most table
        → most + length commands < 2 ^ 64 - 1 → AllStop table commands }
    ensures may { (kept : Kept) (table : Table) (command : Command) → HoldsTable kept table
        → IsStoppable table command → MayStop (store kept) command }
{}
