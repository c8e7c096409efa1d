ghost use Rattle.std.specs.Prelude.{◌≡◌, ◌≢◌, ◌∷◌, [], Some, None, ◌<◌, ◌≤◌, ◌++◌, All, Any, Contains, ◌+◌, ◌-◌, List, ℕ, map};
ghost use Rattle.spool_disk.specs.Disk.{FileMap, Place, bytes_at};
ghost use Rattle.mail_base.specs.declared.id.Kind.TheVariants.{Df, Sf, Tf};
ghost use Rattle.mail_base.specs.Limits.{IsId};
ghost use Rattle.spool_store.specs.Queue.{at, IsOpen, Spot, spot_place, body_place, IsControl, IsRead, IsStrange, IsLive};
ghost use Rattle.mail_base.specs.declared.control.Control.{Control};
ghost use Rattle.mail_base.specs.declared.control.Parent.{Parent};
ghost use Rattle.qf_format.specs.Valid.{IsValid};
ghost use Rattle.mail_base.specs.States.{NeedsBody};
ghost use Rattle.qf_format.specs.Spelling.{spelled};
ghost use Rattle.spool_store.specs.Tidying.{IsTidied, IsDead, HasRenamed, IsMove, IsSwept, IsClean};
ghost use Rattle.spool_disk.specs.Disk.{HasRemoved};
ghost use Rattle.spool_store.specs.Verdicts.{IsSober, IsLiveAt, AreLive};
ghost use Rattle.mail_base.specs.declared.control.Draft.{Draft};
ghost use Rattle.spool_store.specs.Writes.{stored, control_file, body_file, children_of, after_commit, AreDraftable, AreHeirs, IsOld, AreWritten, AreRaised, HasBody, HasDraft, HasNewDraft, IsFurther};
ghost use Rattle.spool_disk.specs.Disk.{IsSameBut};
ghost use Rattle.spool_store.specs.Alike.{AreAlike};
ghost use Rattle.spool_store.specs.Changes.{IsRaised, IsAdded, IsBefore, IsMidway, IsPut, control_place, body_at, draft_place};
ghost use Rattle.spool_store.specs.Settled.{StandsFor, IsTidy, IsNamed, IsSettled};
ghost use Rattle.spool_store.specs.Entries.{Stored, Table, AreSameEntries, with_control};
ghost use Rattle.spool_store.specs.Keepers.{after_replace};
ghost use Rattle.spool_store.specs.Parcels.{with_children, with_commit};
ghost use Rattle.spool_store.specs.Stores.{Agrees, Holds, StoreSeen, entered, recontrolled, refinished};

/// A control file says one control.
pub fn one_control()
    ensures { (dirs : List (List ℕ)) (files : FileMap) (s : Spot) (c d : Control)
        → IsRead dirs files s c → IsRead dirs files s d → c ≡ d }
{}

/// In maps that are alike the same kept control files are strange.
pub fn files_alike()
    ensures strange { (dirs : List (List ℕ)) (n : ℕ) (f g : FileMap)
        → AreAlike dirs (λ id. id < n) f g → (s : Spot) → s.id < n → IsStrange dirs f s
        → IsStrange dirs g s }
    ensures live { (dirs : List (List ℕ)) (n : ℕ) (f g : FileMap) → AreAlike dirs (λ id. id < n) f g
        → (s : Spot) (c : Control) → s.id < n → IsLive dirs f s c → IsLive dirs g s c }
{}

/// A map stands for one table: the same entries, and the same bodies where they are wanted.
pub fn one_table()
    ensures { (dirs : List (List ℕ)) (t u : Table) (f : FileMap) → StandsFor dirs t f
        → StandsFor dirs u f → AreSameEntries t.entries u.entries }
{}

/// A replaced control leaves the same files strange, and the other live ones live.
pub fn raised_alike()
    ensures strange { (dirs : List (List ℕ)) (s : Spot) (old new : Control) (f g : FileMap)
        → IsRaised dirs s old new f g → (t : Spot) → IsStrange dirs f t → IsStrange dirs g t }
    ensures strange_back { (dirs : List (List ℕ)) (s : Spot) (old new : Control) (f g : FileMap)
        → IsRaised dirs s old new f g → (t : Spot) → IsStrange dirs g t → IsStrange dirs f t }
    ensures live { (dirs : List (List ℕ)) (s : Spot) (old new : Control) (f g : FileMap)
        → IsRaised dirs s old new f g → IsLive dirs g s new }
    ensures others { (dirs : List (List ℕ)) (s : Spot) (old new : Control) (f g : FileMap)
        → IsRaised dirs s old new f g → (t : Spot) (c : Control) → t ≢ s → IsLive dirs f t c
        → IsLive dirs g t c }
    ensures back { (dirs : List (List ℕ)) (next : ℕ) (s : Spot) (old new : Control) (f g : FileMap)
        → IsRaised dirs s old new f g → IsTidy dirs next f → (t : Spot) (c : Control) → t ≢ s
        → IsLive dirs g t c → IsLive dirs f t c }
{}

/// A replace leads from one settled map to another.
pub fn replace_settles()
    ensures { (dirs : List (List ℕ)) (table : Table) (s : Spot) (old new : Control) (f g : FileMap)
        → IsRaised dirs s old new f g → IsSettled dirs table f
        → IsSettled dirs
        (record { entries = with_control s.id new table.entries; next = table.next }) g }
{}

/// New entries lead from one settled map to another.
pub fn adding_settles()
    ensures { (dirs : List (List ℕ)) (table : Table) (after : ℕ) (added : List Stored)
        (f g : FileMap) → IsAdded dirs table.next added f g → table.next ≤ after
        → All (λ s. s.id < after) added → IsSettled dirs table f
        → IsSettled dirs (record { entries = table.entries ++ added; next = after }) g }
{}

/// Before the renaming that decides, a map stands for what it stood for.
pub fn before_stands()
    ensures { (dirs : List (List ℕ)) (table : Table) (drafts children : List Stored) (f g : FileMap)
        → IsBefore dirs table.next (λ place. Any (λ s. place ≡ draft_place s) drafts) children f g
        → IsTidy dirs table.next f → StandsFor dirs table f → StandsFor dirs table g }
{}

/// Whatever an opening leaves stands for what the map stood for.
pub fn tidied_stands()
    ensures { (dirs : List (List ℕ)) (table : Table) (f g : FileMap) → IsTidied dirs f g
        → StandsFor dirs table f → StandsFor dirs table g }
{}

/// Each step of an opening leaves a map that it may leave.
pub fn steps_tidy()
    ensures none { (dirs : List (List ℕ)) (f : FileMap) → IsTidied dirs f f }
    ensures draft { (dirs : List (List ℕ)) (f g h : FileMap) (dir : List ℕ) (id : ℕ)
        → Contains dirs dir → IsId id → IsTidied dirs f g → HasRemoved (at dir Tf id) g h
        → IsTidied dirs f h }
    ensures control { (dirs : List (List ℕ)) (f g h : FileMap) (s : Spot) → IsDead dirs f s
        → IsTidied dirs f g → HasRemoved (spot_place s) g h → IsTidied dirs f h }
    ensures body { (dirs : List (List ℕ)) (f g h : FileMap) (dir : List ℕ) (id : ℕ)
        → Contains dirs dir → IsId id → ((s : Spot) → s.id ≡ id → IsStrange dirs f s → ⊥)
        → ((s : Spot) (c : Control) → s.id ≡ id → IsRead dirs g s c → NeedsBody c → ⊥)
        → IsTidied dirs f g → HasRemoved (at dir Df id) g h → IsTidied dirs f h }
    ensures rename { (dirs : List (List ℕ)) (f g h : FileMap) (s : Spot) (c : Control)
        → IsMove dirs f g h s c → IsTidied dirs f g → IsTidied dirs f h }
{}

/// What an opening, or a finish, leaves of a settled map is settled.
pub fn tidied_settles()
    ensures { (dirs : List (List ℕ)) (table : Table) (f g : FileMap) → IsTidied dirs f g
        → IsSettled dirs table f → IsSettled dirs table g }
{}

/// A commit: before the renaming that decides each map stands for the table before, and after it
/// the map is settled with the table after.
pub fn commit_settles()
    ensures new { (dirs : List (List ℕ)) (table : Table) (children : List Draft) (parent : Draft)
        (b : List ℕ) (f g : FileMap) → AreDraftable dirs table.next children parent
        → parent.control.parent ≡ None
        → AreWritten
        (children_of table.next children parent b None ++ stored table.next b parent ∷ []) f g
        → IsSettled dirs table f
        → IsSettled dirs (after_commit table children parent b None) g }
    ensures old { (dirs : List (List ℕ)) (table : Table) (children : List Draft) (parent : Draft)
        (old : Control) (id : ℕ) (b : List ℕ) (f g : FileMap)
        → AreHeirs dirs table.next children parent → IsOld dirs f id parent old
        → AreRaised (children_of table.next children parent b (Some id)) (stored id b parent) f g
        → IsSettled dirs table f
        → IsSettled dirs (after_commit table children parent b (Some id)) g }
    ensures new_before { (dirs : List (List ℕ)) (table : Table) (drafts : List Stored)
        (children : List Draft) (parent : Draft) (b : List ℕ) (f g : FileMap)
        → AreDraftable dirs table.next children parent
        → ((p : Place)
        → IsMidway table.next (λ place. Any (λ s. place ≡ draft_place s) drafts)
        (children_of table.next children parent b None) f g p)
        → IsSettled dirs table f → StandsFor dirs table g }
    ensures old_before { (dirs : List (List ℕ)) (table : Table) (drafts : List Stored)
        (children : List Draft) (parent : Draft) (old : Control) (id : ℕ) (b : List ℕ)
        (f g : FileMap) → AreHeirs dirs table.next children parent → IsOld dirs f id parent old
        → old.revision < parent.control.revision → ((p : Place)
        → IsMidway table.next (λ place. Any (λ s. place ≡ draft_place s) drafts)
        (children_of table.next children parent b (Some id)) f g p)
        → IsSettled dirs table f → StandsFor dirs table g }
{}

/// The stages of a commit's loop.
pub fn stages_follow()
    ensures none { (f : FileMap) → AreWritten [] f f }
    ensures body { (done : List Stored) (s : Stored) (f g h : FileMap) → IsId s.id
        → IsFurther done s → AreWritten done f g → bytes_at h (body_at s) ≡ Some s.body
        → IsSameBut (body_at s) g h → HasBody done s f h }
    ensures draft { (done : List Stored) (s : Stored) (f g h : FileMap) → IsId s.id
        → IsFurther done s → HasBody done s f g
        → bytes_at h (draft_place s) ≡ Some (spelled s.control) → IsSameBut (draft_place s) g h
        → HasDraft done s f h }
    ensures rename { (done : List Stored) (s : Stored) (f g h : FileMap) → IsId s.id
        → IsFurther done s → bytes_at f (draft_place s) ≡ None → HasDraft done s f g
        → HasRenamed (draft_place s) (control_place s) g h → AreWritten (done ++ s ∷ []) f h }
    ensures new_draft { (done : List Stored) (s : Stored) (f g h : FileMap) → IsId s.id
        → IsFurther done s → AreWritten done f g
        → bytes_at h (draft_place s) ≡ Some (spelled s.control) → IsSameBut (draft_place s) g h
        → HasNewDraft done s f h }
    ensures raise { (done : List Stored) (s : Stored) (f g h : FileMap) → IsId s.id
        → IsFurther done s → bytes_at f (draft_place s) ≡ None → HasNewDraft done s f g
        → HasRenamed (draft_place s) (control_place s) g h → AreRaised done s f h }
    ensures before { (next : ℕ) (drafts done children : List Stored) (f g : FileMap) (p : Place)
        → ((t : Stored) → Contains done t → Contains children t × (next ≤ t.id) × IsId t.id)
        → IsPut done f g p
        → IsMidway next (λ place. Any (λ s. place ≡ draft_place s) drafts) children f g p }
    ensures body_before { (next : ℕ) (drafts children : List Stored) (s : Stored) (f g h : FileMap)
        → next ≤ s.id → IsId s.id
        → ((p : Place)
        → IsMidway next (λ place. Any (λ s. place ≡ draft_place s) drafts) children f g p)
        → IsSameBut (body_at s) g h → (p : Place)
        → IsMidway next (λ place. Any (λ s. place ≡ draft_place s) drafts) children f h p }
    ensures draft_before { (next : ℕ) (drafts children : List Stored) (s : Stored) (f g h : FileMap)
        → Any (λ t. draft_place s ≡ draft_place t) drafts
        → ((p : Place)
        → IsMidway next (λ place. Any (λ s. place ≡ draft_place s) drafts) children f g p)
        → IsSameBut (draft_place s) g h → (p : Place)
        → IsMidway next (λ place. Any (λ s. place ≡ draft_place s) drafts) children f h p }
{}

/// The verdict on a control file that is strange for no reason of its own, by the one on the file
/// above it.
pub fn verdicts_follow()
    ensures alone { (dirs : List (List ℕ)) (f : FileMap) (s : Spot) (c : Control)
        → IsSober dirs f s c → c.parent ≡ None → IsLiveAt dirs f s c.revision }
    ensures none { (dirs : List (List ℕ)) (f : FileMap) (s : Spot) (c : Control) (p : Parent)
        → IsSober dirs f s c → c.parent ≡ Some p → p.id < s.id
        → ((a : Spot) (b : List ℕ) → IsControl dirs f a b → a.id ≢ p.id) → IsDead dirs f s }
    ensures strange { (dirs : List (List ℕ)) (f : FileMap) (s a : Spot) (c : Control) (p : Parent)
        → IsSober dirs f s c → c.parent ≡ Some p → p.id < s.id → a.id ≡ p.id → IsStrange dirs f a
        → IsStrange dirs f s }
    ensures live { (dirs : List (List ℕ)) (f : FileMap) (s a : Spot) (c : Control) (p : Parent)
        (revision : ℕ) → IsSober dirs f s c → c.parent ≡ Some p → p.id < s.id → a.id ≡ p.id
        → IsLiveAt dirs f a revision → p.revision ≤ revision → IsLiveAt dirs f s c.revision }
    ensures lower { (dirs : List (List ℕ)) (f : FileMap) (s a : Spot) (c : Control) (p : Parent)
        (revision : ℕ) → IsSober dirs f s c → c.parent ≡ Some p → p.id < s.id → a.id ≡ p.id
        → IsLiveAt dirs f a revision → revision < p.revision → IsDead dirs f s }
    ensures dead { (dirs : List (List ℕ)) (f : FileMap) (s a : Spot) (c : Control) (p : Parent)
        → IsSober dirs f s c → c.parent ≡ Some p → p.id < s.id → a.id ≡ p.id → IsDead dirs f a
        → IsDead dirs f s }
    ensures finished { (dirs : List (List ℕ)) (f : FileMap) (s : Spot) (c : Control)
        → IsRead dirs f s c → s.kind ≡ Sf → (IsStrange dirs f s → ⊥) → IsOpen c → ⊥ }
{}

/// A map of which an opening has read the live entries stands for a table, with any first free id.
pub fn a_read_map_has_a_table()
    ensures { (dirs : List (List ℕ)) (f : FileMap) (entries : List Stored) (next : ℕ)
        → AreLive dirs f entries
        → (bodies : List Stored) × StandsFor dirs (record { entries = bodies; next = next }) f }
{}

/// What an opening that has ended leaves is settled, with the table that the map stood for and any
/// first free id above every name.
pub fn opening_settles()
    ensures tidied { (dirs : List (List ℕ)) (table : Table) (f g : FileMap) → IsTidied dirs f g
        → StandsFor dirs table f → ((id : ℕ) → IsNamed dirs f id → id < table.next) → IsSwept dirs g
        → IsSettled dirs table g }
    ensures clean { (dirs : List (List ℕ)) (g : FileMap) → IsSwept dirs g → IsClean dirs g }
    ensures strange { (dirs : List (List ℕ)) (f g : FileMap) → IsTidied dirs f g → (s : Spot)
        → IsStrange dirs f s
        → (bytes_at g (spot_place s) ≡ bytes_at f (spot_place s))
        × ((dir : List ℕ) → Contains dirs dir
        → bytes_at g (at dir Df s.id) ≡ bytes_at f (at dir Df s.id)) }
    ensures same { (dirs : List (List ℕ)) (f g : FileMap) → IsTidied dirs f g → (s : Spot)
        → IsStrange dirs g s → IsStrange dirs f s }
{}

/// A finished entry's body may go where no row of it is dead.
pub fn finish_settles()
    ensures body { (dirs : List (List ℕ)) (f g h : FileMap) (s : Spot) (c : Control)
        → IsTidied dirs f g → IsLive dirs f s c → (NeedsBody c → ⊥) → HasRemoved (body_place s) g h
        → IsTidied dirs f h }
{}

/// Writes leave the same files strange.
pub fn adding_leaves_strange()
    ensures to { (dirs : List (List ℕ)) (next : ℕ) (added : List Stored) (f g : FileMap)
        → IsAdded dirs next added f g → IsTidy dirs next f → (t : Spot) → IsStrange dirs f t
        → IsStrange dirs g t }
    ensures from { (dirs : List (List ℕ)) (next : ℕ) (added : List Stored) (f g : FileMap)
        → IsAdded dirs next added f g → IsTidy dirs next f → (t : Spot) → IsStrange dirs g t
        → IsStrange dirs f t }
{}

/// The definitions hold of some maps: of no file, and of one entry's two files.
pub fn samples_settle()
    ensures empty { (dirs : List (List ℕ)) → IsSettled dirs (record { entries = []; next = 1 }) [] }
    ensures one { (dir : List ℕ) (c : Control) (b : List ℕ) → IsValid c → c.parent ≡ None
        → IsSettled (dir ∷ [])
        (record {
          entries = stored 1 b (record { id = None; dir = dir; control = c }) ∷ [];
          next = 2;
        })
        (control_file (stored 1 b (record { id = None; dir = dir; control = c }))
        ∷ body_file (stored 1 b (record { id = None; dir = dir; control = c })) ∷ []) }
{}

/// A commit with an old parent that stops after its children leaves a map of the table before. Were
/// the parent's control then written in place, the children would be in the table.
pub fn a_dead_child_may_come_alive()
    ensures { (dirs : List (List ℕ)) (table : Table) (children : List Draft) (parent : Draft)
        (old : Control) (id : ℕ) (b : List ℕ) (f m g : FileMap)
        → AreHeirs dirs table.next children parent → IsOld dirs f id parent old
        → old.revision < parent.control.revision → IsSettled dirs table f
        → AreWritten (children_of table.next children parent b (Some id)) f m
        → bytes_at g (control_place (stored id b parent)) ≡ Some (spelled parent.control)
        → IsSameBut (control_place (stored id b parent)) m g
        → StandsFor dirs table m
        × StandsFor dirs (after_commit table children parent b (Some id)) g }
{}

/// A store goes on to hold what the table has after a commit, a replaced control and a finish, and
/// holds it with any room. So a store that agrees with a map does so with any room.
pub fn holding_goes_on()
    ensures commit { (store : StoreSeen) (table : Table) (children : List Draft) (parent : Draft)
        (b : List ℕ) → Holds store table
        → Holds (with_commit store children parent) (after_commit table children parent b None) }
    ensures commit_under { (store : StoreSeen) (table : Table) (id : ℕ) (children : List Draft)
        (parent : Draft) (b : List ℕ) → Holds store table
        → Holds (with_children store id children parent)
        (after_commit table children parent b (Some id)) }
    ensures replace { (store : StoreSeen) (table : Table) (id : ℕ) (c : Control) → Holds store table
        → Holds (record store { entries = map (recontrolled id c) store.entries })
        (after_replace table id c) }
    ensures finish { (store : StoreSeen) (table : Table) (id : ℕ) → Holds store table
        → Holds (record store { entries = map (refinished id) store.entries }) table }
    ensures room { (store : StoreSeen) (table : Table) (room : ℕ) → Holds store table
        → Holds (record store { room = room }) table }
    ensures agrees { (store : StoreSeen) (f : FileMap) (room : ℕ) → Agrees store f
        → Agrees (record store { room = room }) f }
{}

/// A commit of one entry adds it at the end, under the first free id.
pub fn a_commit_of_one()
    ensures table { (table : Table) (d : Draft) (b : List ℕ)
        → after_commit table [] d b None
        ≡ record { entries = table.entries ++ stored table.next b d ∷ []; next = table.next + 1 } }
    ensures store { (store : StoreSeen) (d : Draft)
        → with_commit store [] d
        ≡ record store {
          entries = store.entries ++ entered (stored store.next [] d) ∷ [];
          next = store.next + 1;
          room = store.room - 1;
        } }
{}
