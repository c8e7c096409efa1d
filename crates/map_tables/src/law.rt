ghost use Rattle.std.specs.Prelude.{◌≡◌, ◌≢◌, ◌<◌, ℕ, List, Some, Err, All, map, slice_get};
ghost use Rattle.mail_base.specs.declared.lines.MapClass.TheVariants.{Sequence};
ghost use Rattle.map_tables.specs.declared.found.MapFault.TheVariants.{NoMemory};
ghost use Rattle.map_tables.specs.declared.hosts.HostLine.{HostLine};
ghost use Rattle.map_tables.specs.declared.table.Table.{Table};
ghost use Rattle.map_tables.specs.Answers.{Loaded, answer_at, answers, first_answer, handed, map_answer, told};

/// Each look-up is told something, which isn't want of memory: a value, that the key is absent, or
/// one of the two faults that the definition knows.
pub fn each_lookup_is_told()
    ensures { (loaded : Loaded) (name key : List ℕ) (args : List (List ℕ))
        → told (map_answer loaded name key args) ≢ Err NoMemory }
{}

/// A sequence hands on what the first of its members says that doesn't lack the key, where they all
/// stand before it: the answers are those of the members at their own places.
pub fn sequence_hands_on()
    ensures { (hosts : List HostLine) (key : List ℕ) (args : List (List ℕ)) (maps : List Table)
        (place : ℕ) (table : Table) (members : List ℕ)
        → slice_get maps place ≡ Some table → table.line.class ≡ Sequence members
        → All (λ member. member < place) members
        → slice_get (answers hosts key args maps) place
        ≡ Some (handed table.line key
        (first_answer (map (answer_at (answers hosts key args maps)) members))) }
{}
