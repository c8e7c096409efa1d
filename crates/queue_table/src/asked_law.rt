//! Laws on lists of steps, some of which ask commands of a table. A step stands here by a number;
//! the lemmas that crates above cite (`AskedLemmas`) are over steps of any type.

ghost use Rattle.std.specs.Prelude.{◌≡◌, ◌++◌, ◌∷◌, [], ℕ, List, Bool};
ghost use Rattle.spool_disk.specs.Disk.{FileMap};
ghost use Rattle.spool_store.specs.Entries.{Table};
ghost use Rattle.queue_table.specs.Asked.{AreStoppable, IsFront, Leaves, table_by};
ghost use Rattle.queue_table.specs.Commands.{Command, after};

/// The table after two lists of steps is that of the second after the first, and the table after a
/// last step that asks a command is that after the command.
pub fn tables_of_steps_follow()
    ensures joins { (asked : ℕ → List Command) (table : Table) (some more : List ℕ)
        → table_by asked table (some ++ more) ≡ table_by asked (table_by asked table some) more }
    ensures last { (asked : ℕ → List Command) (table : Table) (done : List ℕ)
        (last : ℕ) (command : Command) → asked last ≡ command ∷ []
        → table_by asked table (done ++ last ∷ []) ≡ after (table_by asked table done) command }
{}

/// Files of a front of the first steps are of a front of all, and so are those of a front of the
/// later ones; what the later steps leave, all leave; and whatever is left is of a front.
pub fn files_of_steps_join()
    ensures before { (asked : ℕ → List Command) (dirs : List (List ℕ)) (table : Table)
        (some more : List ℕ) (files : FileMap) → IsFront asked dirs table some files
        → IsFront asked dirs table (some ++ more) files }
    ensures later { (asked : ℕ → List Command) (dirs : List (List ℕ)) (table : Table)
        (some more : List ℕ) (files : FileMap)
        → IsFront asked dirs (table_by asked table some) more files
        → IsFront asked dirs table (some ++ more) files }
    ensures leaves { (asked : ℕ → List Command) (dirs : List (List ℕ)) (table : Table)
        (some more : List ℕ) (well : Bool) (files : FileMap)
        → Leaves asked dirs (table_by asked table some) more well files
        → Leaves asked dirs table (some ++ more) well files }
    ensures front { (asked : ℕ → List Command) (dirs : List (List ℕ)) (table : Table)
        (steps : List ℕ) (well : Bool) (files : FileMap)
        → Leaves asked dirs table steps well files → IsFront asked dirs table steps files }
{}

/// Two lists of steps can be stopped in any command exactly where the first can, and the second
/// after it.
pub fn stops_of_steps_join()
    ensures joins { (asked : ℕ → List Command) (table : Table) (some more : List ℕ)
        → AreStoppable asked table some → AreStoppable asked (table_by asked table some) more
        → AreStoppable asked table (some ++ more) }
    ensures first { (asked : ℕ → List Command) (table : Table) (some more : List ℕ)
        → AreStoppable asked table (some ++ more) → AreStoppable asked table some }
    ensures later { (asked : ℕ → List Command) (table : Table) (some more : List ℕ)
        → AreStoppable asked table (some ++ more)
        → AreStoppable asked (table_by asked table some) more }
{}
