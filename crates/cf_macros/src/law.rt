ghost use Rattle.std.specs.Prelude.{◌≡◌, ◌≢◌, ◌≤◌, ℕ, List, [], ◌∷◌, ◌++◌, length, All, Ok, true, codes};
ghost use Rattle.cf_macros.specs.Constructs.{is_name};
ghost use Rattle.cf_macros.specs.Expansion.{value, rule_value};
ghost use Rattle.cf_macros.specs.Written.{Named, name_of, name_spelling, IsNamed, IsNoName, Part, Ends, part_spelling, IsPart, set_to, chosen, Then, Joins};

/// The value of a text outside rules by its first construct, where no limit is met: `$$`, another
/// byte, `$` before a byte that begins nothing, `$x`, `${x}`, `$&x`, and the two conditionals,
/// whose parts are whole. Whoever has the value of the whole has the values of its parts. A text
/// without `$` is its own value.
pub fn values_by_first_construct()
    ensures dollar { (macros : List (List ℕ × List ℕ)) (text given : List ℕ)
        → value (codes "$$" ++ text) macros ≡ Ok given
        → Then (codes "$") (value text macros) given }
    ensures byte { (macros : List (List ℕ × List ℕ)) (byte : ℕ) (text given : List ℕ) → byte ≢ 36
        → value (byte ∷ text) macros ≡ Ok given → Then (byte ∷ []) (value text macros) given }
    ensures alone { (macros : List (List ℕ × List ℕ)) (byte : ℕ) (text given : List ℕ)
        → IsNoName byte → value (36 ∷ byte ∷ text) macros ≡ Ok given
        → Then (36 ∷ byte ∷ []) (value text macros) given }
    ensures name { (macros : List (List ℕ × List ℕ)) (byte : ℕ) (text given : List ℕ)
        → is_name byte ≡ true → value (36 ∷ byte ∷ text) macros ≡ Ok given
        → Joins (value (set_to macros (byte ∷ [])) macros) (value text macros) given }
    ensures word { (macros : List (List ℕ × List ℕ)) (word text given : List ℕ)
        → All (λ byte. byte ≢ 125) word
        → value (codes "${" ++ word ++ codes "}" ++ text) macros ≡ Ok given
        → Joins (value (set_to macros word) macros) (value text macros) given }
    ensures late { (macros : List (List ℕ × List ℕ)) (name : Named) (text given : List ℕ)
        → IsNamed name → value (codes "$&" ++ name_spelling name ++ text) macros ≡ Ok given
        → Joins (value (set_to macros (name_of name)) macros) (value text macros) given }
    ensures short { (macros : List (List ℕ × List ℕ)) (name : Named) (shown : Part)
        (text given test : List ℕ) → IsNamed name → IsPart shown
        → value (codes "$?" ++ (name_spelling name ++ (part_spelling shown ++
        (codes "$." ++ text)))) macros ≡ Ok given
        → value (set_to macros (name_of name)) macros ≡ Ok test
        → Joins (value (part_spelling (chosen test shown Ends)) macros) (value text macros) given }
    ensures long { (macros : List (List ℕ × List ℕ)) (name : Named) (shown other : Part)
        (text given test : List ℕ) → IsNamed name → IsPart shown → IsPart other
        → value (codes "$?" ++ (name_spelling name ++ (part_spelling shown ++ (codes "$|" ++
        (part_spelling other ++ (codes "$." ++ text)))))) macros ≡ Ok given
        → value (set_to macros (name_of name)) macros ≡ Ok test
        → Joins (value (part_spelling (chosen test shown other)) macros) (value text macros) given }
    ensures plain { (macros : List (List ℕ × List ℕ)) (text : List ℕ)
        → All (λ byte. byte ≢ 36) text → length text ≤ 1_048_576 → value text macros ≡ Ok text }
{}

/// The same of a side of a rule, in which `$$` and `$&x` stay as they are written.
pub fn rule_values_by_first_construct()
    ensures dollar { (macros : List (List ℕ × List ℕ)) (text given : List ℕ)
        → rule_value (codes "$$" ++ text) macros ≡ Ok given
        → Then (codes "$$") (rule_value text macros) given }
    ensures byte { (macros : List (List ℕ × List ℕ)) (byte : ℕ) (text given : List ℕ) → byte ≢ 36
        → rule_value (byte ∷ text) macros ≡ Ok given
        → Then (byte ∷ []) (rule_value text macros) given }
    ensures alone { (macros : List (List ℕ × List ℕ)) (byte : ℕ) (text given : List ℕ)
        → IsNoName byte → rule_value (36 ∷ byte ∷ text) macros ≡ Ok given
        → Then (36 ∷ byte ∷ []) (rule_value text macros) given }
    ensures name { (macros : List (List ℕ × List ℕ)) (byte : ℕ) (text given : List ℕ)
        → is_name byte ≡ true → rule_value (36 ∷ byte ∷ text) macros ≡ Ok given
        → Joins (rule_value (set_to macros (byte ∷ [])) macros) (rule_value text macros) given }
    ensures word { (macros : List (List ℕ × List ℕ)) (word text given : List ℕ)
        → All (λ byte. byte ≢ 125) word
        → rule_value (codes "${" ++ word ++ codes "}" ++ text) macros ≡ Ok given
        → Joins (rule_value (set_to macros word) macros) (rule_value text macros) given }
    ensures late { (macros : List (List ℕ × List ℕ)) (name : Named) (text given : List ℕ)
        → IsNamed name → rule_value (codes "$&" ++ name_spelling name ++ text) macros ≡ Ok given
        → Then (codes "$&" ++ name_spelling name) (rule_value text macros) given }
    ensures short { (macros : List (List ℕ × List ℕ)) (name : Named) (shown : Part)
        (text given test : List ℕ) → IsNamed name → IsPart shown
        → rule_value (codes "$?" ++ (name_spelling name ++ (part_spelling shown ++
        (codes "$." ++ text)))) macros ≡ Ok given
        → rule_value (set_to macros (name_of name)) macros ≡ Ok test
        → Joins (rule_value (part_spelling (chosen test shown Ends)) macros)
        (rule_value text macros) given }
    ensures long { (macros : List (List ℕ × List ℕ)) (name : Named) (shown other : Part)
        (text given test : List ℕ) → IsNamed name → IsPart shown → IsPart other
        → rule_value (codes "$?" ++ (name_spelling name ++ (part_spelling shown ++ (codes "$|" ++
        (part_spelling other ++ (codes "$." ++ text)))))) macros ≡ Ok given
        → rule_value (set_to macros (name_of name)) macros ≡ Ok test
        → Joins (rule_value (part_spelling (chosen test shown other)) macros)
        (rule_value text macros) given }
    ensures plain { (macros : List (List ℕ × List ℕ)) (text : List ℕ)
        → All (λ byte. byte ≢ 36) text → length text ≤ 1_048_576
        → rule_value text macros ≡ Ok text }
{}
