ghost use Rattle.std.specs.Prelude.{◌≡◌, ◌≢◌, ℕ, List, [], ◌∷◌, ◌++◌};
ghost use Rattle.cf_reader.specs.Fields.{InQuotes, IsQuotable, cut_from, escape, outside, plain};

/// Where the commas of a text cut it into fields, and what a value says, by the first construct of
/// the text: a comma, a byte that means nothing, a backslash with the byte behind it, a quoted
/// stretch, one that nothing closes, and a backslash at the end. In a cutting the bytes in front are
/// those of the piece so far.
pub fn fields_by_first_construct()
    ensures end { (piece : List ℕ) → cut_from outside piece [] ≡ piece ∷ [] }
    ensures comma { (piece text : List ℕ)
        → cut_from outside piece (44 ∷ text) ≡ piece ∷ cut_from outside [] text }
    ensures byte { (piece text : List ℕ) (b : ℕ) → b ≢ 44 → IsQuotable b
        → cut_from outside piece (b ∷ text) ≡ cut_from outside (piece ++ b ∷ []) text }
    ensures escaped { (piece text : List ℕ) (b : ℕ)
        → cut_from outside piece (92 ∷ b ∷ text)
        ≡ cut_from outside (piece ++ 92 ∷ b ∷ []) text }
    ensures quoted { (piece inside text : List ℕ) → InQuotes inside
        → cut_from outside piece (34 ∷ (inside ++ 34 ∷ text))
        ≡ cut_from outside (piece ++ 34 ∷ (inside ++ 34 ∷ [])) text }
    ensures unclosed { (piece inside : List ℕ) → InQuotes inside
        → cut_from outside piece (34 ∷ inside) ≡ (piece ++ 34 ∷ inside) ∷ [] }
    ensures unclosed_backslash { (piece inside : List ℕ) → InQuotes inside
        → cut_from outside piece (34 ∷ (inside ++ 92 ∷ []))
        ≡ (piece ++ 34 ∷ (inside ++ 92 ∷ [])) ∷ [] }
    ensures last_backslash { (piece : List ℕ)
        → cut_from outside piece (92 ∷ []) ≡ (piece ++ 92 ∷ []) ∷ [] }
    ensures says_nothing { plain [] ≡ [] }
    ensures says_byte { (b : ℕ) (text : List ℕ) → IsQuotable b
        → plain (b ∷ text) ≡ b ∷ plain text }
    ensures says_escaped { (b : ℕ) (text : List ℕ)
        → plain (92 ∷ b ∷ text) ≡ escape b ∷ plain text }
    ensures says_quote { (text : List ℕ) → plain (34 ∷ text) ≡ plain text }
    ensures says_last { plain (92 ∷ []) ≡ [] }
{}
