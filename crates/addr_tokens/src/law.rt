ghost use Rattle.std.specs.Prelude.{◌≡◌, ◌≢◌, ◌⊎◌, ◌↔◌, ℕ, List, Bool, map, true, false, None, Some, Ok, Err};
ghost use Rattle.mail_base.specs.declared.token.Token.{Token as TheToken};
ghost use Rattle.addr_tokens.specs.declared.fault.ScanFault.{ScanFault as TheFault};
ghost use Rattle.addr_tokens.specs.declared.fault.ScanFault.TheVariants.{Long as TooMany};
ghost use Rattle.addr_tokens.specs.declared.span.PieceSpan.{PieceSpan as TheSpan};
ghost use Rattle.addr_tokens.specs.declared.lexeme.Lexeme.{Lexeme as TheLexeme};
ghost use Rattle.addr_tokens.specs.declared.lexeme.Lexeme.TheVariants.{Token as Plain};
ghost use Rattle.mail_base.specs.Whites.{is_white};
ghost use Rattle.addr_tokens.specs.Pieces.{Alphabet, Piece, Cuts, plain, is_side};
ghost use Rattle.addr_tokens.specs.Scans.{AreLexemes, AreTokens, HasFault};
ghost use Rattle.addr_tokens.specs.Reader.{outcome_of, tokens_or_fault};
ghost use Rattle.addr_tokens.specs.Spans.{AreSpans, spans_or_fault};
ghost use Rattle.addr_tokens.specs.Joins.{joined, have_neighbours};

/// A text has at most one cutting.
pub fn one_cutting()
    ensures { (alphabet : Alphabet) (text : List ℕ) (one other : List Piece)
        → Cuts alphabet text one → Cuts alphabet text other → one ≡ other }
{}

/// Each text has its lexemes or its first fault, and one of these alone.
pub fn one_answer()
    ensures some { (alphabet : Alphabet) (angles : Bool) (text : List ℕ)
        → ((lexemes : List TheLexeme) × AreLexemes alphabet angles text lexemes)
        ⊎ ((fault : TheFault) × HasFault alphabet angles text fault) }
    ensures lexemes { (alphabet : Alphabet) (angles : Bool) (text : List ℕ)
        (one other : List TheLexeme)
        → AreLexemes alphabet angles text one → AreLexemes alphabet angles text other
        → one ≡ other }
    ensures fault { (alphabet : Alphabet) (angles : Bool) (text : List ℕ) (one other : TheFault)
        → HasFault alphabet angles text one → HasFault alphabet angles text other → one ≡ other }
    ensures either { (alphabet : Alphabet) (angles : Bool) (text : List ℕ)
        (lexemes : List TheLexeme) (fault : TheFault)
        → AreLexemes alphabet angles text lexemes → HasFault alphabet angles text fault → ⊥ }
{}

/// Outside of rules' sides each lexeme is a token.
pub fn lexemes_are_tokens()
    ensures { (alphabet : Alphabet) (angles : Bool) (text : List ℕ) (lexemes : List TheLexeme)
        → is_side alphabet.dollars ≡ false → AreLexemes alphabet angles text lexemes
        → ((tokens : List TheToken) × (lexemes ≡ map Plain tokens)) }
{}

/// What is computed is what a cutting gives, or the first fault.
pub fn computed()
    ensures lexemes { (alphabet : Alphabet) (angles : Bool) (text : List ℕ)
        (lexemes : List TheLexeme)
        → ((outcome_of alphabet angles text ≡ Ok lexemes)
        ↔ (AreLexemes alphabet angles text lexemes)) }
    ensures fault { (alphabet : Alphabet) (angles : Bool) (text : List ℕ) (fault : TheFault)
        → ((outcome_of alphabet angles text ≡ Err fault) ↔ (HasFault alphabet angles text fault)) }
    ensures tokens { (alphabet : Alphabet) (angles : Bool) (text : List ℕ) (tokens : List TheToken)
        → is_side alphabet.dollars ≡ false
        → ((tokens_or_fault alphabet angles text ≡ Ok tokens)
        ↔ (AreTokens alphabet angles text tokens)) }
{}

/// The pieces that are computed are those of a cutting, or the text has the first fault.
pub fn spans_computed()
    ensures spans { (alphabet : Alphabet) (angles : Bool) (text : List ℕ) (spans : List TheSpan)
        → ((spans_or_fault alphabet angles text ≡ Ok spans)
        ↔ (AreSpans alphabet angles text spans)) }
    ensures fault { (alphabet : Alphabet) (angles : Bool) (text : List ℕ) (fault : TheFault)
        → fault ≢ TooMany
        → ((spans_or_fault alphabet angles text ≡ Err fault)
        ↔ (HasFault alphabet angles text fault)) }
{}

/// The tokens of a text that are joined with white space are cut into the same tokens, under the
/// same operators. Without a blank they are where no two words are neighbours, and only there.
pub fn cut_again()
    ensures spaced { (operators : List ℕ) (angles : Bool) (text : List ℕ) (tokens : List TheToken)
        (white : ℕ)
        → AreTokens (plain operators) angles text tokens → is_white white ≡ true
        → AreTokens (plain operators) angles (joined (Some white) tokens) tokens }
    ensures close { (operators : List ℕ) (angles : Bool) (text : List ℕ) (tokens : List TheToken)
        → AreTokens (plain operators) angles text tokens → have_neighbours tokens ≡ false
        → AreTokens (plain operators) angles (joined None tokens) tokens }
    ensures only { (operators : List ℕ) (angles : Bool) (tokens : List TheToken)
        → AreTokens (plain operators) angles (joined None tokens) tokens
        → have_neighbours tokens ≡ false }
{}
