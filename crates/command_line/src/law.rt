ghost use Rattle.std.specs.Prelude.{◌≡◌, ◌⊎◌, List, ℕ};
ghost use Rattle.command_line.specs.declared.mode.Mode.{Mode};
ghost use Rattle.command_line.specs.declared.mode.Job.TheVariants.{Submit};
ghost use Rattle.command_line.specs.CommandLines.{IsCommandLine, IsRefusedAt};
ghost use Rattle.mail_submit.specs.Said.{AreSaid};
ghost use Rattle.mail_submit.specs.declared.words.SubmitWords.{SubmitWords};

/// Words are a command line or are refused at a place, and never both; its mode and the place are
/// the only ones.
pub fn words_are_taken_or_refused()
    ensures each { (words : List (List ℕ))
        → ((mode : Mode) × IsCommandLine words mode) ⊎ ((place : ℕ) × IsRefusedAt words place) }
    ensures apart { (words : List (List ℕ)) (mode : Mode) (place : ℕ) → IsCommandLine words mode
        → ¬ (IsRefusedAt words place) }
    ensures mode { (words : List (List ℕ)) (mode other : Mode) → IsCommandLine words mode
        → IsCommandLine words other → mode ≡ other }
    ensures place { (words : List (List ℕ)) (place other : ℕ) → IsRefusedAt words place
        → IsRefusedAt words other → place ≡ other }
{}

/// What a command line says of mail that is handed over is made of lines: no address is empty, and
/// neither they nor the sender hold an LF.
pub fn submitted_words_are_lines()
    ensures { (words : List (List ℕ)) (mode : Mode) (mail : SubmitWords) → IsCommandLine words mode
        → mode.job ≡ Submit mail → AreSaid mail }
{}
