ghost use Rattle.std.specs.Prelude.{◌≡◌, ◌∷◌, ◌↔◌, List, ℕ, None, Some, Result};
ghost use Rattle.mail_base.specs.declared.command.LineFault.{LineFault};
ghost use Rattle.smtp_lines.specs.Commands.{Order, IsRead};
ghost use Rattle.smtp_lines.specs.Paths.{EndsPath, Parts};
ghost use Rattle.smtp_lines.specs.Reading.{path_parts, order_of};

/// Behind a `<` one path ends at most. `path_parts` gives that path and what is after it, and
/// nothing exactly where none ends.
pub fn one_path()
    ensures some { (text : List ℕ) (parts : Parts)
        → (path_parts (60 ∷ text) ≡ Some parts) ↔ EndsPath text parts }
    ensures none { (text : List ℕ)
        → (path_parts (60 ∷ text) ≡ None) ↔ ((parts : Parts) → ¬ EndsPath text parts) }
    ensures one { (text : List ℕ) (one other : Parts)
        → EndsPath text one → EndsPath text other → one ≡ other }
{}

/// Each line is read in one way: as one command, or with one first fault.
pub fn one_command()
    ensures some { (line : List ℕ) → IsRead line (order_of line) }
    ensures one { (line : List ℕ) (one other : Result Order LineFault)
        → IsRead line one → IsRead line other → one ≡ other }
{}
