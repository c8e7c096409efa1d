ghost use Rattle.std.specs.Prelude.{◌≡◌, ℕ, List, length};
ghost use Rattle.mail_base.specs.declared.mailer.Mailer.{Mailer};
ghost use Rattle.mail_header.specs.declared.span.Span.{Span};
ghost use Rattle.mail_header.specs.Places.{AreApart};
ghost use Rattle.ruleset_run.specs.Sites.{Macros, Site};
ghost use Rattle.header_rewrite.specs.Rewriting.{AreIdle, AreJoined, Fills, IsRewritten, rejoined_from};

use ruleset_run::{one_rewriting, some_rewriting};

/// A header is rewritten in one way.
pub fn one_header()
    ensures { (site : Site) (macros : Macros) (mailer : Mailer) (header one another : List ℕ)
        → IsRewritten site macros mailer header one
        → IsRewritten site macros mailer header another → one ≡ another }
{
    // A law of ruleset_run: an address is rewritten in one way.
    one_rewriting();
}

/// A header is rewritten, whatever the rulesets are.
pub fn some_header()
    ensures { (site : Site) (macros : Macros) (mailer : Mailer) (header : List ℕ)
        → (text : List ℕ) × IsRewritten site macros mailer header text }
{
    // A law of ruleset_run: each address is rewritten, or refused.
    some_rewriting();
}

/// Rulesets that give what they got change a header at its places alone, and there to the tokens
/// that are joined again; where these are the bytes that were there, they change nothing.
pub fn only_joins()
    ensures joins { (site : Site) (macros : Macros) (sets : List (List ℕ)) (header : List ℕ)
        (places : List Span) (text : List ℕ) → AreIdle site macros sets
        → Fills site macros sets header 0 places text
        → text ≡ rejoined_from site.operators header 0 places }
    ensures same { (site : Site) (macros : Macros) (sets : List (List ℕ)) (header : List ℕ)
        (places : List Span) (text : List ℕ) → AreIdle site macros sets
        → AreApart 0 places (length header) → AreJoined site.operators header places
        → Fills site macros sets header 0 places text → text ≡ header }
{
    // A law of ruleset_run: an address is rewritten in one way.
    one_rewriting();
}
