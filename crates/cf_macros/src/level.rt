ghost use Rattle.std.specs.Prelude.{◌≡◌, ◌≤◌, true, length};
ghost use Rattle.cf_macros.specs.inner.Insides.{rest_at, is_closed};

use crate::scope::Scope;
use mail_base::Text;

/// A text under way: a level of references.
#[derive(Clone, Copy)]
pub(crate) struct Level<'a> {
    /// What the text is expanded for, which is the same at all levels of a run.
    pub(crate) scope: Scope,
    pub(crate) text: &'a [u8],
    pub(crate) place: usize,
    /// How many conditionals are open at the place.
    pub(crate) depth: usize,
    /// Whether the level has given something.
    pub(crate) gave: bool,
    /// Whether the level waits for the test of its innermost conditional.
    pub(crate) tests: bool,
    ghost in_text: { place ≤ length text.now },
    ghost few: { depth ≤ place },
    ghost closed: { is_closed depth (rest_at scope text.now place) ≡ true },
    ghost waits: { tests ≡ true → 1 ≤ depth },
}

/// What an expansion has given so far.
#[derive(Drop)]
pub(crate) struct Given {
    pub(crate) text: Text,
    /// Whether what is read is a test, which gives nothing.
    pub(crate) silent: bool,
    ghost within: { length text ≤ 1_048_576 },
}
