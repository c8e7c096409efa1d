ghost use Rattle.std.specs.Prelude.{◌≡◌};
ghost use Rattle.addr_test.specs.Forms.{split_word};

use mail_base::{without_whites, word_length};

/// What stands before the first white space, and what stands behind that white space.
pub(crate) fn split_word(text: &[u8]) -> (&[u8], &[u8])
    ensures { (result.0.now, result.1.now) ≡ split_word text.now }
{
    let end = word_length(text);
    (&text[..end], without_whites(&text[end..]))
}
