ghost use Rattle.std.specs.Prelude.{◌≡◌};
ghost use Rattle.addr_tokens.specs.declared.fault.ScanFault.TheVariants.{NoMemory as Memory};

use mail_base::NoMemory;
use thiserror::Error;

/// Why a text has no tokens. A place is the number of bytes before it.
#[derive(Clone, Copy, Debug, Drop, Error)]
pub enum ScanFault {
    /// A `)` or a checked `>` that nothing opens, at its place; the outermost `(` of those that
    /// nothing closes; or the last checked `<` that nothing closes.
    #[error("Unbalanced {0}")]
    Unbalanced(u64),
    /// A double quote that nothing closes, a byte below 32 or 127 in quotes, or a backslash that
    /// ends the text.
    #[error("BadQuote {0}")]
    BadQuote(u64),
    /// In a rule's side a dollar sign that ends the text or stands before a byte with which it
    /// means nothing, or a `$=`, `$~` or `$&` without a name.
    #[error("BadDollar {0}")]
    BadDollar(u64),
    /// There are more than 2,000 tokens.
    #[error("Long")]
    Long,
    #[error("NoMemory")]
    NoMemory,
}

impl From<NoMemory> for ScanFault {
    ghost from_gives = { λ _ e. e ≡ Memory };

    fn from(_error: NoMemory) -> ScanFault {
        ScanFault::NoMemory
    }
}
