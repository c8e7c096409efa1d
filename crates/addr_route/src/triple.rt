ghost use Rattle.std.specs.Prelude.{◌≡◌, IfOk, filter};
ghost use Rattle.addr_route.specs.Aims as spec;

use addr_tokens::join;
use mail_base::{Mailer, NoMemory, Seq, Text, Token, Triple, TryCopy};
use std::alloc::Global;

/// The triple of a mailer, a host and the tokens of a user, which were rewritten.
pub fn triple_of(
    alloc: Global,
    mailer: &Mailer,
    host: &Text,
    user: &Seq<Token>,
) -> Result<Triple, NoMemory>
    ensures { IfOk result (λ triple. triple ≡ spec.triple_of mailer.now host.now user.now) }
{
    let user = join(alloc, user, None)?;
    let user = cased(has_flag(mailer, b'u'), &user)?;
    let user = stripped(alloc, has_flag(mailer, b's'), user)?;
    let host = cased(has_flag(mailer, b'h'), host)?;
    Ok(Triple {
        mailer: mailer.name.copy()?,
        host,
        user,
    })
}

/// Whether a mailer has a flag.
pub fn has_flag(mailer: &Mailer, flag: u8) -> bool
    ensures { result ≡ spec.has_flag flag mailer.now }
{
    mailer.flags.bytes().contains(&flag)
}

// A text in small letters, but where its case is kept.
fn cased(keeps: bool, text: &Text) -> Result<Text, NoMemory>
    ensures { IfOk result (λ given. given ≡ spec.cased keeps text.now) }
{
    if keeps {
        return text.copy();
    }
    text.folded()
}

// A text, from which quotes and backslashes may be taken out.
fn stripped(alloc: Global, strips: bool, text: Text) -> Result<Text, NoMemory>
    ensures { IfOk result (λ given. given ≡ spec.stripped strips text) }
{
    if strips {
        return without_quotes(alloc, text.bytes());
    }
    Ok(text)
}

fn without_quotes(alloc: Global, text: &[u8]) -> Result<Text, NoMemory>
    ensures { IfOk result (λ given. given ≡ filter spec.is_unquoting text.now) }
{
    let bytes = text
        .iter()
        .copied()
        .filter(|byte| is_unquoting(*byte))
        .collect(alloc)?;
    Ok(Text::from_vec(bytes))
}

fn is_unquoting(byte: u8) -> bool
    ensures { result ≡ spec.is_unquoting byte }
{
    byte != b'"' && byte != b'\\'
}
