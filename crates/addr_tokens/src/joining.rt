ghost use Rattle.std.specs.Prelude.{◌≡◌, ◌++◌, IfOk, OnErr, OnOk};
ghost use Rattle.addr_tokens.specs.Joins as spec;

use mail_base::{Mark, NoMemory, Seq, Text, Token};
use std::alloc::Global;

/// The bytes of the tokens, with the blank between two neighbours that are both Word or Quoted. A
/// sign is written `$|`, `$#`, `$@`, `$:` or `$.`.
pub fn join(alloc: Global, tokens: &Seq<Token>, blank: Option<u8>) -> Result<Text, NoMemory>
    ensures { IfOk result (λ text. text ≡ spec.joined blank tokens.now) }
{
    let mut text = Text::new(alloc);
    let mut after = false;
    'tokens: for token in tokens.items() {
        if after && is_string(token) {
            push_blank(&mut text, blank)?;
        }
        push_token(&mut text, token)?;
        after = is_string(token);
    }
    Ok(text)
}

/// Whether it is a Word or a Quoted token.
fn is_string(token: &Token) -> bool
    ensures { result ≡ spec.is_string token.now }
{
    matches!(token, Token::Word(_) | Token::Quoted(_))
}

fn push_blank(text: &mut Text, blank: Option<u8>) -> Result<(), NoMemory>
    ensures { OnOk result (text.new ≡ text.old ++ spec.blank_bytes blank) }
{
    match blank {
        Some(byte) => text.push(byte),
        None => Ok(()),
    }
}

/// Adds the bytes of a token at the end of a text, a sign as its two bytes. After want of memory the
/// text is as before.
pub fn push_token(text: &mut Text, token: &Token) -> Result<(), NoMemory>
    ensures ok { OnOk result (text.new ≡ text.old ++ spec.token_bytes token.now) }
    ensures err { OnErr result (text.new ≡ text.old) }
{
    match token {
        Token::Word(bytes) | Token::Quoted(bytes) => text.extend(bytes.bytes()),
        Token::Op(byte) => text.push(*byte),
        Token::Sign(mark) => text.extend(sign_bytes(*mark)),
    }
}

fn sign_bytes(mark: Mark) -> &'static [u8]
    ensures { result.now ≡ spec.sign_bytes mark }
{
    match mark {
        Mark::Alt => b"$|",
        Mark::Mailer => b"$#",
        Mark::Host => b"$@",
        Mark::User => b"$:",
        Mark::End => b"$.",
    }
}
