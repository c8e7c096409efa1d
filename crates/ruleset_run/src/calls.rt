ghost use Rattle.std.specs.Prelude.{◌≡◌, ◌++◌, ◌∷◌, [], IfNone, IfOk, IfSome, OnOk};
ghost use Rattle.addr_tokens.specs.Joins.{sign_bytes};
ghost use Rattle.ruleset_run.specs.Filling as spec;

use addr_tokens::join;
use mail_base::{Mark, NoMemory, Seq, Text, Token, TryCopy};
use std::alloc::Global;

/// The name that a token gives to a call.
pub fn call_name(alloc: Global, token: &Token) -> Result<Text, NoMemory>
    ensures { IfOk result (λ name. name ≡ spec.call_name token.now) }
{
    match token {
        Token::Word(text) => text.text().copy(),
        Token::Quoted(text) => Text::of(alloc, unquoted(text.bytes())),
        Token::Op(byte) => Text::of(alloc, &[*byte]),
        Token::Sign(mark) => sign_name(alloc, *mark),
    }
}

fn sign_name(alloc: Global, mark: Mark) -> Result<Text, NoMemory>
    ensures { IfOk result (λ name. name ≡ sign_bytes mark) }
{
    let mut tokens = Seq::new(alloc);
    tokens.push(Token::Sign(mark))?;
    join(alloc, &tokens, None)
}

// A quoted string without the double quotes at its ends.
fn unquoted(text: &[u8]) -> &[u8]
    ensures { result.now ≡ spec.unquoted text.now }
{
    if text.len() < 2 {
        return &[];
    }
    &text[1..text.len() - 1]
}

/// No tokens, with room for so many.
pub fn with_room(alloc: Global, room: usize) -> Result<Vec<Token>, NoMemory>
    ensures { IfOk result (λ tokens. tokens.items ≡ []) }
{
    Ok(Vec::with_capacity(alloc, room)?)
}

/// The first of the tokens, which names a ruleset, and those behind it, or `None` where there is
/// none.
pub fn first_and_rest(tokens: Seq<Token>) -> Option<(Token, Seq<Token>)>
    ensures some { IfSome result (λ parted. tokens ≡ parted.0 ∷ parted.1) }
    ensures none { IfNone result (tokens ≡ []) }
{
    if tokens.is_empty() {
        return None;
    }
    let mut rest = tokens.into_vec();
    let first = rest.remove(0);
    Some((first, Seq::from_vec(rest)))
}

/// Tokens, and others behind them.
pub fn joined(front: Seq<Token>, behind: Seq<Token>) -> Result<Seq<Token>, NoMemory>
    ensures { IfOk result (λ tokens. tokens ≡ front ++ behind) }
{
    if front.is_empty() {
        return Ok(behind);
    }
    let mut tokens = front.into_vec();
    tokens.append(&mut behind.into_vec())?;
    Ok(Seq::from_vec(tokens))
}

/// Adds copies of tokens at the end.
pub fn push_all(tokens: &mut Seq<Token>, more: &[Token]) -> Result<(), NoMemory>
    ensures { OnOk result (tokens.new ≡ tokens.old ++ more.now) }
{
    for token in more {
        tokens.push(token.copy()?)?;
    }
    Ok(())
}
