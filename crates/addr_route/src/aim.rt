ghost use Rattle.std.specs.Prelude.{◌≡◌, ◌≤◌, ◌++◌, IfOk, None, OnOk, drop, length};
ghost use Rattle.addr_tokens.specs.Joins.{joined};
ghost use Rattle.addr_route.specs.Aims as spec;

use addr_tokens::join;
use mail_base::{Mark, NoMemory, Seq, Text, Token, TryCopy};
use std::alloc::Global;

/// What a list that begins with `$#` says.
#[derive(Drop)]
pub struct Aim {
    /// The mailer's name, as the rules write it.
    pub mailer: Text,
    pub host: Text,
    pub user: Seq<Token>,
}

/// What a list says behind its first token, which is `$#`.
pub fn aim_of(alloc: Global, list: &[Token]) -> Result<Aim, NoMemory>
    ensures { IfOk result (λ aim. aim ≡ spec.aim_of list.now) }
{
    aim_at(alloc, behind_first(list))
}

fn aim_at(alloc: Global, tokens: &[Token]) -> Result<Aim, NoMemory>
    ensures { IfOk result (λ aim. aim ≡ spec.aim_at tokens.now) }
{
    let mailer = joined(alloc, before_end(tokens, true))?;
    let host = joined(alloc, host_tokens(from_end(tokens, true)))?;
    let user = copied(alloc, behind_first(from_end(tokens, false)))?;
    Ok(Aim { mailer, host, user })
}

fn behind_first(tokens: &[Token]) -> &[Token]
    ensures { result.now ≡ drop 1 tokens.now }
{
    match tokens.split_first() {
        Some((_first, rest)) => rest,
        None => tokens,
    }
}

// The tokens of a host, if a `$@` begins one.
fn host_tokens(tokens: &[Token]) -> &[Token]
    ensures { result.now ≡ spec.host_tokens tokens.now }
{
    match tokens {
        [Token::Sign(Mark::Host), rest @ ..] => before_end(rest, false),
        _ => &[],
    }
}

// The tokens before the first `$:` or, where hosts says so, `$@`.
fn before_end(tokens: &[Token], hosts: bool) -> &[Token]
    ensures { result.now ≡ spec.before_end hosts tokens.now }
{
    let rest = from_end(tokens, hosts);
    &tokens[..tokens.len() - rest.len()]
}

// Those from it on.
fn from_end(tokens: &[Token], hosts: bool) -> &[Token]
    ensures tokens { result.now ≡ spec.from_end hosts tokens.now }
    ensures short { length result.now ≤ length tokens.now }
{
    let mut rest = tokens;
    'tokens: while let Some((token, after)) = rest.split_first() {
        if is_end(token, hosts) {
            return rest;
        }
        rest = after;
    }
    rest
}

fn is_end(token: &Token, hosts: bool) -> bool
    ensures { result ≡ spec.is_end hosts token.now }
{
    match token {
        Token::Sign(Mark::User) => true,
        Token::Sign(Mark::Host) => hosts,
        Token::Sign(Mark::Alt) => false,
        Token::Sign(Mark::Mailer) => false,
        Token::Sign(Mark::End) => false,
        Token::Word(_) => false,
        Token::Quoted(_) => false,
        Token::Op(_) => false,
    }
}

// The bytes of tokens.
fn joined(alloc: Global, tokens: &[Token]) -> Result<Text, NoMemory>
    ensures { IfOk result (λ text. text ≡ joined None tokens.now) }
{
    let tokens = copied(alloc, tokens)?;
    join(alloc, &tokens, None)
}

/// A list of copies of tokens.
pub fn copied(alloc: Global, tokens: &[Token]) -> Result<Seq<Token>, NoMemory>
    ensures { IfOk result (λ list. list ≡ tokens.now) }
{
    let mut list = Seq::new(alloc);
    for token in tokens {
        list.push(token.copy()?)?;
    }
    Ok(list)
}
