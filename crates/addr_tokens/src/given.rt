ghost use Rattle.std.specs.Prelude.{◌≡◌, ◌==◌, ◌≤◌, ◌<◌, ◌+◌, ◌++◌, ℕ, List, false, true, length, take, drop, IfOk};
ghost use Rattle.std.specs.List.{list_any};
ghost use Rattle.addr_tokens.specs.declared.lexeme.Dollars.{Dollars as TheDollars};
ghost use Rattle.addr_tokens.specs.declared.lexeme.Dollars.TheVariants.{Side};
ghost use Rattle.addr_tokens.specs.declared.front.Front.TheVariants.{Dollar as Meant};
ghost use Rattle.addr_tokens.specs.declared.lexeme.Lexeme.{Lexeme as TheLexeme};
ghost use Rattle.addr_tokens.specs.declared.lexeme.Lexeme.TheVariants.{Token as Plain};
ghost use Rattle.addr_tokens.specs.Pieces as spec;
ghost use Rattle.addr_tokens.specs.Pieces.{given_by, is_side, mark_of};
ghost use Rattle.addr_tokens.specs.inner.Views.{piece_of, size_of, size_behind, construct_in, Suits, seen_in, token_at, lexeme_at};

use crate::construct::Construct;
use crate::front::Front;
use crate::lexeme::Lexeme;
use mail_base::{Mark, NoMemory, Text, Token, Word};
use std::alloc::Global;

/// What is gathered of a text: its tokens, or the lexemes of a rule's side.
pub(crate) trait Given: Drop {
    /// Where it is gathered, by what a dollar sign means.
    ghost serves: { TheDollars → Type 0 };

    /// What it is.
    ghost seen: { Self → TheLexeme };

    /// What the piece that begins a text gives.
    fn of(alloc: Global, front: Front, text: &[u8]) -> Result<Option<Self>, NoMemory>
        requires { size_of front ≤ length text.now }
        ensures { IfOk result (λ given. (dollars : TheDollars) → serves dollars
            → Suits dollars front
            → given_by dollars (piece_of front text.now) ≡ seen_in seen given) };
}

impl Given for Token {
    ghost serves = { λ dollars. is_side dollars ≡ false };

    ghost seen = { λ token. Plain token };

    fn of(alloc: Global, front: Front, text: &[u8]) -> Result<Option<Token>, NoMemory> {
        token_of(alloc, front, text)
    }
}

impl Given for Lexeme {
    ghost serves = { λ dollars. is_side dollars ≡ true };

    ghost seen = { λ lexeme. lexeme };

    fn of(alloc: Global, front: Front, text: &[u8]) -> Result<Option<Lexeme>, NoMemory> {
        lexeme_of(alloc, front, text)
    }
}

fn token_of(alloc: Global, front: Front, text: &[u8]) -> Result<Option<Token>, NoMemory>
    requires { size_of front ≤ length text.now }
    ensures { IfOk result (λ given. given ≡ token_at front text.now) }
{
    match front {
        Front::White | Front::Comment(_) => Ok(None),
        Front::Quotation(size) => Ok(Some(Token::Quoted(Word::of(alloc, &text[..size])?))),
        Front::Operator(byte) => Ok(Some(Token::Op(byte))),
        Front::Dollar(construct) => Ok(sign_of(construct)),
        Front::Run(size) => Ok(Some(Token::Word(Word::of(alloc, &text[..size])?))),
    }
}

/// The sign that is typed so. One with a name stands in no address.
fn sign_of(construct: Construct) -> Option<Token>
    ensures { (text : List ℕ) → result ≡ token_at (Meant construct) text }
{
    match construct {
        Construct::Single(byte) => Some(Token::Sign(mark_of(byte))),
        Construct::Letter(_, _) | Construct::Braced(_, _) => None,
    }
}

fn mark_of(byte: u8) -> Mark
    ensures { result ≡ mark_of byte }
{
    match byte {
        b'|' => Mark::Alt,
        b'#' => Mark::Mailer,
        b'@' => Mark::Host,
        b':' => Mark::User,
        _ => Mark::End,
    }
}

fn lexeme_of(alloc: Global, front: Front, text: &[u8]) -> Result<Option<Lexeme>, NoMemory>
    requires { size_of front ≤ length text.now }
    ensures { IfOk result (λ given. given ≡ lexeme_at front text.now) }
{
    match front {
        Front::White | Front::Comment(_) => Ok(None),
        Front::Quotation(size) => {
            let quoted = undoubled(alloc, &text[..size])?;
            Ok(Some(Lexeme::Token(Token::Quoted(quoted))))
        }
        Front::Operator(byte) => Ok(Some(Lexeme::Token(Token::Op(byte)))),
        Front::Dollar(construct) => {
            let lexeme = construct_lexeme(alloc, construct, &text[1..])?;
            Ok(Some(lexeme))
        }
        Front::Run(size) => {
            let word = undoubled(alloc, &text[..size])?;
            Ok(Some(Lexeme::Token(Token::Word(word))))
        }
    }
}

/// The lexeme of a construct in a rule's side. The dollar sign stands before the text.
fn construct_lexeme(alloc: Global, construct: Construct, text: &[u8]) -> Result<Lexeme, NoMemory>
    requires { size_behind construct ≤ length text.now }
    ensures { IfOk result (λ lexeme. lexeme
        ≡ spec.lexeme_of Side (construct_in construct text.now)) }
{
    match construct {
        Construct::Single(b'$') => Ok(Lexeme::Token(Token::Op(b'$'))),
        Construct::Single(byte) => Ok(Lexeme::Dollar(byte)),
        Construct::Letter(byte, letter) => Ok(Lexeme::Named(byte, Text::of(alloc, &[letter])?)),
        Construct::Braced(byte, size) => {
            let name = &text[2..];
            Ok(Lexeme::Named(byte, Text::of(alloc, &name[..size])?))
        }
    }
}

/// The bytes with one dollar sign for two, but for what is behind a backslash.
fn undoubled(alloc: Global, bytes: &[u8]) -> Result<Word, NoMemory>
    ensures { IfOk result (λ word. word ≡ spec.undoubled bytes.now) }
{
    if !holds_dollar(bytes) {
        return Word::of(alloc, bytes);
    }
    let mut text = Text::new(alloc);
    let mut place = 0usize;
    'bytes: while place < bytes.len() {
        let rest = &bytes[place..];
        let (kept, size) = front_size(rest);
        text.extend(&rest[..kept])?;
        place += size;
    }
    Word::shared(alloc, text)
}

fn holds_dollar(bytes: &[u8]) -> bool
    ensures { result ≡ list_any (λ b. b == 36) bytes.now }
{
    bytes.iter().any(|byte| *byte == b'$')
}

/// How many bytes at the front stay, and how many they were.
fn front_size(bytes: &[u8]) -> (usize, usize)
    requires { 0 < length bytes.now }
    ensures some { 0 < result.1 }
    ensures within { result.1 ≤ length bytes.now }
    ensures kept { result.0 ≤ result.1 }
    ensures undoubled { spec.undoubled bytes.now
        ≡ take result.0 bytes.now ++ spec.undoubled (drop result.1 bytes.now) }
{
    if bytes.len() < 2 {
        return (1, 1);
    }
    if bytes[0] == b'\\' {
        return (2, 2);
    }
    if bytes[0] == b'$' && bytes[1] == b'$' {
        return (1, 2);
    }
    (1, 1)
}
