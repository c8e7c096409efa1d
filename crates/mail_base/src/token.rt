ghost use Rattle.std.specs.Prelude.{◌≡◌, ◌<◌, ◌↔◌, ◌∷◌, IsTrue, IfOk, fold};
ghost use Rattle.std.specs.Cmp.{partial_equiv_from_equiv};
ghost use Rattle.std.specs.Hash as fed;
ghost use Rattle.std.specs.List.{flat_map};
ghost use Rattle.std.specs.Str.{str_to_ascii_lowercase};
ghost use Rattle.mail_base.specs.Masks.{place_of};
ghost use Rattle.mail_base.specs.Tokens.{mark_number, same_token, same_mark};
ghost use Rattle.mail_base.specs.inner.TokenLaws.{same_equiv, fed_token, fed_alike};

use crate::mask::text_place;
use crate::{NoMemory, TryCopy, Word};
use std::hash::{Hash, Hasher};

/// A sign that a rule's right side may give: `$|`, `$#`, `$@`, `$:` and `$.`.
#[derive(Clone, Copy, Debug, PartialEq, Eq)]
pub enum Mark {
    /// `$|`, between an argument and what was asked of it.
    Alt,
    /// `$#`, before a mailer's name.
    Mailer,
    /// `$@`, before a host.
    Host,
    /// `$:`, before a user.
    User,
    /// `$.`, the end of a conditional.
    End,
}

/// A token of an address. Two tokens are equal where they are of one kind and their texts are
/// equal without ASCII case, as rules compare them.
#[derive(Debug, Drop)]
pub enum Token {
    /// The longest run of bytes that are neither operators nor white space.
    Word(Word),
    /// A quoted string with its quotes.
    Quoted(Word),
    /// An operator, as `@`.
    Op(u8),
    Sign(Mark),
}

impl Token {
    /// The token's place in a mask of tokens, without ASCII case.
    pub(crate) fn place(&self) -> u32
        ensures value { result ≡ place_of self.now }
        ensures within { result < 64 }
    {
        match self {
            Token::Word(word) | Token::Quoted(word) => word.place(),
            Token::Op(byte) => text_place(&[*byte]),
            Token::Sign(mark) => 24 + u32::from(number_of(*mark)),
        }
    }
}

impl TryCopy for Token {
    fn copy(&self) -> Result<Token, NoMemory> {
        match self {
            Token::Word(text) => Ok(Token::Word(text.copy()?)),
            Token::Quoted(text) => Ok(Token::Quoted(text.copy()?)),
            Token::Op(byte) => Ok(Token::Op(*byte)),
            Token::Sign(mark) => Ok(Token::Sign(*mark)),
        }
    }
}

impl PartialEq for Token {
    ghost eq = { same_token };

    ghost laws = { partial_equiv_from_equiv same_equiv };

    fn eq(&self, other: &Token) -> bool {
        match (self, other) {
            (Token::Word(one), Token::Word(another)) => one.is_folded(another),
            (Token::Quoted(one), Token::Quoted(another)) => one.is_folded(another),
            (Token::Op(one), Token::Op(another)) => one.eq_ignore_ascii_case(another),
            (Token::Sign(one), Token::Sign(another)) => one == another,
            _ => false,
        }
    }
}

impl Eq for Token {
    ghost laws = { same_equiv };
}

impl Hash for Token {
    ghost hash_input = { fed_token };

    ghost respects_eq = { fed_alike };

    fn hash<H: Hasher>(&self, state: &mut H) {
        match self {
            Token::Word(text) => hash_folded(0, text.bytes(), state),
            Token::Quoted(text) => hash_folded(1, text.bytes(), state),
            Token::Op(byte) => hash_folded(2, &[*byte], state),
            Token::Sign(mark) => hash_folded(3, &[number_of(*mark)], state),
        }
    }
}

// Feeds a kind, and bytes in small letters.
fn hash_folded<H: Hasher>(kind: u8, bytes: &[u8], state: &mut H)
    ensures { state.new
        ≡ fold H.write state.old (flat_map fed.u8 (kind ∷ str_to_ascii_lowercase bytes.now)) }
{
    state.write_u8(kind);
    for byte in bytes {
        state.write_u8(byte.to_ascii_lowercase());
    }
}

fn number_of(mark: Mark) -> u8
    ensures value { result ≡ mark_number mark }
    ensures few { result < 5 }
{
    match mark {
        Mark::Alt => 0,
        Mark::Mailer => 1,
        Mark::Host => 2,
        Mark::User => 3,
        Mark::End => 4,
    }
}
