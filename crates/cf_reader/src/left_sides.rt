ghost use Rattle.std.specs.Prelude.{◌≡◌, Some};
ghost use Rattle.std.specs.List.{count_by};
ghost use Rattle.cf_reader.specs.Sides as spec;
ghost use Rattle.cf_reader.specs.inner.Making.{Makes};

use crate::fault::{Fault, LineStop};
use crate::signs::mark_of;
use addr_tokens::Lexeme;
use mail_base::{Item, Seq, Text, Token, TryCopy};
use std::alloc::Global;

/// The items of a left side.
pub(crate) fn items_of(alloc: Global, lexemes: &[Lexeme]) -> Result<Seq<Item>, LineStop>
    ensures { Makes result (spec.items_of lexemes.now) }
{
    let mut items = Seq::new(alloc);
    for lexeme in lexemes {
        items.push(item_of(lexeme)?)?;
    }
    items.shrink();
    Ok(items)
}

fn item_of(lexeme: &Lexeme) -> Result<Item, LineStop>
    ensures { Makes result (spec.item_of lexeme.now) }
{
    match lexeme {
        Lexeme::Token(token) => Ok(Item::Exact(token.copy()?)),
        Lexeme::Dollar(byte) => sign_item(*byte),
        Lexeme::Named(byte, name) => Ok(named_item(*byte, name.copy()?)),
    }
}

fn sign_item(byte: u8) -> Result<Item, LineStop>
    ensures { Makes result (spec.sign_item byte) }
{
    match byte {
        b'*' => Ok(Item::Any),
        b'+' => Ok(Item::More),
        b'-' => Ok(Item::One),
        b'@' => Ok(Item::Empty),
        _ => match mark_of(byte) {
            Some(mark) => Ok(Item::Exact(Token::Sign(mark))),
            None => Err(LineStop::Refused(Fault::BadPattern)),
        },
    }
}

fn named_item(byte: u8, name: Text) -> Item
    ensures { result ≡ spec.named_item byte name }
{
    match byte {
        b'=' => Item::InClass(name),
        b'~' => Item::NotInClass(name),
        _ => Item::Late(name),
    }
}

/// How many of the items of a left side `$1` to `$9` count.
pub(crate) fn binding_count(lexemes: &[Lexeme]) -> usize
    ensures { result ≡ count_by spec.is_binding lexemes.now }
{
    lexemes.iter().filter(|lexeme| is_binding(lexeme)).count()
}

fn is_binding(lexeme: &Lexeme) -> bool
    ensures { result ≡ spec.is_binding lexeme.now }
{
    match lexeme {
        Lexeme::Token(_) => false,
        Lexeme::Dollar(byte) => *byte == b'*' || *byte == b'+' || *byte == b'-',
        Lexeme::Named(byte, _) => *byte == b'=' || *byte == b'~',
    }
}
