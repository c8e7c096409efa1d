ghost use Rattle.std.specs.Prelude.{◌≡◌, ◌≤◌, length, take, drop};
ghost use Rattle.rule_match.specs.Kept.{is_binding};
ghost use Rattle.mail_base.specs.Tokens.{same_token};
ghost use Rattle.rule_match.specs.inner.Steps.{is_free, width_of};
ghost use Rattle.rule_match.specs.Wants.{want, meets, first_list, lists_after};

use mail_base::{Classes, Item, Seq, Token};

/// Whether these tokens are a match of the item; a `$&x` has the first of the lists.
pub fn is_met(classes: &Classes, late: &[Seq<Token>], item: &Item, piece: &[Token]) -> bool
    ensures { result ≡ meets (want classes.now late.now item.now) piece.now }
{
    match item {
        Item::Any => true,
        Item::More => !piece.is_empty(),
        Item::One => piece.len() == 1,
        Item::Empty => piece.is_empty(),
        Item::InClass(name) => !piece.is_empty() && classes.has_phrase(name, piece),
        Item::NotInClass(name) => piece.len() == 1 && !classes.has_phrase(name, piece),
        Item::Exact(token) => match piece {
            [only] => is_same(token, only),
            _ => false,
        },
        Item::Late(_) => first_list(late) == piece,
    }
}

/// Whether two tokens are the same. Operators are compared in place.
pub(crate) fn is_same(one: &Token, other: &Token) -> bool
    ensures { result ≡ same_token one.now other.now }
{
    match (one, other) {
        (Token::Op(mine), Token::Op(another)) => mine.eq_ignore_ascii_case(another),
        (Token::Op(_), _) => false,
        (_, Token::Op(_)) => false,
        _ => one == other,
    }
}

/// The first of the lists, or no tokens where there is none.
fn first_list(late: &[Seq<Token>]) -> &[Token]
    ensures { result.now ≡ first_list late.now }
{
    match late.split_first() {
        Some((first, _others)) => first.items(),
        None => &[],
    }
}

/// The lists that are left for the items after this one: a `$&x` has the first.
pub fn lists_after<'a>(item: &Item, late: &'a [Seq<Token>]) -> &'a [Seq<Token>]
    ensures { result.now ≡ lists_after item.now late.now }
{
    if !matches!(item, Item::Late(_)) {
        return late;
    }
    match late.split_first() {
        Some((_first, others)) => others,
        None => late,
    }
}

/// Whether the item has matches of several lengths.
pub fn is_free(item: &Item) -> bool
    ensures { result ≡ is_free item.now }
{
    matches!(item, Item::Any | Item::More | Item::InClass(_))
}

/// Whether `$1` to `$9` count the item.
pub fn is_binding(item: &Item) -> bool
    ensures { result ≡ is_binding item.now }
{
    matches!(
        item,
        Item::Any | Item::More | Item::One | Item::InClass(_) | Item::NotInClass(_)
    )
}

/// How many tokens each match of the item has, if that is one number.
pub fn width(late: &[Seq<Token>], item: &Item) -> usize
    ensures { result ≡ width_of late.now item.now }
{
    match item {
        Item::One | Item::NotInClass(_) | Item::Exact(_) => 1,
        Item::Late(_) => first_list(late).len(),
        _ => 0,
    }
}

/// The tokens before a place and those from it on.
pub fn parted(tokens: &[Token], place: usize) -> (&[Token], &[Token])
    requires { place ≤ length tokens.now }
    ensures front { result.0.now ≡ take place tokens.now }
    ensures back { result.1.now ≡ drop place tokens.now }
{
    tokens.split_at(place)
}
