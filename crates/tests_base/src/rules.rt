use mail_base::{Item, Mark, NoMemory, Pattern, Seq, Text, Token, TryCopy, Word};
use std::alloc::Global;

/// An item of a left side, by the letter that writes it here.
fn item(alloc: Global, letter: u8) -> Result<Item, NoMemory> {
    match letter {
        b'*' => Ok(Item::Any),
        b'+' => Ok(Item::More),
        b'-' => Ok(Item::One),
        b'0' => Ok(Item::Empty),
        b'=' => Ok(Item::InClass(Text::of(alloc, b"w")?)),
        b'~' => Ok(Item::NotInClass(Text::of(alloc, b"w")?)),
        b'&' => Ok(Item::Late(Text::of(alloc, b"w")?)),
        b'#' => Ok(Item::Exact(Token::Sign(Mark::Mailer))),
        b'w' => Ok(Item::Exact(Token::Word(Word::of(alloc, b"ann")?))),
        _ => Ok(Item::Exact(Token::Op(letter))),
    }
}

fn letter(item: &Item) -> u8 {
    match item {
        Item::Any => b'*',
        Item::More => b'+',
        Item::One => b'-',
        Item::Empty => b'0',
        Item::InClass(_) => b'=',
        Item::NotInClass(_) => b'~',
        Item::Late(_) => b'&',
        Item::Exact(Token::Sign(_)) => b'#',
        Item::Exact(Token::Op(byte)) => *byte,
        Item::Exact(_) => b'w',
    }
}

/// Left sides, and whether few enough of their items are written with `$`, as all are but a word
/// and an operator.
static SIDES: [(&[u8], bool); 8] = [
    (b"", true),
    (b"*+-0=~&#@w", true),
    (b"********************@", true),
    (b"********************@-", false),
    (b"@@@@@@@@@@@@@@@@@@@@@wwwww", true),
    (b"#*+-0=~&#*+-0=~&#*+-@", true),
    (b"#*+-0=~&#*+-0=~&#*+-#", false),
    (b"*********************", false),
];

pub(crate) fn items(alloc: Global, side: &[u8]) -> Result<Seq<Item>, NoMemory> {
    let mut items = Seq::new(alloc);
    for letter in side {
        items.push(item(alloc, *letter)?)?;
    }
    Ok(items)
}

fn is_item(item: &Item, sign: u8) -> bool {
    letter(item) == sign && item.is_meta() == !matches!(sign, b'@' | b'w')
}

fn are_items(items: &[Item], side: &[u8]) -> bool {
    for (item, sign) in items.iter().zip(side) {
        if !is_item(item, *sign) {
            return false;
        }
    }
    items.len() == side.len()
}

fn is_few(alloc: Global, side: &[u8]) -> Result<bool, NoMemory> {
    match Pattern::of(items(alloc, side)?).copy()? {
        Some(pattern) => Ok(are_items(pattern.items(), side)),
        None => Ok(false),
    }
}

#[test]
fn patterns_have_at_most_twenty_metas(rt: HostRuntime) {
    for (at, (side, few)) in SIDES.iter().enumerate() {
        assert!(rt; is_few(rt.alloc(), side) == Ok(*few), "row {at}");
    }
}
