// Tokens, left sides and right sides, written one byte each.
use mail_base::{
    Item, Lookup, Mark, NoMemory, Pattern, Piece, Query, Seq, Step, Text, Token, Word,
};
use std::alloc::Global;
use std::test::Fail;

// A token is written as one byte: `.`, `:` and `@` are operators, `#` is `$#`, `"` is a Quoted
// token that is `q`, and `'` one that is `"q"`.
fn token_of(alloc: Global, sign: u8) -> Result<Token, NoMemory> {
    match sign {
        b'.' | b':' | b'@' => Ok(Token::Op(sign)),
        b'#' => Ok(Token::Sign(Mark::Mailer)),
        b'"' => Ok(Token::Quoted(Word::of(alloc, b"q")?)),
        b'\'' => Ok(Token::Quoted(Word::of(alloc, b"\"q\"")?)),
        _ => Ok(Token::Word(Word::of(alloc, &[sign])?)),
    }
}

pub fn tokens_of(alloc: Global, signs: &str) -> Result<Seq<Token>, NoMemory> {
    let mut tokens = Seq::new(alloc);
    for sign in signs.as_bytes() {
        tokens.push(token_of(alloc, *sign)?)?;
    }
    Ok(tokens)
}

/// So many tokens of one sign.
pub fn repeated(alloc: Global, sign: u8, count: usize) -> Result<Seq<Token>, NoMemory> {
    let mut tokens = Seq::new(alloc);
    for _ in 0..count {
        tokens.push(token_of(alloc, sign)?)?;
    }
    Ok(tokens)
}

// Whether a token is the one that is written so. Tokens are equal without case: here their texts
// are to be the same.
fn is_written(token: &Token, sign: u8) -> bool {
    match token {
        Token::Op(byte) => *byte == sign && matches!(sign, b'.' | b':' | b'@'),
        Token::Sign(mark) => sign == b'#' && matches!(mark, Mark::Mailer),
        Token::Quoted(text) => sign == b'"' && text.bytes() == b"q".as_slice(),
        Token::Word(text) => {
            text.bytes() == [sign].as_slice() && !matches!(sign, b'.' | b':' | b'@' | b'#' | b'"')
        }
    }
}

pub fn are_signs(tokens: &[Token], signs: &str) -> bool {
    for (token, sign) in tokens.iter().zip(signs.as_bytes()) {
        if !is_written(token, *sign) {
            return false;
        }
    }
    tokens.len() == signs.len()
}

pub fn are_all(tokens: &[Token], sign: u8, count: usize) -> bool {
    for token in tokens {
        if !is_written(token, sign) {
            return false;
        }
    }
    tokens.len() == count
}

// An item is written as a token, or as `*`, `+` or `-` for the one with `$` in front; `&` is a
// `$&x`.
fn item_of(alloc: Global, sign: u8) -> Result<Item, NoMemory> {
    match sign {
        b'*' => Ok(Item::Any),
        b'+' => Ok(Item::More),
        b'-' => Ok(Item::One),
        b'&' => Ok(Item::Late(Text::of(alloc, b"x")?)),
        _ => Ok(Item::Exact(token_of(alloc, sign)?)),
    }
}

fn add_items(items: &mut Seq<Item>, signs: &str) -> Result<(), NoMemory> {
    for sign in signs.as_bytes() {
        items.push(item_of(items.allocator(), *sign)?)?;
    }
    Ok(())
}

pub fn pattern_of(alloc: Global, signs: &str) -> Result<Pattern, Fail> {
    let mut items = Seq::new(alloc);
    add_items(&mut items, signs)?;
    Ok(Pattern::of(items).ok_or("a side with too many items")?)
}

// A piece is written as a token, or as the digit of a `$1` to `$3`.
fn piece_of(alloc: Global, sign: u8) -> Result<Piece, NoMemory> {
    match sign {
        b'1' => Ok(Piece::Cut(1)),
        b'2' => Ok(Piece::Cut(2)),
        b'3' => Ok(Piece::Cut(3)),
        _ => Ok(Piece::Give(token_of(alloc, sign)?)),
    }
}

fn pieces_of(alloc: Global, signs: &[u8]) -> Result<Seq<Piece>, NoMemory> {
    let mut pieces = Seq::new(alloc);
    for sign in signs {
        pieces.push(piece_of(alloc, *sign)?)?;
    }
    Ok(pieces)
}

// A step is written as a piece, or as `>` for a call.
fn step_of(alloc: Global, sign: u8) -> Result<Step, NoMemory> {
    match sign {
        b'>' => Ok(Step::Call),
        _ => Ok(Step::Plain(piece_of(alloc, sign)?)),
    }
}

// A part of a look-up has a mark in front: `-` an argument, `|` the default, and any other the key,
// of whose map it is the name.
fn add_part(query: &mut Query, signs: &[u8]) -> Result<(), NoMemory> {
    let alloc = query.args.allocator();
    let Some((mark, rest)) = signs.split_first() else {
        return Ok(());
    };
    let pieces = pieces_of(alloc, rest)?;
    match *mark {
        b'-' => query.args.push(pieces),
        b'|' => {
            query.fallback = Some(pieces);
            Ok(())
        }
        name => {
            query.name = Text::of(alloc, &[name])?;
            query.key = pieces;
            Ok(())
        }
    }
}

fn lookup_of(alloc: Global, signs: &[u8]) -> Result<Step, NoMemory> {
    let mut query = Query {
        name: Text::new(alloc),
        key: Seq::new(alloc),
        args: Seq::new(alloc),
        fallback: None,
    };
    for part in signs.split(|sign| *sign == b';') {
        add_part(&mut query, part)?;
    }
    Ok(Step::Lookup(Lookup::of(alloc, query)?))
}

/// Adds the steps that are written so: a look-up stands in braces, and its parts are divided by
/// `;`.
pub fn add_right(steps: &mut Seq<Step>, signs: &str) -> Result<(), NoMemory> {
    let texts = signs
        .as_bytes()
        .split(|sign| *sign == b'{' || *sign == b'}');
    for (at, text) in texts.enumerate() {
        if at % 2 == 1 {
            steps.push(lookup_of(steps.allocator(), text)?)?;
        } else {
            add_steps(steps, text)?;
        }
    }
    Ok(())
}

fn add_steps(steps: &mut Seq<Step>, signs: &[u8]) -> Result<(), NoMemory> {
    for sign in signs {
        steps.push(step_of(steps.allocator(), *sign)?)?;
    }
    Ok(())
}
