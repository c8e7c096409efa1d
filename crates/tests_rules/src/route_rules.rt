// Rules written as a configuration has them.
use addr_tokens::typed_tokens;
use mail_base::{Go, Item, NoMemory, Pattern, Piece, Rule, Seq, Step, Template, Text, Token};
use std::alloc::Global;
use std::test::Fail;

/// A case, a ruleset, and a rule of it: its left side, what comes behind it, and its right side.
/// Both sides are typed, with `$*`, `$+` and `$-`, `$1` to `$3` and `$&h`.
pub(crate) type Line = (usize, &'static str, &'static str, Go, &'static str);

fn tokens_of(alloc: Global, side: &str) -> Result<Seq<Token>, Fail> {
    let text = Text::of(alloc, side.as_bytes())?;
    let operators = Text::of(alloc, b".:@")?;
    match typed_tokens(alloc, &text, &operators, false) {
        Ok(tokens) => Ok(tokens),
        Err(_fault) => Err(Fail::from("a side that can't be cut")),
    }
}

fn item_of(token: Token) -> Item {
    if let Token::Word(text) = &token {
        match text.bytes() {
            b"$*" => return Item::Any,
            b"$+" => return Item::More,
            b"$-" => return Item::One,
            _ => {}
        }
    }
    Item::Exact(token)
}

fn piece_of(alloc: Global, token: Token) -> Result<Piece, NoMemory> {
    if let Token::Word(text) = &token {
        match text.bytes() {
            b"$1" => return Ok(Piece::Cut(1)),
            b"$2" => return Ok(Piece::Cut(2)),
            b"$3" => return Ok(Piece::Cut(3)),
            b"$&h" => return Ok(Piece::Late(Text::of(alloc, b"h")?)),
            _ => {}
        }
    }
    Ok(Piece::Give(token))
}

fn left_of(alloc: Global, side: &str) -> Result<Pattern, Fail> {
    let mut items = Seq::new(alloc);
    for token in tokens_of(alloc, side)?.into_vec() {
        items.push(item_of(token))?;
    }
    Ok(Pattern::of(items).ok_or("a side with too many items")?)
}

fn right_of(alloc: Global, go: Go, side: &str) -> Result<Template, Fail> {
    let mut steps = Seq::new(alloc);
    for token in tokens_of(alloc, side)?.into_vec() {
        steps.push(Step::Plain(piece_of(alloc, token)?))?;
    }
    Ok(Template { go, steps })
}

/// A rule of these sides.
pub(crate) fn rule_of(alloc: Global, left: &str, go: Go, right: &str) -> Result<Rule, Fail> {
    let left = left_of(alloc, left)?;
    let right = right_of(alloc, go, right)?;
    Ok(Rule { left, right })
}

/// The rules that a ruleset has in a case.
pub(crate) fn rules_of(
    alloc: Global,
    lines: &[Line],
    case: usize,
    name: &str,
) -> Result<Seq<Rule>, Fail> {
    let mut rules = Seq::new(alloc);
    for line in lines {
        if line.0 == case && line.1 == name {
            rules.push(rule_of(alloc, line.2, line.3, line.4)?)?;
        }
    }
    Ok(rules)
}
