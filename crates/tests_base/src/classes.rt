use mail_base::{
    Classes, Member, NoMemory, Options, Seq, Text, Token, Word, is_blank, is_white, words_of,
};
use std::alloc::Global;
use std::test::Fail;

/// Lists of words that one class is given one after the other, and its members after them.
static LISTS: [(&[&[&[u8]]], &[&[u8]]); 7] = [
    (&[], &[]),
    (&[&[b"x", b"Y"], &[b"z"]], &[b"x", b"Y", b"z"]),
    (
        &[&[b"a", b"b", b"a"], &[b"b", b"c", b"a"]],
        &[b"a", b"b", b"c"],
    ),
    (&[&[b"mx", b"MX"]], &[b"mx", b"MX"]),
    (&[&[], &[b"a"]], &[b"a"]),
    (&[&[b"a", b"a", b"a", b"a"]], &[b"a"]),
    (&[&[b"x("], &[b"Y("]], &[b"x(", b"Y("]),
];

/// The tokens of a text, which stand there between blanks.
fn tokens(alloc: Global, text: &[u8]) -> Result<Seq<Token>, NoMemory> {
    let mut tokens = Seq::new(alloc);
    let words = words_of(alloc, text)?;
    for word in words.items() {
        push_token(alloc, word.bytes(), &mut tokens)?;
    }
    Ok(tokens)
}

fn push_token(alloc: Global, word: &[u8], tokens: &mut Seq<Token>) -> Result<(), NoMemory> {
    match word {
        [b'.'] => tokens.push(Token::Op(b'.')),
        [b'"', ..] => tokens.push(Token::Quoted(Word::of(alloc, word)?)),
        _ => tokens.push(Token::Word(Word::of(alloc, word)?)),
    }
}

/// A member with its tokens, or one which can't be cut where it has a `(`.
fn member(alloc: Global, text: &[u8]) -> Result<Member, NoMemory> {
    if text.contains(&b'(') {
        let text = Text::of(alloc, text)?;
        return Ok(Member { text, tokens: None });
    }
    Ok(Member {
        text: Text::of(alloc, text)?,
        tokens: Some(tokens(alloc, text)?),
    })
}

pub(crate) fn members(alloc: Global, texts: &[&[u8]]) -> Result<Seq<Member>, NoMemory> {
    let mut members = Seq::new(alloc);
    for text in texts {
        members.push(member(alloc, text)?)?;
    }
    Ok(members)
}

fn class(alloc: Global, name: &Text, lists: &[&[&[u8]]]) -> Result<Classes, NoMemory> {
    let mut classes = Classes::new(alloc);
    for list in lists {
        classes.extend(name, members(alloc, list)?)?;
    }
    Ok(classes)
}

fn are_named(members: &[Member], names: &[&[u8]]) -> bool {
    for (member, name) in members.iter().zip(names) {
        if member.text.bytes() != *name {
            return false;
        }
    }
    members.len() == names.len()
}

/// Whether the class that is given these lists has these members, and another has none.
fn gains(alloc: Global, lists: &[&[&[u8]]], names: &[&[u8]]) -> Result<bool, NoMemory> {
    let name = Text::of(alloc, b"a")?;
    let other = Text::of(alloc, b"A")?;
    let classes = class(alloc, &name, lists)?;
    Ok(are_named(classes.members(&name), names) && classes.members(&other).is_empty())
}

/// Phrases, and whether the class of the test has them.
static PHRASES: [(&[u8], bool); 7] = [
    (b"mx . example", true),
    (b"MX . Example", true),
    (b"mx", false),
    (b"local", true),
    (b"LOCAL", true),
    (b"mx . example . com", false),
    (b"other", false),
];

/// Whether the class has a phrase, and another hasn't; and how long their phrases are.
fn has(alloc: Global, phrase: &[u8], has: bool) -> Result<bool, NoMemory> {
    let name = Text::of(alloc, b"w")?;
    let other = Text::of(alloc, b"W")?;
    let tokens = tokens(alloc, phrase)?;
    let classes = class(alloc, &name, &[&[b"mx . Example", b"(cut"], &[b"local"]])?;
    Ok(
        classes.has_phrase(&name, tokens.items()) == has
            && !classes.has_phrase(&other, tokens.items())
            && classes.longest_phrase(&name) == 3
            && classes.longest_phrase(&other) == 0,
    )
}

#[test]
fn a_member_stands_once_and_phrases_are_found_without_case(rt: HostRuntime) {
    for (at, (lists, names)) in LISTS.iter().enumerate() {
        assert!(rt; gains(rt.alloc(), lists, names) == Ok(true), "row {at}");
    }
    for (at, (phrase, wanted)) in PHRASES.iter().enumerate() {
        assert!(rt; has(rt.alloc(), phrase, *wanted) == Ok(true), "phrase {at}");
    }
}

/// Texts in order of their bytes.
static TEXTS: [&[u8]; 6] = [b"", b"Y", b"a", b"a ", b"ab", b"b"];

fn is_less(alloc: Global, one: &[u8], other: &[u8]) -> Result<bool, NoMemory> {
    let one = Text::of(alloc, one)?;
    let other = Text::of(alloc, other)?;
    Ok(one < other)
}

#[test]
fn texts_are_ordered_by_bytes(rt: HostRuntime) {
    for (place, one) in TEXTS.iter().enumerate() {
        for (other_place, other) in TEXTS.iter().enumerate() {
            let is_less = is_less(rt.alloc(), one, other);
            assert!(rt;
                is_less == Ok(place < other_place),
                "{place} and {other_place}"
            );
        }
    }
}

/// `MaxMessageSize` and `MaxRecipientsPerMessage`, and the limits under them.
static OPTIONS: [(u64, u64, u64, u64); 4] = [
    (0, 0, 16_777_216, 10_000),
    (1_000, 5, 1_000, 5),
    (16_777_216, 10_000, 16_777_216, 10_000),
    (999_999_999, 20_000, 16_777_216, 20_000),
];

fn has_limits(options: &mut Options, row: &(u64, u64, u64, u64)) -> bool {
    options.max_message_size = row.0;
    options.max_recipients_per_message = row.1;
    options.message_limit() == row.2 && options.recipient_limit() == row.3
}

/// Bytes, whether they are white, and whether they are blanks.
static BYTES: [(u8, bool, bool); 7] = [
    (b' ', true, true),
    (b'\t', true, true),
    (b'\n', true, false),
    (0, true, false),
    (127, true, false),
    (b'!', false, false),
    (128, false, false),
];

#[test]
fn options_set_limits_and_bytes_are_white_or_blank(rt: HostRuntime) -> Result<(), Fail> {
    let mut options = Options::new(rt.alloc())?;
    for (at, row) in OPTIONS.iter().enumerate() {
        assert!(rt; has_limits(&mut options, row), "row {at}");
    }
    for (byte, white, blank) in &BYTES {
        assert!(rt;
            is_white(*byte) == *white && is_blank(*byte) == *blank,
            "byte {byte}"
        );
    }
    Ok(())
}
