ghost use Rattle.std.specs.Prelude.{◌≡◌, ◌==◌, ◌+◌, ◌<◌, ◌≤◌, [], take, drop, length};
ghost use Rattle.std.specs.List.{position};
ghost use Rattle.cf_macros.specs.declared.construct.Kind.TheVariants.{Plain};
ghost use Rattle.cf_macros.specs.Constructs.{is_name, name_at, with_name, piece, reference_at, test_of, doubled, kept, late, dollar_piece, first_piece};
ghost use Rattle.cf_macros.specs.inner.Found.{IsWithin, Shows};

use crate::scope::Scope;
use bstr::ByteSlice;
use mail_base::is_white;

/// What a construct is.
#[derive(Clone, Copy)]
pub(crate) enum Kind {
    /// Bytes that stand for themselves or stay as they are written, and a dollar sign that was
    /// written twice.
    Plain,
    /// `$x` and `${x}`, and outside rules `$&x` and `$&{x}`.
    Reference,
    /// `$?x` and `$?{x}`.
    Test,
    /// `$|`.
    Else,
    /// `$.`.
    End,
    /// Something that nothing closes.
    Unclosed,
}

/// What stands where a name may stand.
#[derive(Clone, Copy)]
pub(crate) enum Naming {
    /// A name of one byte.
    Letter,
    /// A name of so many bytes in braces.
    Word(usize),
    /// A brace that nothing closes.
    Open,
    Nameless,
}

/// A construct at the front of a text.
#[derive(Clone, Copy)]
pub(crate) struct Construct<'a> {
    pub(crate) kind: Kind,
    /// The name, or the bytes that the construct stands for.
    pub(crate) text: &'a [u8],
    /// How many bytes of the text it takes; where something is unclosed, the bytes
    /// up to its own sign.
    pub(crate) width: usize,
}

fn is_name(byte: u8) -> bool
    ensures { result ≡ is_name byte }
{
    !is_white(byte) && !b"0123456789*+-@:#>[]()=~$&?|.{".contains(&byte)
}

fn word_length(text: &[u8]) -> Option<usize>
    ensures { result ≡ position (λ other. other == 125) text.now }
{
    text.find_byte(b'}')
}

fn name_at(text: &[u8]) -> Naming
    ensures value { result ≡ name_at text.now }
    ensures within { IsWithin result (length text.now) }
{
    let Some((first, rest)) = text.split_first() else {
        return Naming::Nameless;
    };
    if *first == b'{' {
        return match word_length(rest) {
            None => Naming::Open,
            Some(length) => Naming::Word(length),
        };
    }
    if is_name(*first) {
        return Naming::Letter;
    }
    Naming::Nameless
}

fn part(text: &[u8], from: usize, count: usize) -> &[u8]
    requires { from + count ≤ length text.now }
    ensures { result.now ≡ take count (drop from text.now) }
{
    &text[from..][..count]
}

// A construct with a name at this offset; its width where the name's brace is unclosed.
fn with_name(kind: Kind, text: &[u8], offset: usize, unclosed: usize) -> Construct<'_>
    requires behind { 1 ≤ offset }
    requires within { offset ≤ length text.now }
    requires two { 2 ≤ length text.now }
    requires some { 1 ≤ unclosed }
    requires few { unclosed ≤ offset + 1 }
    ensures { Shows result
        (with_name kind offset unclosed text.now (name_at (drop offset text.now)))
        (length text.now) }
{
    match name_at(&text[offset..]) {
        Naming::Letter => Construct {
            kind,
            text: part(text, offset, 1),
            width: offset + 1,
        },
        Naming::Word(count) => Construct {
            kind,
            text: part(text, offset + 1, count),
            width: offset + count + 2,
        },
        Naming::Open => Construct {
            kind: Kind::Unclosed,
            text: &[],
            width: unclosed,
        },
        Naming::Nameless => plain(text, 2, 2),
    }
}

fn reference_at(text: &[u8], offset: usize) -> Construct<'_>
    requires behind { 1 ≤ offset }
    requires within { offset ≤ length text.now }
    requires two { 2 ≤ length text.now }
    ensures { Shows result (reference_at offset text.now (name_at (drop offset text.now)))
        (length text.now) }
{
    with_name(Kind::Reference, text, offset, offset + 1)
}

fn test_of(text: &[u8]) -> Construct<'_>
    requires { 2 ≤ length text.now }
    ensures { Shows result (test_of text.now (name_at (drop 2 text.now))) (length text.now) }
{
    with_name(Kind::Test, text, 2, 1)
}

fn plain(text: &[u8], count: usize, width: usize) -> Construct<'_>
    requires moves { 1 ≤ width }
    requires shown { count ≤ width }
    requires within { width ≤ length text.now }
    ensures { Shows result (piece Plain (take count text.now) width) (length text.now) }
{
    Construct {
        kind: Kind::Plain,
        text: part(text, 0, count),
        width,
    }
}

fn sign(kind: Kind) -> Construct<'static>
    ensures { Shows result (piece kind [] 2) 2 }
{
    Construct {
        kind,
        text: &[],
        width: 2,
    }
}

fn doubled(scope: Scope, text: &[u8]) -> Construct<'_>
    requires { 2 ≤ length text.now }
    ensures { Shows result (doubled scope text.now) (length text.now) }
{
    match scope {
        Scope::Outside => plain(text, 1, 2),
        Scope::Rule => plain(text, 2, 2),
    }
}

fn kept(text: &[u8]) -> Construct<'_>
    requires { 2 ≤ length text.now }
    ensures { Shows result (kept text.now (name_at (drop 2 text.now))) (length text.now) }
{
    match name_at(&text[2..]) {
        Naming::Letter => plain(text, 3, 3),
        Naming::Word(count) => plain(text, count + 4, count + 4),
        Naming::Open => Construct {
            kind: Kind::Unclosed,
            text: &[],
            width: 3,
        },
        Naming::Nameless => plain(text, 2, 2),
    }
}

fn late(scope: Scope, text: &[u8]) -> Construct<'_>
    requires { 2 ≤ length text.now }
    ensures { Shows result (late scope text.now (name_at (drop 2 text.now))) (length text.now) }
{
    match scope {
        Scope::Outside => reference_at(text, 2),
        Scope::Rule => kept(text),
    }
}

fn dollar_piece(scope: Scope, text: &[u8], next: u8) -> Construct<'_>
    requires { 2 ≤ length text.now }
    ensures { Shows result (dollar_piece scope text.now next) (length text.now) }
{
    match next {
        b'$' => doubled(scope, text),
        b'|' => sign(Kind::Else),
        b'.' => sign(Kind::End),
        b'?' => test_of(text),
        b'&' => late(scope, text),
        _ => reference_at(text, 1),
    }
}

/// The construct at the front of a text.
pub(crate) fn first_piece(scope: Scope, text: &[u8]) -> Construct<'_>
    requires { 0 < length text.now }
    ensures { Shows result (first_piece scope text.now) (length text.now) }
{
    if text.len() == 1 {
        return plain(text, 1, 1);
    }
    if text[0] != b'$' {
        return plain(text, 1, 1);
    }
    dollar_piece(scope, text, text[1])
}
