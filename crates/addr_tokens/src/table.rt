ghost use Rattle.std.specs.Prelude.{◌≡◌, ◌≤◌, ◌<◌, ◌==◌, ◌&&◌, ◌||◌, ◌⊎◌, ℕ, true, false, length, slice_index, slice_index_or};
ghost use Rattle.std.specs.List.{list_any};
ghost use Rattle.addr_tokens.specs.Pieces as spec;
ghost use Rattle.addr_tokens.specs.Pieces.{Alphabet, alphabet_of};
ghost use Rattle.addr_tokens.specs.Reader as reader;
ghost use Rattle.addr_tokens.specs.inner.Tables.{IsTable, AreLone, AreAsked};
ghost use Rattle.addr_tokens.specs.inner.Tables as tables;

use crate::lexeme::Dollars;
use mail_base::is_white;

/// These are operators always, beside the parentheses, which make comments.
const FIXED_OPERATORS: &[u8] = b"<>,;";

/// These have a meaning of their own, and so have operators and white space up to the space.
const ASKED: &[u8] = b"\"\\()$\x7f";

/// Which bytes are operators, which stand in words whatever is behind them, and what a dollar sign
/// means.
#[derive(Drop)]
pub(crate) struct Table {
    listed: [bool; 256],
    /// Where it is false the byte stands in a word whatever is behind it. Of the bytes where it is
    /// true all but a backslash and a dollar sign end a word.
    asked: [bool; 256],
    dollars: Dollars,
    ghost lone: { AreLone listed asked },
    ghost ends: { AreAsked listed asked },
}

impl Table {
    pub(crate) fn of(operators: &[u8], dollars: Dollars) -> Table
        ensures { IsTable (alphabet_of operators.now dollars) result.listed result.dollars }
    {
        let mut listed = [false; 256];
        list(&mut listed, operators);
        list(&mut listed, FIXED_OPERATORS);
        let asked = asked_bytes(listed);
        Table {
            listed,
            asked,
            dollars,
        }
    }

    /// Whether a byte is an operator, where it isn't white space and neither quotes nor comments.
    pub(crate) fn is_listed(&self, byte: u8) -> bool
        ensures { (alphabet : Alphabet) → IsTable alphabet self.now.listed self.now.dollars
            → result ≡ spec.is_listed alphabet byte }
    {
        self.listed[usize::from(byte)]
    }

    /// Whether a byte stands in a word by itself, before what is behind it.
    pub(crate) fn is_word_byte(&self, byte: u8, after: &[u8]) -> bool
        ensures { (alphabet : Alphabet) → IsTable alphabet self.now.listed self.now.dollars
            → result ≡ spec.is_word_byte alphabet byte after.now }
    {
        !is_white(byte)
            && !is_special(byte)
            && !self.is_listed(byte)
            && !(byte == b'$' && self.means(after))
    }

    /// Whether a byte stands in a word whatever is behind it.
    pub(crate) fn is_lone(&self, byte: u8) -> bool
        ensures lone { (alphabet : Alphabet) → IsTable alphabet self.now.listed self.now.dollars
            → result ≡ true → tables.is_lone (spec.is_listed alphabet byte) byte ≡ true }
        ensures asked { (alphabet : Alphabet) → IsTable alphabet self.now.listed self.now.dollars
            → result ≡ false → tables.is_asked (spec.is_listed alphabet byte) byte ≡ true }
    {
        !self.asked[usize::from(byte)]
    }

    /// Whether a byte takes the next one into its word.
    pub(crate) fn takes_next(&self, byte: u8, after: &[u8]) -> bool
        ensures value { (alphabet : Alphabet) → IsTable alphabet self.now.listed self.now.dollars
            → result ≡ reader.takes_next alphabet byte after.now }
        ensures some { result ≡ true → (byte ≡ 92) ⊎ (0 < length after.now) }
    {
        byte == b'\\' || (byte == b'$' && self.is_doubled(after))
    }

    /// Whether the dollar sign before a text and the one that begins it stand for one in a word.
    pub(crate) fn is_doubled(&self, after: &[u8]) -> bool
        ensures value { (alphabet : Alphabet) → IsTable alphabet self.now.listed self.now.dollars
            → result ≡ (reader.begins_dollar after.now && spec.is_doubled alphabet) }
        ensures some { result ≡ true → 0 < length after.now }
    {
        byte_at_front(after) == b'$' && self.is_side() && !self.is_listed(b'$')
    }

    /// Whether the dollar sign before a text begins a construct or is refused.
    pub(crate) fn means(&self, after: &[u8]) -> bool
        ensures { result ≡ spec.means self.now.dollars after.now }
    {
        match self.dollars {
            Dollars::Bytes => false,
            Dollars::Typed => is_mark(byte_at_front(after)),
            Dollars::Side => true,
        }
    }

    /// Whether a dollar sign with this byte is a construct by itself.
    pub(crate) fn is_single(&self, byte: u8) -> bool
        ensures { (alphabet : Alphabet) → IsTable alphabet self.now.listed self.now.dollars
            → result ≡ spec.is_construct alphabet (spec.Single byte) }
    {
        match self.dollars {
            Dollars::Bytes => false,
            Dollars::Typed => is_mark(byte),
            Dollars::Side => is_bare(byte) || (byte == b'$' && self.is_listed(b'$')),
        }
    }

    fn is_side(&self) -> bool
        ensures { result ≡ spec.is_side self.now.dollars }
    {
        match self.dollars {
            Dollars::Bytes | Dollars::Typed => false,
            Dollars::Side => true,
        }
    }
}

fn list(listed: &mut [bool; 256], bytes: &[u8])
    ensures { (b : ℕ) → b < 256 → slice_index_or listed.new b false
        ≡ (slice_index_or listed.old b false || list_any (λ o. o == b) bytes.now) }
{
    'bytes: for byte in bytes {
        listed[usize::from(*byte)] = true;
    }
}

/// A table that has all but the bytes that stand in a word whatever is behind them, made of that of
/// the operators.
fn asked_bytes(listed: [bool; 256]) -> [bool; 256]
    ensures lone { AreLone listed result }
    ensures ends { AreAsked listed result }
{
    let mut asked = listed;
    list_low(&mut asked);
    list(&mut asked, ASKED);
    asked
}

/// Lists the space and the bytes below it, which are white space.
fn list_low(listed: &mut [bool; 256])
    ensures kept { (b : ℕ) → slice_index_or listed.old b false ≡ true
        → slice_index_or listed.new b false ≡ true }
    ensures low { (b : ℕ) → b ≤ 32 → slice_index_or listed.new b false ≡ true }
    ensures only { (b : ℕ) → 32 < b
        → slice_index_or listed.new b false ≡ slice_index_or listed.old b false }
{
    'bytes: for byte in 0..33usize {
        listed[byte] = true;
    }
}

/// The first byte of a text, or 0 where there is none.
fn byte_at_front(text: &[u8]) -> u8
    ensures value { result ≡ slice_index text.now 0 }
    ensures some { 0 < result → 0 < length text.now }
{
    if text.is_empty() { 0 } else { text[0] }
}

/// A byte that may not stand in quotes.
pub(crate) fn is_control(byte: u8) -> bool
    ensures { result ≡ spec.is_control byte }
{
    byte < b' ' || byte == 127
}

/// A byte that quotes or comments, or a dollar sign.
pub(crate) fn is_marked(byte: u8) -> bool
    ensures { result ≡ (spec.is_special byte || byte == 36) }
{
    is_special(byte) || byte == b'$'
}

fn is_special(byte: u8) -> bool
    ensures { result ≡ spec.is_special byte }
{
    byte == b'"' || byte == b'\\' || byte == b'(' || byte == b')'
}

fn is_mark(byte: u8) -> bool
    ensures { result ≡ spec.is_mark byte }
{
    b"|#@:.".contains(&byte)
}

fn is_bare(byte: u8) -> bool
    ensures { result ≡ spec.is_bare byte }
{
    b"0123456789*+-@:#>[]()|.".contains(&byte)
}
