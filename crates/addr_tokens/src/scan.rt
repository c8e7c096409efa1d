ghost use Rattle.std.specs.Prelude.{◌≡◌, map, IfOk, IfErr};
ghost use Rattle.addr_tokens.specs.declared.lexeme.Dollars.TheVariants.{Typed, Side};
ghost use Rattle.addr_tokens.specs.Pieces.{alphabet_of, plain};
ghost use Rattle.addr_tokens.specs.Reader.{cut};
ghost use Rattle.addr_tokens.specs.Scans.{AreLexemes, AreTokens, ExplainsFault};

use crate::ScanFault;
use crate::gathering::{Angles, Gathering, answer_of};
use crate::given::Given;
use crate::law::computed;
use crate::lexeme::{Dollars, Lexeme};
use crate::table::Table;
use crate::taking::take_first;
use mail_base::{NoMemory, Seq, Text, Token};
use std::alloc::Global;

/// The tokens of a text, each a Word, a Quoted token or an operator. The operators are the bytes of
/// `operators` and always `(`, `)`, `<`, `>`, `,` and `;`. Where `angles` says so, each `<` needs
/// its `>`. At most 2,000 tokens are given; a fault of the text goes before `Long`.
pub fn tokens(
    alloc: Global,
    text: &Text,
    operators: &Text,
    angles: bool,
) -> Result<Seq<Token>, ScanFault>
    ensures tokens { IfOk result (λ tokens.
        AreTokens (plain operators.now) angles text.now tokens) }
    ensures fault { IfErr result (λ fault.
        ExplainsFault (plain operators.now) angles text.now fault) }
{
    scan(
        alloc,
        text.bytes(),
        operators.bytes(),
        angles,
        Dollars::Bytes,
    )
}

/// The tokens of a text as by [`tokens`], or `None` where it can't be cut.
#[tactic(auto, unfolding(crate::specs::Reader::cut))]
pub fn cut(
    alloc: Global,
    text: &Text,
    operators: &Text,
    angles: bool,
) -> Result<Option<Seq<Token>>, NoMemory>
    ensures { IfOk result (λ given. given ≡ cut operators.now angles text.now) }
{
    // A law: the tokens that are cut are those that the definition computes.
    computed();
    match tokens(alloc, text, operators, angles) {
        Ok(tokens) => Ok(Some(tokens)),
        Err(ScanFault::NoMemory) => Err(NoMemory),
        Err(_) => Ok(None),
    }
}

/// The tokens of an address that is typed, in which `$|`, `$#`, `$@`, `$:` and `$.` are those
/// signs. All else is as in [`tokens`].
pub fn typed_tokens(
    alloc: Global,
    text: &Text,
    operators: &Text,
    angles: bool,
) -> Result<Seq<Token>, ScanFault>
    ensures tokens { IfOk result (λ tokens.
        AreTokens (alphabet_of operators.now Typed) angles text.now tokens) }
    ensures fault { IfErr result (λ fault.
        ExplainsFault (alphabet_of operators.now Typed) angles text.now fault) }
{
    scan(
        alloc,
        text.bytes(),
        operators.bytes(),
        angles,
        Dollars::Typed,
    )
}

/// What a side of a rule is made of, under the same operators as [`tokens`]: tokens, and dollar
/// signs with their bytes and names. A doubled dollar sign is one in its token; in a comment or
/// behind a backslash a dollar sign is a byte, and so it is in quotes. At most 2,000 lexemes are
/// given.
pub fn lexemes(
    alloc: Global,
    text: &Text,
    operators: &Text,
    angles: bool,
) -> Result<Seq<Lexeme>, ScanFault>
    ensures lexemes { IfOk result (λ lexemes.
        AreLexemes (alphabet_of operators.now Side) angles text.now lexemes) }
    ensures fault { IfErr result (λ fault.
        ExplainsFault (alphabet_of operators.now Side) angles text.now fault) }
{
    scan(
        alloc,
        text.bytes(),
        operators.bytes(),
        angles,
        Dollars::Side,
    )
}

fn scan<T: Given>(
    alloc: Global,
    text: &[u8],
    operators: &[u8],
    angles: bool,
    dollars: Dollars,
) -> Result<Seq<T>, ScanFault>
    requires { T.serves dollars }
    ensures given { IfOk result (λ given.
        AreLexemes (alphabet_of operators.now dollars) angles text.now (map T.seen given)) }
    ensures fault { IfErr result (λ fault.
        ExplainsFault (alphabet_of operators.now dollars) angles text.now fault) }
{
    let table = Table::of(operators, dollars);
    let mut open = Angles::new(alloc, angles);
    let mut gathering = Gathering::new(alloc);
    let mut place = 0usize;
    'pieces: while place < text.len() {
        let rest = &text[place..];
        place += take_first(&table, rest, place, &mut open, &mut gathering)?;
    }
    answer_of(&open, gathering)
}
