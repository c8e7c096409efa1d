ghost use Rattle.std.specs.Prelude.{◌≡◌, ◌+◌, ◌^◌, ◌<◌, ◌≤◌, ◌==◌, ◌||◌, true, false, length, drop, slice_index, IfOk};
ghost use Rattle.addr_tokens.specs.Reader as reader;
ghost use Rattle.addr_tokens.specs.Pieces as spec;
ghost use Rattle.addr_tokens.specs.Pieces.{Alphabet};
ghost use Rattle.addr_tokens.specs.inner.Fronts.{first_at_dollar};
ghost use Rattle.addr_tokens.specs.inner.Tables.{IsTable};
ghost use Rattle.addr_tokens.specs.inner.Views.{front_read, size_of};

use crate::ScanFault;
use crate::construct::{Construct, construct_of};
use crate::ending::{Ending, comment_end, quote_end, word_length};
use crate::table::Table;

/// The piece that a text begins with, and how many bytes it has.
#[derive(Clone, Copy)]
pub(crate) enum Front {
    White,
    Comment(usize),
    Quotation(usize),
    Operator(u8),
    Dollar(Construct),
    Run(usize),
}

impl Front {
    pub(crate) fn size(&self) -> usize
        requires { size_of self.now < 2 ^ 64 }
        ensures { result ≡ size_of self.now }
    {
        match *self {
            Front::White | Front::Operator(_) => 1,
            Front::Comment(size) | Front::Quotation(size) | Front::Run(size) => size,
            Front::Dollar(construct) => construct.size_behind() + 1,
        }
    }
}

/// The first piece of a text before which so many bytes stand, where a byte begins it that quotes
/// or comments, or a dollar sign.
// One step of each scan calls it, and what it answers need not stand in memory there.
#[inline(always)]
pub(crate) fn marked_of(table: &Table, text: &[u8], place: u64) -> Result<Front, ScanFault>
    requires some { 0 < length text.now }
    requires marked { (spec.is_special (slice_index text.now 0) || slice_index text.now 0 == 36)
        ≡ true }
    requires place { place + length text.now < 2 ^ 64 }
    ensures some { IfOk result (λ front. 0 < size_of front) }
    ensures within { IfOk result (λ front. size_of front ≤ length text.now) }
    ensures read { (alphabet : Alphabet) → IsTable alphabet table.now.listed table.now.dollars
        → reader.first_of alphabet place (slice_index text.now 0) (drop 1 text.now)
        ≡ front_read text.now result }
{
    match text[0] {
        b'(' => comment_of(text, place),
        b'"' => quotation_of(text, place),
        b'\\' => run_of(table, text, place),
        b'$' => dollar_of(table, text, place),
        // The one that is left is a closing parenthesis.
        _ => Err(ScanFault::Unbalanced(place)),
    }
}

/// The same, where a dollar sign begins the text.
fn dollar_of(table: &Table, text: &[u8], place: u64) -> Result<Front, ScanFault>
    requires some { 0 < length text.now }
    requires first { slice_index text.now 0 ≡ 36 }
    ensures some { IfOk result (λ front. 0 < size_of front) }
    ensures within { IfOk result (λ front. size_of front ≤ length text.now) }
    ensures read { (alphabet : Alphabet) → IsTable alphabet table.now.listed table.now.dollars
        → first_at_dollar alphabet place (drop 1 text.now) ≡ front_read text.now result }
{
    let after = &text[1..];
    if table.is_doubled(after) {
        return run_of(table, text, place);
    }
    if table.means(after) {
        let construct = construct_of(table, after, place)?;
        return Ok(Front::Dollar(construct));
    }
    if table.is_listed(b'$') {
        return Ok(Front::Operator(b'$'));
    }
    run_of(table, text, place)
}

fn run_of(table: &Table, text: &[u8], place: u64) -> Result<Front, ScanFault>
    ensures some { IfOk result (λ front. 0 < size_of front) }
    ensures within { IfOk result (λ front. size_of front ≤ length text.now) }
    ensures read { (alphabet : Alphabet) → IsTable alphabet table.now.listed table.now.dollars
        → reader.first_word place text.now (reader.past_word alphabet false text.now)
        ≡ front_read text.now result }
{
    let size = word_length(table, text);
    if size == 0 {
        return Err(ScanFault::BadQuote(place));
    }
    Ok(Front::Run(size))
}

fn quotation_of(text: &[u8], place: u64) -> Result<Front, ScanFault>
    requires some { 0 < length text.now }
    requires place { place + length text.now < 2 ^ 64 }
    ensures some { IfOk result (λ front. 0 < size_of front) }
    ensures within { IfOk result (λ front. size_of front ≤ length text.now) }
    ensures read { reader.first_quote place text.now (reader.past_quote false (drop 1 text.now))
        ≡ front_read text.now result }
{
    match quote_end(&text[1..]) {
        Ending::Closed(size) => Ok(Front::Quotation(size + 1)),
        Ending::Unclosed => Err(ScanFault::BadQuote(place)),
        Ending::Bad(index) => Err(ScanFault::BadQuote(place + 1 + index as u64)),
    }
}

fn comment_of(text: &[u8], place: u64) -> Result<Front, ScanFault>
    requires some { 0 < length text.now }
    requires place { place + length text.now < 2 ^ 64 }
    ensures some { IfOk result (λ front. 0 < size_of front) }
    ensures within { IfOk result (λ front. size_of front ≤ length text.now) }
    ensures read { reader.first_comment place text.now
        (reader.past_comment 0 false (drop 1 text.now)) ≡ front_read text.now result }
{
    match comment_end(&text[1..]) {
        Ending::Closed(size) => Ok(Front::Comment(size + 1)),
        Ending::Unclosed => Err(ScanFault::Unbalanced(place)),
        Ending::Bad(index) => Err(ScanFault::BadQuote(place + 1 + index as u64)),
    }
}
