ghost use Rattle.std.specs.Prelude.{◌≡◌, ◌≤◌, ◌<◌, ◌+◌, ◌^◌, drop, length, slice_index, IfOk, IfSome};
ghost use Rattle.addr_tokens.specs.Pieces as spec;
ghost use Rattle.addr_tokens.specs.Pieces.{Alphabet};
ghost use Rattle.addr_tokens.specs.Reader as reader;
ghost use Rattle.addr_tokens.specs.inner.Tables.{IsTable};
ghost use Rattle.addr_tokens.specs.inner.Views.{construct_read, braces_read, size_behind};

use crate::ScanFault;
use crate::table::Table;
use mail_base::is_white;

/// A dollar sign with its byte, and maybe with a name.
#[derive(Clone, Copy)]
pub(crate) enum Construct {
    Single(u8),
    /// The name is one byte.
    Letter(u8, u8),
    /// The name stands in braces and has so many bytes.
    Braced(u8, usize),
}

impl Construct {
    /// How many bytes it has behind the dollar sign.
    pub(crate) fn size_behind(&self) -> usize
        requires { size_behind self.now < 2 ^ 64 }
        ensures { result ≡ size_behind self.now }
    {
        match *self {
            Construct::Single(_) => 1,
            Construct::Letter(_, _) => 2,
            Construct::Braced(_, size) => size + 3,
        }
    }
}

/// The construct whose dollar sign stands at this place, before the text.
pub(crate) fn construct_of(table: &Table, text: &[u8], place: u64) -> Result<Construct, ScanFault>
    ensures within { IfOk result (λ found. size_behind found ≤ length text.now) }
    ensures read { (alphabet : Alphabet) → IsTable alphabet table.now.listed table.now.dollars
        → reader.first_dollar alphabet place text.now ≡ construct_read text.now result }
{
    if text.is_empty() {
        return Err(ScanFault::BadDollar(place));
    }
    let byte = text[0];
    if table.is_single(byte) {
        return Ok(Construct::Single(byte));
    }
    if is_naming(byte) {
        return named_of(text, place);
    }
    Err(ScanFault::BadDollar(place))
}

/// The construct whose byte begins the text, where that has a name.
fn named_of(text: &[u8], place: u64) -> Result<Construct, ScanFault>
    requires { 0 < length text.now }
    ensures within { IfOk result (λ found. size_behind found ≤ length text.now) }
    ensures read { reader.first_named place (slice_index text.now 0) (drop 1 text.now)
        ≡ construct_read text.now result }
{
    if text.len() < 2 {
        return Err(ScanFault::BadDollar(place));
    }
    let letter = text[1];
    if letter == b'{' {
        return braced_of(text, place);
    }
    if is_letter(text[0], letter) {
        return Ok(Construct::Letter(text[0], letter));
    }
    Err(ScanFault::BadDollar(place))
}

/// The same, where the name stands in braces, which may not be empty.
fn braced_of(text: &[u8], place: u64) -> Result<Construct, ScanFault>
    requires { 1 < length text.now }
    ensures within { IfOk result (λ found. size_behind found ≤ length text.now) }
    ensures read { reader.first_braced place (slice_index text.now 0)
        (reader.in_braces (drop 2 text.now))
        ≡ construct_read text.now result }
{
    match brace_at(&text[2..]) {
        None | Some(0) => Err(ScanFault::BadDollar(place)),
        Some(size) => Ok(Construct::Braced(text[0], size)),
    }
}

/// How many bytes stand before the first closing brace.
fn brace_at(text: &[u8]) -> Option<usize>
    ensures within { IfSome result (λ size. size < length text.now) }
    ensures read { reader.in_braces text.now ≡ braces_read text.now result }
{
    'bytes: for (index, byte) in text.iter().enumerate() {
        if *byte == b'}' {
            return Some(index);
        }
    }
    None
}

fn is_naming(byte: u8) -> bool
    ensures { result ≡ spec.is_naming byte }
{
    b"=~&".contains(&byte)
}

/// A name of one byte behind this one: that of a macro or of a class.
fn is_letter(byte: u8, letter: u8) -> bool
    ensures { result ≡ spec.is_letter byte letter }
{
    if byte == b'&' {
        is_name(letter)
    } else {
        is_class_name(letter)
    }
}

/// A class's name of one byte.
fn is_class_name(byte: u8) -> bool
    ensures { result ≡ spec.is_class_name byte }
{
    !is_white(byte) && byte != b'$' && byte != b'{'
}

/// A macro's name of one byte.
fn is_name(byte: u8) -> bool
    ensures { result ≡ spec.is_name byte }
{
    !is_white(byte) && !is_sign(byte)
}

/// What has a meaning behind a dollar sign in a rule's side or a text that is expanded.
fn is_sign(byte: u8) -> bool
    ensures { result ≡ spec.is_sign byte }
{
    b"0123456789*+-@:#>[]()=~$&?|.{".contains(&byte)
}
