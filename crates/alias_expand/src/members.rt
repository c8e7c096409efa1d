ghost use Rattle.std.specs.Prelude.{◌≡◌, ◌++◌, ◌<◌, ◌≤◌, ◌-◌, IfOk, OnOk, All, false, length, map};
ghost use Rattle.mail_base.specs.Whites.{stripped};
ghost use Rattle.alias_expand.specs.Members as spec;
ghost use Rattle.alias_expand.specs.Members.{IsMember, closes_last, escapes, file_members, is_local, is_paired, line_members, member_of, unpaired, written};
ghost use Rattle.alias_expand.specs.inner.Pieces.{kept};

use crate::lines::split_lf;
use addr_tokens::Separator;
use mail_base::{NoMemory, Seq, Text, stripped};
use std::alloc::Global;

/// A member of an alias, or of an include or forward file (aliases(5)).
#[derive(Drop)]
pub enum Member {
    /// An address as it is written, which may be `\address`, `|program` or `/file`. The pair of
    /// double quotes in which a program or a file may stand is dropped. It isn't empty and has no
    /// LF.
    Address(Text),
    /// The file of `:include:file`, whose members stand for it. Its name may be empty, and has no
    /// LF.
    Include(Text),
}

/// The members of an include or forward file, by commas and by lines. It refuses no text: a quote, a
/// comment or an angle that is open where a line ends, ends with it (Sendmail Installation and
/// Operation Guide, ":include:").
pub fn members_of(alloc: Global, text: &Text) -> Result<Seq<Member>, NoMemory>
    ensures members { IfOk result (λ members. members ≡ file_members text.now) }
    ensures each { IfOk result (λ members. All IsMember members) }
{
    let members = lines_members(alloc, text.bytes())?;
    Ok(members)
}

// The members of the lines of a file.
fn lines_members(alloc: Global, text: &[u8]) -> Result<Seq<Member>, NoMemory>
    ensures { IfOk result (λ members. members ≡ file_members text.now) }
{
    let mut members = Seq::new(alloc);
    let mut rest = text;
    'lines: while !rest.is_empty() {
        let (line, after, _) = split_lf(rest);
        push_line(alloc, &mut members, line)?;
        rest = after;
    }
    Ok(members)
}

// Adds what a line of a file says.
fn push_line(alloc: Global, members: &mut Seq<Member>, line: &[u8]) -> Result<(), NoMemory>
    ensures { OnOk result (members.new ≡ members.old ++ line_members line.now) }
{
    if line.first() == Some(&b'#') {
        return Ok(());
    }
    let texts = written(alloc, line)?;
    push_members(alloc, members, texts.items())
}

/// Adds the members that are written so.
pub(crate) fn push_members(
    alloc: Global,
    members: &mut Seq<Member>,
    texts: &[Text],
) -> Result<(), NoMemory>
    ensures { OnOk result (members.new ≡ members.old ++ map member_of texts.now) }
{
    for text in texts {
        members.push(member_of(alloc, text.bytes())?)?;
    }
    Ok(())
}

fn member_of(alloc: Global, text: &[u8]) -> Result<Member, NoMemory>
    ensures { IfOk result (λ member. member ≡ member_of text.now) }
{
    match text.strip_prefix(b":include:") {
        Some(file) => Ok(Member::Include(Text::of(alloc, file)?)),
        None => Ok(Member::Address(Text::of(alloc, unpaired(text))?)),
    }
}

// A program or a file without the pair of quotes that it may stand in.
fn unpaired(text: &[u8]) -> &[u8]
    ensures { result.now ≡ unpaired text.now }
{
    if is_paired(text) && is_local(&text[1..]) {
        return &text[1..text.len() - 1];
    }
    text
}

fn is_paired(text: &[u8]) -> bool
    ensures { result ≡ is_paired text.now }
{
    match text.split_first() {
        Some((first, rest)) => *first == b'"' && closes_last(rest),
        None => false,
    }
}

fn is_local(text: &[u8]) -> bool
    ensures { result ≡ is_local text.now }
{
    match text.first() {
        Some(first) => *first == b'|' || *first == b'/',
        None => false,
    }
}

// Whether the first double quote that no backslash quotes ends a text.
fn closes_last(text: &[u8]) -> bool
    ensures { result ≡ closes_last false text.now }
{
    let mut escaped = false;
    for (index, byte) in text.iter().enumerate() {
        if !escaped && *byte == b'"' {
            return index + 1 == text.len();
        }
        escaped = escapes(escaped, *byte);
    }
    false
}

// Whether a byte quotes the next one.
fn escapes(escaped: bool, byte: u8) -> bool
    ensures { result ≡ escapes escaped byte }
{
    !escaped && byte == b'\\'
}

/// The members of a text as they are written.
pub(crate) fn written(alloc: Global, text: &[u8]) -> Result<Seq<Text>, NoMemory>
    ensures { IfOk result (λ texts. texts ≡ written text.now) }
{
    let mut texts = Seq::new(alloc);
    let mut rest = text;
    'pieces: while !rest.is_empty() {
        let (piece, after) = split_comma(rest);
        put(alloc, &mut texts, stripped(piece))?;
        rest = after;
    }
    Ok(texts)
}

// The first piece, and what stands behind the comma that ends it.
fn split_comma(text: &[u8]) -> (&[u8], &[u8])
    requires { 0 < length text.now }
    ensures pieces { written text.now ≡ kept (stripped result.0.now) ++ written result.1.now }
    ensures shorter { length result.1.now < length text.now }
{
    let end = Separator::Comma.length_to(text);
    if end == text.len() {
        return (text, &[]);
    }
    (&text[..end], &text[end + 1..])
}

// Adds a piece that isn't empty.
fn put(alloc: Global, texts: &mut Seq<Text>, piece: &[u8]) -> Result<(), NoMemory>
    ensures { OnOk result (texts.new ≡ texts.old ++ kept piece.now) }
{
    if piece.is_empty() {
        return Ok(());
    }
    texts.push(Text::of(alloc, piece)?)
}
