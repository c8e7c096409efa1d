ghost use Rattle.std.specs.Prelude.{◌≡◌, ◌++◌, ◌∷◌, [], ℕ, List, IfOk, OnOk};
ghost use Rattle.cf_reader.specs.Fields as spec;
ghost use Rattle.cf_reader.specs.inner.Cuttings.{all_pieces};

use crate::cuts::cut_at;
use mail_base::{NoMemory, Seq, Text, stripped};
use std::alloc::Global;

/// A field of an M or a Q line, or of an option: a name, and a value without quotes and escapes.
#[derive(Drop)]
pub(crate) struct Field {
    pub(crate) name: Text,
    pub(crate) value: Text,
}

impl Field {
    /// The first byte of the name, by which fields go, or 0 where there is none.
    pub(crate) fn letter(&self) -> u8
        ensures { result ≡ spec.letter_of self.now }
    {
        match self.name.bytes().first() {
            Some(letter) => *letter,
            None => 0,
        }
    }
}

/// Where a byte of a text stands: in double quotes or not, behind a backslash or not.
#[derive(Clone, Copy)]
pub(crate) struct Stand {
    quoted: bool,
    escaped: bool,
}

impl Stand {
    fn outside() -> Stand
        ensures { result ≡ spec.outside }
    {
        Stand {
            quoted: false,
            escaped: false,
        }
    }

    // Where the byte behind this one stands.
    fn behind(self, byte: u8) -> Stand
        ensures { result ≡ spec.behind self byte }
    {
        if self.escaped {
            return Stand {
                quoted: self.quoted,
                escaped: false,
            };
        }
        if byte == b'\\' {
            return Stand {
                quoted: self.quoted,
                escaped: true,
            };
        }
        if byte == b'"' {
            return Stand {
                quoted: !self.quoted,
                escaped: false,
            };
        }
        self
    }

    // Whether the byte ends a field.
    fn ends(self, byte: u8) -> bool
        ensures { result ≡ spec.ends self byte }
    {
        byte == b',' && !self.quoted && !self.escaped
    }
}

// The byte that stands for this one behind a backslash.
fn escape(byte: u8) -> u8
    ensures { result ≡ spec.escape byte }
{
    match byte {
        b'n' => b'\n',
        b'r' => b'\r',
        b'f' => 12,
        b'b' => 8,
        _ => byte,
    }
}

/// The pieces so far, and what stands of the next one.
#[derive(Drop)]
pub(crate) struct Cutting {
    pieces: Seq<Text>,
    piece: Text,
    stand: Stand,
}

impl Cutting {
    fn new(alloc: Global) -> Cutting
        ensures { (text : List ℕ) → all_pieces result text ≡ spec.pieces_of text }
    {
        Cutting {
            pieces: Seq::new(alloc),
            piece: Text::new(alloc),
            stand: Stand::outside(),
        }
    }

    fn take(&mut self, byte: u8) -> Result<(), NoMemory>
        ensures { OnOk result
            ((text : List ℕ) → all_pieces self.new text ≡ all_pieces self.old (byte ∷ text)) }
    {
        if self.stand.ends(byte) {
            return self.close();
        }
        self.piece.push(byte)?;
        self.stand = self.stand.behind(byte);
        Ok(())
    }

    // Ends the piece.
    fn close(&mut self) -> Result<(), NoMemory>
        ensures pieces { OnOk result
            (self.new.pieces ≡ self.old.pieces ++ spec.kept (self.old.piece ∷ [])) }
        ensures piece { OnOk result (self.new.piece ≡ []) }
        ensures stand { OnOk result (self.new.stand ≡ spec.outside) }
    {
        let alloc = self.piece.allocator();
        let piece = stripped(self.piece.bytes());
        if !piece.is_empty() {
            self.pieces.push(Text::of(alloc, piece)?)?;
        }
        self.piece.clear();
        self.stand = Stand::outside();
        Ok(())
    }
}

/// The pieces of a text between commas, without white space at their ends, but for the empty ones.
pub(crate) fn pieces(alloc: Global, text: &[u8]) -> Result<Seq<Text>, NoMemory>
    ensures { IfOk result (λ pieces. pieces ≡ spec.pieces_of text.now) }
{
    let mut cutting = Cutting::new(alloc);
    for byte in text {
        cutting.take(*byte)?;
    }
    cutting.close()?;
    Ok(cutting.pieces)
}

/// A value without its quotes, and with the bytes that its escapes stand for.
pub(crate) fn plain(alloc: Global, text: &[u8]) -> Result<Text, NoMemory>
    ensures { IfOk result (λ plain. plain ≡ spec.plain text.now) }
{
    let mut plain = Text::new(alloc);
    let mut stand = Stand::outside();
    for byte in text {
        say(&mut plain, stand, *byte)?;
        stand = stand.behind(*byte);
    }
    Ok(plain)
}

// Adds what a byte of a value says.
fn say(plain: &mut Text, stand: Stand, byte: u8) -> Result<(), NoMemory>
    ensures { OnOk result (plain.new ≡ plain.old ++ spec.said stand byte) }
{
    if stand.escaped {
        return plain.push(escape(byte));
    }
    if byte == b'\\' || byte == b'"' {
        return Ok(());
    }
    plain.push(byte)
}

/// What stands before the first of a byte, and what behind it, which is nothing where there is
/// none.
pub(crate) fn split_at(text: &[u8], byte: u8) -> (&[u8], &[u8])
    ensures { (result.0.now, result.1.now) ≡ spec.split_at byte text.now }
{
    match cut_at(text, byte) {
        Some((before, after)) => (before, after),
        None => (text, &[]),
    }
}

fn field_of(alloc: Global, piece: &[u8]) -> Result<Field, NoMemory>
    ensures { IfOk result (λ field. field ≡ spec.field_of piece.now) }
{
    let (name, value) = split_at(piece, b'=');
    Ok(Field {
        name: Text::of(alloc, stripped(name))?,
        value: plain(alloc, stripped(value))?,
    })
}

/// The fields of a text.
pub(crate) fn fields(alloc: Global, text: &[u8]) -> Result<Seq<Field>, NoMemory>
    ensures { IfOk result (λ fields. fields ≡ spec.fields_of text.now) }
{
    let pieces = pieces(alloc, text)?;
    let mut fields = Seq::new(alloc);
    for piece in pieces.items() {
        fields.push(field_of(alloc, piece.bytes())?)?;
    }
    Ok(fields)
}

/// The name that a line begins with.
pub(crate) fn line_name(text: &[u8]) -> &[u8]
    ensures { result.now ≡ spec.line_name text.now }
{
    let (name, _) = split_at(text, b',');
    stripped(name)
}

/// The fields of a line that has a name first.
pub(crate) fn line_fields(alloc: Global, text: &[u8]) -> Result<Seq<Field>, NoMemory>
    ensures { IfOk result (λ fields. fields ≡ spec.line_fields text.now) }
{
    let (_, rest) = split_at(text, b',');
    fields(alloc, rest)
}
