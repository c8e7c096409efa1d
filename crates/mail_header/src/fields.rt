ghost use Rattle.std.specs.Prelude.{◌≡◌, ◌==◌, ◌≤◌, ◌<◌, ◌-◌, ◌^◌, length, slice_index, option_map, find, IfOk, codes};
ghost use Rattle.std.specs.List.{position_or_len};
ghost use Rattle.std.specs.Option.{option_copied};
ghost use Rattle.std.specs.Str.{str_eq_ignore_ascii_case};
ghost use Rattle.mail_header.specs.Fields as spec;

use bstr::ByteSlice;
use cf_macros::{Form, date};
use mail_base::{Config, NoMemory, Precedence, Seq, Text, stripped, trimmed};

/// How many headers have the name `Received`, without case (RFC 5321, section 6.3). It takes no
/// memory.
pub fn hops(headers: &Seq<Text>) -> u32
    requires { length headers.now < 2 ^ 32 }
    ensures { result ≡ spec.hops_of headers.now }
{
    received_count(headers.items()) as u32
}

fn received_count(headers: &[Text]) -> usize
    ensures count { result ≡ spec.hops_of headers.now }
    ensures within { result ≤ length headers.now }
{
    headers.iter().filter(|header| is_received(header)).count()
}

fn is_received(header: &Text) -> bool
    ensures { result ≡ spec.is_named (codes "Received") header.now }
{
    is_named(b"Received", header.bytes())
}

/// The class of a message: that of the first `Precedence` header whose value names a P line, both
/// without case; a value that names none is passed over. White space at its ends, also the end of a
/// line where it is folded, is no part of a name. Without one it is 0. It takes no memory.
pub fn class_of(config: &Config, headers: &Seq<Text>) -> i64
    ensures { result ≡ spec.class_in config.now.precedences headers.now }
{
    class_in(config.precedences.items(), headers.items())
}

fn class_in(lines: &[Precedence], headers: &[Text]) -> i64
    ensures { result ≡ spec.class_in lines.now headers.now }
{
    for header in headers {
        if let Some(class) = class_told(lines, header) {
            return class;
        }
    }
    0
}

fn class_told(lines: &[Precedence], header: &Text) -> Option<i64>
    ensures { result ≡ spec.class_told lines.now header.now }
{
    if !is_named(b"Precedence", header.bytes()) {
        return None;
    }
    class_named(lines, stripped(value_of(header.bytes())))
}

fn class_named(lines: &[Precedence], name: &[u8]) -> Option<i64>
    ensures { result ≡ spec.class_named lines.now name.now }
{
    let line = lines.iter().find(|line| is_for(line, name))?;
    Some(line.class)
}

fn is_for(line: &Precedence, name: &[u8]) -> bool
    ensures { result ≡ str_eq_ignore_ascii_case line.now.name name.now }
{
    line.name.bytes().eq_ignore_ascii_case(name)
}

/// The value of the macro a: the first line of the value of the first `Date` header, without case
/// and without blanks at its ends, or, where there is none or that is empty, the moment `created`
/// in seconds from the beginning of 1970, in the form of the macro b.
pub fn date_of(headers: &Seq<Text>, created: u64) -> Result<Text, NoMemory>
    ensures { IfOk result (spec.IsDate (spec.date_told headers.now) created) }
{
    match date_told(headers.items()) {
        Some(told) => Text::of(headers.allocator(), told),
        None => date(headers.allocator(), created, Form::Mail),
    }
}

fn date_told(headers: &[Text]) -> Option<&[u8]>
    ensures { option_map (λ told. told.now) result ≡ spec.date_told headers.now }
{
    match date_header(headers) {
        Some(header) => some_text(trimmed(first_line(value_of(header.bytes())))),
        None => None,
    }
}

fn date_header(headers: &[Text]) -> Option<&Text>
    ensures { option_copied result ≡ find (spec.is_named (codes "Date")) headers.now }
{
    headers.iter().find(|header| is_date(header))
}

fn is_date(header: &Text) -> bool
    ensures { result ≡ spec.is_named (codes "Date") header.now }
{
    is_named(b"Date", header.bytes())
}

fn some_text(text: &[u8]) -> Option<&[u8]>
    ensures { option_map (λ told. told.now) result ≡ spec.some_text text.now }
{
    if text.is_empty() {
        return None;
    }
    Some(text)
}

/// Whether a header has this name, without case (RFC 5322, section 1.2.2).
pub fn is_named(name: &[u8], header: &[u8]) -> bool
    ensures { result ≡ spec.is_named name.now header.now }
{
    name_of(header).eq_ignore_ascii_case(name)
}

/// The name of a header: what stands before its first colon, or all where there is none.
pub fn name_of(header: &[u8]) -> &[u8]
    ensures { result.now ≡ spec.name_of header.now }
{
    &header[..colon_place(header)]
}

/// The value of a header: what stands behind its first colon, with the blanks and the folds that
/// it has (RFC 5322, section 2.2.3), or nothing where there is none.
pub fn value_of(header: &[u8]) -> &[u8]
    ensures { result.now ≡ spec.value_of header.now }
{
    let colon = colon_place(header);
    if colon == header.len() {
        return &header[colon..];
    }
    &header[colon + 1..]
}

fn colon_place(header: &[u8]) -> usize
    ensures place { result ≡ position_or_len spec.is_colon header.now }
    ensures within { result ≤ length header.now }
{
    header.find_byte(b':').unwrap_or(header.len())
}

/// The first line of a value, without its LF and a CR before that.
pub fn first_line(value: &[u8]) -> &[u8]
    ensures { result.now ≡ spec.first_line value.now }
{
    without_return(&value[..feed_place(value)])
}

fn feed_place(value: &[u8]) -> usize
    ensures place { result ≡ position_or_len spec.is_feed value.now }
    ensures within { result ≤ length value.now }
{
    value.find_byte(b'\n').unwrap_or(value.len())
}

fn without_return(text: &[u8]) -> &[u8]
    ensures { result.now ≡ spec.without_return text.now }
{
    if ends_in_return(text) {
        return &text[..text.len() - 1];
    }
    text
}

pub(crate) fn ends_in_return(text: &[u8]) -> bool
    ensures { result ≡ (slice_index text.now (length text.now - 1) == 13) }
{
    !text.is_empty() && text[text.len() - 1] == b'\r'
}
