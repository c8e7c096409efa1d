ghost use Rattle.std.specs.Prelude.{◌≡◌, ◌++◌, ◌∷◌, ◌<◌, length, find, IfOk, IfSome, codes};
ghost use Rattle.std.specs.Option.{option_copied};
ghost use Rattle.mail_base.specs.Texts.{IsHeader};
ghost use Rattle.mail_header.specs.Made as spec;
ghost use Rattle.mail_header.specs.inner.Tidy.{tidy_first};

use cf_macros::expanded;
use mail_base::{Config, HeaderLine, Macros, NoMemory, Text, is_blank};
use std::alloc::Global;

/// The header that is put first on receipt, that of the first H line `Received`, without case,
/// whatever its flags; `None` where there is no such line. An expansion that is refused counts as
/// empty, and leaves `Received:`. A CR or LF behind which the header doesn't go on becomes a
/// blank, so it is one header whatever its macros hold.
pub fn received(config: &Config, macros: &Macros) -> Result<Option<Text>, NoMemory>
    ensures made { IfOk result (λ made. made ≡ spec.received_of config.now.headers macros.now) }
    ensures header { IfOk result (λ made. IfSome made IsHeader) }
{
    match received_line(config.headers.items()) {
        Some(line) => {
            let header = made(line, macros)?;
            Ok(Some(header))
        }
        None => Ok(None),
    }
}

fn received_line(lines: &[HeaderLine]) -> Option<&HeaderLine>
    ensures { option_copied result ≡ find (spec.is_for (codes "Received")) lines.now }
{
    lines.iter().find(|line| is_received(line))
}

pub(crate) fn is_received(line: &HeaderLine) -> bool
    ensures { result ≡ spec.is_for (codes "Received") line.now }
{
    line.name.bytes().eq_ignore_ascii_case(b"Received")
}

/// The header that an H line makes.
pub(crate) fn made(line: &HeaderLine, macros: &Macros) -> Result<Text, NoMemory>
    ensures { IfOk result (λ made. made ≡ spec.made_of macros.now line.now) }
{
    let value = expanded(line.template.allocator(), &line.template, macros)?;
    let text = joined(&line.name, &value)?;
    tidied(text.allocator(), text.bytes())
}

fn joined(name: &Text, value: &Text) -> Result<Text, NoMemory>
    ensures { IfOk result (λ text. text ≡ name.now ++ 58 ∷ spec.spaced value.now) }
{
    let mut text = Text::of(name.allocator(), name.bytes())?;
    text.push(b':')?;
    if !value.is_empty() {
        text.push(b' ')?;
        text.extend(value.bytes())?;
    }
    Ok(text)
}

fn tidied(alloc: Global, text: &[u8]) -> Result<Text, NoMemory>
    ensures { IfOk result (λ tidy. tidy ≡ spec.tidied text.now) }
{
    let mut tidy = Text::new(alloc);
    for place in 0..text.len() {
        tidy.push(tidy_first(&text[place..]))?;
    }
    Ok(tidy)
}

/// The first byte of a text, or a blank where it is a CR or LF behind which a header doesn't go
/// on.
fn tidy_first(text: &[u8]) -> u8
    requires { 0 < length text.now }
    ensures { result ≡ tidy_first text.now }
{
    let byte = text[0];
    if byte != b'\r' && byte != b'\n' {
        return byte;
    }
    if folds(byte, &text[1..]) {
        return byte;
    }
    b' '
}

fn folds(byte: u8, rest: &[u8]) -> bool
    ensures { result ≡ spec.folds byte rest.now }
{
    if byte == b'\n' {
        return !rest.is_empty() && is_blank(rest[0]);
    }
    byte == b'\r' && rest.len() > 1 && rest[0] == b'\n' && is_blank(rest[1])
}
