ghost use Rattle.std.specs.Prelude.{◌≡◌, ◌≢◌, ◌==◌, IfOk};
ghost use Rattle.std.specs.List.{list_any};
ghost use Rattle.mail_base.specs.Whites.{is_white};
ghost use Rattle.map_tables.specs.Quotes.{dequoted, is_balanced, is_closed, is_scannable, unquoted};

use mail_base::{NoMemory, Text, is_white, without_quotes};
use std::alloc::Global;

/// A key without its double quotes, where it has one and what is left can be scanned.
pub(crate) fn dequoted(key: &Text) -> Result<Option<Text>, NoMemory>
    ensures { IfOk result (λ text. text ≡ dequoted key.now) }
{
    if !has_quote(key.bytes()) {
        return Ok(None);
    }
    let text = without_quotes(key.allocator(), key.bytes())?;
    if is_scannable(&text)? {
        return Ok(Some(text));
    }
    Ok(None)
}

fn has_quote(key: &[u8]) -> bool
    ensures { result ≡ list_any (λ byte. byte == 34) key.now }
{
    key.iter().any(|byte| *byte == b'"')
}

fn is_scannable(text: &Text) -> Result<bool, NoMemory>
    ensures { IfOk result (λ scannable. scannable ≡ is_scannable text.now) }
{
    if has_white(text.bytes()) {
        return Ok(false);
    }
    let plain = unquoted(text.allocator(), text.bytes())?;
    Ok(is_closed(plain.bytes()))
}

fn has_white(text: &[u8]) -> bool
    ensures { result ≡ list_any is_white text.now }
{
    text.iter().any(|byte| is_white(*byte))
}

// The bytes that no backslash quotes, without the backslashes that quote.
fn unquoted(alloc: Global, text: &[u8]) -> Result<Text, NoMemory>
    ensures { IfOk result (λ plain. plain ≡ unquoted text.now) }
{
    let mut plain = Text::new(alloc);
    let mut place = 0;
    while place < text.len() {
        let byte = text[place];
        if byte == b'\\' && place + 1 < text.len() {
            place += 2;
        } else {
            plain.push(byte)?;
            place += 1;
        }
    }
    Ok(plain)
}

fn is_closed(plain: &[u8]) -> bool
    ensures { result ≡ is_closed plain.now }
{
    !has_backslash(plain) && is_balanced(plain, b'<', b'>') && is_balanced(plain, b'(', b')')
}

fn has_backslash(plain: &[u8]) -> bool
    ensures { result ≡ list_any (λ byte. byte == 92) plain.now }
{
    plain.iter().any(|byte| *byte == b'\\')
}

// Whether each closing byte closes one that is open, and none is left open.
fn is_balanced(plain: &[u8], opens: u8, closes: u8) -> bool
    requires { opens ≢ closes }
    ensures { result ≡ is_balanced opens closes plain.now }
{
    let mut depth: usize = 0;
    for byte in plain {
        if *byte == opens {
            depth += 1;
        } else if *byte == closes {
            if depth == 0 {
                return false;
            }
            depth -= 1;
        }
    }
    depth == 0
}
