ghost use Rattle.std.specs.Prelude.{◌≡◌, ◌++◌, IfOk, OnOk};
ghost use Rattle.std.specs.Fmt.{decimal};
ghost use Rattle.addr_tokens.specs.Joins as joins;
ghost use Rattle.addr_test.specs.Texts as spec;

use addr_tokens::push_token;
use mail_base::{NoMemory, Text, Token};
use std::alloc::Global;

/// A text, on a line of its own.
pub(crate) fn line_of(alloc: Global, text: &[u8]) -> Result<Text, NoMemory>
    ensures { IfOk result (λ line. line ≡ spec.line_of text.now) }
{
    let mut line = Text::of(alloc, text)?;
    line.push(b'\n')?;
    Ok(line)
}

/// Adds a text, on a line of its own.
pub(crate) fn push_line(text: &[u8], out: &mut Text) -> Result<(), NoMemory>
    ensures { OnOk result (out.new ≡ out.old ++ spec.line_of text.now) }
{
    out.extend(text)?;
    out.push(b'\n')
}

/// Adds the digits of a number.
pub(crate) fn push_number(number: u64, out: &mut Text) -> Result<(), NoMemory>
    ensures { OnOk result (out.new ≡ out.old ++ decimal number) }
{
    let said = format!(in out.allocator(); "{number}")?;
    out.extend(said.as_bytes())
}

/// Adds the line that tells what the run of a set returned.
pub(crate) fn push_returned(name: &[u8], tokens: &[Token], out: &mut Text) -> Result<(), NoMemory>
    ensures { OnOk result (out.new ≡ out.old ++ spec.returned_text name.now tokens.now) }
{
    out.extend(name)?;
    out.extend(b" returns:")?;
    push_spaced(tokens, out)?;
    out.push(b'\n')
}

// Adds tokens, each after a blank.
fn push_spaced(tokens: &[Token], out: &mut Text) -> Result<(), NoMemory>
    ensures { OnOk result (out.new ≡ out.old ++ spec.spaced tokens.now) }
{
    for token in tokens {
        out.push(b' ')?;
        push_token(out, token)?;
    }
    Ok(())
}
