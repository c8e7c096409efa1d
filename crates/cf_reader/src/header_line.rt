ghost use Rattle.std.specs.Prelude.{◌≡◌, option_map, IfOk};
ghost use Rattle.cf_values.specs.Flags.{flags_of};
ghost use Rattle.cf_reader.specs.inner.Readings.{Reads};
ghost use Rattle.cf_reader.specs.HeaderLines.{fault_of_header, header_of};
ghost use Rattle.cf_reader.specs.HeaderLines as spec;

use crate::cuts::cut_at;
use crate::fault::{Fault, LineStop};
use cf_values::flags;
use mail_base::{HeaderLine, NoMemory, Text, stripped, without_blanks};
use std::alloc::Global;

/// The header that an H line declares, by what follows the letter: `?flags?Name: template` or
/// `Name: template`. `None` is a line whose template calls rulesets, or whose flags are a macro: it
/// is ignored with a warning. `BadHeader` comes exactly where no colon stands behind the flags, or
/// they aren't closed (Sendmail Installation and Operation Guide, "H: Define Header").
pub(crate) fn header(alloc: Global, text: &[u8]) -> Result<Option<HeaderLine>, LineStop>
    ensures { Reads result (fault_of_header text.now) (header_of text.now) }
{
    let Some((marked, field)) = flagged(text) else {
        return Err(LineStop::Refused(Fault::BadHeader));
    };
    let Some((name, template)) = cut_at(field, b':') else {
        return Err(LineStop::Refused(Fault::BadHeader));
    };
    if is_macro(marked) || calls_rules(template) {
        return Ok(None);
    }
    Ok(Some(HeaderLine {
        flags: flags_in(alloc, marked)?,
        name: Text::of(alloc, stripped(name))?,
        template: Text::of(alloc, without_blanks(template))?,
    }))
}

// The flags between question marks, and the field behind them.
fn flagged(text: &[u8]) -> Option<(&[u8], &[u8])>
    ensures { option_map (λ parts. (parts.0.now, parts.1.now)) result ≡ spec.flagged text.now }
{
    match text.split_first() {
        Some((first, rest)) => {
            if *first == b'?' {
                return cut_at(rest, b'?');
            }
            Some((&[], text))
        }
        None => Some((&[], &[])),
    }
}

fn calls_rules(template: &[u8]) -> bool
    ensures { result ≡ spec.calls_rules template.now }
{
    stripped(template).starts_with(b"$>")
}

// In Sendmail such a header is added where the macro is set.
fn is_macro(flags: &[u8]) -> bool
    ensures { result ≡ spec.is_macro flags.now }
{
    flags.starts_with(b"$")
}

fn flags_in(alloc: Global, text: &[u8]) -> Result<Text, NoMemory>
    ensures { IfOk result (λ flags. flags ≡ flags_of text.now) }
{
    flags(alloc, &Text::of(alloc, text)?)
}
