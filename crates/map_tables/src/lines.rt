ghost use Rattle.std.specs.Prelude.{◌≡◌, slice_get, option_map};
ghost use Rattle.mail_base.specs.Words.{words_of};
ghost use Rattle.map_tables.specs.Marks.{begins_with};
ghost use Rattle.map_tables.specs.Words as spec;

use mail_base::is_white;

/// A word of a line, counted from 0.
pub(crate) fn word(line: &[u8], number: usize) -> Option<&[u8]>
    ensures { option_map (λ word. word.now) result ≡ slice_get (words_of line.now) number }
{
    line.split(|byte| is_white(*byte))
        .filter(|word| !word.is_empty())
        .nth(number)
}

/// A column of a line, counted from 0.
pub(crate) fn column(line: &[u8], separator: Option<u8>, number: usize) -> Option<&[u8]>
    ensures { option_map (λ column. column.now) result
        ≡ slice_get (spec.columns separator line.now) number }
{
    match separator {
        Some(separator) => line.split(|byte| *byte == separator).nth(number),
        None => word(line, number),
    }
}

pub(crate) fn begins_with(text: &[u8], byte: u8) -> bool
    ensures { result ≡ begins_with byte text.now }
{
    match text.first() {
        Some(first) => *first == byte,
        None => false,
    }
}
