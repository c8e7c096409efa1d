ghost use Rattle.std.specs.Prelude.{◌≡◌, ◌++◌, ◌-◌, ◌==◌, ◌≤◌, length, slice_index};
ghost use Rattle.std.specs.Str.Lines.{strip_carriage_return};
ghost use Rattle.mail_base.specs.Texts.{crlf};
ghost use Rattle.mail_submit.specs.Inputs as spec;

use mail_base::without_return;

/// What has to stand behind a line that it ends in CR LF.
pub(crate) fn line_end(line: &[u8]) -> &'static [u8]
    ensures { line.now ++ result.now ≡ strip_carriage_return line.now ++ crlf }
{
    if ends_in_return(line) {
        return b"\n";
    }
    b"\r\n"
}

fn ends_in_return(line: &[u8]) -> bool
    ensures { result ≡ (slice_index line.now (length line.now - 1) == 13) }
{
    !line.is_empty() && line[line.len() - 1] == b'\r'
}

/// Whether a line is `.`, with a CR behind it or without.
pub(crate) fn is_dot(line: &[u8]) -> bool
    ensures { result ≡ spec.is_dot line.now }
{
    without_return(line) == b".".as_slice()
}

/// What counts of bytes that no LF ended: not a CR at their end, and not a lone `.`.
pub(crate) fn counted(line: &[u8]) -> usize
    ensures count { result ≡ spec.counted line.now }
    ensures within { result ≤ length line.now }
{
    if is_dot(line) {
        return 0;
    }
    without_return(line).len()
}
