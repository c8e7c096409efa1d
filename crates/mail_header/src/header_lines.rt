ghost use Rattle.std.specs.Prelude.{◌≡◌, ◌≤◌, ◌&&◌, nat_lt, length, take};
ghost use Rattle.std.specs.List.{list_all};
ghost use Rattle.mail_header.specs.Headers as spec;
ghost use Rattle.mail_header.specs.Lines as lines;

use bstr::ByteSlice;
use mail_base::is_blank;

/// Whether a line stands in the header block, by whether that has begun.
pub(crate) fn belongs(begun: bool, line: &[u8]) -> bool
    ensures { result ≡ lines.belongs begun line.now }
{
    is_header(line) || (begun && is_continuation(line))
}

/// Whether a line is a header's first.
pub(crate) fn is_header(line: &[u8]) -> bool
    ensures { result ≡ spec.is_header line.now }
{
    match line.find_byte(b':') {
        Some(end) => is_header_by(line, end),
        None => false,
    }
}

// The same, where its first colon is known.
fn is_header_by(line: &[u8], end: usize) -> bool
    requires { end ≤ length line.now }
    ensures { result ≡ ((nat_lt 0 end && list_all spec.is_name_byte (take end line.now))
        && list_all spec.is_plain line.now) }
{
    (end > 0 && is_name(&line[..end])) && is_line(line)
}

/// Whether a line goes on with a header.
pub(crate) fn is_continuation(line: &[u8]) -> bool
    ensures { result ≡ spec.is_continuation line.now }
{
    !line.is_empty() && is_blank(line[0]) && is_line(line)
}

fn is_name(bytes: &[u8]) -> bool
    ensures { result ≡ list_all spec.is_name_byte bytes.now }
{
    bytes.iter().all(|byte| is_name_byte(*byte))
}

fn is_name_byte(byte: u8) -> bool
    ensures { result ≡ spec.is_name_byte byte }
{
    byte >= 33 && byte <= 126 && byte != b':'
}

fn is_line(line: &[u8]) -> bool
    ensures { result ≡ list_all spec.is_plain line.now }
{
    line.find_byteset(b"\r\n").is_none()
}
