ghost use Rattle.std.specs.Prelude.{◌+◌, ◌<◌, None, Some};
ghost use Rattle.std.specs.List.{flat_map};
ghost use Rattle.mail_base.specs.Texts.{IsHeader};
ghost use Rattle.qf_format.specs.inner.Reading.{Reads};
ghost use Rattle.qf_format.specs.inner.Parts.{At, EachHeader, NotBlank, IsHeaderEnd};
ghost use Rattle.qf_format.specs.Spelling.{header_lines};

use crate::field::{after_tag, byte_at, first_byte, split_end};
use crate::stop::Stop;
use mail_base::{Seq, Text, is_blank};
use std::alloc::Global;

/// The headers at the front, and what comes after them.
pub(crate) fn headers_of(alloc: Global, bytes: &[u8]) -> Result<(Seq<Text>, &[u8]), Stop>
    ensures { Reads (λ r. r.0) (λ r. r.1.now) (flat_map header_lines) EachHeader
        (At 46) bytes.now result }
{
    let mut headers = Seq::new(alloc);
    let mut rest = bytes;
    'headers: while first_byte(rest) == b'H' {
        let (header, after) = header_of(alloc, rest)?;
        headers.push(header)?;
        rest = after;
    }
    Ok((headers, rest))
}

fn header_of(alloc: Global, bytes: &[u8]) -> Result<(Text, &[u8]), Stop>
    ensures { Reads (λ r. r.0) (λ r. r.1.now) header_lines IsHeader NotBlank bytes.now result }
{
    let Some(text) = after_tag(b"H", bytes) else {
        return Err(Stop::Outside);
    };
    match header_end(text) {
        Some(at) => {
            let (header, rest) = split_end(text, at);
            Ok((Text::of(alloc, header)?, rest))
        }
        None => Err(Stop::Outside),
    }
}

// The place of the first LF that no blank follows.
fn header_end(text: &[u8]) -> Option<usize>
    ensures { IsHeaderEnd text.now result }
{
    for (at, byte) in text.iter().enumerate() {
        if *byte == b'\n' && !is_blank(byte_at(text, at + 1)) {
            return Some(at);
        }
    }
    None
}
