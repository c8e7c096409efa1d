ghost use Rattle.std.specs.Prelude.{◌≡◌, ◌+◌, ◌<◌, IfOk, IfSome, IfNone, nat_lt, length};
ghost use Rattle.mail_header.specs.Headers.{IsBody, IsSplit, is_some_line};
ghost use Rattle.mail_header.specs.inner.Wholes.{BeginsLine, NoLine};

use crate::grown::add_header_line;
use crate::header_lines::belongs;
use bstr::ByteSlice;
use mail_base::{NoMemory, Seq, Split, Text};
use std::alloc::Global;

/// Splits a message's text into headers and body (RFC 5322, section 2.1). Its lines end at CR LF;
/// a last one without it is body. There is no limit.
pub fn split(message: &Text) -> Result<Split, NoMemory>
    ensures { IfOk result (λ split. IsSplit message.now split) }
{
    split_text(message.allocator(), message.bytes())
}

fn split_text(alloc: Global, text: &[u8]) -> Result<Split, NoMemory>
    ensures { IfOk result (λ split. IsSplit text.now split) }
{
    let mut headers = Seq::new(alloc);
    let mut place = 0;
    'lines: while let Some(end) = block_line(has_some(&headers), &text[place..]) {
        add_header_line(&mut headers, &text[place..place + end])?;
        place += end + 2;
    }
    let body = Text::of(alloc, body_behind(&text[place..]))?;
    let block = place as u64;
    Ok(Split {
        headers,
        body,
        block,
    })
}

fn has_some(headers: &Seq<Text>) -> bool
    ensures { result ≡ is_some_line headers.now }
{
    headers.len() > 0
}

/// The length of the header block's line at the front of a text, without its end; by whether the
/// block has begun.
fn block_line(begun: bool, text: &[u8]) -> Option<usize>
    ensures some { IfSome result (λ end. BeginsLine begun text.now end) }
    ensures none { IfNone result (NoLine begun text.now) }
{
    let Some(feed) = text.find_byte(b'\n') else {
        return None;
    };
    if feed == 0 || text[feed - 1] != b'\r' {
        return None;
    }
    let end = feed - 1;
    if belongs(begun, &text[..end]) {
        return Some(end);
    }
    None
}

/// The body of what is behind the headers.
fn body_behind(rest: &[u8]) -> &[u8]
    ensures { IsBody rest.now result.now }
{
    if rest.len() < 2 {
        return rest;
    }
    if rest[0] == b'\r' && rest[1] == b'\n' {
        return &rest[2..];
    }
    rest
}
