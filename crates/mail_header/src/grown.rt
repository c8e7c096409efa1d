ghost use Rattle.std.specs.Prelude.{◌≡◌, ◌<◌, ◌++◌, ◌∷◌, length, OnOk, OnErr};
ghost use Rattle.mail_header.specs.inner.Added.{header_added, onto_last};

use crate::header_lines::is_continuation;
use mail_base::{NoMemory, Seq, Text};
use std::mem;

/// Adds a line of the header block: as a header's first, or onto the last header. After
/// `NoMemory` all is as before.
pub(crate) fn add_header_line(headers: &mut Seq<Text>, line: &[u8]) -> Result<(), NoMemory>
    ensures ok { OnOk result (headers.new ≡ header_added line.now headers.old) }
    ensures err { OnErr result (headers.new ≡ headers.old) }
{
    if is_continuation(line) {
        return extend_last(headers, line);
    }
    headers.push(Text::of(headers.allocator(), line)?)
}

fn extend_last(headers: &mut Seq<Text>, line: &[u8]) -> Result<(), NoMemory>
    ensures ok { OnOk result (headers.new ≡ onto_last line.now headers.old) }
    ensures err { OnErr result (headers.new ≡ headers.old) }
{
    let alloc = headers.allocator();
    if headers.is_empty() {
        return headers.push(Text::of(alloc, line)?);
    }
    let mut items = mem::replace(headers, Seq::new(alloc)).into_vec();
    let done = lengthen_last(&mut items, line);
    *headers = Seq::from_vec(items);
    done
}

#[tactic(auto, using(crate::proofs::SplitLemmas::onto_last_push))]
fn lengthen_last(headers: &mut Vec<Text>, line: &[u8]) -> Result<(), NoMemory>
    requires { 0 < length headers.old.items }
    ensures ok { OnOk result (headers.new.items ≡ onto_last line.now headers.old.items) }
    ensures err { OnErr result (headers.new.items ≡ headers.old.items) }
{
    let mut last = headers.take_last();
    let done = extend_both(&mut last, b"\r\n", line);
    headers.push_reserved(last);
    done
}

/// Adds two texts at the end. After `NoMemory` it is as before.
fn extend_both(text: &mut Text, first: &[u8], second: &[u8]) -> Result<(), NoMemory>
    ensures ok { OnOk result (text.new ≡ text.old ++ (first.now ++ second.now)) }
    ensures err { OnErr result (text.new ≡ text.old) }
{
    let mut bytes = mem::replace(text, Text::new(text.allocator())).into_vec();
    let done = push_both(&mut bytes, first, second);
    *text = Text::from_vec(bytes);
    done
}

/// Adds two texts at the end. It is put in where it is called, so that a known line end costs no
/// call. After `NoMemory` all is as before.
#[inline(always)]
pub(crate) fn push_both(bytes: &mut Vec<u8>, first: &[u8], second: &[u8]) -> Result<(), NoMemory>
    ensures ok { OnOk result (bytes.new.items ≡ bytes.old.items ++ (first.now ++ second.now)) }
    ensures err { OnErr result (bytes.new.items ≡ bytes.old.items) }
{
    let length = bytes.len();
    bytes.extend_from_slice(first)?;
    if bytes.extend_from_slice(second).is_err() {
        bytes.truncate(length);
        return Err(NoMemory);
    }
    Ok(())
}
