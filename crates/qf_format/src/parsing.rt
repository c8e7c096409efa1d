ghost use Rattle.std.specs.Prelude.{◌≡◌, ◌↔◌, IsTrue, IfOk, IfSome, IfNone, None, Some, codes};
ghost use Rattle.mail_base.specs.declared.control.Control.{Control};
ghost use Rattle.qf_format.specs.inner.Reading.{Reads, Anything};
ghost use Rattle.qf_format.specs.inner.Parts.{IsEnvelope, IsOrder, IsPlace, Parses, envelope_text, order_text, place_text};
ghost use Rattle.qf_format.specs.Saying.{Says};
ghost use Rattle.qf_format.specs.Spelling.{kept_lines, line};
ghost use Rattle.qf_format.specs.Valid.{AreKept};

use crate::field::text_field;
use crate::header::headers_of;
use crate::line::{
    class_line, eight_of, marks_of, number_line, parent_of, priority_line, revision_line, sender_of,
};
use crate::part::{Envelope, Order, Place};
use crate::row::rows_of;
use crate::stop::Stop;
use mail_base::{Control, Kept, NoMemory, Text};
use std::alloc::Global;

/// The control that the bytes say, or `None` exactly where they say none.
pub fn parse(bytes: &Text) -> Result<Option<Control>, NoMemory>
    ensures some { IfOk result (λ r. IfSome r (Says bytes.now)) }
    ensures exact { (c : Control) → Says bytes.now c → IfOk result (λ r. r ≡ Some c) }
    ensures none { IfOk result (λ r. IfNone r ((c : Control) → Says bytes.now c → ⊥)) }
{
    match control_of(bytes.allocator(), bytes.bytes()) {
        Ok(control) => Ok(Some(control)),
        Err(Stop::Outside) => Ok(None),
        Err(Stop::Memory) => Err(NoMemory),
    }
}

fn control_of(alloc: Global, bytes: &[u8]) -> Result<Control, Stop>
    ensures { Parses bytes.now result }
{
    let (place, rest) = place_of(alloc, bytes)?;
    let (order, rest) = order_of(rest)?;
    let (envelope, rest) = envelope_of(alloc, rest)?;
    let (kept, rest) = kept_of(alloc, rest)?;
    let (rows, rest) = rows_of(alloc, rest)?;
    let (headers, rest) = headers_of(alloc, rest)?;
    if !is_end(rest) {
        return Err(Stop::Outside);
    }
    Ok(Control {
        revision: place.revision,
        parent: place.parent,
        group: place.group,
        created: order.created,
        last_try: order.last_try,
        tries: order.tries,
        priority: order.priority,
        class: order.class,
        marks: envelope.marks,
        eight: envelope.eight,
        sender: envelope.sender,
        kept,
        rows,
        headers,
    })
}

// Whether the bytes are the last line.
fn is_end(bytes: &[u8]) -> bool
    ensures { IsTrue result ↔ (bytes.now ≡ line (codes ".")) }
{
    bytes == b".\n".as_slice()
}

fn place_of(alloc: Global, bytes: &[u8]) -> Result<(Place, &[u8]), Stop>
    ensures { Reads (λ r. r.0) (λ r. r.1.now) place_text IsPlace Anything bytes.now result }
{
    let (revision, rest) = revision_line(b"V1\nv", bytes)?;
    let (parent, rest) = match parent_of(rest) {
        Ok(read) => read,
        Err(stop) => return Err(stop),
    };
    let (group, rest) = text_field(alloc, b"g", rest)?;
    let place = Place {
        revision,
        parent,
        group,
    };
    Ok((place, rest))
}

fn order_of(bytes: &[u8]) -> Result<(Order, &[u8]), Stop>
    ensures { Reads (λ r. r.0) (λ r. r.1.now) order_text IsOrder Anything bytes.now result }
{
    let (created, rest) = number_line(b"T", bytes)?;
    let (last_try, rest) = number_line(b"K", rest)?;
    let (tries, rest) = number_line(b"N", rest)?;
    let (priority, rest) = priority_line(b"P", rest)?;
    let (class, rest) = class_line(b"c", rest)?;
    let order = Order {
        created,
        last_try,
        tries,
        priority,
        class,
    };
    Ok((order, rest))
}

fn envelope_of(alloc: Global, bytes: &[u8]) -> Result<(Envelope, &[u8]), Stop>
    ensures { Reads (λ r. r.0) (λ r. r.1.now) envelope_text IsEnvelope Anything bytes.now result }
{
    let (marks, rest) = marks_of(bytes)?;
    let (eight, rest) = eight_of(rest)?;
    let (sender, rest) = sender_of(alloc, rest)?;
    let envelope = Envelope {
        marks,
        eight,
        sender,
    };
    Ok((envelope, rest))
}

fn kept_of(alloc: Global, bytes: &[u8]) -> Result<(Kept, &[u8]), Stop>
    ensures { Reads (λ r. r.0) (λ r. r.1.now) kept_lines AreKept Anything bytes.now result }
{
    let (protocol, rest) = text_field(alloc, b"$r", bytes)?;
    let (helo, rest) = text_field(alloc, b"$s", rest)?;
    let (client, rest) = text_field(alloc, b"${client_addr}", rest)?;
    let kept = Kept {
        protocol,
        helo,
        client,
    };
    Ok((kept, rest))
}
