ghost use Rattle.std.specs.Prelude.{◌≡◌, ◌≤◌, ◌&&◌, [], length, take, drop, min, not, nat_eq, nat_le, IfOk, OnErr};
ghost use Rattle.link_edge.specs.Steps.{IsHeard, is_peer, step_event, step_rest, without_said};
ghost use Rattle.link_edge.specs.inner.Rests.{rest_at};
ghost use Rattle.link_edge.specs.declared.event.Event.TheVariants.{Rests};
ghost use Rattle.link_edge.specs.declared.event.FloorEvent.TheVariants.{Took};
ghost use Rattle.link_edge.specs.declared.step.Step.TheVariants.{Open, Say, Close};

use crate::telling::Telling;
use crate::{Event, FloorEvent, Step, Turn};
use mail_base::{NoMemory, Text, copy_front};

// The turn of a step of which the first bytes came before, and how many came by now where the step
// isn't done. Where there is no memory to tell it, nothing changes but the buffer.
pub(crate) fn hear(
    told: &mut Telling,
    step: &Step,
    said: usize,
    buf: &mut [u8],
) -> Result<(Turn, Option<usize>), NoMemory>
    requires { 64 ≤ length buf.old }
    ensures heard { IfOk result
        (λ turn. IsHeard told.old told.new
        (step_event told.old (length buf.old) (without_said said step.now)) turn.0 buf.new) }
    ensures left { IfOk result
        (λ turn. rest_at step.now turn.1
        ≡ step_rest told.old (length buf.old) (without_said said step.now)) }
    ensures kept { OnErr result (told.new ≡ told.old) }
{
    match step {
        Step::Open(peer) => Ok((hear_opening(told, peer, buf)?, None)),
        Step::Say(session, bytes) => {
            let (turn, count) = hear_bytes(told, *session, bytes, said, buf)?;
            Ok((turn, count))
        }
        Step::Close(session) => Ok((hear_end(told, *session, buf)?, None)),
        Step::Rest => Ok((rest(told, buf)?, None)),
    }
}

// An idle turn.
fn rest(told: &mut Telling, buf: &mut [u8]) -> Result<Turn, NoMemory>
    ensures heard { IfOk result (λ turn. IsHeard told.old told.new (Took Rests) turn buf.new) }
    ensures kept { OnErr result (told.new ≡ told.old) }
{
    told.pass(FloorEvent::Took(Event::Rests))?;
    Ok(Turn::Idle)
}

// A session that is opened.
fn hear_opening(told: &mut Telling, peer: &Text, buf: &mut [u8]) -> Result<Turn, NoMemory>
    requires { 64 ≤ length buf.old }
    ensures heard { IfOk result
        (λ turn. IsHeard told.old told.new
        (step_event told.old (length buf.old) (Open peer.now)) turn buf.new) }
    ensures kept { OnErr result (told.new ≡ told.old) }
{
    if !is_peer(peer.bytes()) {
        return rest(told, buf);
    }
    let session = told.open(peer.bytes())?;
    let count = copy_front(peer.bytes(), buf);
    Ok(Turn::Opened(session, count))
}

// Bytes of a session, without the first, and how many came by now where more are left.
fn hear_bytes(
    told: &mut Telling,
    session: u64,
    bytes: &Text,
    said: usize,
    buf: &mut [u8],
) -> Result<(Turn, Option<usize>), NoMemory>
    requires { 64 ≤ length buf.old }
    ensures heard { IfOk result
        (λ turn. IsHeard told.old told.new
        (step_event told.old (length buf.old)
        (Say session (drop said bytes.now))) turn.0 buf.new) }
    ensures left { IfOk result
        (λ turn. rest_at (Say session bytes.now) turn.1
        ≡ step_rest told.old (length buf.old) (Say session (drop said bytes.now))) }
    ensures kept { OnErr result (told.new ≡ told.old) }
{
    let left = behind(bytes.bytes(), said);
    if left.is_empty() || !told.is_sound(session) {
        return Ok((rest(told, buf)?, None));
    }
    let count = copy_front(left, buf);
    let piece = Text::of(bytes.allocator(), &left[..count])?;
    told.pass(FloorEvent::Took(Event::Brings(session, piece)))?;
    if count < left.len() {
        Ok((Turn::Piece(session, count), Some(said + count)))
    } else {
        Ok((Turn::Piece(session, count), None))
    }
}

// A session that is ended by its peer.
fn hear_end(told: &mut Telling, session: u64, buf: &mut [u8]) -> Result<Turn, NoMemory>
    ensures heard { IfOk result
        (λ turn. IsHeard told.old told.new
        (step_event told.old (length buf.old) (Close session)) turn buf.new) }
    ensures kept { OnErr result (told.new ≡ told.old) }
{
    if !told.is_open(session) {
        return rest(told, buf);
    }
    told.close(session)?;
    Ok(Turn::Closed(session))
}

// Whether these bytes are the address of a peer.
fn is_peer(bytes: &[u8]) -> bool
    ensures { result ≡ is_peer bytes.now }
{
    bytes.len() <= 64 && !bytes.contains(&b'\n')
}

// What stands behind the first bytes.
pub(crate) fn behind(bytes: &[u8], count: usize) -> &[u8]
    ensures { result.now ≡ drop count bytes.now }
{
    if count < bytes.len() {
        &bytes[count..]
    } else {
        &[]
    }
}
