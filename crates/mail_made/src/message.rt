ghost use Rattle.std.specs.Int.{w64};
ghost use Rattle.std.specs.Prelude.{◌≡◌, ◌∷◌, ℕ, FitsSigned, IfOk};
ghost use Rattle.mail_base.specs.Drawing.{AreRows};
ghost use Rattle.queue_plan.specs.Cuts.{AreForms};
ghost use Rattle.mail_made.specs.Messages.{IsMessageMade, put_first};
ghost use Rattle.mail_made.specs.inner.Dated.{IsMacros};

use cf_macros::{Form, date, session_macros};
use mail_base::{Config, Cut, Id, Macros, Message, NoMemory, Seq, Text, TryCopy, literal};
use mail_header::{date_of, received};
use map_tables::Maps;
use queue_plan::{cuts, distinct};
use std::alloc::Global;
use std::mem;

/// What is made of a message that is taken in at a moment under an id: the message with the header
/// `Received` in front, if the configuration has one, and its parts, which have its rows. The
/// header is expanded with the id and the dates of the message; the set `queuegroup` sees the
/// macros of its session alone. What can't be made for want of memory takes the message with it.
pub fn made(
    alloc: Global,
    config: &Config,
    maps: &Maps,
    moment: u64,
    message: Message,
    id: Id,
) -> Result<(Message, Seq<Cut>), NoMemory>
    requires rows { AreRows message.rows }
    ensures is { IfOk result
        (λ made. IsMessageMade config.now maps.now moment message id made.0 made.1) }
    ensures form { IfOk result (λ made. AreForms made.1) }
{
    let session = session_macros(alloc, config, &message.kept, &message.sender)?;
    let macros = message_macros(alloc, &session, moment, &message, id)?;
    let first = received(config, &macros)?;
    let mut message = message;
    let rows = mem::replace(&mut message.rows, Seq::new(alloc));
    let rows = distinct(alloc, rows)?;
    let cuts = cuts(alloc, config, maps, &session, &rows)?;
    Ok((headed(first, message)?, cuts))
}

// The macros of a header `Received`: those of the message's session, its dates and its id.
fn message_macros(
    alloc: Global,
    session: &Macros,
    moment: u64,
    message: &Message,
    id: Id,
) -> Result<Macros, NoMemory>
    ensures { IfOk result (IsMacros session.now moment message.now id) }
{
    let told = date_of(&message.headers, moment)?;
    let mail = date(alloc, moment, Form::Mail)?;
    let unix = date(alloc, moment, Form::Unix)?;
    let short = date(alloc, moment, Form::Short)?;
    let id = id.text(alloc)?;
    let value = literal(alloc, told.bytes())?;
    let mut macros = session.copy()?;
    macros.define(b"a", &value)?;
    macros.define(b"b", &mail)?;
    macros.define(b"d", &unix)?;
    macros.define(b"t", &short)?;
    macros.define(b"i", &id)?;
    Ok(macros)
}

/// The class of a message has the range of its type: to read it says so.
pub fn has_class(message: &Message)
    ensures { FitsSigned w64 message.now.class }
{
    // Only its range is used: to read it tells it.
    let _class = message.class;
}

// A message with one header more in front, if there is one.
fn headed(first: Option<Text>, message: Message) -> Result<Message, NoMemory>
    ensures { IfOk result
        (λ all. all ≡ record message { headers = put_first first message.headers }) }
{
    let Some(first) = first else {
        return Ok(message);
    };
    let headers = with_first(first, message.headers)?;
    Ok(Message {
        sender: message.sender,
        rows: message.rows,
        headers,
        body: message.body,
        size: message.size,
        class: message.class,
        eight: message.eight,
        marks: message.marks,
        kept: message.kept,
    })
}

fn with_first(first: Text, headers: Seq<Text>) -> Result<Seq<Text>, NoMemory>
    ensures { IfOk result (λ all. all ≡ first ∷ headers) }
{
    let mut items = headers.into_vec();
    items.insert(0, first)?;
    Ok(Seq::from_vec(items))
}
