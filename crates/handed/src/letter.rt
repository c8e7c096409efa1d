//! What a mailer is handed of a message: the program that is started, with its input.

use crate::order::Order;
use addr_route::{route, sender_for};
use anyhow::{Result, bail};
use cf_macros::session_macros;
use header_rewrite::rewritten;
use mail_base::{
    Config, Macros, Mailer, NoMemory, Resolved, Seq, Split, Text, Triple, TryCopy, literal,
};
use mail_header::{added, date_of, dated, outgoing, received, split};
use mailer_pipe::{are_arguments, begin, takes_users};
use map_tables::Maps;
use spawn_edge::ScriptSpawner;
use std::alloc::Global;

/// The mailer and the host that all recipients of an order go to, and their users.
#[derive(Drop)]
struct Batch {
    mailer: Text,
    host: Text,
    users: Seq<Text>,
}

/// Starts a program in memory, which tells how it was started.
pub(crate) fn started(alloc: Global, config: &Config, order: &Order) -> Result<ScriptSpawner> {
    let maps = Maps::load(alloc, config, &Seq::new(alloc), &Text::new(alloc))?;
    let macros = entry_macros(alloc, config, order)?;
    let batch = batch_of(alloc, config, &maps, &macros, &order.recipients)?;
    let Some(mailer) = config.mailer(&batch.mailer) else {
        bail!("no mailer");
    };
    if !takes_users(mailer) || !are_arguments(&batch.users) {
        bail!("users that are no arguments");
    }
    let split = split(&order.message)?;
    let sender = sender_for(alloc, config, &maps, &macros, mailer, &order.sender)?;
    let first = received(
        config,
        &dates(alloc, macros.copy()?, &split, order, order.created)?,
    )?;
    let macros = aimed(alloc, macros, &batch.host, &sender)?;
    let macros = dates(alloc, macros, &split, order, order.moment)?;
    let text = text_of(config, &maps, mailer, &macros, first, split)?;
    let mut spawner = ScriptSpawner::new(alloc, Seq::new(alloc), Seq::new(alloc));
    begin(alloc, &mut spawner, mailer, &macros, &batch.users, &text)?;
    Ok(spawner)
}

// The macros of the session of a message, and its id.
fn entry_macros(alloc: Global, config: &Config, order: &Order) -> Result<Macros, NoMemory> {
    let mut macros = session_macros(alloc, config, &order.kept, &order.sender)?;
    macros.define(b"i", &order.id)?;
    Ok(macros)
}

// The same with the dates of a message at a moment.
fn dates(
    alloc: Global,
    macros: Macros,
    split: &Split,
    order: &Order,
    moment: u64,
) -> Result<Macros, NoMemory> {
    let date = literal(alloc, date_of(&split.headers, order.created)?.bytes())?;
    let mut macros = dated(alloc, macros, moment)?;
    macros.define(b"a", &date)?;
    Ok(macros)
}

// The same with a host and the sender for a mailer.
fn aimed(alloc: Global, macros: Macros, host: &Text, sender: &Text) -> Result<Macros, NoMemory> {
    let mut macros = macros;
    macros.define(b"h", &literal(alloc, host.bytes())?)?;
    macros.define(b"g", &literal(alloc, sender.bytes())?)?;
    Ok(macros)
}

// Where recipients go, which must be the same mailer and host.
fn batch_of(
    alloc: Global,
    config: &Config,
    maps: &Maps,
    macros: &Macros,
    recipients: &Seq<Text>,
) -> Result<Batch> {
    let mut batch = Batch {
        mailer: Text::new(alloc),
        host: Text::new(alloc),
        users: Seq::new(alloc),
    };
    for (place, recipient) in recipients.items().iter().enumerate() {
        let triple = triple_of(alloc, config, maps, macros, recipient)?;
        if place > 0 && (triple.mailer != batch.mailer || triple.host != batch.host) {
            bail!("recipients of several batches");
        }
        batch.mailer = triple.mailer;
        batch.host = triple.host;
        batch.users.push(triple.user)?;
    }
    Ok(batch)
}

fn triple_of(
    alloc: Global,
    config: &Config,
    maps: &Maps,
    macros: &Macros,
    recipient: &Text,
) -> Result<Triple> {
    match route(alloc, config, maps, macros, recipient, true)? {
        Resolved::Goes(triple) => Ok(triple),
        Resolved::Refuses(_) => bail!("a recipient that is refused"),
    }
}

// The text that a mailer gets, with the header that was put first on receipt.
fn text_of(
    config: &Config,
    maps: &Maps,
    mailer: &Mailer,
    macros: &Macros,
    first: Option<Text>,
    split: Split,
) -> Result<Text, NoMemory> {
    let mut headers = Seq::new(split.body.allocator());
    if let Some(header) = first {
        headers.push(header)?;
    }
    for header in split.headers.items() {
        headers.push(header.copy()?)?;
    }
    let headers = added(config, mailer, macros, &headers)?;
    let headers = rewritten(config, maps, macros, mailer, &headers)?;
    outgoing(mailer, macros, &headers, &split.body)
}
