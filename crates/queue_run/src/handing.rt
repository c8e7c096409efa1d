ghost use Rattle.std.specs.Prelude.{◌≡◌, ◌≤◌, Contains, IfOk, Some, false};
ghost use Rattle.spool_disk.specs.Disk.{FileMap};
ghost use Rattle.spool_disk.specs.Spooled.{Reads};
ghost use Rattle.spool_store.specs.Entries.{Table as Entries};
ghost use Rattle.spool_store.specs.Settled.{StandsFor};
ghost use Rattle.spool_store.specs.Stores.{HasId};
ghost use Rattle.spool_store.specs.declared.held.Held.{Held};
ghost use Rattle.queue_table.specs.Calls.{Tallies, store};
ghost use Rattle.queue_run.specs.Kinds.{host_macros};
ghost use Rattle.queue_run.specs.Meant.{IsLetter, ground_of, host_of, letter_macros};
ghost use Rattle.queue_run.specs.Working.{IsBodyOf};
ghost use Rattle.queue_run.specs.Steps.{is_large};
ghost use Rattle.queue_run.specs.inner.Handed.{HasHandFault, stop_of};

use crate::claiming::claim_macros;
use crate::{Letter, RunStop};
use addr_route::sender_for;
use header_rewrite::rewritten;
use mail_base::{
    Config, Control, Id, Macros, Mailer, NoMemory, Resolved, StoreFault, Text, TryCopy, literal,
};
use mail_header::{added, date_of, dated, outgoing};
use map_tables::Maps;
use queue_table::Table;
use spool_disk::Spool;
use std::alloc::Global;

// The host to which a batch goes.
pub(crate) fn host_of(alloc: Global, resolved: &Resolved) -> Result<Text, NoMemory>
    ensures { IfOk result (λ host. host ≡ host_of resolved.now) }
{
    match resolved {
        Resolved::Goes(triple) => triple.host.copy(),
        Resolved::Refuses(_error) => Ok(Text::new(alloc)),
    }
}

// What templates see of an entry and a host: the macros of its claim, and h.
pub(crate) fn host_macros(
    alloc: Global,
    config: &Config,
    id: &Id,
    control: &Control,
    host: &Text,
) -> Result<Macros, NoMemory>
    ensures { IfOk result (λ macros. macros ≡ host_macros config.now id.now control.now host.now) }
{
    let host = literal(alloc, host.bytes())?;
    let mut macros = claim_macros(alloc, config, id, control)?;
    macros.define(b"h", &host)?;
    Ok(macros)
}

// The same with the date of the message and the sender for the mailer.
fn letter_macros(
    alloc: Global,
    macros: Macros,
    date: &Text,
    sender: &Text,
) -> Result<Macros, NoMemory>
    ensures { IfOk result (λ all. all ≡ letter_macros macros date.now sender.now) }
{
    let date = literal(alloc, date.bytes())?;
    let sender = literal(alloc, sender.bytes())?;
    let mut macros = macros;
    macros.define(b"a", &date)?;
    macros.define(b"g", &sender)?;
    Ok(macros)
}

// What a mailer is handed of an entry with that body.
fn letter(
    alloc: Global,
    config: &Config,
    maps: &Maps,
    mailer: &Mailer,
    id: &Id,
    control: &Control,
    host: &Text,
    body: Text,
    moment: u64,
) -> Result<Letter, NoMemory>
    ensures is { IfOk result
        (IsLetter (ground_of config.now maps.now moment) id.now control.now mailer.now host.now) }
    ensures body { IfOk result (λ letter. letter.body ≡ body) }
{
    let macros = claim_macros(alloc, config, id, control)?;
    let sender = sender_for(alloc, config, maps, &macros, mailer, &control.sender)?;
    let date = date_of(&control.headers, control.created)?;
    let macros = host_macros(alloc, config, id, control, host)?;
    let macros = letter_macros(alloc, macros, &date, &sender)?;
    let macros = dated(alloc, macros, moment)?;
    let headers = added(config, mailer, &macros, &control.headers)?;
    let headers = rewritten(config, maps, &macros, mailer, &headers)?;
    let text = outgoing(mailer, &macros, &headers, &body)?;
    Ok(Letter {
        body,
        sender,
        date,
        macros,
        headers,
        text,
    })
}

// Whether a text is longer than a mailer takes.
pub(crate) fn is_large(mailer: &Mailer, letter: &Letter) -> bool
    ensures { result ≡ is_large mailer.now letter.now }
{
    mailer.most != 0 && mailer.most < letter.text.len() as u64
}

// Why a run ends where the store has no answer.
pub(crate) fn stop_of(fault: StoreFault) -> RunStop
    ensures { result ≡ stop_of fault }
{
    match fault {
        StoreFault::SpoolFault => RunStop::SpoolFault,
        StoreFault::IdsSpent => RunStop::IdsSpent,
        StoreFault::NoMemory => RunStop::NoMemory,
    }
}

// What a mailer is handed of an entry: its body is read, and the text is made.
pub(crate) fn hand<D: Spool>(
    alloc: Global,
    table: &Table,
    spool: &mut D,
    config: &Config,
    maps: &Maps,
    mailer: &Mailer,
    id: &Id,
    host: &Text,
    moment: u64,
) -> Result<Letter, RunStop>
    requires agrees { Tallies table.now (D.seen spool.old) }
    requires whole { (store table.now).broken ≡ false }
    requires entry { HasId (store table.now).entries id.now }
    ensures is { (h : Held) → Contains (store table.now).entries h → h.entry.id ≡ id.now
        → IfOk result (IsLetter (ground_of config.now maps.now moment) id.now h.entry.control
        mailer.now host.now) }
    ensures body { (files : FileMap) (entries : Entries) → (D.seen spool.old).told ≡ Some files
        → StandsFor (store table.now).dirs entries files
        → IfOk result (λ letter. IsBodyOf entries id.now letter.body) }
    ensures reads { Reads (D.seen spool.old) (D.seen spool.new) }
    ensures later { (D.seen spool.old).faults ≤ (D.seen spool.new).faults }
    ensures fault { HasHandFault (D.seen spool.old).faults (D.seen spool.new).faults result }
{
    let body = match table.queue().body(spool, id) {
        Ok(body) => body,
        Err(fault) => return Err(stop_of(fault)),
    };
    let control = &table.queue().entry(id).control;
    let letter = letter(alloc, config, maps, mailer, id, control, host, body, moment)?;
    Ok(letter)
}
