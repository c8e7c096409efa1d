ghost use Rattle.std.specs.Prelude.{◌≡◌, ◌<◌, Contains, IfOk, OnErr, Some, false, length, slice_get};
ghost use Rattle.mailer_smtp.specs.Deliveries.{Delivered};
ghost use Rattle.spawn_edge.specs.Spawned.{Spawned};
ghost use Rattle.spool_store.specs.Entries.{Table as Entries};
ghost use Rattle.spool_store.specs.Stores.{HasId};
ghost use Rattle.spool_store.specs.declared.held.Held.{Held};
ghost use Rattle.queue_table.specs.Calls.{HoldsTable, Tallies, store};
ghost use Rattle.queue_run.specs.declared.batch.Batch.{Batch as TheBatch};
ghost use Rattle.queue_run.specs.Handovers as spec;
ghost use Rattle.queue_run.specs.Holders.{holder_of};
ghost use Rattle.queue_run.specs.Kinds.{Talks};
ghost use Rattle.queue_run.specs.Meant.{ground_of};
ghost use Rattle.queue_run.specs.Ready.{IsReady};
ghost use Rattle.queue_run.specs.Working.{IsWhole, Steps, bench, kind_in};

use crate::handing::{hand, host_of, is_large};
use crate::putting::{put, put_alike, reserve};
use crate::results::too_large;
use crate::splitting::has_flag;
use crate::{Did, Letter, RunStop, Runner};
use cf_macros::host_name;
use link_edge::{Dialer, Peer};
use mail_base::{Config, Id, Mailer, NoMemory, Outcomes, Seq, Text};
use mailer_smtp::{Letter as Mail, Speech, deliver};
use map_tables::Maps;
use queue_table::Table;
use spool_disk::Spool;
use std::alloc::Global;

impl Runner {
    // A batch is delivered to peers, and what became of each row is recorded. All memory is taken
    // before the first dial.
    pub(crate) fn talk<D: Spool, N: Dialer>(
        &mut self,
        alloc: Global,
        table: &mut Table,
        spool: &mut D,
        dialer: &mut N,
        config: &Config,
        maps: &Maps,
        mailer: &Mailer,
        peers: &Seq<Peer>,
        moment: u64,
    ) -> Result<Did, RunStop>
        requires agrees { Tallies table.old (D.seen spool.old) }
        requires whole { (store table.old).broken ≡ false }
        requires ready { IsReady table.old self.old }
        requires some { 0 < length self.old.rest.items }
        ensures steps { (entries : Entries) (spawner : Spawned) (batch : TheBatch)
            → IsWhole config.now table.old → HoldsTable table.old entries
            → slice_get (holder_of self.old).rest 0 ≡ Some batch
            → kind_in (ground_of config.now maps.now moment) entries (holder_of self.old)
            ≡ Talks batch mailer.now peers.now
            → Steps (ground_of config.now maps.now moment) entries table.old table.new self.old
            self.new (bench (D.seen spool.old) spawner (N.seen dialer.old))
            (bench (D.seen spool.new) spawner (N.seen dialer.new)) result }
    {
        let Some(batch) = self.rest.pop() else {
            unreachable!()
        };
        let host = host_of(alloc, &batch.resolved)?;
        let letter = hand(
            alloc, table, spool, config, maps, mailer, &self.id, &host, moment,
        )?;
        if is_large(mailer, &letter) {
            let one = too_large();
            return put_alike(alloc, table, spool, &self.id, &batch.places, &one, moment);
        }
        let reserved = reserve(table, &self.id, &batch.places)?;
        let users = batch.into_users();
        let mail = mail_for(alloc, table, config, &self.id, users, letter)?;
        let outcomes = hand_over(alloc, dialer, mailer, peers, &mail)?;
        put(table, spool, reserved, &outcomes, moment)
    }
}

// What is handed over of a letter for these users of its entry.
fn mail_for(
    alloc: Global,
    table: &Table,
    config: &Config,
    id: &Id,
    users: Seq<Text>,
    letter: Letter,
) -> Result<Mail, NoMemory>
    requires entry { HasId (store table.now).entries id.now }
    ensures is { (h : Held) → Contains (store table.now).entries h → h.entry.id ≡ id.now
        → IfOk result (λ mail. mail ≡ spec.mail_of config.now h.entry.control users letter) }
{
    let eight = table.queue().entry(id).control.eight;
    let host = host_name(alloc, &config.macros)?;
    Ok(letter.into_mail(host, users, eight))
}

// Hands a letter over to peers, and says what became of each of its users. It takes its memory
// before it dials.
fn hand_over<N: Dialer>(
    alloc: Global,
    dialer: &mut N,
    mailer: &Mailer,
    peers: &Seq<Peer>,
    mail: &Mail,
) -> Result<Outcomes, NoMemory>
    ensures delivered { IfOk result (λ outcomes. Delivered (spec.speech_of mailer.now) mail.now
        peers.now (N.seen dialer.old) (N.seen dialer.new) outcomes.results) }
    ensures each { IfOk result (λ outcomes. length outcomes.results ≡ length mail.now.users) }
    ensures none { OnErr result (N.seen dialer.new ≡ N.seen dialer.old) }
{
    let mut outcomes = Outcomes {
        results: Seq::new(alloc),
    };
    deliver(alloc, dialer, peers, speech_of(mailer), mail, &mut outcomes)?;
    Ok(outcomes)
}

// The protocol that a mailer speaks.
fn speech_of(mailer: &Mailer) -> Speech
    ensures { result ≡ spec.speech_of mailer.now }
{
    if has_flag(mailer, b'z') {
        return Speech::Lmtp;
    }
    Speech::Smtp
}
