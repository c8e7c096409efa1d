//! A session of so many messages as the third word says, of which each has so many recipients and
//! becomes entries of a hundred of them. Calls of the spool are counted, those to open the queue
//! too.

use crate::names::{FIRST, numbered};
use crate::queue::{says, serve};
use anyhow::Result;
use link_edge::{ScriptFloor, Step};
use mail_base::{NoMemory, Seq, Text};
use spool_disk::MemSpool;
use std::alloc::Global;

// Each address goes to a mailer, whose group has entries of a hundred rows.
static CONFIG: &[u8] = b"Qhundreds, Path=/var/spool/mqueue, recipients=100\n\
        Mlocal, P=/bin/mail, Q=hundreds, A=mail -d $u\nS0\nR$*\t$#local $: $1\n";

pub(crate) fn calls(alloc: Global, recipients: u32, rounds: u32) -> Result<u64> {
    let mut floor = floor(alloc, recipients, rounds)?;
    let mut spool = MemSpool::new(alloc, Seq::new(alloc));
    serve(alloc, CONFIG, &mut spool, &mut floor)
}

fn floor(alloc: Global, recipients: u32, messages: u32) -> Result<ScriptFloor, NoMemory> {
    let mut steps = Seq::new(alloc);
    steps.push(Step::Open(Text::of(alloc, b"192.0.2.1")?))?;
    steps.push(says(alloc, b"HELO c.example\r\n")?)?;
    for _ in 0..messages {
        add_message(alloc, &mut steps, recipients)?;
    }
    Ok(ScriptFloor::new(alloc, steps, Seq::new(alloc), Seq::new(alloc)))
}

fn add_message(alloc: Global, steps: &mut Seq<Step>, recipients: u32) -> Result<(), NoMemory> {
    steps.push(says(alloc, b"MAIL FROM:<bob@c.example>\r\n")?)?;
    for number in FIRST..FIRST.saturating_add(recipients) {
        let line = numbered(alloc, "RCPT TO:<u", number, "@mx.example>\r\n")?;
        steps.push(Step::Say(1, line))?;
    }
    steps.push(says(alloc, b"DATA\r\nSubject: hi\r\n\r\nhello\r\n.\r\n")?)
}
