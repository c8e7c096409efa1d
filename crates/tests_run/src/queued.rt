// The listing of a queue, as a call.

use mail_base::{Config, NoMemory, Seq, StoreFault, Text};
use queue_table::{Table, Terms};
use sendmail_run::listing;
use spool_disk::{File, MemSpool};
use spool_store::Queue;
use std::alloc::Global;
use std::test::Fail;

const CONTROL: &[u8] =
    b"V1\nv1\ngmqueue\nT1767225600\nK0\nN0\nP30022\nc0\nS<bob@c.example>\n$rSMTP\n$sc.example\n\
        ${client_addr}192.0.2.1\nRPFD:<ann@mx.example>\neQ\nHSubject: hi\n.\n";

static LISTING: &[u8] = b"w000000000001 mqueue 7 30022 <bob@c.example>\n\
    \x20 Q <ann@mx.example>\n\
    strange: /var/spool/mqueue/note\n\
    Total requests: 1\n";

// A file of the queue.
fn file(alloc: Global, name: &[u8], bytes: &[u8]) -> Result<File, NoMemory> {
    let dir = Text::of(alloc, b"/var/spool/mqueue")?;
    let name = Text::of(alloc, name)?;
    let bytes = Text::of(alloc, bytes)?;
    Ok(File { dir, name, bytes })
}

// The files of an entry, and one of another name.
static FILES: [(&[u8], &[u8]); 3] = [
    (b"qfw000000000001", CONTROL),
    (b"dfw000000000001", b"hello\r\n"),
    (b"note", b""),
];

// A queue of these files, some of whose calls fail.
fn queue(alloc: Global, failing: Seq<u64>) -> Result<MemSpool, NoMemory> {
    let mut files = Seq::new(alloc);
    for (name, bytes) in &FILES {
        files.push(file(alloc, name, bytes)?)?;
    }
    MemSpool::of(alloc, files, failing)
}

fn table_over(alloc: Global, spool: &mut MemSpool, config: &Config) -> Result<Table, StoreFault> {
    let dirs = Terms::of(config)?.dirs()?;
    let opened = Queue::open(alloc, spool, &dirs)?;
    Ok(Table::over(opened, config)?)
}

// The listing of a queue that is opened, of which that call fails.
fn listed(alloc: Global, fails: u64) -> Result<Text, StoreFault> {
    let mut failing = Seq::new(alloc);
    failing.push(fails)?;
    let mut spool = queue(alloc, failing)?;
    let config = Config::new(alloc)?;
    let table = table_over(alloc, &mut spool, &config)?;
    listing(alloc, &table, &mut spool)
}

#[test]
fn a_queue_is_listed(rt: HostRuntime) -> Result<(), Fail> {
    assert!(rt; listed(rt.alloc(), 99)?.bytes() == LISTING);
    Ok(())
}

#[test]
fn a_body_that_cannot_be_read_is_a_fault_of_the_spool(rt: HostRuntime) {
    assert!(rt; listed(rt.alloc(), 2).err() == Some(StoreFault::SpoolFault));
}
