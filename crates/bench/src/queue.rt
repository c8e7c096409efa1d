//! Over a queue in memory with so many entries. `commits` serves one session of so many messages as
//! the third word says, and counts the calls of the spool that it takes, those to open the queue
//! too. `opening` opens it so many times, and counts its entries.

ghost use Rattle.std.specs.Prelude.{◌≡◌, IfOk, length};

use crate::control::{DIR, ONE_ROW, file_of};
use anyhow::{Result, bail, ensure};
use link_edge::{ScriptDialer, ScriptFloor, Step};
use mail_base::{Id, Kind, NoMemory, Seq, Text};
use mail_edge::{MemClock, MemFiles, MemSink, MemSource, SureFiles};
use sendmail_run::sendmail;
use spawn_edge::ScriptSpawner;
use spool_disk::MemSpool;
use spool_store::Queue;
use std::alloc::Global;

// Each address goes to a mailer.
static CONFIG: &[u8] = b"Mlocal, P=/bin/mail, A=mail -d $u\nS0\nR$*\t$#local $: $1\n";

static BODY: &[u8] = b"hello\r\n";

static MESSAGE: &[u8] = b"MAIL FROM:<bob@c.example>\r\nRCPT TO:<ann@mx.example>\r\nDATA\r\n\
        Subject: hi\r\n\r\nhello\r\n.\r\n";

pub(crate) fn commits(alloc: Global, entries: u32, rounds: u32) -> Result<u64> {
    let mut floor = floor(alloc, rounds)?;
    let mut spool = spool_of(alloc, entries)?;
    serve(alloc, CONFIG, &mut spool, &mut floor)
}

pub(crate) fn opened(alloc: Global, entries: u32, rounds: u32) -> Result<u64> {
    let dirs = dirs(alloc)?;
    let mut spool = spool_of(alloc, entries)?;
    let mut count = 0;
    for _ in 0..rounds {
        count = Queue::open(alloc, &mut spool, &dirs)?.entries().len() as u64;
    }
    Ok(count)
}

fn dirs(alloc: Global) -> Result<Seq<Text>, NoMemory> {
    let mut dirs = Seq::new(alloc);
    dirs.push(Text::of(alloc, DIR)?)?;
    Ok(dirs)
}

/// A spool in which so many entries stand, each in its two files.
fn spool_of(alloc: Global, entries: u32) -> Result<MemSpool, NoMemory> {
    let mut files = Seq::new(alloc);
    for number in 0..entries {
        let id = Id::new(u64::from(number) + 1);
        files.push(file_of(alloc, id, Kind::Df, BODY)?)?;
        files.push(file_of(alloc, id, Kind::Qf, ONE_ROW)?)?;
    }
    MemSpool::of(alloc, files, Seq::new(alloc))
}

/// What the peer of the one session says.
pub(crate) fn says(alloc: Global, words: &[u8]) -> Result<Step, NoMemory> {
    Ok(Step::Say(1, Text::of(alloc, words)?))
}

/// A floor whose one session says so many messages, a piece each.
fn floor(alloc: Global, messages: u32) -> Result<ScriptFloor, NoMemory> {
    let mut steps = Seq::new(alloc);
    steps.push(Step::Open(Text::of(alloc, b"192.0.2.1")?))?;
    steps.push(says(alloc, b"HELO c.example\r\n")?)?;
    for _ in 0..messages {
        steps.push(says(alloc, MESSAGE)?)?;
    }
    Ok(ScriptFloor::new(alloc, steps, Seq::new(alloc), Seq::new(alloc)))
}

fn words(alloc: Global) -> Result<Seq<Text>, NoMemory>
    ensures { IfOk result (λ words. length words ≡ 2) }
{
    let mut words = Seq::new(alloc);
    words.push(Text::of(alloc, b"-bs")?)?;
    words.push(Text::of(alloc, b"-Cqueue.cf")?)?;
    Ok(words)
}

fn sure_files(alloc: Global, config: &[u8]) -> Result<Option<SureFiles>, NoMemory> {
    let mut files = Seq::new(alloc);
    files.push((Text::of(alloc, b"queue.cf")?, Text::of(alloc, config)?))?;
    Ok(SureFiles::new(files))
}

fn files(alloc: Global, config: &[u8]) -> Result<MemFiles> {
    match sure_files(alloc, config)? {
        Some(sure) => Ok(MemFiles::new(sure, Seq::new(alloc))),
        None => bail!("a large text"),
    }
}

/// Serves the sessions of a floor by this configuration, and counts the calls of the spool.
pub(crate) fn serve(
    alloc: Global,
    config: &[u8],
    spool: &mut MemSpool,
    floor: &mut ScriptFloor,
) -> Result<u64> {
    let words = words(alloc)?;
    let mut files = files(alloc, config)?;
    let status = status_of(alloc, &words, &mut files, spool, floor);
    ensure!(status == 0, "the session isn't served");
    Ok(spool.calls())
}

fn status_of(
    alloc: Global,
    words: &Seq<Text>,
    files: &mut MemFiles,
    spool: &mut MemSpool,
    floor: &mut ScriptFloor,
) -> u8
    requires { length words.now ≡ 2 }
{
    let mut spawner = ScriptSpawner::new(alloc, Seq::new(alloc), Seq::new(alloc));
    let mut dialer = ScriptDialer::new(alloc, Seq::new(alloc), Seq::new(alloc));
    let mut clock = MemClock::new(1_767_225_600, 0);
    let mut input = MemSource::new(Text::new(alloc), Seq::new(alloc));
    let mut output = MemSink::new(alloc, Seq::new(alloc));
    let outcome = sendmail(
        alloc,
        words,
        files,
        spool,
        floor,
        &mut spawner,
        &mut dialer,
        &mut clock,
        &mut input,
        &mut output,
    );
    let status = outcome.status();
    drop(outcome);
    status
}
