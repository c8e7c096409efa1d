// The program's own call over the real devices.
ghost use Rattle.std.specs.Prelude.{◌<◌, ◌^◌, IfOk, length};

use delivery_devices::{PATIENCE, SystemDialer, SystemSpawner};
use mail_base::{NoMemory, Seq, Text};
use mail_edge::Clock;
use queue_devices::{QueueDirs, QueueView};
use sendmail_run::sendmail;
use session_devices::{
    DiskFiles, InputStream, LIMITS, OutputStream, SystemClock, SystemFloor, Wires,
};
use shared_devices::{Joint, Motion};
use spool_disk::Spool;
use std::io::{PipeReader, PipeWriter, Read, Write};
use std::test::Fail;
use std::{fs, io};

/// Where the queue and the configuration of the test are.
const ROOT: &str = "/tmp/sendmail-whole";

const QUEUE: &str = "/tmp/sendmail-whole/var/spool/mqueue";

/// Each address goes to a program, which writes what it gets into a file of that name, with the
/// brackets, since no rule takes them away.
const CONFIG: &[u8] = b"Mkeep, P=/usr/bin/tee, F=lsn, A=tee /tmp/sendmail-whole/$u\n\
    S0\n\
    R$*\t$#keep $: $1\n";

const ASKED: &[u8] = b"HELO c.example\r\n\
    MAIL FROM:<bob@c.example>\r\n\
    RCPT TO:<ann@mx.example>\r\n\
    DATA\r\n\
    Subject: hi\r\n\
    \r\n\
    hello\r\n\
    .\r\n\
    QUIT\r\n";

const REPLIES: &[u8] = b"220 localhost ESMTP ready\r\n\
    250 localhost Hello\r\n\
    250 2.1.0 Sender ok\r\n\
    250 2.1.5 Recipient ok\r\n\
    354 Enter mail, end with \".\" on a line by itself\r\n\
    250 2.0.0 w000000000001 Message accepted for delivery\r\n\
    221 2.0.0 localhost closing connection\r\n";

const LISTING: &[u8] = b"w000000000001 mqueue 7 30022 <bob@c.example>\n\
    \x20 Q <ann@mx.example>\n\
    Total requests: 1\n";

const NOTHING: &[u8] = b"Total requests: 0\n";

/// What the program gets.
const LETTER: &[u8] = b"Subject: hi\n\nhello\n";

/// The control text before the moment of the message, and behind it.
const BEFORE: &[u8] = b"V1\nv1\ngmqueue\nT";

const BEHIND: &[u8] = b"\nK0\nN0\nP30022\nc0\n\
    S<bob@c.example>\n\
    $rSMTP\n\
    $sc.example\n\
    ${client_addr}\n\
    RPFD:<ann@mx.example>\n\
    eQ\n\
    HSubject: hi\n\
    .\n";

// Makes an empty directory at that path.
fn make_empty(rt: &HostRuntime, path: &str) -> io::Result<()> {
    if fs::exists(rt, path)? {
        fs::remove_dir_all(rt, path)?;
    }
    fs::create_dir_all(rt, path)
}

// An empty queue, and a configuration beside it.
fn make_site(rt: &HostRuntime) -> io::Result<()> {
    make_empty(rt, ROOT)?;
    fs::create_dir_all(rt, QUEUE)?;
    fs::write(rt, "/tmp/sendmail-whole/sendmail.cf", CONFIG)
}

// The command line of a mode.
fn words(rt: &HostRuntime, mode: &[u8]) -> Result<Seq<Text>, NoMemory>
    ensures { IfOk result (λ words. length words < 2 ^ 32) }
{
    let mut words = Seq::new(rt.alloc());
    words.push(Text::of(rt.alloc(), mode)?)?;
    words.push(Text::of(rt.alloc(), b"-C/tmp/sendmail-whole/sendmail.cf")?)?;
    Ok(words)
}

// Serves a session from one pipe to another, and gives the run's status.
fn serve(rt: &HostRuntime, reader: PipeReader, writer: PipeWriter) -> Result<u8, NoMemory> {
    let wires = Wires::of(&reader, &writer);
    let motion = Motion::late(rt.alloc(), Joint::none());
    let mut floor = SystemFloor::new(*rt, reader, writer, Some(wires), LIMITS, Some(&motion));
    let outcome = sendmail(
        rt.alloc(),
        &words(rt, b"-bs")?,
        &mut DiskFiles::new(rt),
        &mut QueueDirs::new(rt.alloc(), ROOT.as_bytes(), &motion),
        &mut floor,
        &mut SystemSpawner::new(*rt, &motion),
        &mut SystemDialer::new(*rt, &motion, PATIENCE),
        &mut SystemClock::new(*rt),
        &mut InputStream::new(b"".as_slice()),
        &mut OutputStream::new(Vec::new(rt.alloc())),
    );
    floor.finish();
    Ok(outcome.status())
}

// How a run ends whose peer says these bytes and hangs up, and whether it is replied so.
fn converse(rt: &HostRuntime, asked: &[u8], wanted: &[u8]) -> Result<(u8, bool), Fail> {
    let (reader, mut far_writer) = io::pipe(rt)?;
    let (mut far_reader, writer) = io::pipe(rt)?;
    far_writer.write_all(asked)?;
    drop(far_writer);
    let status = serve(rt, reader, writer)?;
    Ok((status, is_rest(rt, &mut far_reader, wanted)?))
}

// How a run with no session ends, over a spool and to a writer.
fn run<D: Spool, W: Write + Drop>(
    rt: &HostRuntime,
    mode: &[u8],
    spool: &mut D,
    motion: &Motion,
    writer: W,
) -> Result<u8, NoMemory> {
    let nobody = Vec::new(rt.alloc());
    let mut floor = SystemFloor::new(*rt, b"".as_slice(), nobody, None, LIMITS, Some(motion));
    let outcome = sendmail(
        rt.alloc(),
        &words(rt, mode)?,
        &mut DiskFiles::new(rt),
        spool,
        &mut floor,
        &mut SystemSpawner::new(*rt, motion),
        &mut SystemDialer::new(*rt, motion, PATIENCE),
        &mut SystemClock::new(*rt),
        &mut InputStream::new(b"".as_slice()),
        &mut OutputStream::new(writer),
    );
    Ok(outcome.status())
}

// Delivers what is in the queue, and gives the run's status.
fn deliver(rt: &HostRuntime) -> Result<u8, NoMemory> {
    let motion = Motion::late(rt.alloc(), Joint::none());
    let mut spool = QueueDirs::new(rt.alloc(), ROOT.as_bytes(), &motion);
    let status = run(rt, b"-q", &mut spool, &motion, Vec::new(rt.alloc()))?;
    let settled = motion.unsynced().settle().is_ok();
    Ok(if settled { status } else { 1 })
}

// How a listing of the queue ends, and whether it is this.
fn shown(rt: &HostRuntime, wanted: &[u8]) -> Result<(u8, bool), Fail> {
    let (mut far_reader, writer) = io::pipe(rt)?;
    let mut spool = QueueView::new(rt.alloc(), ROOT.as_bytes());
    let motion = Motion::new(rt.alloc());
    let status = run(rt, b"-bp", &mut spool, &motion, writer)?;
    Ok((status, is_rest(rt, &mut far_reader, wanted)?))
}

// Whether this is all that comes.
fn is_rest(rt: &HostRuntime, reader: &mut PipeReader, wanted: &[u8]) -> io::Result<bool> {
    let mut bytes = Vec::new(rt.alloc());
    reader.read_to_end(&mut bytes)?;
    Ok(bytes.as_slice() == wanted)
}

// Whether a file holds these bytes.
fn is_file(rt: &HostRuntime, path: &str, wanted: &[u8]) -> io::Result<bool> {
    Ok(fs::read(rt, path)?.as_slice() == wanted)
}

// Whether a file is the control text of the message at such a moment.
fn is_control(rt: &HostRuntime, path: &str, since: u64, until: u64) -> io::Result<bool> {
    let bytes = fs::read(rt, path)?;
    let moment = bytes
        .strip_prefix(BEFORE)
        .and_then(|rest| rest.strip_suffix(BEHIND))
        .and_then(|digits| str::from_utf8(digits).ok())
        .and_then(|digits| digits.parse::<u64>().ok());
    Ok(moment.is_some_and(|moment| since <= moment && moment <= until))
}

// Whether the queue holds the message alone, which came at such a moment.
fn is_kept(rt: &HostRuntime, since: u64, until: u64) -> io::Result<bool> {
    let control = "/tmp/sendmail-whole/var/spool/mqueue/qfw000000000001";
    let body = "/tmp/sendmail-whole/var/spool/mqueue/dfw000000000001";
    Ok(
        is_control(rt, control, since, until)?
            && is_file(rt, body, b"hello\r\n")?
            && fs::read_dir(rt, QUEUE)?.count() == 2,
    )
}

#[test]
fn a_message_is_in_the_queue_on_the_disk_is_listed_and_is_delivered(
    rt: HostRuntime,
) -> Result<(), Fail> {
    make_site(&rt)?;
    let mut clock = SystemClock::new(rt);
    let since = clock.now();
    assert_eq!(rt; converse(&rt, ASKED, REPLIES)?, (0, true));
    assert!(rt; is_kept(&rt, since, clock.now())?);
    assert_eq!(rt; shown(&rt, LISTING)?, (0, true));
    assert!(rt; is_kept(&rt, since, clock.now())?);
    assert_eq!(rt; deliver(&rt)?, 0);
    assert!(rt; is_file(&rt, "/tmp/sendmail-whole/<ann@mx.example>", LETTER)?);
    assert_eq!(rt; shown(&rt, NOTHING)?, (0, true));
    assert_eq!(rt; fs::read_dir(&rt, QUEUE)?.count(), 1);
    fs::remove_dir_all(&rt, ROOT)?;
    Ok(())
}
