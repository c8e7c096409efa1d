ghost use Rattle.std.specs.Prelude.{None};

use delivery_devices::{Patience, SystemDialer, SystemSpawner};
use link_edge::{Dialer, Floor, OneFloor, Peer, Place};
use mail_base::{EdgeFault, Failed, Seq, Text, TryCopy};
use mail_edge::{MemSink, MemSource};
use shared_devices::Motion;
use spawn_edge::Spawner;
use spool_disk::Spool;
use std::alloc::Global;
use std::io;
use std::io::Read;
use std::os::fd::AsRawFd;
use std::test::Fail;
use told_devices::{Log, Look, Told, ToldFloor, ToldQueue};

/// The number of the process, as each line has it.
const PID: u32 = 7;

/// Whether this is all that is read.
fn says(alloc: Global, reader: &mut impl Read, wanted: &[u8]) -> io::Result<bool> {
    let mut bytes = Vec::new(alloc);
    reader.read_to_end(&mut bytes)?;
    Ok(bytes.as_slice() == wanted)
}

/// A spool that has one control text, and the one that was written last. It tells nothing, and has no
/// memory for a list.
#[derive(Drop)]
struct Desk {
    written: Option<Text>,
    named: Option<Text>,
}

impl Look for Desk {
    fn look(&self, _alloc: Global, _dir: &Text, _name: &Text) -> Result<Option<Text>, EdgeFault> {
        match &self.named {
            Some(text) => Ok(Some(text.copy()?)),
            None => Ok(None),
        }
    }
}

impl Spool for Desk {
    ghost seen = { λ s. record {
      told = None;
      moment = 0;
      left_since = λ _ _. ⊥;
      faults = 0;
    } };

    fn list(&mut self, _alloc: Global, _dir: &Text) -> Result<Seq<Text>, EdgeFault> {
        Err(EdgeFault::NoMemory)
    }

    fn read(
        &mut self,
        _alloc: Global,
        _dir: &Text,
        _name: &Text,
    ) -> Result<Option<Text>, EdgeFault> {
        Ok(None)
    }

    fn write_new(&mut self, _dir: &Text, _name: &Text, bytes: &Text) -> Result<(), Failed> {
        self.written = bytes.copy().ok();
        Ok(())
    }

    fn rename(&mut self, _dir: &Text, _from: &Text, _to: &Text) -> Result<(), Failed> {
        self.named = self.written.take();
        Ok(())
    }

    fn remove(&mut self, _dir: &Text, _name: &Text) -> Result<(), Failed> {
        Ok(())
    }

    ghost only_now = { λ s c h. absurd h };

    ghost at_rest = { λ s. tt };

    ghost earlier = { λ s t u c le h. absurd h };
}

/// The texts that are committed, one after another, under one name.
static TEXTS: &[&[u8]] = &[
    b"V1\nv0\ngmqueue\nT1\nK0\nN0\nP1\nc0\nS<bob@c.example>\n$rESMTP\n$sc.example\n\
        ${client_addr}127.0.0.1\nRPFD:<ann@mx.example>\neQ\nRPFD:<cid@mx.example>\neQ\n\
        HSubject: Rx:\n.\n",
    b"RPFD:<ann@mx.example>\neS\nRPFD:<cid@mx.example>\neQ 451 4.3.0 not\x1b now\n.\n",
    b"RPFD:<ann@mx.example>\neS\nRPFD:<cid@mx.example>\neF 5.1.1 no such user\n.\n",
    b"RPFD:<ann@mx.example>\neS\nRPFD:<cid@mx.example>\neR w000000000002\n.\n",
];

const COMMITS: &[u8] = b"\
    sendmail[7]: w000000000001: from=<bob@c.example>, size=4, class=0, nrcpts=2, proto=ESMTP, \
    relay=[127.0.0.1]\n\
    sendmail[7]: w000000000001: to=<ann@mx.example>, stat=Sent\n\
    sendmail[7]: w000000000001: to=<cid@mx.example>, stat=Deferred: 451 4.3.0 not? now\n\
    sendmail[7]: w000000000001: to=<cid@mx.example>, dsn=5.1.1, stat=no such user\n\
    sendmail[7]: w000000000001: w000000000002: DSN: no such user\n";

// Commits each of the texts.
fn commit_all(alloc: Global, log: Log) -> Result<(), EdgeFault> {
    let desk = Desk {
        written: None,
        named: None,
    };
    let mut queue = ToldQueue::new(alloc, desk, Some(log));
    let dir = Text::new(alloc);
    queue.write_new(
        &dir,
        &Text::of(alloc, b"dfw000000000001")?,
        &Text::of(alloc, b"body")?,
    )?;
    for text in TEXTS {
        commit(&mut queue, &dir, &Text::of(alloc, text)?)?;
    }
    Ok(())
}

fn commit(queue: &mut ToldQueue<Desk>, dir: &Text, text: &Text) -> Result<(), EdgeFault> {
    let alloc = dir.allocator();
    let from = Text::of(alloc, b"tfw000000000001")?;
    let to = Text::of(alloc, b"qfw000000000001")?;
    queue.write_new(dir, &from, text)?;
    if from.bytes() != to.bytes() {
        queue.rename(dir, &from, &to)?;
    }
    Ok(())
}

#[test]
fn commits_are_told(rt: HostRuntime) -> Result<(), Fail> {
    let (mut reader, writer) = io::pipe(&rt)?;
    let went = commit_all(rt.alloc(), Log::to(writer.as_raw_fd(), PID));
    drop(writer);
    assert!(rt; went.is_ok() && says(rt.alloc(), &mut reader, COMMITS)?);
    Ok(())
}

/// One session, whose peer says six bytes and goes.
type Room = ToldFloor<OneFloor<MemSource, MemSink>>;

fn room(alloc: Global, log: Log) -> Result<Room, EdgeFault> {
    let source = MemSource::new(Text::of(alloc, b"DATA\r\n")?, Seq::new(alloc));
    let sink = MemSink::new(alloc, Seq::new(alloc));
    Ok(ToldFloor::new(alloc, OneFloor::new(source, sink), Some(log)))
}

fn serve(room: &mut Room, reply: &Text) -> Result<(), Failed> {
    let mut buf = [0u8; 64];
    room.begin(&Place::Standard, 1)?;
    room.turn(&mut buf)?;
    room.turn(&mut buf)?;
    room.send(1, reply)?;
    room.turn(&mut buf)?;
    Ok(())
}

fn hold(alloc: Global, log: Log) -> Result<(), EdgeFault> {
    let mut room = room(alloc, log)?;
    let reply = Text::of(alloc, b"250 2.0.0 w000000000001 taken\r\n")?;
    serve(&mut room, &reply)?;
    room.finish();
    Ok(())
}

#[test]
fn a_session_is_told_at_its_end(rt: HostRuntime) -> Result<(), Fail> {
    let (mut reader, writer) = io::pipe(&rt)?;
    let went = hold(rt.alloc(), Log::to(writer.as_raw_fd(), PID));
    drop(writer);
    let wanted: &[u8] = b"sendmail[7]: NOQUEUE: disconnect from stdin, messages=1, in=6, out=31\n";
    assert!(rt; went.is_ok() && says(rt.alloc(), &mut reader, wanted)?);
    Ok(())
}

const ATTEMPTS: &[u8] = b"\
    sendmail[7]: NOQUEUE: program=/bin/true, child=1, stat=started\n\
    sendmail[7]: NOQUEUE: child=1, stat=exit 0\n\
    sendmail[7]: NOQUEUE: program=/nowhere/program, stat=failed\n\
    sendmail[7]: NOQUEUE: relay=/nowhere/socket, stat=failed\n";

// Starts a program, and waits for its end.
fn run(
    rt: &HostRuntime,
    spawner: &mut Told<SystemSpawner<'_>>,
    program: &[u8],
) -> Result<(), EdgeFault> {
    let alloc = rt.alloc();
    let program = Text::of(alloc, program)?;
    let child = spawner.start(&program, &Seq::new(alloc), &Text::new(alloc))?;
    for _ in 0..4000u32 {
        if spawner.finished(child)?.is_some() {
            break;
        }
    }
    Ok(())
}

fn dial_nobody(rt: &HostRuntime, motion: &Motion, log: Log) -> Result<(), EdgeFault> {
    let path = Text::of(rt.alloc(), b"/nowhere/socket")?;
    let dialer = SystemDialer::new(*rt, motion, Patience::of_environment());
    Told::new(dialer, Some(log)).dial(&Peer::Path(path))?;
    Ok(())
}

// Whether a program runs, and another and a peer fail.
fn attempt(rt: &HostRuntime, log: Log) -> bool {
    let motion = Motion::new(rt.alloc());
    let mut spawner = Told::new(SystemSpawner::new(*rt, &motion), Some(log));
    run(rt, &mut spawner, b"/bin/true").is_ok()
        && run(rt, &mut spawner, b"/nowhere/program").is_err()
        && dial_nobody(rt, &motion, log).is_err()
}

#[test]
fn attempts_are_told(rt: HostRuntime) -> Result<(), Fail> {
    let (mut reader, writer) = io::pipe(&rt)?;
    let went = attempt(&rt, Log::to(writer.as_raw_fd(), PID));
    drop(writer);
    assert!(rt; went && says(rt.alloc(), &mut reader, ATTEMPTS)?);
    Ok(())
}

// Tells a hundred lines, each longer than a line may be.
fn tell_much(rt: &HostRuntime, log: Log) {
    let motion = Motion::new(rt.alloc());
    let mut spawner = Told::new(SystemSpawner::new(*rt, &motion), Some(log));
    for _ in 0..100u32 {
        let _ = run(rt, &mut spawner, &[b'x'; 2000]);
    }
}

#[test]
fn a_log_that_nobody_reads_is_cut(rt: HostRuntime) -> Result<(), Fail> {
    let (mut reader, writer) = io::pipe(&rt)?;
    tell_much(&rt, Log::to(writer.as_raw_fd(), PID));
    drop(writer);
    let mut bytes = Vec::new(rt.alloc());
    reader.read_to_end(&mut bytes)?;
    assert!(rt; !bytes.is_empty() && bytes.len() <= 65_536);
    assert!(rt; bytes.chunks(1024).all(|line| line.ends_with(b"x\n")));
    Ok(())
}
