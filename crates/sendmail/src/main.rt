//! `sendmail`: the real devices around the proved program.
#![tactic(auto)]

ghost use Rattle.std.specs.Prelude.{◌<◌, ◌^◌, length};

// Its tests stand here, since no other crate can import a program.

mod notice;
#[cfg(test)]
mod tests;
#[cfg(test)]
mod whole_tests;
mod words;

use crate::notice::tell;
use crate::words::{Asked, read_words, word_count};
use delivery_devices::{Patience, SystemDialer, SystemSpawner};
use mail_base::{Seq, Text};
use queue_devices::{QueueDirs, QueueView};
use sendmail_run::{Job, Outcome, sendmail};
use session_devices::{
    DiskFiles, InputStream, LIMITS, OutputStream, SystemClock, SystemFloor, Wires,
};
use shared_devices::{Joint, Motion};
use spool_disk::Spool;
use std::io::Write;
use std::process::ExitCode;
use told_devices::{Log, Told, ToldFloor, ToldQueue};

const HELP: &[u8] = b"usage: sendmail -bt|-bs|-bp|-q|-qGname [-C file]
       sendmail -bd [-q30m] [-C file]
       sendmail [-f sender] [-i] [-C file] address ..
       sendmail -t [-f sender] [-i] [-C file] [address ..]
       sendmail --help|--version

  -bt      address test mode: answers each line of standard input
  -bs      serves one SMTP session on standard input and output, and puts its
           messages into the queue
  -bd      serves SMTP sessions at the port of DaemonPortOptions, and delivers
           what is in the queue while no client says anything
  -q30m    with -bd: how long a message waits at least for its next try, in
           minutes or with a unit (s, m, h, d, w); half an hour if left out. A
           queue group may have an interval of its own
  -q       delivers what is in the queue and is due, once
  -qGname  the same of one queue group
  -bp      prints what is in the queue
  address  takes the message on standard input for these recipients, and puts it
           into the queue
  -t       takes it for those that its headers To, Cc and Bcc name, but not for
           those that words name
  -f sender  its sender; else the first address of From, or postmaster
  -i       a line with a dot alone doesn't end it
  -C file  reads this configuration instead of /etc/mail/sendmail.cf

In address test mode a line of input is the name of a ruleset, or more of them
with commas, and an address, or a command; the line /quit ends.

A message is put into the directory of its queue group, which for the group
mqueue is that of QueueDirectory, by default /var/spool/mqueue. Those of all
groups must be there; mail that is in them stays, and ids go on behind the
greatest. One process alone may have a queue, but for -bp, which changes
nothing in it. To stop a process kill it: what it had acknowledged is kept,
and a delivery that was under way is made again by the next one.

The exit status is 0 when the work is done. Each other end has a line on
standard error:
  64 bad word            65 alias refused       66 no file
  67 recipient refused   69 floor fault         70 turns spent
  71 no memory           72 files fault         73 write fault
  74 read fault          75 spool fault         76 input too large
  77 ids spent           78 configuration line  79 no recipient
  80 message refused
";

/// The most words whose places a `u32` can tell.
const MOST_WORDS: usize = 4_294_967_295;

const VERSION: &[u8] = b"sendmail (Polkezi) 8\n";

fn main(rt: HostRuntime) -> ExitCode {
    let outcome = match read_words(&rt) {
        Ok(Asked::Run(words)) => run(&rt, &words),
        Ok(Asked::Help) => print(&rt, HELP),
        Ok(Asked::Version) => print(&rt, VERSION),
        Err(outcome) => outcome,
    };
    // Nobody can be told that standard error failed.
    let _ = tell(&mut rt.stderr(), &outcome, word_count());
    ExitCode::from(outcome.status())
}

fn run(rt: &HostRuntime, words: &Seq<Text>) -> Outcome {
    // More words than a place can tell are refused at the first that has none.
    if words.len() > MOST_WORDS {
        return Outcome::Usage(u32::MAX);
    }
    let motion = Motion::late(rt.alloc(), Joint::of_environment());
    if is_listing(rt, words) {
        let mut view = QueueView::new(rt.alloc(), b"");
        run_over(rt, words, &mut view, &motion, None)
    } else {
        let log = Log::of_environment();
        let dirs = QueueDirs::new(rt.alloc(), b"", &motion);
        let mut queue = ToldQueue::new(rt.alloc(), dirs, log);
        run_over(rt, words, &mut queue, &motion, log)
    }
}

// Whether the words ask for the listing of the queue.
fn is_listing(rt: &HostRuntime, words: &Seq<Text>) -> bool
    requires { length words.now < 2 ^ 32 }
{
    match sendmail_run::words(rt.alloc(), words) {
        Ok(mode) => matches!(mode.job, Job::List),
        Err(_) => false,
    }
}

fn run_over<D: Spool>(
    rt: &HostRuntime,
    words: &Seq<Text>,
    spool: &mut D,
    motion: &Motion,
    log: Option<Log>,
) -> Outcome
    requires { length words.now < 2 ^ 32 }
{
    let wires = Wires::of(&rt.stdin(), &rt.stdout());
    let site = SystemFloor::new(
        *rt,
        rt.stdin(),
        rt.stdout(),
        Some(wires),
        LIMITS,
        Some(motion),
    );
    let mut floor = ToldFloor::new(rt.alloc(), site, log);
    let outcome = sendmail(
        rt.alloc(),
        words,
        &mut DiskFiles::new(rt),
        spool,
        &mut floor,
        &mut Told::new(SystemSpawner::new(*rt, motion), log),
        &mut Told::new(
            SystemDialer::new(*rt, motion, Patience::of_environment()),
            log,
        ),
        &mut SystemClock::new(*rt),
        &mut InputStream::new(rt.stdin()),
        &mut OutputStream::new(rt.stdout()),
    );
    floor.finish();
    floor.device.finish();
    // What was done stands only once it is on the disk.
    match motion.unsynced().settle() {
        Ok(()) => outcome,
        Err(_) => Outcome::SpoolFault,
    }
}

fn print(rt: &HostRuntime, text: &[u8]) -> Outcome {
    match rt.stdout().write_all(text) {
        Ok(()) => Outcome::Done,
        Err(_) => Outcome::WriteFault,
    }
}
