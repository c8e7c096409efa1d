//! The program over devices in memory.

ghost use Rattle.std.specs.Prelude.{◌<◌, ◌≤◌, ◌^◌, length};

use crate::lives::{failing_of, lives_of, pieces_of};
use link_edge::{ScriptDialer, ScriptFloor, Step};
use mail_base::{NoMemory, Seq, Text};
use mail_edge::{MemClock, MemFiles, MemSink, SureFiles, SureSource};
use sendmail_run::{DEFAULT_FILE, Outcome, sendmail};
use spawn_edge::ScriptSpawner;
use spool_disk::MemSpool;
use std::alloc::Global;
use std::test::Fail;

/// The first reading of the clock.
pub(crate) const NOW: u64 = 1_767_225_600;

/// The devices of a run that it changes.
pub(crate) struct Machine {
    pub spool: MemSpool,
    pub floor: ScriptFloor,
    pub spawner: ScriptSpawner,
    pub dialer: ScriptDialer,
    pub clock: MemClock,
}

// Written out, since a caller's proof goes through the parts of a derived drop at each way out.
impl Drop for Machine {
    fn drop(self) {
        let Machine {
            spool: _,
            floor: _,
            spawner: _,
            dialer: _,
            clock: _,
        } = self;
    }
}

impl Machine {
    /// A queue without files, over which these turns come, where children end at once and nobody is
    /// reached; the clock stands still.
    pub(crate) fn new(alloc: Global, steps: Seq<Step>) -> Machine {
        Machine {
            spool: MemSpool::new(alloc, Seq::new(alloc)),
            floor: ScriptFloor::new(alloc, steps, Seq::new(alloc), Seq::new(alloc)),
            spawner: ScriptSpawner::new(alloc, Seq::new(alloc), Seq::new(alloc)),
            dialer: ScriptDialer::new(alloc, Seq::new(alloc), Seq::new(alloc)),
            clock: MemClock::new(NOW, 0),
        }
    }

    /// Children and peers that go by chance from now on, of which some fail, if any do.
    pub(crate) fn equip(&mut self, alloc: Global, seed: u64, fails: bool) -> Result<(), NoMemory> {
        let lives = lives_of(alloc, seed, fails)?;
        let failing = failing_of(alloc, seed, fails)?;
        let pieces = pieces_of(alloc, seed, fails)?;
        self.spawner = ScriptSpawner::new(alloc, lives, failing);
        self.dialer = ScriptDialer::new(alloc, pieces, Seq::new(alloc));
        Ok(())
    }

    /// Runs the program by these words, to a good end.
    pub(crate) fn run(&mut self, alloc: Global, words: &str) -> Result<(), Fail> {
        let words = words_of(alloc, words)?;
        let mut files = files_of(alloc)?;
        if words.len() > 100 || self.clock.readings > 0 {
            return Err("a long line, or a clock that was read".into());
        }
        match self.outcome(alloc, &words, &mut files).status() {
            0 => Ok(()),
            _ => Err("the run did not end well".into()),
        }
    }

    fn outcome(&mut self, alloc: Global, words: &Seq<Text>, files: &mut MemFiles) -> Outcome
        requires words { length words.now < 2 ^ 32 }
        requires clock { self.old.clock.readings ≤ 2 ^ 63 }
    {
        let mut input = SureSource::new(Text::new(alloc));
        let mut output = MemSink::new(alloc, Seq::new(alloc));
        sendmail(
            alloc,
            words,
            files,
            &mut self.spool,
            &mut self.floor,
            &mut self.spawner,
            &mut self.dialer,
            &mut self.clock,
            &mut input,
            &mut output,
        )
    }
}

// Two groups, of which programs are in the first, with eight runners, and peers in the other.
static CONFIG: &[u8] = b"Cwmx.example\nDwmx\nDjmx.example\nO QueueDirectory=/q\n\
    O HostsFile=/hosts\nO OperatorChars=.:%@!^/[]+\n\
    Qmqueue, Path=/q, Runners=8\nQbulk, Path=/q/bulk, Runners=4\n\
    HReceived: from $s by $j with $r id $i; $b\n\
    Mlocal, P=/bin/mail, F=lsDFMAw5n, A=mail -d $u\n\
    Mprog, P=/bin/sh, F=lsDFMn, A=sh -c $u\n\
    Msmtp, P=[IPC], F=mDFMuX, Q=bulk, A=TCP $h\n\
    Scanonify=3\nR$* < $+ > $*\t$2\nR$+ @ $+\t$: $1 < @ $2 >\n\
    Sparse=0\nR$+ < @ $=w >\t$#local $: $1\nR$+ < @ $+ >\t$#smtp $@ $2 $: $1 < @ $2 >\n\
    R$+\t$#local $: $1\nSfinal=4\nR$+ < @ $+ >\t$1 @ $2\n\
    Scheck_rcpt\nR< no @ mx.example >\t$#error $@ 5.7.1 $: not here\n";

static HOSTS: &[u8] = b"127.0.0.1 far.example\n127.0.0.1 c.example\n";

// The configuration and the host table.
fn files_of(alloc: Global) -> Result<MemFiles, Fail> {
    let mut named = Seq::new(alloc);
    named.push((Text::of(alloc, DEFAULT_FILE)?, Text::of(alloc, CONFIG)?))?;
    named.push((Text::of(alloc, b"/hosts")?, Text::of(alloc, HOSTS)?))?;
    let sure = SureFiles::new(named).ok_or("a large text")?;
    Ok(MemFiles::new(sure, Seq::new(alloc)))
}

// The words of a command line, which blanks part.
fn words_of(alloc: Global, line: &str) -> Result<Seq<Text>, NoMemory> {
    let mut words = Seq::new(alloc);
    for word in line.split(' ') {
        words.push(Text::of(alloc, word.as_bytes())?)?;
    }
    Ok(words)
}
