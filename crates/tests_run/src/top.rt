// The public calls of the top crate, each once: the words of a command line, and a run over an
// input that no scene has.

ghost use Rattle.std.specs.Prelude.{◌<◌, ◌^◌, None, length};

use crate::samples::files_of;
use link_edge::{ScriptDialer, ScriptFloor};
use mail_base::{Failed, Seq, Text, words_of};
use mail_edge::{MemClock, MemFiles, MemSink, Source};
use sendmail_run::{DEFAULT_FILE, Job, Outcome, sendmail, words};
use spawn_edge::ScriptSpawner;
use spool_disk::MemSpool;
use std::alloc::Global;
use std::test::Fail;

static FILES: [(&str, &[u8]); 1] = [("row1.cf", b"S5\nR$-:$+\t$@ $2 @ $1\n")];

// Gives bytes without end, and tells none of them.
#[derive(Drop)]
struct Endless;

impl Source for Endless {
    ghost seen = { λ _. record { left = None; faults = 0 } };

    fn take(&mut self, buf: &mut [u8]) -> Result<usize, Failed> {
        Ok(buf.len())
    }
}

// How a run of these words ends over an input without end.
fn outcome_over(
    alloc: Global,
    words: &Seq<Text>,
    files: &mut MemFiles,
    output: &mut MemSink,
) -> Outcome
    requires { length words.now < 2 ^ 32 }
{
    let mut spool = MemSpool::new(alloc, Seq::new(alloc));
    let mut floor = ScriptFloor::new(alloc, Seq::new(alloc), Seq::new(alloc), Seq::new(alloc));
    let mut spawner = ScriptSpawner::new(alloc, Seq::new(alloc), Seq::new(alloc));
    let mut dialer = ScriptDialer::new(alloc, Seq::new(alloc), Seq::new(alloc));
    let mut clock = MemClock::new(1_767_225_600, 0);
    sendmail(
        alloc,
        words,
        files,
        &mut spool,
        &mut floor,
        &mut spawner,
        &mut dialer,
        &mut clock,
        &mut Endless,
        output,
    )
}

// Whether lines without end are told to be too large, and nothing is written.
fn is_large(alloc: Global) -> Result<bool, Fail> {
    let words = words_of(alloc, b"-bt -Crow1.cf")?;
    if words.len() > 100 {
        return Err("many words".into());
    }
    let mut files = files_of(alloc, &FILES, &[])?;
    let mut output = MemSink::new(alloc, Seq::new(alloc));
    let status = outcome_over(alloc, &words, &mut files, &mut output).status();
    Ok(status == 76 && output.seen().is_empty())
}

#[test]
fn an_input_without_end_is_large(rt: HostRuntime) -> Result<(), Fail> {
    assert!(rt; is_large(rt.alloc())?);
    Ok(())
}

/// A line of words, the mode that they say, and the file.
type Row = (&'static [u8], &'static [u8], &'static [u8]);

static MODES: [Row; 8] = [
    (b"-bt", b"test", DEFAULT_FILE),
    (b"-bs", b"session", DEFAULT_FILE),
    (b"-bs -Cx", b"session", b"x"),
    (b"-C -bt -bs", b"session", b"-bt"),
    (b"-bp", b"list", DEFAULT_FILE),
    (b"-bd", b"daemon", DEFAULT_FILE),
    (b"-q30m -bd -Cx", b"daemon each half hour", b"x"),
    (b"-q", b"run", DEFAULT_FILE),
];

fn name_of(job: &Job) -> &'static [u8] {
    match job {
        Job::Test => b"test",
        Job::Session => b"session",
        Job::List => b"list",
        Job::Daemon { wait: None } => b"daemon",
        Job::Daemon { wait: Some(1_800) } => b"daemon each half hour",
        Job::Run { group: None } => b"run",
        _ => b"another",
    }
}

fn are_read(alloc: Global, row: &Row) -> Result<bool, Fail> {
    let list = words_of(alloc, row.0)?;
    if list.len() > 100 {
        return Err("many words".into());
    }
    match words(alloc, &list) {
        Ok(mode) => Ok(name_of(&mode.job) == row.1 && mode.file.bytes() == row.2),
        Err(_) => Ok(false),
    }
}

#[test]
fn words_say_a_mode_and_a_file(rt: HostRuntime) -> Result<(), Fail> {
    for (at, row) in MODES.iter().enumerate() {
        assert!(rt; are_read(rt.alloc(), row)?, "row {at}");
    }
    Ok(())
}
