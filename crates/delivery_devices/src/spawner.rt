// Programs of the system as children. They tell nothing but how often they failed.
ghost use Rattle.std.specs.Prelude.{◌≡◌, None};

use mail_base::{Failed, Seq, Text};
use shared_devices::{Descriptor, Motion, counted};
use spawn_edge::Spawner;
use std::alloc::Global;
use std::os::unix::process::ExitStatusExt;
use std::process::ExitStatus;
use std::time::Duration;
use std::{fs, thread};

/// What a child finds in its environment, and where it starts.
const ENVIRONMENT: &[u8] = b"AGENT=sendmail\0";

const DIRECTORY: &[u8] = b"/";

/// Where the system tells of this process, and the line with the signals that it ignores.
const STATUS: &str = "/proc/self/status";

const IGNORED: &[u8] = b"SigIgn:";

/// The longest wait of a poll, in milliseconds.
const LONGEST_WAIT: u32 = 5;

/// A child that wasn't found over.
#[derive(Clone, Copy)]
struct Child {
    number: u64,
    pid: i32,
}

/// Programs of the system. A child's standard input is whole before it starts: a pipe that holds it
/// where it fits into one, and otherwise a file with no name. Its standard output and error go to
/// /dev/null, and it has no other descriptor. A start fails where the program can't be run, where an
/// argument has a NUL, where memory, descriptors or room for the input are wanting, or where the
/// system wouldn't tell how a child ends. What was changed in the queue is on the disk before it.
///
/// A poll never waits for a child. Where nothing was done since, and as many polls as there are
/// children found theirs running, the last of them waits 1 to 5 milliseconds, or lets the floor wait
/// that long for its sessions, so that a run with nothing else to do doesn't spin. Where the floor
/// wasn't asked since the last time, as behind a Stop, it waits itself, and what was changed in the
/// queue is on the disk.
/// A child that a signal ended is a fault of the poll that finds that.
pub struct SystemSpawner<'a> {
    rt: HostRuntime,
    motion: &'a Motion,
    children: Vec<Child>,
    /// How many were started.
    started: u64,
    /// How many polls in a row found their child running, and nothing done meanwhile.
    still: usize,
    /// How many milliseconds was waited last.
    wait: u32,
    faults: u64,
}

// Written out, since a caller's proof goes through the parts of a derived drop at each way out.
impl Drop for SystemSpawner<'_> {
    fn drop(self) {
        let SystemSpawner {
            rt: _,
            motion: _,
            children: _,
            started: _,
            still: _,
            wait: _,
            faults: _,
        } = self;
    }
}

impl<'a> SystemSpawner<'a> {
    /// One that started nothing.
    pub fn new(rt: HostRuntime, motion: &'a Motion) -> SystemSpawner<'a> {
        SystemSpawner {
            rt,
            motion,
            children: Vec::new(rt.alloc()),
            started: 0,
            still: 0,
            wait: 0,
            faults: 0,
        }
    }

    /// How many children weren't found over.
    pub fn running(&self) -> usize {
        self.children.len()
    }

    // Starts a child, and gives its number.
    fn begin(&mut self, program: &Text, args: &Seq<Text>, input: &Text) -> Result<u64, Failed>
        ensures { self.new.faults ≡ self.old.faults }
    {
        self.motion.note_move();
        self.motion.note_work();
        self.motion.unsynced().settle()?;
        if self.started == 0 && is_deaf(&self.rt) {
            return Err(Failed);
        }
        self.children.reserve(1).map_err(|_| Failed)?;
        let words = words_of(self.rt.alloc(), program, args)?;
        let pid = started(program, &words, input)?;
        let number = self.started.saturating_add(1);
        self.started = number;
        match self.children.push(Child { number, pid }) {
            Ok(()) => Ok(number),
            Err(_) => Err(Failed),
        }
    }

    // Polls a child. One that isn't found running is let go.
    fn poll(&mut self, number: u64) -> Result<Option<i32>, Failed>
        ensures { self.new.faults ≡ self.old.faults }
    {
        self.motion.note_work();
        let place = self
            .children
            .iter()
            .position(|child| child.number == number)
            .ok_or(Failed)?;
        let child = self.children.get(place).ok_or(Failed)?;
        match status_of(child.pid) {
            Ok(None) => {
                self.rest();
                Ok(None)
            }
            over => {
                self.motion.note_move();
                if place < self.children.len() {
                    self.children.remove(place);
                }
                over
            }
        }
    }

    // Waits a little, or lets the floor do so, where all children were found running and nothing was
    // done since.
    fn rest(&mut self)
        ensures { self.new.faults ≡ self.old.faults }
    {
        if self.motion.take_move() {
            self.still = 0;
            self.wait = 0;
            return;
        }
        self.still = self.still.saturating_add(1);
        if self.still < self.children.len() {
            return;
        }
        self.still = 0;
        self.wait = self
            .wait
            .saturating_mul(2)
            .saturating_add(1)
            .min(LONGEST_WAIT);
        // The floor takes a pause as it is asked.
        let is_left = self.motion.take_work() != Some(0);
        self.motion.note_work();
        self.motion.note_pause(self.wait);
        if is_left || !self.motion.has_floor() {
            // Where that fails, the next change or start does.
            let _ = self.motion.unsynced().settle();
            thread::sleep(&self.rt, Duration::from_millis(u64::from(self.wait)));
        }
    }
}

impl Spawner for SystemSpawner<'_> {
    ghost seen = { λ s. record { told = None; missed = 0; faults = s.faults } };

    fn start(&mut self, program: &Text, args: &Seq<Text>, input: &Text) -> Result<u64, Failed> {
        let went = self.begin(program, args, input);
        counted(&mut self.faults, went)
    }

    fn finished(&mut self, child: u64) -> Result<Option<i32>, Failed> {
        let went = self.poll(child);
        counted(&mut self.faults, went)
    }
}

// Whether this process ignores the signal of a child's end: then the system forgets how each ended.
fn is_deaf(rt: &HostRuntime) -> bool {
    match fs::read(rt, STATUS) {
        Ok(status) => ignores_ends(&status),
        Err(_) => false,
    }
}

/// Whether a process of which the system tells this status ignores the signal of a child's end.
pub fn ignores_ends(status: &[u8]) -> bool {
    for line in status.split(|byte| *byte == b'\n') {
        if let Some(mask) = line.strip_prefix(IGNORED) {
            // The signal's bit is the first of the fifth digit from the right.
            return match mask.iter().rev().nth(4) {
                Some(digit) => matches!(
                    digit,
                    b'1' | b'3' | b'5' | b'7' | b'9' | b'b' | b'd' | b'f'
                ),
                None => false,
            };
        }
    }
    false
}

// The words that a program gets, each ended by a NUL: its path as its own name, and its arguments.
fn words_of(alloc: Global, program: &Text, args: &Seq<Text>) -> Result<Vec<u8>, Failed> {
    let mut words = Vec::new(alloc);
    add_word(&mut words, program)?;
    for arg in args.items() {
        add_word(&mut words, arg)?;
    }
    Ok(words)
}

fn add_word(words: &mut Vec<u8>, word: &Text) -> Result<(), Failed> {
    if word.bytes().contains(&0) {
        return Err(Failed);
    }
    words.extend_from_slice(word.bytes()).map_err(|_| Failed)?;
    words.push(0).map_err(|_| Failed)
}

// Starts a program with these words over this input, and gives its process's number.
fn started(program: &Text, words: &[u8], input: &Text) -> Result<i32, Failed> {
    let source = Descriptor::holding(input.bytes())?;
    let sink = Descriptor::null()?;
    let ends = [source.number(), sink.number(), sink.number()];
    match os::spawn(program.bytes(), words, ENVIRONMENT, DIRECTORY, ends) {
        pid if pid > 0 => Ok(pid),
        _ => Err(Failed),
    }
}

// The exit status of a child, or `None` while it runs. It fails where a signal ended it, or where
// its status can't be read.
fn status_of(pid: i32) -> Result<Option<i32>, Failed> {
    if pid <= 0 {
        return Err(Failed);
    }
    let mut status = 0;
    match unsafe { libc::waitpid(pid, &mut status, libc::WNOHANG) } {
        0 => Ok(None),
        found if found > 0 => match ExitStatus::from_raw(status).code() {
            Some(code) => Ok(Some(code)),
            None => Err(Failed),
        },
        _ => Err(Failed),
    }
}
