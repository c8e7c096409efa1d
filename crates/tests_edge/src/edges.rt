ghost use Rattle.std.specs.Prelude.{◌≡◌, ◌<◌, ◌≤◌, ◌+◌, ◌-◌, ◌^◌, ◌++◌, ◌∷◌, [], IfOk, IfSome, OnOk, OnErr, None};
ghost use Rattle.mail_base.specs.Histories.{Gains, HasCause};
ghost use Rattle.mail_base.specs.Causes.{HasEdgeCause};
ghost use Rattle.mail_edge.specs.Moves.{GainsPart};
ghost use Rattle.mail_edge.specs.Seen.{text_of};

use crate::again::{add, calls};
use mail_base::{EdgeFault, Failed, NoMemory, Seq, Text};
use mail_edge::{
    Clock, Files, MemClock, MemFiles, MemSink, MemSource, Sink, Source, SureFiles, SureSource,
};
use std::alloc::Global;
use std::test::Fail;

// A device whose content is not told, as the real ones are.
#[derive(Drop)]
struct Quiet<D>(D);

impl<S: Source> Source for Quiet<S> {
    ghost seen = { λ q. record { left = None; faults = (S.seen q.0).faults } };

    fn take(&mut self, buf: &mut [u8]) -> Result<usize, Failed> {
        self.0.take(buf)
    }
}

impl<K: Sink> Sink for Quiet<K> {
    ghost seen = { λ q. record { written = None; faults = (K.seen q.0).faults } };

    fn give(&mut self, bytes: &[u8]) -> Result<(), Failed> {
        self.0.give(bytes)
    }
}

impl<F: Files> Files for Quiet<F> {
    ghost seen = { λ q. record { map = None; faults = (F.seen q.0).faults } };

    fn read(&mut self, alloc: Global, name: &Text) -> Result<Option<Text>, EdgeFault> {
        self.0.read(alloc, name)
    }
}

impl<C: Clock> Clock for Quiet<C> {
    ghost seen = { λ q. record { told = None; readings = (C.seen q.0).readings } };

    fn now(&mut self) -> u64 {
        self.0.now()
    }
}

// All that is left of a source, four bytes at a time.
fn drained<S: Source>(alloc: Global, source: &mut S) -> Result<Text, EdgeFault>
    ensures all { IfOk result (λ text. IfSome (S.seen source.old).left (λ all. text ≡ all)) }
    ensures cause { HasEdgeCause (S.seen source.old).faults (S.seen source.new).faults result }
{
    let mut bytes = Vec::new(alloc);
    let mut buf = [0u8; 4];
    for _ in 0..u64::MAX {
        let count = source.take(&mut buf)?;
        if count == 0 {
            return Ok(Text::from_vec(bytes));
        }
        bytes
            .extend_from_slice(&buf[..count])
            .map_err(NoMemory::from)?;
    }
    unreachable!()
}

// Gives one text and then the other.
#[tactic(auto, using(mail_edge::proofs::Giving::part_more, mail_edge::proofs::Giving::part_join, mail_base::proofs::Gaining::gains_join))]
fn give_both<K: Sink>(sink: &mut K, one: &[u8], other: &[u8]) -> Result<(), Failed>
    ensures written { OnOk result
        (Gains (K.seen sink.old).written (K.seen sink.new).written (one.now ++ other.now)) }
    ensures part { OnErr result
        (GainsPart (K.seen sink.old).written (K.seen sink.new).written (one.now ++ other.now)) }
    ensures cause { HasCause (K.seen sink.old).faults (K.seen sink.new).faults result }
{
    sink.give(one)?;
    sink.give(other)
}

fn text_in<F: Files>(alloc: Global, files: &mut F, name: &[u8]) -> Result<Option<Text>, EdgeFault>
    ensures text { IfOk result
        (λ text. IfSome (F.seen files.old).map (λ map. text ≡ text_of map name.now)) }
    ensures fixed { (F.seen files.new).map ≡ (F.seen files.old).map }
    ensures cause { HasEdgeCause (F.seen files.old).faults (F.seen files.new).faults result }
{
    let name = Text::of(alloc, name)?;
    files.read(alloc, &name)
}

fn two_readings<C: Clock>(clock: &mut C) -> (u64, u64)
    requires { (C.seen clock.old).readings + 1 < 2 ^ 64 - 1 }
    ensures told { Gains (C.seen clock.old).told (C.seen clock.new).told
        (result.0 ∷ result.1 ∷ []) }
    ensures counted { (C.seen clock.new).readings ≡ (C.seen clock.old).readings + 2 }
{
    let first = clock.now();
    (first, clock.now())
}

// A source, by the list of its failing calls where it has one; how often it is drained, and a last
// time where its content isn't told; and what each time gave, with `|` behind it, or `!` where it
// failed.
struct SourceRow {
    bytes: &'static [u8],
    failing: Option<&'static [u64]>,
    times: u32,
    told: &'static [u8],
    faults: u64,
}

static SOURCES: [SourceRow; 3] = [
    SourceRow {
        bytes: b"some bytes",
        failing: None,
        times: 1,
        told: b"some bytes||",
        faults: 0,
    },
    SourceRow {
        bytes: b"some bytes",
        failing: Some(&[]),
        times: 1,
        told: b"some bytes||",
        faults: 0,
    },
    SourceRow {
        bytes: b"some bytes",
        failing: Some(&[1, 2]),
        times: 2,
        told: b"!! bytes|",
        faults: 2,
    },
];

impl SourceRow {
    // Adds what each time gave, and says how many faults the source counts.
    fn drain(&self, alloc: Global, told: &mut Text) -> Result<u64, NoMemory> {
        let bytes = Text::of(alloc, self.bytes)?;
        match self.failing {
            Some(failing) => {
                let source = MemSource::new(bytes, calls(alloc, failing)?);
                Ok(drain(alloc, source, self.times, told)?.script.faults)
            }
            None => {
                drain(alloc, SureSource::new(bytes), self.times, told)?;
                Ok(0)
            }
        }
    }

    fn is_drained(&self, alloc: Global) -> Result<bool, NoMemory> {
        let mut told = Text::new(alloc);
        let faults = self.drain(alloc, &mut told)?;
        Ok(told.bytes() == self.told && faults == self.faults)
    }
}

// Drains a source so often, and once more where its content isn't told.
fn drain<S: Source + Drop>(
    alloc: Global,
    source: S,
    times: u32,
    told: &mut Text,
) -> Result<S, NoMemory> {
    let mut source = source;
    for _ in 0..times {
        tell(told, drained(alloc, &mut source).map(Some))?;
    }
    let mut quiet = Quiet(source);
    tell(told, drained(alloc, &mut quiet).map(Some))?;
    Ok(quiet.0)
}

// A text with `|` behind it, `-` for none, and `!` for a call that failed.
fn tell(told: &mut Text, answer: Result<Option<Text>, EdgeFault>) -> Result<(), NoMemory> {
    match answer {
        Ok(Some(text)) => add(told, &[text.bytes(), b"|"]),
        Ok(None) => told.push(b'-'),
        Err(EdgeFault::Failed) => told.push(b'!'),
        Err(EdgeFault::NoMemory) => Err(NoMemory),
    }
}

#[test]
fn a_source_gives_what_is_left_and_fails_as_listed(rt: HostRuntime) {
    for (at, row) in SOURCES.iter().enumerate() {
        assert!(rt; row.is_drained(rt.alloc()) == Ok(true), "row {at}");
    }
}

// A sink by its failing calls; what it is given, two texts at once; whether each two went, `.` or
// `!`, and a last two where its content isn't told; and what was written.
struct SinkRow {
    failing: &'static [u64],
    given: &'static [(&'static [u8], &'static [u8])],
    told: &'static [u8],
    written: &'static [u8],
    faults: u64,
}

static SINKS: [SinkRow; 2] = [
    SinkRow {
        failing: &[],
        given: &[(b"one", b" two")],
        told: b"..",
        written: b"one two, last",
        faults: 0,
    },
    SinkRow {
        failing: &[0, 2],
        given: &[(b"lost", b"lost"), (b"one", b"lost"), (b" two", b" three")],
        told: b"!!..",
        written: b"one two three, last",
        faults: 2,
    },
];

impl SinkRow {
    // Whether the texts are taken or not as the row has it.
    fn takes(&self, sink: &mut MemSink) -> bool {
        for ((one, other), mark) in self.given.iter().zip(self.told) {
            if mark_of(give_both(sink, one, other)) != *mark {
                return false;
            }
        }
        self.told.len() == self.given.len() + 1
    }

    fn is_written(&self, alloc: Global) -> Result<bool, NoMemory> {
        let mut sink = MemSink::new(alloc, calls(alloc, self.failing)?);
        let takes = self.takes(&mut sink);
        let mut quiet = Quiet(sink);
        let last = mark_of(give_both(&mut quiet, b", ", b"last"));
        Ok(
            takes
                && self.told.last() == Some(&last)
                && quiet.0.seen() == self.written
                && quiet.0.script.faults == self.faults,
        )
    }
}

fn mark_of(went: Result<(), Failed>) -> u8 {
    if went.is_ok() { b'.' } else { b'!' }
}

#[test]
fn a_sink_keeps_what_it_is_given_and_fails_as_listed(rt: HostRuntime) {
    for (at, row) in SINKS.iter().enumerate() {
        assert!(rt; row.is_written(rt.alloc()) == Ok(true), "row {at}");
    }
}

// Three files, of which two have one name.
static THREE: [(&[u8], &[u8]); 3] = [(b"a", b"first"), (b"b", b"other"), (b"a", b"third")];

fn three_files(alloc: Global) -> Result<SureFiles, Fail> {
    let mut files = Seq::new(alloc);
    for (name, text) in &THREE {
        files.push((Text::of(alloc, name)?, Text::of(alloc, text)?))?;
    }
    Ok(SureFiles::new(files).ok_or("a large text")?)
}

// These files, by the list of their failing calls where they have one; the names that are asked,
// and `b` where their content isn't told; and what each name gave, with `|` behind it, or `-` or
// `!`.
struct FilesRow {
    failing: Option<&'static [u64]>,
    names: &'static [&'static [u8]],
    told: &'static [u8],
    faults: u64,
}

static FILES: [FilesRow; 3] = [
    FilesRow {
        failing: None,
        names: &[b"a", b"c"],
        told: b"first|-other|",
        faults: 0,
    },
    FilesRow {
        failing: Some(&[]),
        names: &[b"a", b"c"],
        told: b"first|-other|",
        faults: 0,
    },
    FilesRow {
        failing: Some(&[0, 2]),
        names: &[b"b", b"b", b"c", b"c"],
        told: b"!other|!-other|",
        faults: 2,
    },
];

impl FilesRow {
    // Adds what each name gave, and says how many faults the files count.
    fn read(&self, alloc: Global, told: &mut Text) -> Result<u64, Fail> {
        let sure = three_files(alloc)?;
        match self.failing {
            Some(failing) => {
                let files = MemFiles::new(sure, calls(alloc, failing)?);
                Ok(read_twice(alloc, files, self.names, told)?.script.faults)
            }
            None => {
                read_twice(alloc, sure, self.names, told)?;
                Ok(0)
            }
        }
    }

    fn are_read(&self, alloc: Global) -> Result<bool, Fail> {
        let mut told = Text::new(alloc);
        let faults = self.read(alloc, &mut told)?;
        Ok(told.bytes() == self.told && faults == self.faults)
    }
}

// Reads these names, and `b` where the content isn't told.
fn read_twice<F: Files + Drop>(
    alloc: Global,
    files: F,
    names: &[&[u8]],
    told: &mut Text,
) -> Result<F, NoMemory> {
    let mut files = files;
    read_all(alloc, &mut files, names, told)?;
    let mut quiet = Quiet(files);
    read_all(alloc, &mut quiet, &[b"b"], told)?;
    Ok(quiet.0)
}

fn read_all<F: Files>(
    alloc: Global,
    files: &mut F,
    names: &[&[u8]],
    told: &mut Text,
) -> Result<(), NoMemory> {
    for name in names {
        tell(told, text_in(alloc, files, name))?;
    }
    Ok(())
}

#[test]
fn files_give_the_first_text_of_a_name_and_fail_as_listed(rt: HostRuntime) -> Result<(), Fail> {
    for (at, row) in FILES.iter().enumerate() {
        assert!(rt; row.are_read(rt.alloc())?, "row {at}");
    }
    Ok(())
}

// Where a clock starts, its step, and its first two readings.
static CLOCKS: [(u64, u64, (u64, u64)); 2] = [
    (784_111_777, 60, (784_111_777, 784_111_837)),
    (u64::MAX - 5, 60, (u64::MAX - 5, u64::MAX)),
];

fn steps_so(start: u64, step: u64, told: (u64, u64)) -> bool {
    let mut clock = MemClock::new(start, step);
    two_readings(&mut clock) == told
        && clock.readings == 2
        && two_readings(&mut Quiet(MemClock::new(start, step))) == told
}

#[test]
fn a_clock_steps_up_to_the_greatest_moment(rt: HostRuntime) {
    for (start, step, told) in &CLOCKS {
        assert!(rt; steps_so(*start, *step, *told), "from {start}");
    }
}
