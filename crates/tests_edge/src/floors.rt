use crate::again::{calls, unlisted, write_mark};
use crate::events::told;
use link_edge::{Floor, OneFloor, Place, ScriptFloor, Step, Turn};
use mail_base::{Failed, NoMemory, Seq, Text, TryCopy};
use mail_edge::{MemSink, MemSource, Source};
use std::alloc::Global;
use std::test::Fail;

// What is done with a floor.
enum Act {
    Begin,
    // So many turns.
    Turns(u32),
    Send(u64, &'static [u8]),
    HangUp(u64),
}

impl Act {
    fn times(&self) -> u32 {
        match self {
            Act::Turns(turns) => *turns,
            _ => 1,
        }
    }
}

// How an act went.
#[derive(Clone, Copy)]
enum Answer {
    Done,
    Failed,
    // The floor may not be asked to do it.
    Barred,
}

impl Answer {
    fn of(call: Result<(), Failed>) -> Answer {
        match call {
            Ok(()) => Answer::Done,
            Err(Failed) => Answer::Failed,
        }
    }

    fn word(self) -> &'static [u8] {
        match self {
            Answer::Done => b"",
            Answer::Failed => b"fail ",
            Answer::Barred => b"no ",
        }
    }
}

// A floor that is sent to, and hung up, only where it may be.
trait Driven: Floor {
    // How many calls there were that may fail: to begin it and of turns, and of sends.
    fn calls(&self) -> (u64, u64);

    fn say(&mut self, session: u64, bytes: &Text) -> Answer;

    fn part(&mut self, session: u64) -> Answer;
}

impl Driven for ScriptFloor {
    fn calls(&self) -> (u64, u64) {
        (self.turns.calls, self.sends.calls)
    }

    fn say(&mut self, session: u64, bytes: &Text) -> Answer {
        if !self.is_sound(session) {
            return Answer::Barred;
        }
        Answer::of(self.send(session, bytes))
    }

    fn part(&mut self, session: u64) -> Answer {
        if !self.is_open(session) {
            return Answer::Barred;
        }
        self.hang_up(session);
        Answer::Done
    }
}

// It tells nothing, so that nothing bars a call.
impl Driven for OneFloor<MemSource, MemSink> {
    fn calls(&self) -> (u64, u64) {
        (0, 0)
    }

    fn say(&mut self, session: u64, bytes: &Text) -> Answer {
        Answer::of(self.send(session, bytes))
    }

    fn part(&mut self, session: u64) -> Answer {
        self.hang_up(session);
        Answer::Done
    }
}

// What was heard, a word for each turn and for each call that failed or may not be made, and which
// turns and sends failed.
#[derive(Drop)]
struct Hearing {
    text: Text,
    turns: Seq<u64>,
    sends: Seq<u64>,
}

impl Hearing {
    fn new(alloc: Global) -> Hearing {
        Hearing {
            text: Text::new(alloc),
            turns: Seq::new(alloc),
            sends: Seq::new(alloc),
        }
    }

    // Adds the word of an answer, and where that is a failure the call, which came behind so many.
    fn note(&mut self, act: &Act, answer: Answer, calls: (u64, u64)) -> Result<(), NoMemory> {
        self.text.extend(answer.word())?;
        match (answer, act) {
            (Answer::Failed, Act::Send(_, _)) => self.sends.push(calls.1),
            (Answer::Failed, _) => self.turns.push(calls.0),
            _ => Ok(()),
        }
    }
}

// Does these acts, and adds what was heard.
fn play<F: Driven>(floor: &mut F, acts: &[Act], heard: &mut Hearing) -> Result<(), NoMemory> {
    for act in acts {
        for _ in 0..act.times() {
            let calls = floor.calls();
            let answer = done(floor, act, &mut heard.text)?;
            heard.note(act, answer, calls)?;
        }
    }
    Ok(())
}

// Does an act once. A turn that brings something is heard at its place.
fn done<F: Driven>(floor: &mut F, act: &Act, heard: &mut Text) -> Result<Answer, NoMemory> {
    match act {
        Act::Begin => Ok(Answer::of(floor.begin(&Place::Standard, 0))),
        Act::Turns(_) => hear(floor, heard),
        Act::Send(session, bytes) => {
            let bytes = Text::of(heard.allocator(), bytes)?;
            Ok(floor.say(*session, &bytes))
        }
        Act::HangUp(session) => Ok(floor.part(*session)),
    }
}

fn hear<F: Floor>(floor: &mut F, heard: &mut Text) -> Result<Answer, NoMemory> {
    let mut buf = [0u8; 64];
    let written = match floor.turn(&mut buf) {
        Ok(Turn::Opened(session, count)) => write_mark(heard, session, b"+", &buf[..count]),
        Ok(Turn::Piece(session, count)) => write_mark(heard, session, b">", &buf[..count]),
        Ok(Turn::Closed(session)) => write_mark(heard, session, b"-", b""),
        Ok(Turn::Idle) => heard.extend(b"rest "),
        Ok(Turn::Stop) => heard.extend(b"stop "),
        Err(Failed) => return Ok(Answer::Failed),
    };
    written?;
    Ok(Answer::Done)
}

// A step as a row has it.
enum Move {
    Open(&'static [u8]),
    Say(u64, &'static [u8]),
    Close(u64),
}

impl Move {
    fn step(&self, alloc: Global) -> Result<Step, NoMemory> {
        match self {
            Move::Open(peer) => Ok(Step::Open(Text::of(alloc, peer)?)),
            Move::Say(session, bytes) => Ok(Step::Say(*session, Text::of(alloc, bytes)?)),
            Move::Close(session) => Ok(Step::Close(*session)),
        }
    }
}

// A floor by its steps and its failing turns and sends, and what is done with it; what was heard of
// it, what it told, and its counts of faults: of turns and of sends.
struct ScriptRow {
    moves: &'static [Move],
    turns: &'static [u64],
    sends: &'static [u64],
    acts: &'static [Act],
    heard: &'static [u8],
    told: &'static [u8],
    faults: (u64, u64),
}

const TWO_SESSIONS: &[Move] = &[
    Move::Open(b"192.0.2.1"),
    Move::Open(b"::1"),
    Move::Say(1, b"NOOP"),
    Move::Say(2, b"QUIT"),
    Move::Close(1),
    Move::Say(1, b"late"),
];

// Seventy bytes in a buffer of 64.
const LONG_BYTES: &[u8] =
    b"rest 1+ 1>aaaaaaaaaaaaaaaaaaaaaaaaaaaaaaaaaaaaaaaaaaaaaaaaaaaaaaaaaaaaaaaa 1>aaaaaa stop ";

static SCRIPTS: [ScriptRow; 5] = [
    // A script brings its steps and stops. What a session that is closed says is nothing.
    ScriptRow {
        moves: TWO_SESSIONS,
        turns: &[],
        sends: &[],
        acts: &[Act::Begin, Act::Turns(8)],
        heard: b"1+192.0.2.1 2+::1 1>NOOP 2>QUIT 1- rest stop stop ",
        told: b"1+192.0.2.1 2+::1 1>NOOP 2>QUIT 1- rest stop stop ",
        faults: (0, 0),
    },
    // Sends and hang-ups are told. A session is sent to until a send failed, and hung up once.
    ScriptRow {
        moves: TWO_SESSIONS,
        turns: &[],
        sends: &[1],
        acts: &[
            Act::Turns(2),
            Act::Send(1, b"220"),
            Act::Send(2, b"220"),
            Act::Send(2, b"221"),
            Act::HangUp(2),
            Act::HangUp(2),
            Act::Turns(2),
        ],
        heard: b"1+192.0.2.1 2+::1 fail no no 1>NOOP rest ",
        told: b"1+192.0.2.1 2+::1 1<220 2! 2x 1>NOOP rest ",
        faults: (0, 1),
    },
    // Turns fail as they are listed, and the next one goes on.
    ScriptRow {
        moves: TWO_SESSIONS,
        turns: &[0, 2],
        sends: &[],
        acts: &[Act::Begin, Act::Turns(3)],
        heard: b"fail 1+192.0.2.1 fail 2+::1 ",
        told: b"1+192.0.2.1 2+::1 ",
        faults: (2, 0),
    },
    // An address with an LF opens nothing, and bytes that don't fit come in pieces.
    ScriptRow {
        moves: &[
            Move::Open(b"a\nb"),
            Move::Open(b""),
            Move::Say(1, &[b'a'; 70]),
        ],
        turns: &[],
        sends: &[],
        acts: &[Act::Turns(5)],
        heard: LONG_BYTES,
        told: LONG_BYTES,
        faults: (0, 0),
    },
    // Without steps it stops at once.
    ScriptRow {
        moves: &[],
        turns: &[],
        sends: &[],
        acts: &[Act::Turns(1)],
        heard: b"stop ",
        told: b"stop ",
        faults: (0, 0),
    },
];

impl ScriptRow {
    fn floor(&self, alloc: Global, turns: &[u64], sends: &[u64]) -> Result<ScriptFloor, NoMemory> {
        let turns = calls(alloc, turns)?;
        let sends = calls(alloc, sends)?;
        Ok(ScriptFloor::new(alloc, steps(alloc, self.moves)?, turns, sends))
    }
}

fn steps(alloc: Global, moves: &[Move]) -> Result<Seq<Step>, NoMemory> {
    let mut steps = Seq::new(alloc);
    for each in moves {
        steps.push(each.step(alloc)?)?;
    }
    Ok(steps)
}

// Whether a floor told what one told that lacked no memory.
fn is_retold(alloc: Global, floor: &ScriptFloor, listed: &ScriptFloor) -> Result<bool, NoMemory> {
    if listed.starved > 0 {
        return Err(NoMemory);
    }
    let whole = told(alloc, listed.seen())?;
    let told = told(alloc, floor.seen())?;
    Ok(told == whole)
}

impl ScriptRow {
    // Where memory wasn't wanting, all is as the row has it. Where it was, all is as where the
    // calls that failed are listed.
    fn is_played(
        &self,
        alloc: Global,
        floor: &mut ScriptFloor,
        heard: &mut Hearing,
    ) -> Result<bool, NoMemory> {
        play(floor, self.acts, heard)?;
        let unlisted = unlisted(&heard.turns, self.turns).saturating_add(unlisted(
            &heard.sends,
            self.sends,
        ));
        Ok(
            floor.starved == unlisted
                && (floor.starved > 0 || self.is_whole(alloc, floor, heard)?)
                && self.is_repeated(alloc, floor, heard)?,
        )
    }

    fn is_whole(
        &self,
        alloc: Global,
        floor: &ScriptFloor,
        heard: &Hearing,
    ) -> Result<bool, NoMemory> {
        let told = told(alloc, floor.seen())?;
        Ok(
            heard.text.bytes() == self.heard
                && told.bytes() == self.told
                && (floor.turns.faults, floor.sends.faults) == self.faults,
        )
    }

    fn is_repeated(
        &self,
        alloc: Global,
        floor: &ScriptFloor,
        first: &Hearing,
    ) -> Result<bool, NoMemory> {
        let mut listed = self.floor(alloc, first.turns.items(), first.sends.items())?;
        let mut again = Hearing::new(alloc);
        play(&mut listed, self.acts, &mut again)?;
        Ok(
            is_retold(alloc, floor, &listed)?
                && again.text == first.text
                && listed.turns.faults == floor.turns.faults
                && listed.sends.faults == floor.sends.faults,
        )
    }

    fn plays(&self, alloc: Global) -> Result<bool, NoMemory> {
        let mut floor = self.floor(alloc, self.turns, self.sends)?;
        let mut heard = Hearing::new(alloc);
        self.is_played(alloc, &mut floor, &mut heard)
    }
}

#[test]
fn a_script_is_played_as_its_steps_and_lists_say(rt: HostRuntime) -> Result<(), Fail> {
    for (at, row) in SCRIPTS.iter().enumerate() {
        assert!(rt; row.plays(rt.alloc())?, "row {at}");
    }
    Ok(())
}

// The failing calls of a source of `some bytes` and of a sink, and what is done with the floor over
// both; what was heard of it, and what was written.
struct OneRow {
    takes: &'static [u64],
    gives: &'static [u64],
    acts: &'static [Act],
    heard: &'static [u8],
    written: &'static [u8],
}

static ONE_SESSION: [OneRow; 3] = [
    // The source is given whole, and only the one session is sent to.
    OneRow {
        takes: &[],
        gives: &[1],
        acts: &[
            Act::Turns(9),
            Act::Send(1, b"250"),
            Act::Send(1, b"251"),
            Act::Send(2, b"252"),
        ],
        heard: b"1+ 1>some bytes 1- stop stop stop stop stop stop fail fail ",
        written: b"250",
    },
    // A source that fails ends the session.
    OneRow {
        takes: &[0],
        gives: &[],
        acts: &[Act::Turns(5)],
        heard: b"1+ 1- stop stop stop ",
        written: b"",
    },
    // So does its hanging up, and that of another doesn't.
    OneRow {
        takes: &[],
        gives: &[],
        acts: &[
            Act::Begin,
            Act::HangUp(2),
            Act::Turns(1),
            Act::HangUp(1),
            Act::Turns(1),
        ],
        heard: b"1+ stop ",
        written: b"",
    },
];

impl OneRow {
    fn source(&self, alloc: Global) -> Result<MemSource, NoMemory> {
        let takes = calls(alloc, self.takes)?;
        Ok(MemSource::new(Text::of(alloc, b"some bytes")?, takes))
    }

    fn floor(&self, alloc: Global) -> Result<OneFloor<MemSource, MemSink>, NoMemory> {
        let sink = MemSink::new(alloc, calls(alloc, self.gives)?);
        Ok(OneFloor::new(self.source(alloc)?, sink))
    }

    fn is_heard(
        &self,
        alloc: Global,
        floor: &mut OneFloor<MemSource, MemSink>,
    ) -> Result<bool, NoMemory> {
        let mut heard = Hearing::new(alloc);
        play(floor, self.acts, &mut heard)?;
        Ok(heard.text.bytes() == self.heard)
    }

    fn is_written(&self, floor: &OneFloor<MemSource, MemSink>) -> bool {
        floor.sink.seen() == self.written
    }

    fn plays(&self, alloc: Global) -> Result<bool, NoMemory> {
        let mut floor = self.floor(alloc)?;
        Ok(self.is_heard(alloc, &mut floor)? && self.is_written(&floor))
    }
}

#[test]
fn one_floor_is_one_session(rt: HostRuntime) {
    for (at, row) in ONE_SESSION.iter().enumerate() {
        assert!(rt; row.plays(rt.alloc()) == Ok(true), "row {at}");
    }
}

// Whether the parts of a floor that did nothing are those that it was made of.
fn gives_its_parts(row: &OneRow, alloc: Global) -> Result<bool, NoMemory> {
    let (mut source, sink) = row.floor(alloc)?.into_parts();
    let mut buf = [0u8; 4];
    Ok(source.take(&mut buf) == Ok(4) && buf == *b"some" && sink.seen().is_empty())
}

#[test]
fn a_floor_gives_back_its_parts(rt: HostRuntime) {
    assert!(rt; gives_its_parts(&ONE_SESSION[0], rt.alloc()) == Ok(true));
}

fn is_port(place: &Place) -> bool {
    match place {
        Place::Port { address, port } => *port == 25 && address.bytes() == b"127.0.0.1".as_slice(),
        Place::Standard => false,
    }
}

fn are_copied(alloc: Global) -> Result<bool, NoMemory> {
    let address = Text::of(alloc, b"127.0.0.1")?;
    let port = Place::Port { address, port: 25 };
    let copy = port.copy()?;
    Ok(is_port(&copy) && matches!(&Place::Standard.copy()?, Place::Standard))
}

#[test]
fn a_place_is_copied(rt: HostRuntime) {
    assert!(rt; are_copied(rt.alloc()) == Ok(true));
}
