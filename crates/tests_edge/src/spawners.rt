use crate::again::{Course, Device, Scene, Way, add, calls, digit, plays};
use mail_base::{Failed, NoMemory, Seq, Text, texts_of};
use spawn_edge::{Life, Poll, ScriptSpawner, SpawnEvent, Spawner, Start};
use std::alloc::Global;
use std::test::Fail;

// What is done with a spawner.
enum Act {
    // Starts that program for ann, on a short text.
    Start(&'static [u8]),
    Poll(u64),
}

// A spawner by the lives of its children, what is done with it, and how it goes.
struct Row {
    acts: &'static [Act],
    way: Way,
}

// The first child is found running twice and ends well, the second ends at once with 75, and so on
// with 0.
static LIVES: [Life; 2] = [
    Life {
        polls: 2,
        status: 0,
    },
    Life {
        polls: 0,
        status: 75,
    },
];

const TWO: &[Act] = &[
    Act::Start(b"a"),
    Act::Start(b"b"),
    Act::Poll(1),
    Act::Poll(2),
    Act::Poll(1),
    Act::Poll(1),
];

// Each call of two children fails in turn.
static ROWS: [Row; 8] = [
    Row {
        acts: TWO,
        way: Way {
            failing: &[],
            went: b"1+ 2+ 1. 2=75 1. 1=0 ",
            told: b"1+a(ann)hi 2+b(ann)hi 1. 2=75 1. 1=0 ",
            faults: 0,
        },
    },
    // A start that failed is told with its texts. The next child has the first life, and there is
    // no second to poll.
    Row {
        acts: TWO,
        way: Way {
            failing: &[0],
            went: b"fail 1+ 1. no 1. 1=0 ",
            told: b"!a(ann)hi 1+b(ann)hi 1. 1. 1=0 ",
            faults: 1,
        },
    },
    Row {
        acts: TWO,
        way: Way {
            failing: &[1],
            went: b"1+ fail 1. no 1. 1=0 ",
            told: b"1+a(ann)hi !b(ann)hi 1. 1. 1=0 ",
            faults: 1,
        },
    },
    // A child whose poll failed is lost, and isn't polled again.
    Row {
        acts: TWO,
        way: Way {
            failing: &[2],
            went: b"1+ 2+ fail 2=75 no no ",
            told: b"1+a(ann)hi 2+b(ann)hi 1? 2=75 ",
            faults: 1,
        },
    },
    Row {
        acts: TWO,
        way: Way {
            failing: &[3],
            went: b"1+ 2+ 1. fail 1. 1=0 ",
            told: b"1+a(ann)hi 2+b(ann)hi 1. 2? 1. 1=0 ",
            faults: 1,
        },
    },
    Row {
        acts: TWO,
        way: Way {
            failing: &[4, 5],
            went: b"1+ 2+ 1. 2=75 fail no ",
            told: b"1+a(ann)hi 2+b(ann)hi 1. 2=75 1? ",
            faults: 1,
        },
    },
    Row {
        acts: TWO,
        way: Way {
            failing: &[5],
            went: b"1+ 2+ 1. 2=75 1. fail ",
            told: b"1+a(ann)hi 2+b(ann)hi 1. 2=75 1. 1? ",
            faults: 1,
        },
    },
    // Behind the last life children end at once; an ended child, and one that wasn't given, may not
    // be polled.
    Row {
        acts: &[
            Act::Start(b"a"),
            Act::Start(b"b"),
            Act::Start(b"c"),
            Act::Poll(3),
            Act::Poll(3),
            Act::Poll(4),
        ],
        way: Way {
            failing: &[],
            went: b"1+ 2+ 3+ 3=0 no no ",
            told: b"1+a(ann)hi 2+b(ann)hi 3+c(ann)hi 3=0 ",
            faults: 0,
        },
    },
];

fn begin(spawner: &mut ScriptSpawner, program: &[u8], went: &mut Text) -> Result<(), NoMemory> {
    let alloc = went.allocator();
    let program = Text::of(alloc, program)?;
    let input = Text::of(alloc, b"hi")?;
    let args = texts_of(alloc, &[b"ann"])?;
    write_start(went, spawner.start(&program, &args, &input))
}

fn write_start(went: &mut Text, answer: Result<u64, Failed>) -> Result<(), NoMemory> {
    match answer {
        Ok(child) => write_mark(went, child, b"+ "),
        Err(Failed) => went.extend(b"fail "),
    }
}

// A child is polled only where it may be.
fn poll(spawner: &mut ScriptSpawner, child: u64, went: &mut Text) -> Result<(), NoMemory> {
    if !spawner.is_running(child) {
        return went.extend(b"no ");
    }
    match spawner.finished(child) {
        Ok(Some(status)) => write_end(went, child, status),
        Ok(None) => write_mark(went, child, b". "),
        Err(Failed) => went.extend(b"fail "),
    }
}

// A child's number as a digit, and what is said of it.
fn write_mark(text: &mut Text, child: u64, mark: &[u8]) -> Result<(), NoMemory> {
    add(text, &[&digit(child), mark])
}

fn write_end(text: &mut Text, child: u64, status: i32) -> Result<(), NoMemory> {
    match status {
        0 => write_mark(text, child, b"=0 "),
        75 => write_mark(text, child, b"=75 "),
        _ => write_mark(text, child, b"=other "),
    }
}

fn write_event(text: &mut Text, event: &SpawnEvent) -> Result<(), NoMemory> {
    match event {
        SpawnEvent::Began { start, child, .. } => write_texts(text, &digit(*child), b"+", start),
        SpawnEvent::Unbegun { start, .. } => write_texts(text, b"", b"!", start),
        SpawnEvent::Polled(child, Poll::Runs) => write_mark(text, *child, b". "),
        SpawnEvent::Polled(child, Poll::Over(status)) => write_end(text, *child, *status),
        SpawnEvent::Polled(child, Poll::Lost) => write_mark(text, *child, b"? "),
    }
}

// A child, how its start went, and its texts.
fn write_texts(text: &mut Text, child: &[u8], mark: &[u8], start: &Start) -> Result<(), NoMemory> {
    add(text, &[child, mark, start.program.bytes()])?;
    for arg in start.args.items() {
        add(text, &[b"(", arg.bytes(), b")"])?;
    }
    add(text, &[start.input.bytes(), b" "])
}

impl Device for ScriptSpawner {
    fn counts(&self) -> (u64, u64) {
        (self.calls.faults, self.starved)
    }

    fn failures(&self) -> (u64, u64) {
        let mut shown = 0u64;
        let mut hidden = self.missed;
        for event in self.seen() {
            match event {
                SpawnEvent::Began { missed, .. } => hidden = hidden.saturating_add(*missed),
                SpawnEvent::Unbegun { missed, .. } => {
                    hidden = hidden.saturating_add(*missed);
                    shown = shown.saturating_add(1);
                }
                SpawnEvent::Polled(_, Poll::Lost) => shown = shown.saturating_add(1),
                SpawnEvent::Polled(_, _) => {}
            }
        }
        (shown, hidden)
    }

    fn told(&self, alloc: Global) -> Result<Text, NoMemory> {
        let mut text = Text::new(alloc);
        for event in self.seen() {
            write_event(&mut text, event)?;
        }
        Ok(text)
    }
}

impl Scene<ScriptSpawner> for Row {
    fn way(&self) -> &Way {
        &self.way
    }

    fn device(&self, alloc: Global, failing: &[u64]) -> Result<ScriptSpawner, NoMemory> {
        let lives = Seq::from_vec(Vec::from_slice(alloc, &LIVES)?);
        Ok(ScriptSpawner::new(alloc, lives, calls(alloc, failing)?))
    }

    fn play(&self, device: &mut ScriptSpawner, went: &mut Course) -> Result<(), NoMemory> {
        for act in self.acts {
            let call = device.calls.calls;
            let done = match act {
                Act::Start(program) => begin(device, program, &mut went.text),
                Act::Poll(child) => poll(device, *child, &mut went.text),
            };
            done?;
            went.note(call)?;
        }
        Ok(())
    }
}

#[test]
fn children_live_as_their_lives_and_the_list_say(rt: HostRuntime) -> Result<(), Fail> {
    for (at, row) in ROWS.iter().enumerate() {
        assert!(rt; plays::<ScriptSpawner, Row>(rt.alloc(), row)?, "row {at}");
    }
    Ok(())
}
