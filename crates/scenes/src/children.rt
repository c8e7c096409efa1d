// Programs that a run starts, in memory.
ghost use Rattle.std.specs.Prelude.{None};

use crate::manner::{End, Fate};
use crate::watch::Watch;
use mail_base::{Failed, NoMemory, Script, Seq, Text};
use scene_text::put_word;
use spawn_edge::Spawner;
use std::alloc::Global;

/// A program that was to be started: its path and its arguments in one text, what it was given to
/// read, at which step and as which of all that is begun, and how often it was found running.
#[derive(Drop)]
pub(crate) struct Started {
    pub words: Text,
    pub input: Text,
    pub step: usize,
    pub order: u64,
    polls: u64,
}

/// A spawner that starts nothing. Its children have these fates in the order in which they are
/// started, also those of which the start fails; those behind the last can't be started. The calls
/// that are listed fail besides.
pub(crate) struct Children<'a> {
    fates: &'a [Fate],
    watch: &'a Watch,
    pub started: Vec<Started>,
    pub script: Script,
    pub starved: bool,
}

// Written out, since a caller's proof goes through the parts of a derived drop at each way out.
impl Drop for Children<'_> {
    fn drop(self) {
        let Children {
            fates: _,
            watch: _,
            started: _,
            script: _,
            starved: _,
        } = self;
    }
}

impl<'a> Children<'a> {
    pub(crate) fn new(
        alloc: Global,
        fates: &'a [Fate],
        watch: &'a Watch,
        failing: Seq<u64>,
    ) -> Children<'a> {
        Children {
            fates,
            watch,
            started: Vec::new(alloc),
            script: Script::new(failing),
            starved: false,
        }
    }

    fn fate(&self, place: usize) -> Fate {
        match self.fates.get(place) {
            Some(fate) => *fate,
            None => Fate::none(),
        }
    }
}

// Adds a program that is to be started.
fn note(
    started: &mut Vec<Started>,
    watch: &Watch,
    program: &Text,
    args: &Seq<Text>,
    input: &Text,
) -> Result<(), NoMemory> {
    let words = words_of(program, args)?;
    let input = Text::of(program.allocator(), input.bytes())?;
    started.push(Started {
        words,
        input,
        step: watch.steps(),
        order: watch.begin(),
        polls: 0,
    })?;
    Ok(())
}

fn words_of(program: &Text, args: &Seq<Text>) -> Result<Text, NoMemory> {
    let mut words = Text::new(program.allocator());
    put_word(&mut words, program.bytes())?;
    for word in args.items() {
        put_word(&mut words, word.bytes())?;
    }
    Ok(words)
}

// What a poll finds of a child with that fate.
fn found(started: &mut Started, fate: Fate) -> Result<Option<i32>, Failed> {
    if started.polls < fate.polls {
        started.polls = started.polls.saturating_add(1);
        return Ok(None);
    }
    match fate.end {
        End::Exit(status) => Ok(Some(status)),
        End::Lost | End::NotStarted => Err(Failed),
    }
}

impl Spawner for Children<'_> {
    ghost seen = { λ c. record { told = None; missed = 0; faults = c.script.faults } };

    fn start(&mut self, program: &Text, args: &Seq<Text>, input: &Text) -> Result<u64, Failed> {
        let place = self.started.len();
        if note(&mut self.started, self.watch, program, args, input).is_err() {
            self.starved = true;
        }
        self.script.call()?;
        if self.starved || matches!(self.fate(place).end, End::NotStarted) {
            self.script.fail();
            return Err(Failed);
        }
        Ok((place as u64).saturating_add(1))
    }

    fn finished(&mut self, child: u64) -> Result<Option<i32>, Failed> {
        self.script.call()?;
        let place = child.saturating_sub(1) as usize;
        let fate = self.fate(place);
        let Some(started) = self.started.get_mut(place) else {
            return Ok(Some(0));
        };
        match found(started, fate) {
            Ok(status) => Ok(status),
            Err(Failed) => {
                self.script.fail();
                Err(Failed)
            }
        }
    }
}
