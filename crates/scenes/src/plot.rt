//! What a run is given to hear, what its children and peers do, and what has to come back at which
//! step.

use crate::manner::{Break, End, Fate, Manner};
use crate::party::{Counts, Party, end_of};
use crate::source::Pieces;
use link_edge::Step;
use mail_base::{NoMemory, Seq, Text};
use scene_text::{Bad, Item, Run, Word};
use std::alloc::Global;

/// A line that has to come back: the place of its item, from whom, and how many steps were taken
/// when it comes: of the floor, or of a peer so many pieces.
#[derive(Clone, Copy)]
pub(crate) struct Due {
    pub item: usize,
    pub party: Party,
    pub step: usize,
}

/// What a transcript says.
pub(crate) struct Plot {
    pub steps: Seq<Step>,
    /// How long nothing comes at each step that says so.
    pub rests: Seq<u64>,
    pub input: Text,
    pub fates: Vec<Fate>,
    pub manners: Vec<Manner>,
    pub due: Seq<Due>,
    pub counts: Counts,
}

// Written out, since a caller's proof goes through the parts of a derived drop at each way out.
impl Drop for Plot {
    fn drop(self) {
        let Plot {
            steps: _,
            rests: _,
            input: _,
            fates: _,
            manners: _,
            due: _,
            counts: _,
        } = self;
    }
}

impl Plot {
    /// One in which nothing is said.
    pub(crate) fn new(alloc: Global) -> Plot {
        Plot {
            steps: Seq::new(alloc),
            rests: Seq::new(alloc),
            input: Text::new(alloc),
            fates: Vec::new(alloc),
            manners: Vec::new(alloc),
            due: Seq::new(alloc),
            counts: Counts::none(),
        }
    }
}

// A transcript as far as it was gone over: the plot so far, whom lines are of, the piece that was
// said last, and how many lines were written to the peer behind it, where that is known.
#[derive(Drop)]
struct Going {
    plot: Plot,
    party: Party,
    piece: Text,
    lines: Option<u64>,
}

/// The plot of a run.
pub(crate) fn plot_of(alloc: Global, run: &Run) -> Result<Plot, (u32, Bad)> {
    let mut going = Going {
        plot: Plot::new(alloc),
        party: Party::Standard,
        piece: Text::new(alloc),
        lines: Some(0),
    };
    for (place, item) in run.items.iter().enumerate() {
        if let Err(bad) = going.take(place, item) {
            return Err((item.line, bad));
        }
    }
    match going.flush() {
        Ok(()) => Ok(going.plot),
        Err(NoMemory) => Err((0, Bad::NoMemory)),
    }
}

impl Going {
    fn take(&mut self, place: usize, item: &Item) -> Result<(), Bad> {
        match item.word {
            Word::Say => self.say(item),
            Word::Told | Word::Any | Word::HungUp => {
                self.flush()?;
                Ok(self.await_line(place, item.word)?)
            }
            Word::Piece => Ok(self.flush()?),
            Word::Session => {
                self.flush()?;
                Ok(self.open(&item.name)?)
            }
            Word::In => {
                self.flush()?;
                self.turn_to(item.number)
            }
            Word::Close => {
                self.flush()?;
                self.close()
            }
            Word::Rest => {
                self.flush()?;
                Ok(self.rest(item)?)
            }
            _ => self.take_delivery(place, item),
        }
    }

    fn take_delivery(&mut self, place: usize, item: &Item) -> Result<(), Bad> {
        match item.word {
            Word::Child => {
                self.flush()?;
                Ok(self.start(place)?)
            }
            Word::Runs => self.run_for(item.number),
            Word::Exit => self.end(End::Exit(item.number.min(1_000_000) as i32)),
            Word::Lost => self.end(End::Lost),
            Word::NotStarted => self.end(End::NotStarted),
            Word::Peer => {
                self.flush()?;
                Ok(self.dial(place)?)
            }
            Word::Refused => {
                self.peer()?.refuses = true;
                Ok(())
            }
            Word::Broken => {
                self.flush()?;
                self.break_off()
            }
            _ => Ok(()),
        }
    }

    // Adds a line to the input or to the piece.
    fn say(&mut self, item: &Item) -> Result<(), Bad> {
        match self.party {
            Party::Standard => {
                self.plot.input.extend(item.name.bytes())?;
                self.plot.input.extend(end_of(item, self.party))?;
                return Ok(());
            }
            Party::Session(_) => {}
            Party::Peer(_) => {
                if self.peer()?.ends {
                    return Err(Bad::Unwanted);
                }
            }
            Party::Begun | Party::Child(_) => return Err(Bad::Unwanted),
        }
        self.piece.extend(item.name.bytes())?;
        self.piece.extend(end_of(item, self.party))?;
        Ok(())
    }

    // Says the piece.
    fn flush(&mut self) -> Result<(), NoMemory> {
        if self.piece.is_empty() {
            return Ok(());
        }
        let said = Text::of(self.piece.allocator(), self.piece.bytes())?;
        self.piece.clear();
        match self.party {
            Party::Session(session) => self.plot.steps.push(Step::Say(session, said)),
            _ => {
                self.lines = Some(0);
                match self.plot.manners.last_mut() {
                    Some(manner) => manner.pieces.push(said),
                    None => Ok(()),
                }
            }
        }
    }

    // How many steps were taken: one more than of the floor where programs and peers are begun, and
    // one more than pieces of a peer were said, since both may come before the first.
    fn step(&self) -> usize {
        match self.party {
            Party::Standard | Party::Session(_) => self.plot.steps.len(),
            Party::Begun => self.plot.steps.len().saturating_add(1),
            Party::Child(_) => 0,
            Party::Peer(_) => match self.plot.manners.last() {
                Some(manner) => manner.pieces.len().saturating_add(1),
                None => 0,
            },
        }
    }

    fn await_line(&mut self, place: usize, word: Word) -> Result<(), NoMemory> {
        self.lines = match self.lines {
            Some(lines) if word == Word::Told => Some(lines.saturating_add(1)),
            lines if word == Word::HungUp => lines,
            _ => None,
        };
        let due = Due {
            item: place,
            party: self.party,
            step: self.step(),
        };
        self.plot.due.push(due)
    }

    fn open(&mut self, peer: &Text) -> Result<(), NoMemory> {
        let peer = Text::of(peer.allocator(), peer.bytes())?;
        self.plot.steps.push(Step::Open(peer))?;
        self.plot.counts.sessions = self.plot.counts.sessions.saturating_add(1);
        self.party = Party::Session(self.plot.counts.sessions);
        Ok(())
    }

    fn turn_to(&mut self, session: u64) -> Result<(), Bad> {
        if session == 0 || session > self.plot.counts.sessions {
            return Err(Bad::NoSession);
        }
        self.party = Party::Session(session);
        Ok(())
    }

    // The end of a session by its peer, or of a line by its one.
    fn close(&mut self) -> Result<(), Bad> {
        match self.party {
            Party::Session(session) => Ok(self.plot.steps.push(Step::Close(session))?),
            Party::Peer(_) => {
                self.peer()?.ends = true;
                Ok(())
            }
            _ => Err(Bad::NoSession),
        }
    }

    // Nothing comes, for so many turns.
    fn rest(&mut self, item: &Item) -> Result<(), NoMemory> {
        for _ in 0..item.number {
            self.plot.steps.push(Step::Rest)?;
            self.plot.rests.push(item.seconds)?;
        }
        Ok(())
    }
}

impl Going {
    fn start(&mut self, place: usize) -> Result<(), NoMemory> {
        self.party = Party::Begun;
        self.await_line(place, Word::Child)?;
        self.plot.fates.push(Fate::usual())?;
        self.plot.counts.children = self.plot.counts.children.saturating_add(1);
        self.party = Party::Child(self.plot.counts.children);
        Ok(())
    }

    fn child(&mut self) -> Result<&mut Fate, Bad> {
        match self.party {
            Party::Child(_) => self.plot.fates.last_mut().ok_or(Bad::NoChild),
            _ => Err(Bad::NoChild),
        }
    }

    fn run_for(&mut self, polls: u64) -> Result<(), Bad> {
        self.child()?.polls = polls;
        Ok(())
    }

    fn end(&mut self, end: End) -> Result<(), Bad> {
        self.child()?.end = end;
        Ok(())
    }

    fn dial(&mut self, place: usize) -> Result<(), NoMemory> {
        self.party = Party::Begun;
        self.await_line(place, Word::Peer)?;
        let pieces = Seq::new(self.plot.steps.allocator());
        self.plot.manners.push(Manner::saying(pieces))?;
        self.plot.counts.peers = self.plot.counts.peers.saturating_add(1);
        self.party = Party::Peer(self.plot.counts.peers);
        self.lines = Some(0);
        Ok(())
    }

    fn peer(&mut self) -> Result<&mut Manner, Bad> {
        match self.party {
            Party::Peer(_) => self.plot.manners.last_mut().ok_or(Bad::NoPeer),
            _ => Err(Bad::NoPeer),
        }
    }

    // The line breaks behind what was said and written.
    fn break_off(&mut self) -> Result<(), Bad> {
        let lines = self.lines;
        let manner = self.peer()?;
        manner.breaks = Some(Break {
            pieces: manner.pieces.len(),
            lines,
        });
        Ok(())
    }
}

/// The same steps, with what is said in pieces.
pub(crate) fn cut_steps(steps: &Seq<Step>, pieces: Pieces) -> Result<Seq<Step>, NoMemory> {
    let mut pieces = pieces;
    let mut cut = Seq::new(steps.allocator());
    for step in steps.items() {
        match step {
            Step::Say(session, bytes) => say_cut(&mut cut, *session, bytes, &mut pieces)?,
            Step::Open(peer) => cut.push(Step::Open(Text::of(peer.allocator(), peer.bytes())?))?,
            Step::Close(session) => cut.push(Step::Close(*session))?,
            Step::Rest => cut.push(Step::Rest)?,
        }
    }
    Ok(cut)
}

fn say_cut(
    cut: &mut Seq<Step>,
    session: u64,
    bytes: &Text,
    pieces: &mut Pieces,
) -> Result<(), NoMemory> {
    let mut rest = bytes.bytes();
    for _ in 0..bytes.len() {
        if rest.is_empty() {
            break;
        }
        let size = pieces.next(rest.len());
        cut.push(Step::Say(session, Text::of(bytes.allocator(), &rest[..size])?))?;
        rest = &rest[size..];
    }
    Ok(())
}
