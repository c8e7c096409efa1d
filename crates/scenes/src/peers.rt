// Peers that a run dials, in memory.
ghost use Rattle.std.specs.Prelude.{◌≤◌, None, length};

use crate::manner::{Break, Manner};
use crate::source::Pieces;
use crate::watch::Watch;
use link_edge::{Dialer, Peer};
use mail_base::{Failed, NoMemory, Script, Seq, Text, copy_front};
use scene_text::{put_number, put_word};
use std::alloc::Global;

/// Bytes that were written to a peer when so many of its pieces were begun to be read.
#[derive(Drop)]
pub(crate) struct Wrote {
    pub pieces: usize,
    pub bytes: Text,
}

/// A peer that was to be dialled: its address in one text, at which step and as which of all that
/// is begun, what was written to it, and when its line was ended, if it was.
pub(crate) struct Dialled {
    pub name: Text,
    pub step: usize,
    pub order: u64,
    pub wrote: Vec<Wrote>,
    pub closed: Option<usize>,
    at: usize,
    said: usize,
    lines: u64,
}

// Written out, since a caller's proof goes through the parts of a derived drop at each way out.
impl Drop for Dialled {
    fn drop(self) {
        let Dialled {
            name: _,
            step: _,
            order: _,
            wrote: _,
            closed: _,
            at: _,
            said: _,
            lines: _,
        } = self;
    }
}

/// A dialer that dials nobody. Its peers have these manners in the order in which they are dialled,
/// also those of which the dial fails; those behind the last can't be reached. What they say comes
/// piece by piece, whatever is written to them, and may be cut further. The calls that are listed
/// fail besides.
pub(crate) struct Peers<'a> {
    manners: &'a [Manner],
    watch: &'a Watch,
    pieces: Pieces,
    pub dialled: Vec<Dialled>,
    pub script: Script,
    pub starved: bool,
}

// Written out, since a caller's proof goes through the parts of a derived drop at each way out.
impl Drop for Peers<'_> {
    fn drop(self) {
        let Peers {
            manners: _,
            watch: _,
            pieces: _,
            dialled: _,
            script: _,
            starved: _,
        } = self;
    }
}

impl<'a> Peers<'a> {
    pub(crate) fn new(
        alloc: Global,
        manners: &'a [Manner],
        watch: &'a Watch,
        pieces: Pieces,
        failing: Seq<u64>,
    ) -> Peers<'a> {
        Peers {
            manners,
            watch,
            pieces,
            dialled: Vec::new(alloc),
            script: Script::new(failing),
            starved: false,
        }
    }

    fn refuses(&self, place: usize) -> bool {
        match self.manners.get(place) {
            Some(manner) => manner.refuses,
            None => true,
        }
    }
}

fn place_of(line: u64) -> usize {
    line.saturating_sub(1) as usize
}

// Adds a peer that is to be dialled.
fn note(dialled: &mut Vec<Dialled>, watch: &Watch, peer: &Peer) -> Result<(), NoMemory> {
    let alloc = *dialled.allocator();
    let name = name_of(alloc, peer)?;
    dialled.push(Dialled {
        name,
        step: watch.steps(),
        order: watch.begin(),
        wrote: Vec::new(alloc),
        closed: None,
        at: 0,
        said: 0,
        lines: 0,
    })?;
    Ok(())
}

fn name_of(alloc: Global, peer: &Peer) -> Result<Text, NoMemory> {
    let mut name = Text::new(alloc);
    match peer {
        Peer::Host { address, port } => {
            put_word(&mut name, address.bytes())?;
            name.push(b' ')?;
            put_number(&mut name, u64::from(*port))?;
        }
        Peer::Path(path) => put_word(&mut name, path.bytes())?,
    }
    Ok(name)
}

impl Dialled {
    // How many pieces were begun to be read.
    fn begun(&self) -> usize {
        if self.said > 0 {
            self.at.saturating_add(1)
        } else {
            self.at
        }
    }

    // Whether a line breaks before more is read.
    fn breaks_reading(&self, breaks: Option<Break>) -> bool {
        match breaks {
            Some(place) => self.said == 0 && self.at == place.pieces,
            None => false,
        }
    }

    // Whether a line breaks before more is written.
    fn breaks_writing(&self, breaks: Option<Break>) -> bool {
        let Some(place) = breaks else {
            return false;
        };
        match place.lines {
            Some(lines) => self.begun() >= place.pieces && self.lines >= lines,
            None => false,
        }
    }

    // Goes on behind so many bytes of a piece.
    fn hear(&mut self, count: usize, length: usize) {
        self.lines = 0;
        self.said = self.said.saturating_add(count);
        if self.said >= length {
            self.at = self.at.saturating_add(1);
            self.said = 0;
        }
    }

    fn write(&mut self, bytes: &Text) -> Result<(), NoMemory> {
        for byte in bytes.bytes() {
            if *byte == b'\n' {
                self.lines = self.lines.saturating_add(1);
            }
        }
        let pieces = self.begun();
        let bytes = Text::of(bytes.allocator(), bytes.bytes())?;
        self.wrote.push(Wrote { pieces, bytes })?;
        Ok(())
    }
}

// Puts the next bytes that a peer says.
fn hear(dialled: &mut Dialled, manner: &Manner, pieces: &mut Pieces, buf: &mut [u8]) -> usize
    ensures { result ≤ length buf.new }
{
    let Some(piece) = manner.pieces.get(dialled.at) else {
        return 0;
    };
    let left = piece.bytes().get(dialled.said..).unwrap_or(&[]);
    if left.is_empty() {
        return 0;
    }
    let size = pieces.next(left.len());
    let count = copy_front(&left[..size], buf);
    dialled.hear(count, piece.len());
    count
}

impl Dialer for Peers<'_> {
    ghost seen = { λ p. record { told = None; missed = 0; faults = p.script.faults } };

    fn dial(&mut self, peer: &Peer) -> Result<u64, Failed> {
        let place = self.dialled.len();
        if note(&mut self.dialled, self.watch, peer).is_err() {
            self.starved = true;
        }
        self.script.call()?;
        if self.starved || self.refuses(place) {
            self.script.fail();
            return Err(Failed);
        }
        Ok((place as u64).saturating_add(1))
    }

    fn read(&mut self, line: u64, buf: &mut [u8]) -> Result<usize, Failed> {
        self.script.call()?;
        let place = place_of(line);
        let Some(dialled) = self.dialled.get_mut(place) else {
            return Ok(0);
        };
        let Some(manner) = self.manners.get(place) else {
            return Ok(0);
        };
        if dialled.breaks_reading(manner.breaks) {
            self.script.fail();
            return Err(Failed);
        }
        Ok(hear(dialled, manner, &mut self.pieces, buf))
    }

    fn write(&mut self, line: u64, bytes: &Text) -> Result<(), Failed> {
        self.script.call()?;
        let place = place_of(line);
        let Some(dialled) = self.dialled.get_mut(place) else {
            return Ok(());
        };
        let breaks = match self.manners.get(place) {
            Some(manner) => manner.breaks,
            None => None,
        };
        if dialled.breaks_writing(breaks) {
            self.script.fail();
            return Err(Failed);
        }
        if dialled.write(bytes).is_err() {
            self.starved = true;
            self.script.fail();
            return Err(Failed);
        }
        Ok(())
    }

    fn close(&mut self, line: u64) {
        if let Some(dialled) = self.dialled.get_mut(place_of(line)) {
            let begun = dialled.begun();
            dialled.closed = Some(begun);
        }
    }
}
