//! What is told of scenes.

use mail_base::{NoMemory, Text};
use scene_text::put_number;
use std::alloc::Global;

/// The most bytes of a text that are shown.
const MOST_SHOWN: usize = 200;

/// Where something is played: the scene file, the scene, and the play.
#[derive(Clone, Copy)]
pub(crate) struct Spot<'a> {
    pub file: &'a [u8],
    pub scene: &'a [u8],
    pub play: &'a [u8],
}

/// What is told, how many things were compared, how many weren't as wanted, and how many scenes
/// passed and failed.
pub(crate) struct Report {
    pub text: Text,
    pub cases: u64,
    pub faults: u64,
    pub passed: u64,
    pub failed: u64,
}

// Written out, since a caller's proof goes through the parts of a derived drop at each way out.
impl Drop for Report {
    fn drop(self) {
        let Report {
            text: _,
            cases: _,
            faults: _,
            passed: _,
            failed: _,
        } = self;
    }
}

impl Report {
    pub(crate) fn new(alloc: Global) -> Report {
        Report {
            text: Text::new(alloc),
            cases: 0,
            faults: 0,
            passed: 0,
            failed: 0,
        }
    }

    /// Counts something that is compared.
    pub(crate) fn count(&mut self, cases: usize) {
        self.cases = self.cases.saturating_add(cases as u64);
    }

    /// Tells what is not as wanted.
    pub(crate) fn fail(
        &mut self,
        spot: Spot,
        line: u32,
        wanted: &[u8],
        came: &[u8],
    ) -> Result<(), NoMemory> {
        self.faults = self.faults.saturating_add(1);
        self.begin(spot, line)?;
        self.text.extend(b"wanted ")?;
        show(&mut self.text, wanted)?;
        self.text.extend(b", came ")?;
        show(&mut self.text, came)?;
        self.text.push(b'\n')
    }

    fn begin(&mut self, spot: Spot, line: u32) -> Result<(), NoMemory> {
        self.place(spot.file, line)?;
        self.text.extend(spot.scene)?;
        if !spot.play.is_empty() {
            self.text.extend(b" (")?;
            self.text.extend(spot.play)?;
            self.text.push(b')')?;
        }
        self.text.extend(b": ")
    }

    fn place(&mut self, file: &[u8], line: u32) -> Result<(), NoMemory> {
        self.text.extend(file)?;
        self.text.push(b':')?;
        put_number(&mut self.text, u64::from(line))?;
        self.text.extend(b": ")
    }

    /// Tells that a scene file is refused, which counts as a scene that failed.
    pub(crate) fn refuse(&mut self, file: &[u8], line: u32, why: &str) -> Result<(), NoMemory> {
        self.failed = self.failed.saturating_add(1);
        self.place(file, line)?;
        self.text.extend(why.as_bytes())?;
        self.text.push(b'\n')
    }

    /// Tells the counts.
    pub(crate) fn end(&mut self) -> Result<(), NoMemory> {
        put_number(&mut self.text, self.cases)?;
        self.text.extend(b" cases compared\n")?;
        put_number(&mut self.text, self.passed)?;
        self.text.extend(b" passed, ")?;
        put_number(&mut self.text, self.failed)?;
        self.text.extend(b" failed\n")
    }
}

// Adds bytes between quotes as they are written in scenes, the front alone of many.
fn show(text: &mut Text, bytes: &[u8]) -> Result<(), NoMemory> {
    text.push(b'`')?;
    let front = bytes.get(..MOST_SHOWN).unwrap_or(bytes);
    add_shown(text, front)?;
    if front.len() < bytes.len() {
        text.extend(b"..")?;
    }
    text.push(b'`')
}

/// Adds bytes as they are written in scenes.
pub(crate) fn add_shown(text: &mut Text, bytes: &[u8]) -> Result<(), NoMemory> {
    for byte in bytes {
        match *byte {
            b'\n' => text.extend(b"\\n")?,
            b'\r' => text.extend(b"\\r")?,
            b'\t' => text.extend(b"\\t")?,
            b'\\' => text.extend(b"\\\\")?,
            b' '..=b'~' => text.push(*byte)?,
            _ => add_code(text, *byte)?,
        }
    }
    Ok(())
}

fn add_code(text: &mut Text, byte: u8) -> Result<(), NoMemory> {
    text.extend(b"\\x")?;
    text.push(digit(byte / 16))?;
    text.push(digit(byte % 16))
}

fn digit(number: u8) -> u8 {
    match number {
        0..=9 => b'0' + number,
        _ => b'a' + (number % 16).saturating_sub(10),
    }
}
