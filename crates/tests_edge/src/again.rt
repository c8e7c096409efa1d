// What a device did, held against a device that doesn't lack memory and whose failing calls are
// those that failed: a call that finds no memory goes as one that is listed.
use mail_base::{NoMemory, Seq, Text};
use std::alloc::Global;

pub fn calls(alloc: Global, numbers: &[u64]) -> Result<Seq<u64>, NoMemory> {
    Ok(Seq::from_vec(Vec::from_slice(alloc, numbers)?))
}

// Adds these bytes, one after the other.
pub fn add(text: &mut Text, parts: &[&[u8]]) -> Result<(), NoMemory> {
    for part in parts {
        text.extend(part)?;
    }
    Ok(())
}

// A number as a digit.
pub fn digit(number: u64) -> [u8; 1] {
    [b'0' + (number % 10) as u8]
}

// A line's or a session's number as a digit, and what is said of it.
pub fn write_mark(text: &mut Text, number: u64, mark: &[u8], bytes: &[u8]) -> Result<(), NoMemory> {
    add(text, &[&digit(number), mark, bytes, b" "])
}

// How acts went, a word each, and which calls failed.
#[derive(Drop)]
pub struct Course {
    pub text: Text,
    pub failed: Seq<u64>,
}

impl Course {
    pub fn new(alloc: Global) -> Course {
        Course {
            text: Text::new(alloc),
            failed: Seq::new(alloc),
        }
    }

    // Adds that call to those that failed, where the last word says so.
    pub fn note(&mut self, call: u64) -> Result<(), NoMemory> {
        if self.text.bytes().ends_with(b"fail ") {
            self.failed.push(call)?;
        }
        Ok(())
    }
}

// How many of the calls that failed aren't listed.
pub fn unlisted(failed: &Seq<u64>, listed: &[u64]) -> u64 {
    let mut count = 0u64;
    for call in failed.items() {
        if !listed.contains(call) {
            count = count.saturating_add(1);
        }
    }
    count
}

// How many words with a ! in front were left out of what was told, where that is the same else.
pub fn left_out(told: &Text, whole: &Text) -> Option<u64> {
    let mut rest = told.bytes();
    let mut count = 0u64;
    for word in whole.bytes().split_inclusive(|byte| *byte == b' ') {
        match rest.strip_prefix(word) {
            Some(behind) => rest = behind,
            None if word.starts_with(b"!") => count = count.saturating_add(1),
            None => return None,
        }
    }
    if rest.is_empty() { Some(count) } else { None }
}

// A device whose calls fail where they are listed, or find no memory.
pub trait Device {
    // How many calls failed, and how many of these weren't listed.
    fn counts(&self) -> (u64, u64);

    // How many failed calls were told, and how many weren't.
    fn failures(&self) -> (u64, u64);

    // What it told, a word for each event.
    fn told(&self, alloc: Global) -> Result<Text, NoMemory>;
}

// How a device goes by its failing calls: how each act went, what it told, and how many calls
// failed.
pub struct Way {
    pub failing: &'static [u64],
    pub went: &'static [u8],
    pub told: &'static [u8],
    pub faults: u64,
}

// A row, by which a device is made and played.
pub trait Scene<D> {
    fn way(&self) -> &Way;

    fn device(&self, alloc: Global, failing: &[u64]) -> Result<D, NoMemory>;

    // Does the acts, and adds how they went.
    fn play(&self, device: &mut D, went: &mut Course) -> Result<(), NoMemory>;
}

// Whether a device told what one told that lacked no memory, but for the calls that it only counts.
fn is_retold<D: Device>(alloc: Global, device: &D, listed: &D) -> Result<bool, NoMemory> {
    let (_faults, starved) = listed.counts();
    let (_told, missed) = listed.failures();
    if starved > 0 || missed > 0 {
        return Err(NoMemory);
    }
    let whole = listed.told(alloc)?;
    let told = device.told(alloc)?;
    let (_shown, hidden) = device.failures();
    Ok(left_out(&told, &whole) == Some(hidden))
}

fn is_whole<D: Device>(
    alloc: Global,
    way: &Way,
    device: &D,
    went: &Course,
) -> Result<bool, NoMemory> {
    let told = device.told(alloc)?;
    let (faults, _starved) = device.counts();
    Ok(went.text.bytes() == way.went && told.bytes() == way.told && faults == way.faults)
}

fn is_repeated<D: Device + Drop, S: Scene<D>>(
    alloc: Global,
    scene: &S,
    device: &D,
    first: &Course,
) -> Result<bool, NoMemory> {
    let mut listed = scene.device(alloc, first.failed.items())?;
    let mut again = Course::new(alloc);
    scene.play(&mut listed, &mut again)?;
    Ok(
        is_retold(alloc, device, &listed)?
            && again.text == first.text
            && listed.counts().0 == device.counts().0,
    )
}

// Where memory wasn't wanting, all is as the row has it. Where it was, each failed call is told or
// counted all the same, and all is as where those calls are listed.
fn is_played<D: Device + Drop, S: Scene<D>>(
    alloc: Global,
    scene: &S,
    device: &mut D,
    went: &mut Course,
) -> Result<bool, NoMemory> {
    scene.play(device, went)?;
    let way = scene.way();
    let (faults, starved) = device.counts();
    let (shown, hidden) = device.failures();
    Ok(
        shown.saturating_add(hidden) == faults
            && starved == unlisted(&went.failed, way.failing)
            && (starved > 0 || hidden > 0 || is_whole(alloc, way, device, went)?)
            && is_repeated(alloc, scene, device, went)?,
    )
}

// Whether a row's device goes as it says.
pub fn plays<D: Device + Drop, S: Scene<D>>(alloc: Global, scene: &S) -> Result<bool, NoMemory> {
    let mut device = scene.device(alloc, scene.way().failing)?;
    let mut went = Course::new(alloc);
    is_played(alloc, scene, &mut device, &mut went)
}
