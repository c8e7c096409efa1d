//! What a scene takes over of another one, or of the run before.

use crate::word::Kind;
use crate::{Bad, Item, Run, Scene, Word};
use mail_base::NoMemory;
use std::alloc::Global;

/// Adds an item to a run, in the place of those that it took over and that this one stands for.
pub(crate) fn add_item(run: &mut Run, item: Item) -> Result<(), Bad> {
    if !item.taken {
        let name = item.name.bytes();
        if has_second(run, item.word, name) {
            return Err(Bad::Twice);
        }
        take_away(run, item.word, Some(name));
    }
    Ok(push(run, item)?)
}

fn push(run: &mut Run, item: Item) -> Result<(), NoMemory> {
    run.items.push(item)?;
    Ok(())
}

fn has_second(run: &Run, word: Word, name: &[u8]) -> bool {
    for item in run.items.as_slice() {
        if is_second(item, word, name) {
            return true;
        }
    }
    false
}

// Whether an item was said before by the same run, though it may be said once only.
fn is_second(item: &Item, word: Word, name: &[u8]) -> bool {
    if item.taken || item.word != word {
        return false;
    }
    match word.kind() {
        Kind::Single => true,
        Kind::Named => item.name.bytes() == name,
        _ => false,
    }
}

/// Takes away what was taken over and gives way to an item of that word, and of that name, if one
/// is named.
pub(crate) fn take_away(run: &mut Run, word: Word, name: Option<&[u8]>) {
    run.items.retain(|other| !is_replaced(other, word, name));
}

fn is_replaced(item: &Item, word: Word, name: Option<&[u8]>) -> bool {
    if !item.taken {
        return false;
    }
    match word.kind() {
        Kind::Single => item.word == word,
        Kind::Named => item.word == word && is_named(item, name),
        Kind::Transcript => is_of_transcript(item.word.kind()),
        Kind::Replies => item.word.kind() == Kind::Replies,
        Kind::Wants => item.word.kind() == Kind::Wants,
    }
}

fn is_of_transcript(kind: Kind) -> bool {
    kind == Kind::Transcript || kind == Kind::Replies
}

fn is_named(item: &Item, name: Option<&[u8]>) -> bool {
    match name {
        Some(name) => item.name.bytes() == name,
        None => true,
    }
}

/// What a run takes over of another one.
#[derive(Clone, Copy)]
pub(crate) enum Part {
    All,
    AllButHeld,
    /// What a further run keeps.
    Stays,
}

impl Part {
    fn has(self, word: Word) -> bool {
        match self {
            Part::All => true,
            Part::AllButHeld => word != Word::Held,
            Part::Stays => word.stays(),
        }
    }
}

/// A run that takes over a part of another one.
pub(crate) fn taken_over(alloc: Global, from: &Run, part: Part) -> Result<Run, NoMemory> {
    let mut run = Run {
        items: Vec::new(alloc),
    };
    for item in from.items.as_slice() {
        if part.has(item.word) {
            add_copy(&mut run, item)?;
        }
    }
    Ok(run)
}

fn add_copy(run: &mut Run, item: &Item) -> Result<(), NoMemory> {
    push(run, item.taken_over()?)
}

/// The scene of that name.
pub(crate) fn scene_named<'a>(scenes: &'a [Scene], name: &[u8]) -> Option<&'a Scene> {
    for scene in scenes {
        if scene.name.bytes() == name {
            return Some(scene);
        }
    }
    None
}
