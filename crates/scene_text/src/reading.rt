//! The scenes that lines say.

use crate::items::{Beside, Form, fill, form_of, play_of, text_of};
use crate::taking::{Part, add_item, scene_named, take_away, taken_over};
use crate::text::{add_text, first_word};
use crate::{Bad, Item, Line, Refusal, Run, Scene, Word, expanded};
use mail_base::{NoMemory, Seq, Text};
use mail_edge::Files;
use std::alloc::Global;

/// What the clock reads first where a run says nothing.
pub const FIRST_READING: u64 = 1_767_225_600;

/// The scenes of a file that is written out, over the files that stand beside it in a folder, whose
/// name ends in a slash or is empty.
pub fn scenes_of<F: Files>(
    alloc: Global,
    files: &mut F,
    folder: &[u8],
    lines: &Seq<Line>,
) -> Result<Vec<Scene>, Refusal> {
    let mut scenes = Vec::new(alloc);
    for line in lines.items() {
        if let Err(why) = take_line(files, folder, &mut scenes, line) {
            return Err(Refusal {
                line: line.number,
                why,
            });
        }
    }
    Ok(scenes)
}

fn take_line<F: Files>(
    files: &mut F,
    folder: &[u8],
    scenes: &mut Vec<Scene>,
    line: &Line,
) -> Result<(), Bad> {
    match line.text.bytes() {
        [b'|', text @ ..] => add_body(scenes, text),
        [b'>', text @ ..] => say(scenes, Word::Say, line.number, text),
        [b'<', text @ ..] => say(scenes, Word::Told, line.number, text),
        _ => take_word(files, folder, scenes, line),
    }
}

fn last(scenes: &mut Vec<Scene>) -> Result<&mut Scene, Bad> {
    scenes.last_mut().ok_or(Bad::NoScene)
}

fn last_run(scene: &mut Scene) -> Result<&mut Run, Bad> {
    scene.runs.last_mut().ok_or(Bad::NoScene)
}

// What stands behind a mark: nothing, or a blank and the text.
fn marked(text: &[u8]) -> Result<&[u8], Bad> {
    match text {
        [] => Ok(&[]),
        [b' ', text @ ..] => Ok(text),
        _ => Err(Bad::Unknown),
    }
}

// A line's text, and whether its end is left out.
fn ended(text: &[u8]) -> (&[u8], bool) {
    let Some(front) = text.strip_suffix(b"\\".as_slice()) else {
        return (text, false);
    };
    let mut is_cut = true;
    for byte in front.iter().rev() {
        if *byte != b'\\' {
            break;
        }
        is_cut = !is_cut;
    }
    if is_cut { (front, true) } else { (text, false) }
}

// Adds a line to the bytes of the last item.
fn add_body(scenes: &mut Vec<Scene>, text: &[u8]) -> Result<(), Bad> {
    let scene = last(scenes)?;
    if !scene.is_open {
        return Err(Bad::NotOpen);
    }
    add_listed_body(last_run(scene)?, text)
}

// A line of a transcript.
fn say(scenes: &mut Vec<Scene>, word: Word, number: u32, text: &[u8]) -> Result<(), Bad> {
    let scene = last(scenes)?;
    let (text, is_cut) = ended(marked(text)?);
    let run = last_run(scene)?;
    let mut item = Item::new(*run.items.allocator(), word, number);
    item.cut = is_cut;
    add_text(&mut item.name, text)?;
    if word == Word::Told {
        list(run, &mut item);
    }
    add_item(run, item)?;
    scene.is_open = false;
    scene.is_new = false;
    Ok(())
}

// Makes a line that has to come back one of those below `replies`, where it stands there.
fn list(run: &Run, item: &mut Item) {
    if let Some(before) = run.items.last() {
        if !before.taken && (before.word == Word::Replies || before.word == Word::Listed) {
            item.word = Word::Listed;
            item.session = before.session;
        }
    }
}

fn take_word<F: Files>(
    files: &mut F,
    folder: &[u8],
    scenes: &mut Vec<Scene>,
    line: &Line,
) -> Result<(), Bad> {
    let (word, rest) = first_word(line.text.bytes());
    match form_of(word)? {
        Form::Scene => begin(scenes, line.number, rest),
        Form::Like => begin_like(scenes, rest),
        Form::Then => go_on(scenes, rest),
        form => say_in(files, folder, last(scenes)?, form, line.number, rest),
    }
}

// What a word says in a scene.
fn say_in<F: Files>(
    files: &mut F,
    folder: &[u8],
    scene: &mut Scene,
    form: Form,
    number: u32,
    rest: &[u8],
) -> Result<(), Bad> {
    scene.is_open = false;
    scene.is_new = false;
    match form {
        Form::No => leave_out(scene, rest),
        Form::Files => add_files(files, folder, scene, rest),
        Form::Item(word, beside) => {
            let mut item = Item::new(*scene.runs.allocator(), word, number);
            complete(files, folder, scene, &mut item, beside, rest)?;
            add_item(last_run(scene)?, item)
        }
        _ => add_play(scene, rest),
    }
}

fn add_play(scene: &mut Scene, rest: &[u8]) -> Result<(), Bad> {
    let play = play_of(rest)?;
    scene.plays.push(play).map_err(NoMemory::from)?;
    Ok(())
}

// Fills an item of a scene that has nothing but its word.
fn complete<F: Files>(
    files: &mut F,
    folder: &[u8],
    scene: &mut Scene,
    item: &mut Item,
    beside: Beside,
    rest: &[u8],
) -> Result<(), Bad> {
    fill(item, beside, rest)?;
    scene.is_open = item.word.takes_lines();
    if item.word == Word::Config && !item.name.is_empty() {
        scene.is_open = false;
        item.body = bytes_beside(files, folder, &item.name, b".cf")?;
    }
    if item.word == Word::Clock && !item.beside.is_empty() {
        set_later(last_run(scene)?, item);
    }
    Ok(())
}

// Makes a clock that is later than the one that was taken over a clock of its own.
fn set_later(run: &Run, item: &mut Item) {
    let mut start = FIRST_READING;
    for before in run.items.as_slice() {
        if before.word == Word::Clock {
            start = before.number;
            item.seconds = before.seconds;
            break;
        }
    }
    item.number = start.saturating_add(item.number);
    item.beside.clear();
}

fn begin(scenes: &mut Vec<Scene>, line: u32, name: &[u8]) -> Result<(), Bad> {
    if name.is_empty() {
        return Err(Bad::Name);
    }
    if scene_named(scenes, name).is_some() {
        return Err(Bad::Twice);
    }
    let alloc = *scenes.allocator();
    let scene = scene_of(alloc, line, name)?;
    scenes.push(scene).map_err(NoMemory::from)?;
    Ok(())
}

fn scene_of(alloc: Global, line: u32, name: &[u8]) -> Result<Scene, NoMemory> {
    let mut runs = Vec::new(alloc);
    runs.push(Run {
        items: Vec::new(alloc),
    })?;
    Ok(Scene {
        name: Text::of(alloc, name)?,
        line,
        runs,
        plays: Vec::new(alloc),
        is_open: false,
        is_new: true,
    })
}

fn begin_like(scenes: &mut Vec<Scene>, name: &[u8]) -> Result<(), Bad> {
    let run = taken_over(*scenes.allocator(), first_run(scenes, name)?, Part::All)?;
    let scene = last(scenes)?;
    if !scene.is_new {
        return Err(Bad::NoLike);
    }
    scene.is_new = false;
    scene.runs.clear();
    scene.runs.push(run).map_err(NoMemory::from)?;
    Ok(())
}

// The first run of the scene of that name.
fn first_run<'a>(scenes: &'a [Scene], name: &[u8]) -> Result<&'a Run, Bad> {
    let scene = scene_named(scenes, name).ok_or(Bad::NoLike)?;
    scene.runs.first().ok_or(Bad::NoLike)
}

// A further run.
fn go_on(scenes: &mut Vec<Scene>, rest: &[u8]) -> Result<(), Bad> {
    let (from, part) = kept_by(scenes, rest)?;
    let run = taken_over(*scenes.allocator(), from, part)?;
    let scene = last(scenes)?;
    scene.is_open = false;
    scene.is_new = false;
    scene.runs.push(run).map_err(NoMemory::from)?;
    Ok(())
}

// What a further run takes over, and of which.
fn kept_by<'a>(scenes: &'a [Scene], rest: &[u8]) -> Result<(&'a Run, Part), Bad> {
    let scene = scenes.last().ok_or(Bad::NoScene)?;
    if let Some(name) = rest.strip_prefix(b"like ".as_slice()) {
        return Ok((first_run(scenes, name)?, Part::AllButHeld));
    }
    if !rest.is_empty() {
        return Err(Bad::Name);
    }
    Ok((scene.runs.last().ok_or(Bad::NoScene)?, Part::Stays))
}

// `no held`, or `no file NAME`.
fn leave_out(scene: &mut Scene, rest: &[u8]) -> Result<(), Bad> {
    let run = last_run(scene)?;
    if rest == b"held".as_slice() {
        take_away(run, Word::Held, None);
        return Ok(());
    }
    let name = rest.strip_prefix(b"file ".as_slice()).ok_or(Bad::Name)?;
    let name = text_of(*run.items.allocator(), name)?;
    take_away(run, Word::File, Some(name.bytes()));
    Ok(())
}

// The bytes of a file in a folder.
fn bytes_beside<F: Files>(
    files: &mut F,
    folder: &[u8],
    name: &Text,
    end: &[u8],
) -> Result<Text, Bad> {
    let mut path = Text::new(name.allocator());
    put_path(&mut path, folder, name.bytes(), end)?;
    match files.read(name.allocator(), &path)? {
        Some(bytes) => Ok(bytes),
        None => Err(Bad::NoFile),
    }
}

fn put_path(path: &mut Text, folder: &[u8], name: &[u8], end: &[u8]) -> Result<(), NoMemory> {
    path.extend(folder)?;
    path.extend(name)?;
    path.extend(end)
}

// Adds the files of a list that stands beside it.
fn add_files<F: Files>(
    files: &mut F,
    folder: &[u8],
    scene: &mut Scene,
    name: &[u8],
) -> Result<(), Bad> {
    let run = last_run(scene)?;
    let name = Text::of(*run.items.allocator(), name)?;
    let bytes = bytes_beside(files, folder, &name, b".files")?;
    match expanded(bytes.allocator(), bytes.bytes()) {
        Ok(lines) => add_listed(run, &lines),
        Err(refusal) => Err(refusal.why),
    }
}

// Adds the files of lines, as ones that were taken over.
fn add_listed(run: &mut Run, lines: &Seq<Line>) -> Result<(), Bad> {
    for line in lines.items() {
        add_listed_line(run, line)?;
    }
    Ok(())
}

fn add_listed_line(run: &mut Run, line: &Line) -> Result<(), Bad> {
    let text = line.text.bytes();
    if let Some(text) = text.strip_prefix(b"|".as_slice()) {
        return add_listed_body(run, text);
    }
    match text.strip_prefix(b"file ".as_slice()) {
        Some(name) => add_listed_file(run, line.number, name),
        None => Err(Bad::Unknown),
    }
}

// Such a file stands in the place of one that was taken over, and is taken over itself.
fn add_listed_file(run: &mut Run, number: u32, name: &[u8]) -> Result<(), Bad> {
    let mut item = Item::new(*run.items.allocator(), Word::File, number);
    item.taken = true;
    add_text(&mut item.name, name)?;
    take_away(run, Word::File, Some(item.name.bytes()));
    add_item(run, item)
}

fn add_listed_body(run: &mut Run, text: &[u8]) -> Result<(), Bad> {
    let item = run.items.last_mut().ok_or(Bad::NotOpen)?;
    add_line(&mut item.body, text)
}

// Adds a `|` line to bytes.
fn add_line(body: &mut Text, text: &[u8]) -> Result<(), Bad> {
    let (text, is_cut) = ended(marked(text)?);
    add_text(body, text)?;
    if !is_cut {
        body.push(b'\n')?;
    }
    Ok(())
}
