//! Plays scenes: files that are named on standard input, one a line. With the words `-v NAME` only
//! the scene of that name, and shows how it went. The document SCENES says how they are written.
#![tactic(auto)]

mod came;
mod chance;
mod children;
mod devices;
mod failing;
mod files;
mod judging;
mod judging_files;
mod judging_replies;
mod keeping;
mod manner;
mod party;
mod peers;
mod place;
mod playing;
mod plot;
mod report;
mod running;
mod showing;
mod source;
mod stopped;
mod told;
mod watch;

use crate::files::DiskFiles;
use crate::playing::{Halt, play};
use crate::report::{Report, Spot};
use crate::showing::show_scene;
use mail_base::{NoMemory, Text};
use mail_edge::Files;
use scene_text::{Bad, Refusal, Scene, expanded, scenes_of};
use std::alloc::Global;
use std::env;
use std::io::{Read, Write};
use std::process::ExitCode;

fn main(rt: HostRuntime) -> ExitCode {
    let mut report = Report::new(rt.alloc());
    let went = play_all(&rt, &mut report);
    let written = rt.stdout().write_all(report.text.bytes());
    match went {
        Ok(()) if written.is_ok() && report.failed == 0 => ExitCode::SUCCESS,
        _ => ExitCode::FAILURE,
    }
}

// Plays the scenes of all files that are named.
fn play_all(rt: &HostRuntime, report: &mut Report) -> Result<(), NoMemory> {
    let only = only_scene(rt)?;
    let mut names = Vec::new(rt.alloc());
    if rt.stdin().read_to_end(&mut names).is_err() {
        return Err(NoMemory);
    }
    for name in names.split(|byte| *byte == b'\n') {
        if !name.is_empty() {
            play_file(rt, name, only.as_ref(), report)?;
        }
    }
    report.end()
}

// The scene that the words ask for alone.
fn only_scene(rt: &HostRuntime) -> Result<Option<Text>, NoMemory> {
    let Ok(words) = env::args(rt) else {
        return Err(NoMemory);
    };
    let mut is_asked = false;
    for word in words {
        if is_asked {
            return Ok(Some(Text::of(rt.alloc(), word.as_bytes())?));
        }
        is_asked = word.as_bytes() == b"-v".as_slice();
    }
    Ok(None)
}

fn play_file(
    rt: &HostRuntime,
    file: &[u8],
    only: Option<&Text>,
    report: &mut Report,
) -> Result<(), NoMemory> {
    match scenes_in(rt, file) {
        Ok(scenes) => play_scenes(rt.alloc(), file, &scenes, only, report),
        Err(refusal) => report.refuse(file, refusal.line, refusal.why.text()),
    }
}

fn scenes_in(rt: &HostRuntime, file: &[u8]) -> Result<Vec<Scene>, Refusal> {
    let bytes = match bytes_of(rt, file) {
        Ok(bytes) => bytes,
        Err(why) => return Err(Refusal { line: 0, why }),
    };
    let lines = expanded(rt.alloc(), bytes.bytes())?;
    let mut files = DiskFiles::new(rt);
    scenes_of(rt.alloc(), &mut files, folder_of(file), &lines)
}

fn bytes_of(rt: &HostRuntime, file: &[u8]) -> Result<Text, Bad> {
    let name = Text::of(rt.alloc(), file)?;
    match DiskFiles::new(rt).read(rt.alloc(), &name)? {
        Some(bytes) => Ok(bytes),
        None => Err(Bad::NoFile),
    }
}

// The folder of a file, with its slash.
fn folder_of(file: &[u8]) -> &[u8] {
    match file.iter().rposition(|byte| *byte == b'/') {
        Some(at) => file.get(..at.saturating_add(1)).unwrap_or(&[]),
        None => &[],
    }
}

fn play_scenes(
    alloc: Global,
    file: &[u8],
    scenes: &[Scene],
    only: Option<&Text>,
    report: &mut Report,
) -> Result<(), NoMemory> {
    for scene in scenes {
        let spot = Spot {
            file,
            scene: scene.name.bytes(),
            play: b"",
        };
        match only {
            None => play_one(alloc, spot, scene, report)?,
            Some(name) if name.bytes() == scene.name.bytes() => {
                play_one(alloc, spot, scene, report)?;
                show(alloc, file, scene, report)?;
            }
            Some(_) => {}
        }
    }
    Ok(())
}

fn play_one(alloc: Global, spot: Spot, scene: &Scene, report: &mut Report) -> Result<(), NoMemory> {
    match play(alloc, spot, scene, report) {
        Ok(()) => Ok(()),
        Err(halt) => halted(spot.file, scene, halt, report),
    }
}

fn show(alloc: Global, file: &[u8], scene: &Scene, report: &mut Report) -> Result<(), NoMemory> {
    match show_scene(alloc, scene, report) {
        Ok(()) => Ok(()),
        Err(halt) => halted(file, scene, halt, report),
    }
}

// Tells that a scene can't be played.
fn halted(file: &[u8], scene: &Scene, halt: Halt, report: &mut Report) -> Result<(), NoMemory> {
    let line = if halt.line == 0 {
        scene.line
    } else {
        halt.line
    };
    report.refuse(file, line, halt.why.text())
}
