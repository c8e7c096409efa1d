//! Each scene stopped after each number of changing calls and inside each: every image is opened,
//! and opened again, and has the files of before the command that was stopped or those of after it.

use crate::commands::Command;
use crate::runs::{are_same, files_after, opened_files, run, spool_of};
use crate::scenes::{SCENES, scene};
use mail_base::{Seq, StoreFault};
use spool_disk::{File, MemSpool, StopSpool};
use std::alloc::Global;

/// What may be there after a stop.
#[derive(Drop)]
struct Sides {
    before: Seq<File>,
    after: Seq<File>,
}

fn list_of(files: Option<Seq<File>>) -> Result<Seq<File>, StoreFault> {
    match files {
        Some(files) => Ok(files),
        None => Err(StoreFault::SpoolFault),
    }
}

// The files before and after the command behind so many of them, or twice those after the last.
fn sides_of(alloc: Global, commands: &[Command], done: usize) -> Result<Sides, StoreFault> {
    let next = done.saturating_add(1).min(commands.len());
    Ok(Sides {
        before: list_of(files_after(alloc, front(commands, done))?)?,
        after: list_of(files_after(alloc, front(commands, next))?)?,
    })
}

/// The first of these commands.
pub(crate) fn front(commands: &[Command], count: usize) -> &[Command] {
    match commands.get(..count) {
        Some(front) => front,
        None => commands,
    }
}

// The files of an image that is opened, and opened again, if these are the same.
fn opened_twice(alloc: Global, image: &mut MemSpool) -> Result<Seq<File>, StoreFault> {
    let first = list_of(opened_files(alloc, image)?)?;
    let second = list_of(opened_files(alloc, image)?)?;
    if are_same(&first, &second) {
        return Ok(first);
    }
    Err(StoreFault::SpoolFault)
}

fn is_right(alloc: Global, image: &mut MemSpool, sides: &Sides) -> Result<bool, StoreFault> {
    let files = opened_twice(alloc, image)?;
    Ok(are_same(&files, &sides.before) || are_same(&files, &sides.after))
}

fn all_right(alloc: Global, spool: &StopSpool, sides: &Sides) -> Result<bool, StoreFault> {
    for mut image in spool.images()?.into_vec() {
        if !is_right(alloc, &mut image, sides)? {
            return Ok(false);
        }
    }
    Ok(true)
}

// How many commands are done before a stop after so many calls, if each image is right.
fn stopped(alloc: Global, commands: &[Command], passes: u64) -> Result<Option<usize>, StoreFault> {
    let mut spool = spool_of(alloc, passes);
    let done = run(alloc, &mut spool, commands);
    let sides = sides_of(alloc, commands, done)?;
    if all_right(alloc, &spool, &sides)? {
        return Ok(Some(done));
    }
    Ok(None)
}

// The first number of calls after which an image isn't right.
fn wrong_passes(alloc: Global, commands: &[Command]) -> Result<Option<u64>, StoreFault> {
    for passes in 0..100u64 {
        match stopped(alloc, commands, passes)? {
            Some(done) => {
                if done == commands.len() {
                    return Ok(None);
                }
            }
            None => return Ok(Some(passes)),
        }
    }
    Ok(Some(100))
}

#[test]
fn a_stopped_command_leaves_the_table_before_or_after(rt: HostRuntime) {
    for number in 0..SCENES {
        let wrong = wrong_passes(rt.alloc(), scene(number));
        assert_eq!(rt; wrong, Ok(None), "scene {number}");
    }
}
