// Long files, so that a scan which isn't linear shows.
use crate::listed::outcome_of;
use alias_expand::Aliases;
use mail_base::{NoMemory, Text};
use std::alloc::Global;

const LINES: u32 = 100_000;

// The names n0 and on, each with a member `m`.
fn long_file(alloc: Global) -> Result<Text, NoMemory> {
    let mut text = Text::new(alloc);
    for number in 0..LINES {
        let line = format!(in alloc; "n{number}: m\n")?;
        text.extend(line.as_bytes())?;
    }
    Ok(text)
}

// One name with a member in each of its lines.
fn long_list(alloc: Global) -> Result<Text, NoMemory> {
    let mut text = Text::of(alloc, b"l: m")?;
    for _ in 0..LINES {
        text.extend(b",\n\tm")?;
    }
    Ok(text)
}

fn has_name(aliases: &Aliases, alloc: Global, number: u32) -> Result<bool, NoMemory> {
    let name = format!(in alloc; "N{number}")?;
    Ok(
        aliases
            .members(&Text::of(alloc, name.as_bytes())?)
            .is_some(),
    )
}

fn are_found(alloc: Global) -> Result<bool, NoMemory> {
    let mut aliases = Aliases::new(alloc);
    let done = outcome_of(&mut aliases, &long_file(alloc)?);
    Ok(
        done == Some(0)
            && has_name(&aliases, alloc, LINES - 1) == Ok(true)
            && has_name(&aliases, alloc, LINES) == Ok(false),
    )
}

fn is_last_refused(alloc: Global) -> Result<bool, NoMemory> {
    let mut text = long_file(alloc)?;
    text.extend(b"x\n")?;
    Ok(outcome_of(&mut Aliases::new(alloc), &text) == Some(LINES + 1))
}

fn count(aliases: &Aliases, name: &Text) -> usize {
    match aliases.members(name) {
        Some(members) => members.len(),
        None => 0,
    }
}

fn is_list_whole(alloc: Global) -> Result<bool, NoMemory> {
    let name = Text::of(alloc, b"l")?;
    let mut aliases = Aliases::new(alloc);
    let done = outcome_of(&mut aliases, &long_list(alloc)?);
    Ok(done == Some(0) && count(&aliases, &name) == LINES as usize + 1)
}

#[test]
fn many_names_are_found_many_lines_counted_and_long_lists_whole(rt: HostRuntime) {
    assert!(rt; are_found(rt.alloc()) == Ok(true));
    assert!(rt; is_last_refused(rt.alloc()) == Ok(true));
    assert!(rt; is_list_whole(rt.alloc()) == Ok(true));
}
