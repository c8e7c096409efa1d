//! Reads a configuration of so many lines, or one of a file, where a path is given, and counts its
//! warnings. `kept` reads it too, and keeps it. The file that F lines name has two words, and each
//! other is absent.

ghost use Rattle.std.specs.Prelude.{◌<◌, ◌^◌, length};

use crate::names::add;
use anyhow::{Result, bail, ensure};
use cf_reader::read;
use mail_base::{Config, NoMemory, Seq, Text};
use mail_edge::SureFiles;
use std::alloc::Global;
use std::{fs, mem, rt};

/// What becomes of a configuration that was read.
#[derive(Clone, Copy)]
pub(crate) enum Then {
    /// Its memory is given back.
    Drops,
    /// It stays to the end of the program, as that of a real run does.
    Keeps,
}

pub(crate) fn warnings<R: rt::Files + Alloc<A = Global>>(
    rt: &R,
    over: &str,
    rounds: u32,
    then: Then,
) -> Result<u64> {
    let text = text_of(rt, over)?;
    ensure!(text.len() < 1 << 32, "a large configuration");
    read_often(rt.alloc(), &text, rounds, then)
}

fn text_of<R: rt::Files + Alloc<A = Global>>(rt: &R, over: &str) -> Result<Text> {
    if over.starts_with('/') {
        return Ok(Text::from_vec(fs::read(rt, over)?));
    }
    Ok(lines(rt.alloc(), over.parse()?)?)
}

/// The number of the first line: all have seven digits, so that twice the lines are twice the bytes.
const FIRST: u32 = 1_000_008;

/// Lines of all letters, each of them with a name of its own.
fn lines(alloc: Global, count: u32) -> Result<Text, NoMemory> {
    let mut text = Text::new(alloc);
    for number in FIRST..FIRST.saturating_add(count) {
        add_line(&mut text, number)?;
    }
    Ok(text)
}

fn add_line(text: &mut Text, number: u32) -> Result<(), NoMemory> {
    let (front, back) = around(number % 12);
    add(text, front, number, back)?;
    match number % 12 {
        6 => add(text, " hash -o -a<OK> /etc/mail/map", number, "\n"),
        9 => add(text, ", Path=/q/", number, ", r=100\n"),
        _ => Ok(()),
    }
}

/// What stands before the first number of a line of one of twelve kinds, and behind it.
fn around(kind: u32) -> (&'static str, &'static str) {
    match kind {
        0 => ("Sset", "\n"),
        1 | 2 => ("R$* . name", " < @ $- >\t$@ $1 . $2\tcomment\n"),
        3 => ("D{macro", "}value # of its own\n"),
        4 => ("C{class", "} one two${macro1000011}\n"),
        5 => ("Cw host", ".example\n"),
        6 => ("Kmap", ""),
        7 => ("Kall", " sequence host map1000014\n"),
        8 => ("Mmailer", ", P=/bin/mail, F=lsDFMn,\n\tA=mail -d $u\n"),
        9 => ("Qgroup", ""),
        10 => ("H?P?X-", ": $x\n\tand more\n"),
        _ => ("Pclass", "=-30\n"),
    }
}

fn list(alloc: Global) -> Result<Seq<(Text, Text)>, NoMemory> {
    let name = Text::of(alloc, b"/etc/mail/local-host-names")?;
    let mut files = Seq::new(alloc);
    files.push((name, Text::of(alloc, b"localhost mx.example\n")?))?;
    Ok(files)
}

fn files(alloc: Global) -> Result<SureFiles> {
    match SureFiles::new(list(alloc)?) {
        Some(files) => Ok(files),
        None => bail!("a large file"),
    }
}

fn read_often(alloc: Global, text: &Text, rounds: u32, then: Then) -> Result<u64>
    requires { length text.now < 2 ^ 32 }
{
    let mut count = 0;
    for _ in 0..rounds {
        count = read_once(alloc, text, then)?;
    }
    Ok(count)
}

fn read_once(alloc: Global, text: &Text, then: Then) -> Result<u64>
    requires { length text.now < 2 ^ 32 }
{
    let mut files = files(alloc)?;
    match read(alloc, text, &mut files) {
        Ok(config) => Ok(told(config, then)),
        Err(fault) => bail!("{fault:?}"),
    }
}

fn told(config: Config, then: Then) -> u64 {
    let count = config.warnings.len() as u64;
    match then {
        Then::Drops => {}
        Then::Keeps => mem::forget(config),
    }
    count
}
