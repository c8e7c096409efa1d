//! The line on standard error that says how a run ended, as the program writes it behind its name.

use mail_base::{NoMemory, RouteError, Text};
use scene_text::put_number;
use sendmail_run::Outcome;
use std::alloc::Global;

/// The line, without the program's name; nothing for one that is done.
pub(crate) fn told_of(alloc: Global, outcome: &Outcome) -> Result<Text, NoMemory> {
    let mut text = Text::new(alloc);
    match outcome {
        Outcome::Usage(place) => add_number(&mut text, b"bad word ", u64::from(*place))?,
        Outcome::NoFile(name) => add_name(&mut text, b"no file ", name)?,
        Outcome::AliasLine(name, line) => add_alias(&mut text, name, *line)?,
        Outcome::ConfigLine(line, fault) => {
            let fault = format!(in alloc; ": {fault}")?;
            add_number(&mut text, b"configuration line ", u64::from(*line))?;
            text.extend(fault.as_bytes())?;
        }
        Outcome::MessageRefused(code) => {
            add_number(&mut text, b"message refused: ", u64::from(*code))?;
        }
        Outcome::BadRecipient(number, error) => add_refused(&mut text, *number, error)?,
        _ => text.extend(plain(outcome).as_bytes())?,
    }
    Ok(text)
}

fn add_number(text: &mut Text, front: &[u8], number: u64) -> Result<(), NoMemory> {
    text.extend(front)?;
    put_number(text, number)
}

fn add_name(text: &mut Text, front: &[u8], name: &Text) -> Result<(), NoMemory> {
    text.extend(front)?;
    text.extend(name.bytes())
}

fn add_alias(text: &mut Text, name: &Text, line: u32) -> Result<(), NoMemory> {
    text.extend(name.bytes())?;
    add_number(text, b", line ", u64::from(line))?;
    text.extend(b": alias refused")
}

fn add_refused(text: &mut Text, number: u64, error: &RouteError) -> Result<(), NoMemory> {
    add_number(text, b"recipient ", number)?;
    add_number(text, b" refused: ", u64::from(error.code))?;
    text.extend(b" ")?;
    text.extend(error.status.bytes())?;
    text.extend(b" ")?;
    text.extend(error.text.bytes())
}

fn plain(outcome: &Outcome) -> &'static str {
    match outcome {
        Outcome::NoMemory => "no memory",
        Outcome::FilesFault => "files fault",
        Outcome::WriteFault => "write fault",
        Outcome::ReadFault => "read fault",
        Outcome::InputLarge => "input too large",
        Outcome::FloorFault => "floor fault",
        Outcome::TurnsSpent(_) => "turns spent",
        Outcome::SpoolFault => "spool fault",
        Outcome::IdsSpent => "ids spent",
        Outcome::NoRecipient => "no recipient",
        _ => "",
    }
}
